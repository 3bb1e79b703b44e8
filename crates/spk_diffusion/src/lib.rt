//! Diffusion: atoms that hop to vacant sites beside them.
#![tactic(auto)]

pub mod diffusion;
#[cfg(test)]
mod tests;

pub use diffusion::Diffusion;
