//! Ising and Potts: sites whose energy counts the neighbours that have another value.
#![tactic(auto)]

mod energy;
pub mod ising;
pub mod potts;
mod proposal;
#[cfg(test)]
mod tests;

pub use ising::Ising;
pub use potts::Potts;
