//! Solvers: they keep a list of propensities, and choose by it.
#![tactic(auto)]

mod flat;
pub mod group;
pub mod linear;
pub mod solver;
pub mod sum_tree;
#[cfg(test)]
mod tests;
pub mod tree;

pub use group::Group;
pub use linear::Linear;
pub use solver::{Chosen, Solver};
pub use sum_tree::SumTree;
pub use tree::Tree;
