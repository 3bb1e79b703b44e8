//! Patches: the sites of a rank with their values, as applications see them.
#![tactic(auto)]

pub mod patch;
mod values;

pub use patch::Patch;
pub use spk_lattice::Cells;
