//! Turns of the sites of a sector: events, one after another, by the kinetic Monte Carlo rule, and sweeps of trials.
#![tactic(auto)]

mod changes;
mod gather;
mod gathered;
mod mark;
pub mod patch_turns;
mod refresh;
mod slots;
mod sweep;
mod turn;

pub use patch_turns::{turn_kmc, turn_kmc_again, turn_sweep};
pub use spk_sched::Counts;
