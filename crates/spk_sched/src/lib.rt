//! What a run does and when: the boxes of ranks and sectors, the plan of cycles and marks, and the counts of events.
#![tactic(auto)]

pub mod counts;
pub mod dues;
pub mod energy_kind;
pub mod grid;
pub mod letter;
mod part;
pub mod plan;
pub mod run_settings;
pub mod sectors;

pub use counts::Counts;
pub use dues::{Due, Dues};
pub use energy_kind::EnergyKind;
pub use grid::{Grid, GridFault};
pub use letter::Letter;
pub use plan::{Plan, PlanFault};
pub use run_settings::{Cycle, RunSettings};
pub use sectors::Sectors;
pub use spk_num::sweep::Sweep;
