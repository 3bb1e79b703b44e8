//! The box of a session.

ghost use Rattle.std.specs.Prelude.{◌≡◌};

use crate::streams::Streams;
use crate::values::Values;
use spk_lattice::Lattice;
use spk_sched::Counts;

/// The box, with its lattice and its sites, which have no values before they are made.
#[derive(Debug, Drop)]
pub struct Domain {
    pub lattice: Lattice,
    /// In ticks.
    pub time: u64,
    pub values: Values,
    pub streams: Streams,
    /// The events since the box was made.
    pub counts: Counts,
    pub sweeps: u64,
}

impl Domain {
    /// How many sweeps there were since the box was made, or 2^64 - 1.
    pub fn sweep_count(&self) -> u64
        ensures { result ≡ self.now.sweeps }
    {
        self.sweeps
    }
}
