//! The settings of a run.

ghost use Rattle.std.specs.Prelude.{◌≡◌, IfOk};

use crate::dues::Dues;
use spk_num::sweep::Sweep;
use std::alloc::{AllocError, Global};

/// How long a cycle is: so many ticks, or so many millionths of the time in which the readiest site has one event on the
/// average.
#[derive(Clone, Copy, Debug, PartialEq, Eq)]
pub enum Cycle {
    Ticks(u64),
    Nstop(u64),
}

/// When a run starts and how long it is, in ticks, and what its plan depends on.
#[derive(Debug, Drop)]
pub struct RunSettings {
    pub start: u64,
    pub length: u64,
    pub cycle: Cycle,
    /// The most that the weights of a site's events add up to, in units of 2^-30.
    pub largest: u64,
    /// How many sectors each cycle goes through.
    pub sectors: u32,
    pub sweep: Option<Sweep>,
    /// Ticks from one line of statistics to the next, and 0 where only the first and the last are written.
    pub stats: u64,
    pub dumps: Dues,
}

impl RunSettings {
    /// The same settings again.
    pub fn copy(&self, alloc: Global) -> Result<RunSettings, AllocError>
        ensures { IfOk result (λ settings. settings ≡ self.now) }
    {
        Ok(RunSettings {
            start: self.start,
            length: self.length,
            cycle: self.cycle,
            largest: self.largest,
            sectors: self.sectors,
            sweep: self.sweep,
            stats: self.stats,
            dumps: self.dumps.copy(alloc)?,
        })
    }
}
