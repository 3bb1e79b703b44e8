//! The plan of a run: its cycles and steps, and the marks at which something is written.

ghost use Rattle.std.specs.Prelude.{◌≡◌, ◌⊎◌, ◌+◌, ◌*◌, ◌^◌, ◌<◌, ◌≤◌, Some, None, IfOk, IfErr};
ghost use Rattle.spk_sched.specs.Plans.{IsRun, IsPlanOr, ticks_by, cycle_ticks, cycles, cycle_at, elapsed, is_line_after, is_line_due, is_mark, is_mark_after, is_last_of_cycle, is_whole, is_too_long, is_any_reached, lines_due, plan_fault, sector_at, steps, window};

use crate::dues::Due;
use crate::run_settings::{Cycle, RunSettings};
use spk_num::sweep::Sweep;
use std::alloc::{AllocError, Global};
use std::marker::Model;
use thiserror::Error;

/// Ticks of a millionth of a unit of time.
const MILLIONTH: u128 = 1000;

/// Ticks of a sweep.
const SWEEP: u64 = 1_000_000_000;

/// The weight 1, in units of 2^-30.
const UNIT: u128 = 1 << 30;

/// The most steps of a run.
const MOST_STEPS: u128 = 1_000_000_000;

/// The latest time, in ticks, at which a run may end.
const LATEST: u128 = 4_000_000_000_000_000_000;

/// Why there is no plan.
#[derive(Clone, Copy, PartialEq, Eq, Debug, Error)]
pub enum PlanFault {
    #[error("not a whole number of sweeps")]
    NotWhole,
    #[error("run too long")]
    RunTooLong,
    #[error("out of memory")]
    Memory,
}

impl From<AllocError> for PlanFault {
    ghost use Rattle.spk_sched.specs.declared.plan.PlanFault.TheVariants.{Memory};

    ghost from_gives = { λ _ e. e ≡ Memory };

    fn from(_: AllocError) -> PlanFault {
        PlanFault::Memory
    }
}

/// The plan of a run, which contracts see as the run's settings. It keeps no list of steps or marks.
#[derive(Debug, Drop)]
pub struct Plan {
    settings: RunSettings,
    ticks: u128,
    count: u64,
}

impl Model for Plan {
    ghost use Rattle.std.specs.Prelude.{◌≡◌, None};
    ghost use Rattle.spk_sched.specs.Plans.{IsRun, cycle_ticks, cycles, plan_fault};
    ghost use Rattle.spk_sched.specs.declared.run_settings.RunSettings.{RunSettings};

    ghost Value = { RunSettings };

    ghost view = { λ p. p.settings };

    ghost invariant = { λ p. (p.ticks ≡ cycle_ticks p.settings) × (p.count ≡ cycles p.settings) × IsRun p.settings × (plan_fault p.settings ≡ None) };
}

/// How many ticks a cycle takes.
fn ticks_by(cycle: Cycle, sweep: Option<Sweep>, largest: u64) -> u128
    requires { 1 ≤ largest }
    ensures { result ≡ ticks_by cycle sweep largest }
{
    match (cycle, sweep) {
        (Cycle::Ticks(ticks), _) => u128::from(ticks),
        (Cycle::Nstop(millionths), None) => {
            (u128::from(millionths) * MILLIONTH * UNIT / u128::from(largest)).max(1)
        }
        (Cycle::Nstop(millionths), Some(_)) => u128::from(millionths) * MILLIONTH,
    }
}

impl RunSettings {
    /// How many ticks a cycle takes.
    fn ticks(&self) -> u128
        requires { IsRun self.now }
        ensures { result ≡ cycle_ticks self.now }
    {
        ticks_by(self.cycle, self.sweep, self.largest)
    }

    /// How many cycles there are.
    fn cycles(&self) -> u64
        requires { IsRun self.now }
        ensures { result ≡ cycles self.now }
    {
        u128::from(self.length).div_ceil(self.ticks()) as u64
    }

    /// With sweeps, both a cycle and the run must take whole ones.
    fn is_whole(&self) -> bool
        requires { IsRun self.now }
        ensures { result ≡ is_whole self.now }
    {
        match self.sweep {
            Some(_) => { self.ticks() % u128::from(SWEEP) == 0 && self.length % SWEEP == 0 }
            None => true,
        }
    }

    /// Whether the run has too many steps, or ends too late.
    fn is_too_long(&self) -> bool
        requires { IsRun self.now }
        ensures { result ≡ is_too_long self.now }
    {
        u128::from(self.cycles()) * u128::from(self.sectors) > MOST_STEPS
            || u128::from(self.start) + u128::from(self.length) > LATEST
    }

    /// Why there is no plan for these settings, but for memory.
    pub fn fault(&self) -> Option<PlanFault>
        requires { IsRun self.now }
        ensures { result ≡ plan_fault self.now }
    {
        if !self.is_whole() {
            Some(PlanFault::NotWhole)
        } else if self.is_too_long() {
            Some(PlanFault::RunTooLong)
        } else {
            None
        }
    }

    /// Whether a line of statistics was due after the first of two times, and not after the second. Both are counted from
    /// the run's start.
    fn is_line_reached(&self, before: u64, time: u64) -> bool
        ensures { result ≡ is_any_reached (lines_due self.now) before time }
    {
        let lines = Due {
            next: self.stats,
            delta: self.stats,
        };
        self.stats > 0 && lines.is_reached(before, time)
    }

    /// Whether a snapshot was due after the first of two times, and not after the second.
    fn is_snapshot_due(&self, before: u64, time: u64) -> bool
        requires { IsRun self.now }
        ensures { result ≡ is_any_reached self.now.dumps before time }
    {
        self.dumps
            .as_slice()
            .iter()
            .any(|due| due.is_reached(before, time))
    }
}

impl Plan {
    /// The plan of a run with these settings.
    pub fn new(alloc: Global, settings: &RunSettings) -> Result<Plan, PlanFault>
        requires { IsRun settings.now }
        ensures { IsPlanOr settings.now result }
    {
        if let Some(fault) = settings.fault() {
            return Err(fault);
        }
        Ok(Plan {
            ticks: settings.ticks(),
            count: settings.cycles(),
            settings: settings.copy(alloc)?,
        })
    }

    /// An equal plan.
    pub fn again(&self, alloc: Global) -> Result<Plan, AllocError>
        ensures { IfOk result (λ plan. plan ≡ self.now) }
    {
        Ok(Plan {
            settings: self.settings.copy(alloc)?,
            ticks: self.ticks,
            count: self.count,
        })
    }

    /// What holds of every plan.
    pub fn known(&self)
        ensures run { IsRun self.now }
        ensures no_fault { plan_fault self.now ≡ None }
    {
        let _count = self.count;
    }

    /// How many steps the run has, one for each sector in each cycle.
    pub fn steps(&self) -> u64
        ensures { result ≡ steps self.now }
    {
        self.count * u64::from(self.settings.sectors)
    }

    /// In which sector all ranks work at a step.
    pub fn sector_of(&self, step: u64) -> u32
        requires { step < steps self.now }
        ensures sector { result ≡ sector_at self.now step }
        ensures few { result < 8 }
    {
        (step % u64::from(self.settings.sectors)) as u32
    }

    /// In which cycle a step is.
    fn cycle_of(&self, step: u64) -> u64
        requires { step < steps self.now }
        ensures cycle { result ≡ cycle_at self.now step }
        ensures exists { result < cycles self.now }
        ensures few { result < 1000000000 }
    {
        step / u64::from(self.settings.sectors)
    }

    /// The ticks from the run's start to the end of the first so many cycles.
    fn elapsed(&self, done: u64) -> u64
        ensures { result ≡ elapsed self.now done }
    {
        let ticks = self.ticks.saturating_mul(u128::from(done));
        ticks.min(u128::from(self.settings.length)) as u64
    }

    /// How many ticks the turns of a step take.
    pub fn window(&self, step: u64) -> u64
        requires { step < steps self.now }
        ensures { result ≡ window self.now step }
    {
        let cycle = self.cycle_of(step);
        self.elapsed(cycle + 1).saturating_sub(self.elapsed(cycle))
    }

    /// The style of sweep, where there are sweeps.
    pub fn sweep(&self) -> Option<Sweep>
        ensures { result ≡ self.now.sweep }
    {
        self.settings.sweep
    }

    /// Whether a line of statistics is written at the end of a cycle.
    fn is_line_due(&self, cycle: u64) -> bool
        requires { cycle < cycles self.now }
        ensures { result ≡ is_line_due self.now cycle }
    {
        let count = self.count;
        let before = self.elapsed(cycle);
        let after = self.elapsed(cycle + 1);
        cycle + 1 == count || self.settings.is_line_reached(before, after)
    }

    /// Whether something is written at the end of a cycle.
    fn is_mark(&self, cycle: u64) -> bool
        requires { cycle < cycles self.now }
        ensures { result ≡ is_mark self.now cycle }
    {
        let start = self.settings.start;
        let before = self.elapsed(cycle);
        let after = self.elapsed(cycle + 1);
        self.is_line_due(cycle) || self.settings.is_snapshot_due(start + before, start + after)
    }

    /// Whether a step is the last of its cycle and a line of statistics is written after it.
    pub fn line_after(&self, step: u64) -> bool
        requires { step < steps self.now }
        ensures { result ≡ is_line_after self.now step }
    {
        self.sector_of(step) + 1 == self.settings.sectors && self.is_line_due(self.cycle_of(step))
    }

    /// Whether a step is the last of its cycle and something is written after it.
    pub fn mark_after(&self, step: u64) -> bool
        requires { step < steps self.now }
        ensures { result ≡ is_mark_after self.now step }
    {
        self.sector_of(step) + 1 == self.settings.sectors && self.is_mark(self.cycle_of(step))
    }
}

#[cfg(test)]
mod tests;
