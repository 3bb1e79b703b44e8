//! A solver that walks its list.

ghost use Rattle.std.specs.Prelude.{◌≡◌, ℕ, ◌+◌, ◌^◌, ◌<◌, ◌≤◌, List, [], length, sum, replicate, slice_set, slice_index, IfOk, IfSome, IfNone};
ghost use Rattle.spk_solve.specs.Choice.{Rule, RunningSum, Chooses};

use crate::flat::Flat;
use crate::solver::{Chosen, Solver};
use spk_num::{OutOfMemory, Steps, Stream};
use std::alloc::Global;
use std::marker::Model;
use std::sync::ledger::Ledger;

/// Propensities in a flat list. A choice walks the running sum.
#[derive(Debug, Drop)]
pub struct Linear {
    flat: Flat,
}

impl Model for Linear {
    ghost use Rattle.spk_solve.specs.Kept.{Kept};

    ghost Value = { Kept };

    ghost view = { λ l. l.flat };
}

impl Linear {
    /// An empty list with room for so many.
    pub fn new(alloc: Global, capacity: usize) -> Result<Linear, OutOfMemory>
        requires { capacity ≤ 4194304 }
        ensures capacity { IfOk result (λ l. l.room ≡ capacity) }
        ensures empty { IfOk result (λ l. l.list ≡ []) }
    {
        let flat = Flat::new(alloc, capacity)?;
        Ok(Linear { flat })
    }
}

impl Solver for Linear {
    ghost list = { λ l. l.list };

    ghost capacity = { λ l. l.room };

    ghost rule = { RunningSum };

    ghost reach = { λ _. 0 };

    fn make(alloc: Global, room: usize) -> Result<Linear, OutOfMemory> {
        Linear::new(alloc, room)
    }

    fn reset(&mut self, n: usize) {
        self.flat.reset(n);
    }

    fn set(&mut self, i: usize, p: u64) {
        self.flat.set(i, p);
    }

    fn total(&self) -> u64 {
        self.flat.total()
    }

    fn choose<L: Ledger>(&mut self, stream: &mut Stream, steps: &mut Steps<L>) -> Option<Chosen> {
        self.flat.choose(stream)
    }
}
