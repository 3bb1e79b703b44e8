//! What a solver does.

ghost use Rattle.std.specs.Prelude.{◌≡◌, ℕ, ◌+◌, ◌^◌, ◌<◌, ◌≤◌, replicate, length, sum, slice_set, slice_index, List, [], IfSome, IfNone, IfOk};
ghost use Rattle.spk_solve.specs.Choice.{Rule, Chooses};

use spk_num::{OutOfMemory, Steps, Stream};
use std::alloc::Global;
use std::sync::ledger::Ledger;

/// A place of a list of propensities, and what is left of the target there, in units of 2^-30.
#[derive(Clone, Copy, Debug, PartialEq, Eq)]
pub struct Chosen {
    pub place: usize,
    pub rest: u64,
}

/// A list of propensities, in units of 2^-30, from which a place is chosen by its share of the total.
pub trait Solver {
    ghost list: { Self → List ℕ };

    ghost capacity: { Self → ℕ };

    ghost rule: { Rule };

    /// The most steps of a choice from a list of so many.
    ghost reach: { ℕ → ℕ };

    /// An empty list with room for so many.
    fn make(alloc: Global, room: usize) -> Result<Self, OutOfMemory>
        requires { room ≤ 4194304 }
        ensures capacity { IfOk result (λ s. capacity s ≡ room) }
        ensures empty { IfOk result (λ s. list s ≡ []) };

    /// A list of so many propensities, all 0.
    fn reset(&mut self, n: usize)
        requires { n ≤ capacity self.old }
        ensures list { list self.new ≡ replicate n 0 }
        ensures capacity { capacity self.new ≡ capacity self.old };

    /// Replaces the propensity at a place.
    fn set(&mut self, i: usize, p: u64)
        requires place { i < length (list self.old) }
        requires small { p ≤ 2 ^ 35 }
        ensures list { list self.new ≡ slice_set (list self.old) i p }
        ensures capacity { capacity self.new ≡ capacity self.old };

    /// The total of the list.
    fn total(&self) -> u64
        ensures total { result ≡ sum (list self.now) }
        ensures below { result < 2 ^ 63 };

    /// Chooses a place by draws from a stream, unless the total is 0.
    fn choose<L: Ledger>(&mut self, stream: &mut Stream, steps: &mut Steps<L>) -> Option<Chosen>
        ensures none { IfNone result (sum (list self.old) ≡ 0) }
        ensures still { IfNone result (stream.new ≡ stream.old) }
        ensures some { IfSome result (λ _. 0 < sum (list self.old)) }
        ensures place { IfSome result (λ chosen. chosen.place < length (list self.old)) }
        ensures rest { IfSome result (λ chosen. chosen.rest < slice_index (list self.old) chosen.place) }
        ensures chosen { IfSome result (λ chosen. Chooses rule (list self.old) stream.old chosen stream.new) }
        ensures list { list self.new ≡ list self.old }
        ensures capacity { capacity self.new ≡ capacity self.old }
        ensures steps { steps.old ≤ steps.new }
        ensures cost { steps.new ≤ steps.old + reach (length (list self.old)) };
}
