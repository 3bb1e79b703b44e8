//! A solver whose choice is that of a tree of sums: by the running sum.

ghost use Rattle.std.specs.Prelude.{◌≡◌, ℕ, ◌+◌, ◌^◌, ◌<◌, ◌≤◌, List, [], length, sum, replicate, slice_set, slice_index, IfOk, IfSome, IfNone};
ghost use Rattle.spk_solve.specs.Choice.{Rule, RunningSum, Chooses};
ghost use Rattle.spk_solve.specs.SumTrees.{search_steps};

use crate::solver::{Chosen, Solver};
use crate::sum_tree::SumTree;
use spk_num::{OutOfMemory, Steps, Stream};
use std::alloc::Global;
use std::marker::Model;
use std::sync::ledger::Ledger;

/// Propensities under a tree of their sums. It chooses as `Linear` does, by the running sum.
#[derive(Debug, Drop)]
pub struct Tree {
    tree: SumTree,
}

impl Model for Tree {
    ghost use Rattle.spk_solve.specs.Kept.{Kept};

    ghost Value = { Kept };

    ghost view = { λ t. t.tree };
}

impl Tree {
    /// An empty list with room for so many.
    pub fn new(alloc: Global, capacity: usize) -> Result<Tree, OutOfMemory>
        requires { capacity ≤ 4194304 }
        ensures capacity { IfOk result (λ t. t.room ≡ capacity) }
        ensures empty { IfOk result (λ t. t.list ≡ []) }
    {
        let tree = SumTree::new(alloc, capacity)?;
        Ok(Tree { tree })
    }
}

impl Solver for Tree {
    ghost list = { λ t. t.list };

    ghost capacity = { λ t. t.room };

    ghost rule = { RunningSum };

    ghost reach = { search_steps };

    fn make(alloc: Global, room: usize) -> Result<Tree, OutOfMemory> {
        Tree::new(alloc, room)
    }

    fn reset(&mut self, n: usize) {
        self.tree.reset(n);
    }

    fn set(&mut self, i: usize, p: u64) {
        self.tree.set(i, p);
    }

    fn total(&self) -> u64 {
        self.tree.total()
    }

    fn choose<L: Ledger>(&mut self, stream: &mut Stream, steps: &mut Steps<L>) -> Option<Chosen> {
        let total = self.tree.total();
        if total == 0 {
            return None;
        }
        let target = stream.below_two(total);
        Some(self.tree.find(target, steps))
    }
}
