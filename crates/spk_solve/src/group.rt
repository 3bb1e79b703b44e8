//! A solver that first chooses a bin of propensities of about one size, and then a place in it by tries. The idea is that of
//! SPPARKS's group solver, composition and rejection. The bins, the draws and the tries are rules of our own.

ghost use Rattle.std.specs.Prelude.{◌≡◌, ℕ, ◌+◌, ◌*◌, ◌^◌, ◌<◌, ◌≤◌, List, [], length, sum, replicate, slice_set, slice_index, Some, IfOk, IfSome, IfNone};
ghost use Rattle.spk_solve.specs.Bins.{bins, members, bin_total, try_of, taken_of};
ghost use Rattle.spk_solve.specs.Choice.{Rule, Bins, Chooses, named, choice_of};
ghost use Rattle.spk_solve.specs.Groups.{IsBinOf, count_in};
ghost use Rattle.spk_solve.specs.SumTrees.{search_steps};

mod blocks;

use crate::solver::{Chosen, Solver};
use crate::sum_tree::SumTree;
use blocks::{BLOCK, blocks_of, lower_count, make_trees, raise_count, reset_trees};
use spk_num::{OutOfMemory, Steps, Stream};
use std::alloc::Global;
use std::marker::Model;
use std::sync::ledger::Ledger;

/// How many bins there are.
const BINS: u8 = 36;
/// In place of the bin of a propensity that is 0.
const NO_BIN: u8 = 36;
/// The most tries of a choice.
const TRIES: u32 = 64;

/// Propensities with their bins. Each bin has its total, and a tree of how many members it has in each block of places.
#[derive(Debug, Drop)]
pub struct Group {
    weights: Vec<u64>,
    used: usize,
    total: u64,
    /// The bin of each propensity.
    bytes: Vec<u8>,
    totals: Vec<u64>,
    trees: Vec<SumTree>,
}

impl Model for Group {
    ghost use Rattle.spk_solve.specs.Kept.{Kept, kept_of};
    ghost use Rattle.spk_solve.specs.Groups.{IsGrouped};

    ghost Value = { Kept };

    ghost view = { λ g. kept_of g.weights.items g.used };

    ghost invariant = { λ g. IsGrouped g.weights.items g.used g.total g.bytes.items g.totals.items g.trees.items };
}

/// A try draws a place, and a value that is taken if it is below the propensity there.
#[derive(Clone, Copy)]
struct Drawn {
    place: usize,
    value: u64,
}

/// The bin of a propensity.
fn bin_of(p: u64) -> u8
    requires { p ≤ 2 ^ 35 }
    ensures { IsBinOf result p }
{
    if p == 0 { NO_BIN } else { p.ilog2() as u8 }
}

/// The first bin, from the smallest propensities on, where the running sum of the totals passes a target.
fn named_bin(totals: &[u64], target: u64) -> u8
    requires long { length totals.now ≡ 36 }
    requires target { target < sum totals.now }
    requires small { sum totals.now < 2 ^ 63 }
    ensures named { named (slice_index totals.now) target bins ≡ Some result }
    ensures number { result < 36 }
{
    let mut passed = 0;
    'bins: for bin in 0..BINS {
        let total = totals[usize::from(bin)];
        if target < passed + total {
            return bin;
        }
        passed += total;
    }
    unreachable!()
}

impl Group {
    /// An empty list with room for so many.
    pub fn new(alloc: Global, capacity: usize) -> Result<Group, OutOfMemory>
        requires { capacity ≤ 4194304 }
        ensures capacity { IfOk result (λ g. g.room ≡ capacity) }
        ensures empty { IfOk result (λ g. g.list ≡ []) }
    {
        let weights = vec![in alloc; 0; capacity]?;
        let bytes = vec![in alloc; NO_BIN; capacity]?;
        let totals = vec![in alloc; 0; usize::from(BINS)]?;
        let trees = make_trees(alloc, blocks_of(capacity))?;
        Ok(Group {
            weights,
            used: 0,
            total: 0,
            bytes,
            totals,
            trees,
        })
    }

    /// Makes a propensity 0.
    fn take_out(&mut self, i: usize)
        requires { i < length self.old.list }
        ensures list { self.new.list ≡ slice_set self.old.list i 0 }
        ensures room { self.new.room ≡ self.old.room }
    {
        let bin = self.bytes[i];
        if bin == NO_BIN {
            return;
        }
        let weight = self.weights[i];
        let number = usize::from(bin);
        self.weights[i] = 0;
        self.total -= weight;
        self.bytes[i] = NO_BIN;
        self.totals[number] -= weight;
        let tree = &mut self.trees[number];
        lower_count(tree, i / BLOCK);
    }

    /// Writes a propensity over one that is 0.
    fn put_in(&mut self, i: usize, p: u64)
        requires place { i < length self.old.list }
        requires small { p ≤ 2 ^ 35 }
        requires empty { slice_index self.old.list i ≡ 0 }
        ensures list { self.new.list ≡ slice_set self.old.list i p }
        ensures room { self.new.room ≡ self.old.room }
    {
        let bin = bin_of(p);
        if bin == NO_BIN {
            return;
        }
        let number = usize::from(bin);
        self.weights[i] = p;
        self.total += p;
        self.bytes[i] = bin;
        self.totals[number] += p;
        let tree = &mut self.trees[number];
        raise_count(tree, i / BLOCK);
    }

    /// The place of a member of a bin in a block, counted from 0 there.
    fn member_in(&self, bin: u8, block: usize, rest: u64) -> usize
        requires number { bin < 36 }
        requires block { 64 * block < length self.now.list }
        requires rest { rest < count_in self.now.list bin (64 * block) 64 }
        ensures member { result ≡ slice_index (members self.now.list bin) (count_in self.now.list bin 0 (64 * block) + rest) }
    {
        let end = self.used.min(BLOCK * (block + 1));
        let first = BLOCK * block;
        let mut left = rest;
        'places: for place in first..end {
            if self.bytes[place] == bin {
                if left == 0 {
                    return place;
                }
                left -= 1;
            }
        }
        unreachable!()
    }

    /// A try: a member of a bin by one draw, and a value below the bin's end by the next.
    fn draw<L: Ledger>(&self, bin: u8, stream: &mut Stream, steps: &mut Steps<L>) -> Drawn
        requires number { bin < 36 }
        requires some { 0 < length (members self.now.list bin) }
        ensures drawn { try_of self.now.list bin stream.old ≡ record { place = result.place; value = result.value; stream = stream.new } }
        ensures place { result.place < length self.now.list }
        ensures some { 0 < slice_index self.now.list result.place }
        ensures later { steps.old ≤ steps.new }
        ensures cost { steps.new ≤ steps.old + search_steps (length self.now.list) }
    {
        let tree = &self.trees[usize::from(bin)];
        let k = stream.below(tree.total());
        let value = stream.below(2u64.pow(u32::from(bin) + 1));
        let found = tree.find(k, steps);
        Drawn {
            place: self.member_in(bin, found.place, found.rest),
            value,
        }
    }

    /// Chooses a place of a bin by tries. The last one is taken in any case.
    fn choose_in<L: Ledger>(&self, bin: u8, stream: &mut Stream, steps: &mut Steps<L>) -> Chosen
        requires number { bin < 36 }
        requires some { 0 < length (members self.now.list bin) }
        ensures choice { choice_of self.now.list (taken_of self.now.list bin stream.old)
            ≡ record { place = result.place; rest = result.rest; stream = stream.new } }
        ensures place { result.place < length self.now.list }
        ensures rest { result.rest < slice_index self.now.list result.place }
        ensures later { steps.old ≤ steps.new }
        ensures cost { steps.new ≤ steps.old + 64 * search_steps (length self.now.list) }
    {
        let mut drawn = self.draw(bin, stream, steps);
        'tries: for _ in 1..TRIES {
            if drawn.value < self.weights[drawn.place] {
                break;
            }
            drawn = self.draw(bin, stream, steps);
        }
        Chosen {
            place: drawn.place,
            rest: drawn.value % self.weights[drawn.place],
        }
    }
}

impl Solver for Group {
    ghost list = { λ g. g.list };

    ghost capacity = { λ g. g.room };

    ghost rule = { Bins };

    ghost reach = { λ n. 64 * search_steps n };

    fn make(alloc: Global, room: usize) -> Result<Group, OutOfMemory> {
        Group::new(alloc, room)
    }

    fn reset(&mut self, n: usize) {
        'zeros: for place in 0..n {
            self.weights[place] = 0;
            self.bytes[place] = NO_BIN;
        }
        self.used = n;
        self.total = 0;
        self.totals.fill(0);
        reset_trees(&mut self.trees, blocks_of(n));
    }

    fn set(&mut self, i: usize, p: u64) {
        if self.weights[i] == p {
            return;
        }
        self.take_out(i);
        self.put_in(i, p);
    }

    fn total(&self) -> u64 {
        self.total
    }

    fn choose<L: Ledger>(&mut self, stream: &mut Stream, steps: &mut Steps<L>) -> Option<Chosen> {
        if self.total == 0 {
            return None;
        }
        let target = stream.below_two(self.total);
        let bin = named_bin(&self.totals, target);
        Some(self.choose_in(bin, stream, steps))
    }
}
