//! A list of propensities under a tree of their sums: one is replaced, and one is found by the running sum, in a time by the
//! logarithm of their number.

ghost use Rattle.spk_solve.specs.Choice.{IsNamed};
ghost use Rattle.std.specs.Prelude.{◌≡◌, ℕ, [], ◌+◌, ◌-◌, ◌*◌, ◌^◌, ◌<◌, ◌≤◌, IfOk, length, sum, drop, take, replicate, slice_index, slice_set};
ghost use Rattle.spk_solve.specs.SumTrees.{AddUp, IsOffAbove, prefix_sum, search_steps, start};

use crate::solver::Chosen;
use spk_num::{OutOfMemory, Steps};
use std::alloc::Global;
use std::marker::Model;
use std::sync::ledger::Ledger;

/// How many children a node has.
const CHILDREN: usize = 16;

/// Propensities with sums over them. All nodes are in one list, the root first.
#[derive(Debug, Drop)]
pub struct SumTree {
    nodes: Vec<u64>,
    /// Where the leaves begin.
    base: usize,
    depth: u32,
    used: usize,
    room: usize,
}

impl Model for SumTree {
    ghost use Rattle.std.specs.Prelude.{take, drop};
    ghost use Rattle.spk_solve.specs.Kept.{Kept};
    ghost use Rattle.spk_solve.specs.SumTrees.{IsTree};

    ghost Value = { Kept };

    ghost view = { λ t. record { list = take t.used (drop t.base t.nodes.items); room = t.room } };

    ghost invariant = { λ t. IsTree t.nodes.items t.base t.depth t.used t.room };
}

/// Where the leaves of a tree begin, and how deep it is.
#[derive(Clone, Copy)]
struct Form {
    base: usize,
    depth: u32,
}

/// The least form with so many leaves.
#[tactic(auto, using(crate::proofs::TreeLevels::levels))]
fn form_of(n: usize) -> Form
    requires { n ≤ 4194304 }
    ensures base { result.base ≡ start result.depth }
    ensures room { n ≤ 15 * result.base + 1 }
    ensures shallow { 2 ^ result.depth ≤ 4 * n + 4 }
    ensures least { (e : ℕ) → n ≤ 15 * start e + 1 → result.base ≤ start e }
    ensures small { result.base ≤ 8388608 }
{
    let mut base = 0;
    let mut depth = 0;
    while 15 * base + 1 < n {
        base = 16 * base + 1;
        depth += 1;
    }
    Form { base, depth }
}

/// The child that a target names.
#[tactic(auto, using(crate::proofs::PrefixSums::prefix_sums))]
fn child_of(nodes: &Vec<u64>, first: usize, target: u64) -> Chosen
    requires inside { first + 16 ≤ length nodes.now.items }
    requires target { prefix_sum nodes.now.items first + target < prefix_sum nodes.now.items (first + 16) }
    ensures from { first ≤ result.place }
    ensures to { result.place < first + 16 }
    ensures split { prefix_sum nodes.now.items result.place + result.rest ≡ prefix_sum nodes.now.items first + target }
    ensures left { result.rest < slice_index nodes.now.items result.place }
{
    let mut rest = target;
    'scan: for place in first..first + CHILDREN {
        let weight = nodes[place];
        if rest < weight {
            return Chosen { place, rest };
        }
        rest -= weight;
    }
    unreachable!()
}

/// Brings the sums above a node up to date.
fn raise(nodes: &mut Vec<u64>, base: usize, leaf: usize, old: u64, new: u64)
    requires off { IsOffAbove nodes.old.items base leaf old new }
    requires small { (m : ℕ) → m < leaf → slice_index nodes.old.items m < 2 ^ 62 }
    requires new { new < 2 ^ 62 }
    requires above { base ≤ leaf }
    ensures right { AddUp nodes.new.items base }
    ensures length { length nodes.new.items ≡ length nodes.old.items }
    ensures leaves { (n : ℕ) → base ≤ n → drop n nodes.new.items ≡ drop n nodes.old.items }
{
    let mut at = leaf;
    'up: while at > 0 {
        at = (at - 1) / CHILDREN;
        nodes[at] = nodes[at] - old + new;
    }
}

impl SumTree {
    /// An empty list with room for so many.
    pub fn new(alloc: Global, room: usize) -> Result<SumTree, OutOfMemory>
        requires { room ≤ 4194304 }
        ensures room { IfOk result (λ t. t.room ≡ room) }
        ensures empty { IfOk result (λ t. t.list ≡ []) }
    {
        let form = form_of(room);
        let blocks = (form.base + room + CHILDREN - 2) / CHILDREN;
        let nodes = vec![in alloc; 0; CHILDREN * blocks + 1]?;
        Ok(SumTree {
            nodes,
            base: 0,
            depth: 0,
            used: 0,
            room,
        })
    }

    /// Makes the list so many zeros.
    pub fn reset(&mut self, n: usize)
        requires { n ≤ self.old.room }
        ensures list { self.new.list ≡ replicate n 0 }
        ensures room { self.new.room ≡ self.old.room }
    {
        self.used = n;
        let form = form_of(n);
        self.nodes.fill(0);
        self.base = form.base;
        self.depth = form.depth;
    }

    /// One number of the list.
    pub fn get(&self, i: usize) -> u64
        requires { i < length self.now.list }
        ensures { result ≡ slice_index self.now.list i }
    {
        self.nodes[self.base + i]
    }

    /// Changes one number of the list.
    pub fn set(&mut self, i: usize, p: u64)
        requires place { i < length self.old.list }
        requires small { p ≤ 2 ^ 35 }
        ensures list { self.new.list ≡ slice_set self.old.list i p }
        ensures room { self.new.room ≡ self.old.room }
    {
        let leaf = self.base + i;
        let old = self.nodes[leaf];
        if old == p {
            return;
        }
        self.nodes[leaf] = p;
        raise(&mut self.nodes, self.base, leaf, old, p);
    }

    /// The sum of the list.
    pub fn total(&self) -> u64
        ensures total { result ≡ sum self.now.list }
        ensures below { result < 2 ^ 62 }
    {
        self.nodes[0]
    }

    /// The place that a target names by the running sum.
    pub fn find<L: Ledger>(&self, target: u64, steps: &mut Steps<L>) -> Chosen
        requires { target < sum self.now.list }
        ensures named { IsNamed self.now.list target result.place result.rest }
        ensures cost { steps.new ≤ steps.old + search_steps (length self.now.list) }
        ensures later { steps.old ≤ steps.new }
    {
        let mut place = 0;
        let mut rest = target;
        'levels: for level in 0..self.depth {
            steps.tick();
            let child = child_of(&self.nodes, CHILDREN * place + 1, rest);
            place = child.place;
            rest = child.rest;
        }
        Chosen {
            place: place - self.base,
            rest,
        }
    }
}

#[cfg(test)]
mod tests {
    use super::*;
    use std::marker::Brand;
    use std::sync::ledger::Blank;
    use std::test::Fail;

    /// The place that a target names.
    fn find<L: Ledger>(tree: &SumTree, target: u64, blank: Blank) -> Chosen
        requires name { blank.name ≡ L.name }
        requires parts { blank.parts ≡ L.parts }
        requires some { 0 < blank.parts }
        requires target { target < sum tree.now.list }
    {
        let mut steps = Steps::<L>::new(blank);
        tree.find(target, &mut steps)
    }

    #[test]
    fn finds_places_of_a_thousand(rt: HostRuntime) -> Result<(), Fail> {
        let mut tree = SumTree::new(rt.alloc(), 1000)?;
        tree.reset(1000);
        'places: for place in 0..1000 {
            tree.set(place, 2);
        }
        tree.set(500, 0);
        assert_eq!(rt; tree.total(), 1998);
        for (target, place, rest) in [(1000, 501, 0), (999, 499, 1), (1997, 999, 1)] {
            assert!(rt; target < tree.total());
            let found = find::<Brand>(&tree, target, Blank::new(1));
            assert_eq!(rt; found, Chosen { place, rest }, "{target}");
        }
        Ok(())
    }
}
