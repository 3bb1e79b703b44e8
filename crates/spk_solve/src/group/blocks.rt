//! A tree for each bin: how many of its members there are in each block of places.

ghost use Rattle.std.specs.Prelude.{◌≡◌, ℕ, [], ◌+◌, ◌-◌, ◌*◌, ◌^◌, ◌<◌, ◌≤◌, IfOk, length, replicate, slice_index, slice_set};
ghost use Rattle.spk_solve.specs.Groups.{blocks_of, kept_at};

use super::BINS;
use crate::sum_tree::SumTree;
use spk_num::OutOfMemory;
use std::alloc::Global;

/// How many places a block has.
pub const BLOCK: usize = 64;

/// How many blocks so many places have.
pub fn blocks_of(n: usize) -> usize
    requires { n ≤ 4194304 }
    ensures { result ≡ blocks_of n }
{
    (n + BLOCK - 1) / BLOCK
}

/// A tree for each bin, with room for so many blocks and none yet.
pub fn make_trees(alloc: Global, blocks: usize) -> Result<Vec<SumTree>, OutOfMemory>
    requires { blocks ≤ 4194304 }
    ensures long { IfOk result (λ trees. length trees.items ≡ 36) }
    ensures empty { IfOk result (λ trees. (bin : ℕ) → bin < 36 → kept_at trees.items bin ≡ record { list = []; room = blocks }) }
{
    let mut trees = Vec::new(alloc);
    'bins: for _ in 0..BINS {
        trees.push(SumTree::new(alloc, blocks)?)?;
    }
    Ok(trees)
}

/// Makes each tree that of so many blocks with no member.
pub fn reset_trees(trees: &mut Vec<SumTree>, blocks: usize)
    requires { (bin : ℕ) → bin < length trees.old.items → blocks ≤ (kept_at trees.old.items bin).room }
    ensures long { length trees.new.items ≡ length trees.old.items }
    ensures zeros { (bin : ℕ) → bin < length trees.old.items → kept_at trees.new.items bin ≡ record { list = replicate blocks 0; room = (kept_at trees.old.items bin).room } }
{
    'bins: for bin in 0..trees.len() {
        let tree = &mut trees[bin];
        tree.reset(blocks);
    }
}

/// Counts a member that comes into a block.
pub fn raise_count(tree: &mut SumTree, block: usize)
    requires block { block < length tree.old.list }
    requires small { slice_index tree.old.list block < 2 ^ 35 }
    ensures list { tree.new.list ≡ slice_set tree.old.list block (slice_index tree.old.list block + 1) }
    ensures room { tree.new.room ≡ tree.old.room }
{
    let count = tree.get(block);
    tree.set(block, count + 1);
}

/// Counts a member that leaves a block.
pub fn lower_count(tree: &mut SumTree, block: usize)
    requires block { block < length tree.old.list }
    requires some { 0 < slice_index tree.old.list block }
    requires small { slice_index tree.old.list block ≤ 2 ^ 35 }
    ensures list { tree.new.list ≡ slice_set tree.old.list block (slice_index tree.old.list block - 1) }
    ensures room { tree.new.room ≡ tree.old.room }
{
    let count = tree.get(block);
    tree.set(block, count - 1);
}
