//! The streams of the ranks.

ghost use Rattle.std.specs.Prelude.{◌≡◌, ◌+◌, ◌*◌, ◌/◌, ◌%◌, ◌<◌, ◌≤◌, length, slice_index, slice_set, IfOk};
ghost use Rattle.spk_run.specs.Streams.{streams_of};

use crate::seed::Seed;
use spk_num::stream::Stream;
use std::alloc::{AllocError, Global};
use std::marker::Model;

/// The streams of the ranks, by rank and then by sector.
#[derive(Debug, Drop)]
pub struct Streams {
    items: Vec<Stream>,
}

impl Model for Streams {
    ghost use Rattle.std.specs.Prelude.{List, ℕ, ◌<◌, ◌≤◌, vec_len};

    ghost Value = { List ℕ };

    ghost view = { λ s. s.items.items };

    ghost invariant = { λ s. (0 < vec_len s.items) × (vec_len s.items ≤ 512) };
}

impl Streams {
    /// So many streams of a seed, where each rank has one for each of its sectors.
    pub fn new(alloc: Global, seed: Seed, sectors: u32, count: usize) -> Result<Streams, AllocError>
        requires sectors { 1 ≤ sectors }
        requires some { 1 ≤ count }
        requires few { count ≤ 512 }
        ensures { IfOk result (λ s. s ≡ streams_of seed sectors count) }
    {
        let mut items = Vec::with_capacity(alloc, count)?;
        'streams: for place in 0..count {
            let rank = place as u64 / u64::from(sectors);
            let sector = place as u64 % u64::from(sectors);
            items.push(seed.stream(8 * rank + sector))?;
        }
        Ok(Streams { items })
    }

    /// How many streams there are: at most 8 for each of 64 ranks.
    pub fn len(&self) -> usize
        ensures count { result ≡ length self.now }
        ensures some { 1 ≤ result }
        ensures few { result ≤ 512 }
    {
        self.items.len()
    }

    /// The first stream.
    pub fn first(&self) -> Stream
        ensures stream { result ≡ slice_index self.now 0 }
        ensures some { 0 < length self.now }
    {
        self.items[0]
    }

    /// Puts a stream in the place of the first.
    pub fn set_first(&mut self, stream: Stream)
        ensures { self.new ≡ slice_set self.old 0 stream }
    {
        self.items[0] = stream;
    }
}
