//! The interval of a rank along one dimension, and its halves.

ghost use Rattle.std.specs.Prelude.{◌≡◌, ◌≤◌, ◌<◌, ◌+◌};
ghost use Rattle.spk_sched.specs.Rings.{cut, middle, part_from, part_to};

/// The part of its interval on which a rank works in a step.
#[derive(Clone, Copy, PartialEq, Eq, Debug)]
pub enum Part {
    Whole,
    Lower,
    Upper,
}

/// Where the interval of a rank begins, of so many cells and ranks.
fn cut(cells: u32, ranks: u32, rank: u32) -> u32
    requires cells { cells ≤ 4194304 }
    requires some { 1 ≤ ranks }
    requires rank { rank ≤ 64 }
    ensures { result ≡ cut cells ranks rank }
{
    rank * cells / ranks
}

/// Where the interval of a rank is halved.
fn middle(cells: u32, ranks: u32, rank: u32) -> u32
    requires cells { cells ≤ 4194304 }
    requires some { 1 ≤ ranks }
    requires rank { rank < 64 }
    ensures { result ≡ middle cells ranks rank }
{
    let from = u64::from(cut(cells, ranks, rank));
    let to = u64::from(cut(cells, ranks, rank + 1));
    ((from + to) / 2) as u32
}

/// The cells of a part, from the first to the one after the last.
pub fn interval(cells: u32, ranks: u32, part: Part, rank: u32) -> (u32, u32)
    requires cells { cells ≤ 4194304 }
    requires some { 1 ≤ ranks }
    requires rank { rank < 64 }
    ensures from { result.0 ≡ part_from cells ranks part rank }
    ensures to { result.1 ≡ part_to cells ranks part rank }
{
    match part {
        Part::Whole => (cut(cells, ranks, rank), cut(cells, ranks, rank + 1)),
        Part::Lower => (cut(cells, ranks, rank), middle(cells, ranks, rank)),
        Part::Upper => (middle(cells, ranks, rank), cut(cells, ranks, rank + 1)),
    }
}
