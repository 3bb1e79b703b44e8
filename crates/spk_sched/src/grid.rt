//! Grids of ranks.

ghost use Rattle.std.specs.Prelude.{◌≡◌, ◌≤◌, ◌<◌, ◌*◌, All, slice_index};
ghost use Rattle.spk_lattice.specs.Layout.{dimensions_of, IsLattice};
ghost use Rattle.spk_sched.specs.Decompositions.{IsGrid, grid_of, is_flat, rank_count, triple_of, whole_of};

use crate::sectors::Sectors;
use spk_lattice::Lattice;
use std::marker::Model;
use thiserror::Error;

/// The most ranks.
const MOST_RANKS: u64 = 64;

/// Why there is no such grid.
#[derive(Clone, Copy, PartialEq, Eq, Debug, Error)]
pub enum GridFault {
    #[error("more than 64 ranks")]
    TooManyRanks,
    /// Several ranks stand along this dimension, 1 or 2 for y or z, that the lattice doesn't use.
    #[error("several ranks in unused dimension {0}")]
    FlatDimension(u32),
}

/// A lattice with a grid of ranks: how many there are along x, y and z.
#[derive(Clone, Copy, Debug)]
pub struct Grid {
    lattice: Lattice,
    ranks: [u32; 3],
}

impl Model for Grid {
    ghost use Rattle.std.specs.Prelude.{◌≡◌};
    ghost use Rattle.spk_sched.specs.Decompositions.{RankGrid, IsGrid, triple_of, list_of};

    ghost Value = { RankGrid };

    ghost view = { λ g. record { lattice = g.lattice; ranks = triple_of g.ranks } };

    ghost invariant = { λ g. IsGrid (record { lattice = g.lattice; ranks = triple_of g.ranks }) × (list_of (triple_of g.ranks) ≡ g.ranks) };

    ghost inverse = { λ d. record { lattice = d.lattice; ranks = list_of d.ranks } };

    ghost inverse_ok = { λ g is i. record { lattice = g.lattice; ranks = is.1 i } };
}

/// Whether several ranks stand along a dimension, counted from 0, that a lattice doesn't use.
fn is_flat(lattice: &Lattice, dimension: u32, ranks: u32) -> bool
    ensures { result ≡ is_flat lattice.now dimension ranks }
{
    !(dimension < lattice.dimensions()) && ranks > 1
}

impl Grid {
    /// The grid of so many ranks along each dimension of a lattice, each 1 to 64.
    pub fn new(lattice: &Lattice, ranks: [u32; 3]) -> Result<Grid, GridFault>
        requires { All (λ n. (1 ≤ n) × (n ≤ 64)) ranks }
        ensures { result ≡ grid_of lattice.now (triple_of ranks) }
    {
        lattice.known();
        let [x, y, z] = ranks;
        if u64::from(x) * u64::from(y) * u64::from(z) > MOST_RANKS {
            return Err(GridFault::TooManyRanks);
        }
        if is_flat(lattice, 1, y) {
            return Err(GridFault::FlatDimension(1));
        }
        if is_flat(lattice, 2, z) {
            return Err(GridFault::FlatDimension(2));
        }
        Ok(Grid {
            lattice: *lattice,
            ranks,
        })
    }

    /// What holds of every grid.
    pub fn known(&self)
        ensures { IsGrid self.now }
    {
        let _ranks = self.ranks;
    }

    /// The lattice.
    pub fn lattice(&self) -> Lattice
        ensures { result ≡ self.now.lattice }
    {
        self.lattice
    }

    /// How many ranks there are along x, y and z.
    pub fn ranks(&self) -> [u32; 3]
        ensures { triple_of result ≡ self.now.ranks }
    {
        self.ranks
    }

    /// One sector that has all cells.
    pub fn whole(&self) -> Sectors
        requires { rank_count self.now.ranks ≡ 1 }
        ensures { result ≡ whole_of self.now }
    {
        Sectors::whole(*self)
    }
}

#[cfg(test)]
mod tests {
    use super::*;
    use spk_lattice::{Cells, Style};
    use std::process::Abort;

    fn lattice_of(rt: &impl Abort, style: Style, nx: u32, ny: u32) -> Lattice
        requires y_unused { dimensions_of style ≤ 1 → ny ≡ 1 }
        ensures { result ≡ record { style = style; nx = nx; ny = ny; nz = 1 } }
    {
        match Lattice::new(style, nx, ny, 1) {
            Ok(lattice) => lattice,
            Err(_) => panic!(rt; "there is such a lattice"),
        }
    }

    fn compare(rt: &impl Abort, lattice: &Lattice, ranks: [u32; 3], want: Option<GridFault>)
        requires { All (λ n. (1 ≤ n) × (n ≤ 64)) ranks }
    {
        assert_eq!(rt; Grid::new(lattice, ranks).err(), want);
    }

    #[test]
    fn limits_the_ranks_of_a_chain(rt: HostRuntime) {
        let chain = lattice_of(&rt, Style::Line2, 10, 1);
        compare(&rt, &chain, [1, 1, 1], None);
        compare(&rt, &chain, [64, 1, 1], None);
        compare(&rt, &chain, [1, 2, 1], Some(GridFault::FlatDimension(1)));
        compare(&rt, &chain, [1, 2, 3], Some(GridFault::FlatDimension(1)));
        compare(&rt, &chain, [1, 1, 2], Some(GridFault::FlatDimension(2)));
        compare(&rt, &chain, [64, 2, 1], Some(GridFault::TooManyRanks));
    }

    #[test]
    fn limits_the_ranks_of_a_square(rt: HostRuntime) {
        let square = lattice_of(&rt, Style::Sq4, 10, 7);
        compare(&rt, &square, [2, 3, 1], None);
        compare(&rt, &square, [2, 3, 2], Some(GridFault::FlatDimension(2)));
        compare(&rt, &square, [64, 64, 64], Some(GridFault::TooManyRanks));
    }

    #[test]
    fn one_rank_has_all_cells(rt: HostRuntime) {
        let square = lattice_of(&rt, Style::Sq4, 10, 7);
        let Ok(grid) = Grid::new(&square, [1, 1, 1]) else {
            panic!(rt; "there is such a grid");
        };
        grid.known();
        assert_eq!(rt; grid.lattice().extents(), [10, 7, 1]);
        assert_eq!(rt; grid.ranks(), [1, 1, 1]);
        let whole = grid.whole();
        let all = Cells {
            lo: [0, 0, 0],
            hi: [10, 7, 1],
        };
        assert_eq!(rt; whole.lattice().extents(), [10, 7, 1]);
        assert_eq!(rt; whole.ranks(), 1);
        assert_eq!(rt; whole.count(), 1);
        assert_eq!(rt; whole.rank_box(0), all);
        assert_eq!(rt; whole.sector_box(0, 0), all);
    }
}
