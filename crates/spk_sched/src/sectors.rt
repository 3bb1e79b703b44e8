//! The boxes of ranks and sectors.

ghost use Rattle.std.specs.Prelude.{All, ◌≡◌, ◌≤◌, ◌<◌, ◌∷◌, []};
ghost use Rattle.spk_lattice.specs.Boxes.{cells_of};
ghost use Rattle.spk_sched.specs.Decompositions.{list_of, part_of, rank_at, rank_box, rank_count, sector_box, sector_count, box_of_parts, whole_of};

use crate::grid::Grid;
use crate::part::{Part, interval};
use spk_lattice::{Cells, Lattice};
use std::marker::Model;

/// A grid of ranks. The box of each is one sector, or is halved along each dimension that the lattice uses.
#[derive(Clone, Copy, Debug)]
pub struct Sectors {
    grid: Grid,
    halved: bool,
}

impl Model for Sectors {
    ghost use Rattle.spk_sched.specs.Decompositions.{Decomposition};

    ghost Value = { Decomposition };

    ghost view = { λ s. record { grid = s.grid; halved = s.halved } };

    ghost inverse = { λ d. record { grid = d.grid; halved = d.halved } };
}

impl Sectors {
    /// One sector that has all cells of a lattice with one rank.
    pub(crate) fn whole(grid: Grid) -> Sectors
        ensures { result ≡ whole_of grid }
    {
        Sectors {
            grid,
            halved: false,
        }
    }

    /// The lattice.
    pub fn lattice(&self) -> Lattice
        ensures { result ≡ self.now.grid.lattice }
    {
        self.grid.lattice()
    }

    /// How many ranks there are.
    pub fn ranks(&self) -> u32
        ensures ranks { result ≡ rank_count self.now.grid.ranks }
        ensures few { result ≤ 64 }
    {
        self.grid.known();
        let [x, y, z] = self.grid.ranks();
        x * y * z
    }

    /// How many sectors each rank has: 1, or 2, 4 or 8 where the lattice uses 1, 2 or 3 dimensions.
    pub fn count(&self) -> u32
        ensures { result ≡ sector_count self.now }
    {
        if self.halved {
            1 << self.lattice().dimensions()
        } else {
            1
        }
    }

    /// Where a rank stands in the grid.
    fn rank_at(&self, rank: u32) -> [u32; 3]
        requires { rank < rank_count self.now.grid.ranks }
        ensures at { result ≡ list_of (rank_at self.now.grid.ranks rank) }
        ensures few { All (λ a. a < 64) result }
    {
        self.grid.known();
        let [x, y, _] = self.grid.ranks();
        [rank % x, rank / x % y, rank / x / y]
    }

    /// The part of a rank's interval along a dimension that a sector has.
    fn part(&self, sector: u32, dimension: u32) -> Part
        requires { dimension < 3 }
        ensures { result ≡ part_of self.now sector dimension }
    {
        if !self.halved || dimension >= self.lattice().dimensions() {
            Part::Whole
        } else if sector >> dimension & 1 == 0 {
            Part::Lower
        } else {
            Part::Upper
        }
    }

    /// A rank's box with these parts of its intervals.
    fn parts(&self, rank: u32, parts: [Part; 3]) -> Cells
        requires { rank < rank_count self.now.grid.ranks }
        ensures { result ≡ cells_of (box_of_parts self.now.grid rank parts) }
    {
        let [nx, ny, nz] = self.lattice().extents();
        let [px, py, pz] = self.grid.ranks();
        let [ax, ay, az] = self.rank_at(rank);
        let [x, y, z] = parts;
        let x = interval(nx, px, x, ax);
        let y = interval(ny, py, y, ay);
        let z = interval(nz, pz, z, az);
        Cells {
            lo: [i64::from(x.0), i64::from(y.0), i64::from(z.0)],
            hi: [i64::from(x.1), i64::from(y.1), i64::from(z.1)],
        }
    }

    /// The cells of a rank.
    pub fn rank_box(&self, rank: u32) -> Cells
        requires { rank < rank_count self.now.grid.ranks }
        ensures { result ≡ cells_of (rank_box self.now rank) }
    {
        self.parts(rank, [Part::Whole; 3])
    }

    /// The cells of a rank in a sector.
    pub fn sector_box(&self, rank: u32, sector: u32) -> Cells
        requires rank { rank < rank_count self.now.grid.ranks }
        requires sector { sector < sector_count self.now }
        ensures { result ≡ cells_of (sector_box self.now rank sector) }
    {
        self.parts(
            rank,
            [
                self.part(sector, 0),
                self.part(sector, 1),
                self.part(sector, 2),
            ],
        )
    }
}

#[cfg(test)]
mod tests {
    use super::*;
    use spk_lattice::Style;
    use std::process::Abort;

    /// The halved boxes of a grid of ranks.
    fn halves(rt: &impl Abort, lattice: &Lattice, ranks: [u32; 3]) -> Sectors
        requires { All (λ n. (1 ≤ n) × (n ≤ 64)) ranks }
    {
        match Grid::new(lattice, ranks) {
            Ok(grid) => Sectors { grid, halved: true },
            Err(_) => panic!(rt; "there is such a grid"),
        }
    }

    fn compare_rank(rt: &impl Abort, sectors: &Sectors, rank: u32, lo: [i64; 3], hi: [i64; 3]) {
        assert!(rt; rank < sectors.ranks());
        assert_eq!(rt; sectors.rank_box(rank), Cells { lo, hi });
    }

    fn compare_sector(
        rt: &impl Abort,
        sectors: &Sectors,
        (rank, sector): (u32, u32),
        lo: [i64; 3],
        hi: [i64; 3],
    ) {
        assert!(rt; rank < sectors.ranks() && sector < sectors.count());
        assert_eq!(rt; sectors.sector_box(rank, sector), Cells { lo, hi });
    }

    #[test]
    fn halves_the_ranks_of_a_chain(rt: HostRuntime) {
        let Ok(chain) = Lattice::new(Style::Line2, 10, 1, 1) else {
            panic!(rt; "there is such a lattice");
        };
        let sectors = halves(&rt, &chain, [2, 1, 1]);
        assert_eq!(rt; sectors.ranks(), 2);
        assert_eq!(rt; sectors.count(), 2);
        compare_rank(&rt, &sectors, 0, [0, 0, 0], [5, 1, 1]);
        compare_rank(&rt, &sectors, 1, [5, 0, 0], [10, 1, 1]);
        compare_sector(&rt, &sectors, (0, 0), [0, 0, 0], [2, 1, 1]);
        compare_sector(&rt, &sectors, (0, 1), [2, 0, 0], [5, 1, 1]);
        compare_sector(&rt, &sectors, (1, 0), [5, 0, 0], [7, 1, 1]);
        compare_sector(&rt, &sectors, (1, 1), [7, 0, 0], [10, 1, 1]);
    }

    #[test]
    fn halves_the_ranks_of_a_square(rt: HostRuntime) {
        let Ok(square) = Lattice::new(Style::Sq4, 10, 7, 1) else {
            panic!(rt; "there is such a lattice");
        };
        let sectors = halves(&rt, &square, [2, 3, 1]);
        assert_eq!(rt; sectors.ranks(), 6);
        assert_eq!(rt; sectors.count(), 4);
        compare_rank(&rt, &sectors, 0, [0, 0, 0], [5, 2, 1]);
        compare_rank(&rt, &sectors, 1, [5, 0, 0], [10, 2, 1]);
        compare_rank(&rt, &sectors, 2, [0, 2, 0], [5, 4, 1]);
        compare_rank(&rt, &sectors, 5, [5, 4, 0], [10, 7, 1]);
        compare_sector(&rt, &sectors, (5, 0), [5, 4, 0], [7, 5, 1]);
        compare_sector(&rt, &sectors, (5, 1), [7, 4, 0], [10, 5, 1]);
        compare_sector(&rt, &sectors, (5, 2), [5, 5, 0], [7, 7, 1]);
        compare_sector(&rt, &sectors, (5, 3), [7, 5, 0], [10, 7, 1]);
    }

    #[test]
    fn a_solid_has_eight_sectors(rt: HostRuntime) {
        let Ok(solid) = Lattice::new(Style::Fcc, 4, 4, 4) else {
            panic!(rt; "there is such a lattice");
        };
        let sectors = halves(&rt, &solid, [1, 1, 1]);
        assert_eq!(rt; sectors.count(), 8);
        compare_sector(&rt, &sectors, (0, 7), [2, 2, 2], [4, 4, 4]);
    }
}
