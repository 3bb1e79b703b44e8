//! A periodic lattice by its style and extents.

ghost use Rattle.std.specs.Prelude.{◌≡◌, ◌<◌, ◌≤◌, length, slice_index, ◌+◌, ◌*◌, ◌∷◌, [], pos, All};
ghost use Rattle.spk_lattice.specs.Layout.{IsLattice, lattice_of, sites_of, dimensions_of, basis_of};
ghost use Rattle.spk_lattice.specs.Shapes.{IsPoint};
ghost use Rattle.spk_lattice.specs.Sites.{IsSite};
ghost use Rattle.spk_lattice.specs.Neighbours.{IsId, IsSpot, spot_in, id_of, spot_of, place_of, point_of, coordinates, degree_of, ids_of, nb};

use crate::grid::{Grid, Spot};
use crate::neighbours::Neighbours;
use crate::place::Place;
use crate::reach::{self, Site};
use crate::style_row::style_row;
use crate::table::{Row, basis_point, table_of};
use spk_num::Style;
use std::marker::Model;
use thiserror::Error;

/// The most sites that a lattice may have.
const MOST_SITES: u128 = 4_194_304;

/// The fewest cells of a used dimension.
const FEWEST_CELLS: u32 = 3;

/// A lattice of one of the styles, periodic in each used dimension.
#[derive(Clone, Copy, Debug)]
pub struct Lattice {
    grid: Grid,
    table: [Row; 4],
}

impl Model for Lattice {
    ghost use Rattle.std.specs.Prelude.{◌≡◌};
    ghost use Rattle.spk_lattice.specs.Layout.{Layout};
    ghost use Rattle.spk_lattice.specs.Table.{table_of};

    ghost Value = { Layout };

    ghost view = { λ l. l.grid };

    ghost invariant = { λ l. table_of l.grid ≡ l.table };

    ghost inverse = { λ d. record { grid = d; table = table_of d } };

    ghost inverse_ok = { λ l is i. record { grid = l.grid; table = is i } };
}

/// Why there is no such lattice.
#[derive(Clone, Copy, PartialEq, Eq, Debug, Error)]
pub enum LatticeFault {
    /// This used dimension, 0 to 2 for x to z, has fewer than 3 cells.
    #[error("fewer than 3 cells in dimension {0}")]
    TooSmall(u32),
    /// There would be more than 4194304 sites.
    #[error("more than 4194304 sites")]
    TooManySites,
}

/// How many sites a lattice would have.
fn site_count(style: Style, nx: u32, ny: u32, nz: u32) -> u128
    ensures { result ≡ sites_of (record { style = style; nx = nx; ny = ny; nz = nz }) }
{
    style_row(style).basis.len() as u128 * (u128::from(nx) * u128::from(ny) * u128::from(nz))
}

/// A coordinate in half units, of a cell and of a basis point in it.
fn half_units(cell: u32, half: u32) -> i64
    ensures { result ≡ pos (2 * cell + half) }
{
    (2 * u64::from(cell) + u64::from(half)) as i64
}

impl Lattice {
    /// The lattice with this style and so many cells in each dimension. A dimension that isn't used has one cell.
    pub fn new(style: Style, nx: u32, ny: u32, nz: u32) -> Result<Lattice, LatticeFault>
        requires y_unused { dimensions_of style ≤ 1 → ny ≡ 1 }
        requires z_unused { dimensions_of style ≤ 2 → nz ≡ 1 }
        ensures { result ≡ lattice_of (record { style = style; nx = nx; ny = ny; nz = nz }) }
    {
        let used = style_row(style).dimensions;
        if nx < FEWEST_CELLS {
            return Err(LatticeFault::TooSmall(0));
        }
        if used > 1 && ny < FEWEST_CELLS {
            return Err(LatticeFault::TooSmall(1));
        }
        if used > 2 && nz < FEWEST_CELLS {
            return Err(LatticeFault::TooSmall(2));
        }
        if site_count(style, nx, ny, nz) > MOST_SITES {
            return Err(LatticeFault::TooManySites);
        }
        let grid = Grid::new(style, nx, ny, nz);
        Ok(Lattice {
            grid,
            table: table_of(&grid),
        })
    }

    /// What holds of every lattice: the least extents, and the most sites.
    pub fn known(&self)
        ensures { IsLattice self.now }
    {
        self.grid.known();
    }

    /// The style that the lattice was made with.
    pub fn style(&self) -> Style
        ensures { result ≡ self.now.style }
    {
        self.grid.style()
    }

    /// How many cells there are in x, y and z.
    pub fn extents(&self) -> [u32; 3]
        ensures { result ≡ self.now.nx ∷ self.now.ny ∷ self.now.nz ∷ [] }
    {
        self.grid.extents()
    }

    /// How many dimensions the lattice uses: x alone, x and y, or all three.
    pub fn dimensions(&self) -> u32
        ensures dimensions { result ≡ dimensions_of self.now.style }
        ensures few { result ≤ 3 }
    {
        style_row(self.grid.style()).dimensions
    }

    /// How many neighbours a site has.
    pub fn degree(&self) -> u32
        ensures degree { result ≡ degree_of self.now.style }
        ensures few { result ≤ 26 }
    {
        self.table[0].count
    }

    /// How many sites there are, at most 4194304.
    pub fn sites(&self) -> u32
        ensures count { result ≡ sites_of self.now }
        ensures limit { result ≤ 4194304 }
    {
        self.grid.known();
        self.grid.sites()
    }

    /// The id, counted from 1, of the site at a basis point of a cell.
    pub fn id_of(&self, cell: [u32; 3], basis: u32) -> u32
        requires { IsSpot self.now (spot_in cell basis) }
        ensures { result ≡ id_of self.now (spot_in cell basis) }
    {
        let [x, y, z] = cell;
        self.grid.id_of(&Spot { x, y, z, basis })
    }

    /// Where a site lies.
    pub fn cell_of(&self, id: u32) -> Place
        requires { IsId self.now id }
        ensures { result ≡ place_of (spot_of self.now id) }
    {
        let spot = self.grid.spot_of(id);
        Place {
            cell: [spot.x, spot.y, spot.z],
            basis: spot.basis,
        }
    }

    /// The neighbours of a site, in rising order of z, y, x and basis point of the way to them before wrapping.
    pub fn neighbours(&self, id: u32) -> Neighbours
        requires { IsId self.now id }
        ensures few { result.count ≤ 26 }
        ensures ids { ids_of result ≡ nb self.now id }
        ensures sites { All (IsId self.now) (nb self.now id) }
    {
        reach::neighbours(&self.grid, &self.table, id)
    }

    /// The site with an id, by which its neighbours are found one after another.
    pub fn site(&self, id: u32) -> Site
        requires { IsId self.now id }
        ensures site { IsSite self.now result }
        ensures id { result.id ≡ id }
        ensures degree { length (nb self.now id) ≡ degree_of self.now.style }
    {
        reach::site_of(&self.grid, id)
    }

    /// The neighbour of a site at a place in the list of its neighbours.
    pub fn neighbour(&self, site: &Site, k: usize) -> u32
        requires site { IsSite self.now site.now }
        requires k { k < degree_of self.now.style }
        ensures id { result ≡ slice_index (nb self.now site.now.id) k }
        ensures exists { IsId self.now result }
    {
        reach::neighbour(&self.grid, &self.table, site, k)
    }

    /// The three coordinates of a site, in half units.
    fn coordinates(&self, id: u32) -> [i64; 3]
        requires { IsId self.now id }
        ensures { result ≡ coordinates (point_of self.now id) }
    {
        let spot = self.grid.spot_of(id);
        let half = basis_point(self.grid.style(), spot.basis);
        [
            half_units(spot.x, half.x),
            half_units(spot.y, half.y),
            half_units(spot.z, half.z),
        ]
    }

    /// The point of a site, in half units: twice its cell, and its basis point.
    pub fn point(&self, id: u32) -> [i64; 3]
        requires { IsId self.now id }
        ensures point { result ≡ coordinates (point_of self.now id) }
        ensures near { IsPoint result }
    {
        self.known();
        self.coordinates(id)
    }
}

#[cfg(test)]
mod tests {
    use super::*;
    use std::process::Abort;

    #[test]
    fn limits_a_chain(rt: HostRuntime) {
        for (cells, want) in [
            (2, Some(LatticeFault::TooSmall(0))),
            (3, None),
            (4194304, None),
            (4194305, Some(LatticeFault::TooManySites)),
        ] {
            assert_eq!(rt;
                Lattice::new(Style::Line2, cells, 1, 1).err(),
                want,
                "at {cells}"
            );
        }
    }

    /// The lattice with this style and so many cells.
    fn made(rt: &impl Abort, style: Style, nx: u32, ny: u32, nz: u32) -> Lattice
        requires y_unused { dimensions_of style ≤ 1 → ny ≡ 1 }
        requires z_unused { dimensions_of style ≤ 2 → nz ≡ 1 }
        ensures { result ≡ record { style = style; nx = nx; ny = ny; nz = nz } }
    {
        match Lattice::new(style, nx, ny, nz) {
            Ok(lattice) => lattice,
            Err(_) => panic!(rt; "there is such a lattice"),
        }
    }

    #[test]
    fn keeps_what_it_was_made_with(rt: HostRuntime) {
        let lattice = made(&rt, Style::Line2, 10, 1, 1);
        assert_eq!(rt; lattice.style() == Style::Line2, true);
        assert_eq!(rt; lattice.extents(), [10, 1, 1]);
        assert_eq!(rt; lattice.dimensions(), 1);
        assert_eq!(rt; crate::dimensions(Style::Fcc), 3);
        lattice.known();
        assert_eq!(rt; lattice.sites(), 10);
        assert_eq!(rt; lattice.degree(), 2);
    }

    #[test]
    fn numbers_the_sites_of_fcc(rt: HostRuntime) {
        let lattice = made(&rt, Style::Fcc, 3, 3, 3);
        assert_eq!(rt; lattice.sites(), 108);
        assert_eq!(rt; lattice.id_of([1, 0, 0], 2), 7);
        assert_eq!(rt;
            lattice.cell_of(7),
            Place {
                cell: [1, 0, 0],
                basis: 2
            }
        );
        assert_eq!(rt; lattice.point(7), [3, 0, 1]);
    }

    #[test]
    fn lists_neighbours_in_order(rt: HostRuntime) {
        let square = made(&rt, Style::Sq8, 3, 3, 1).neighbours(1);
        assert_eq!(rt; square.as_slice(), [9, 7, 8, 3, 2, 6, 4, 5].as_slice());
        let cubic = made(&rt, Style::Bcc, 3, 3, 3).neighbours(1);
        assert_eq!(rt; cubic.as_slice(), [54, 50, 42, 38, 18, 14, 6, 2].as_slice());
    }

    #[test]
    fn finds_neighbours_one_after_another(rt: HostRuntime) {
        let lattice = made(&rt, Style::Sq8, 3, 3, 1);
        let site = lattice.site(1);
        let near = [9, 7, 8, 3, 2, 6, 4, 5];
        for (k, want) in near.iter().enumerate() {
            assert!(rt; k < lattice.degree() as usize);
            assert_eq!(rt; lattice.neighbour(&site, k), *want, "at {k}");
        }
    }
}
