//! The cells of a lattice, and the ids of its sites.

ghost use Rattle.std.specs.Prelude.{◌≡◌, ◌≤◌, ◌<◌, ◌/◌, ◌%◌, ◌∷◌, [], IsTrue, pos, ◌-ℤ◌};
ghost use Rattle.spk_lattice.specs.Layout.{IsLattice, sites_of, dimensions_of, basis_of};
ghost use Rattle.spk_lattice.specs.Neighbours.{IsId, IsSpot, id_of, spot_of, wrapped, moved};
ghost use Rattle.spk_lattice.specs.Table.{is_between, is_inner, ahead, own};

use crate::divisor::Divisor;
use crate::style_row::style_row;
use crate::table::Offset;
use spk_num::Style;
use std::marker::Model;

/// A cell, counted from 0 in each dimension, and one of its basis points.
#[derive(Clone, Copy, Debug)]
pub struct Spot {
    pub x: u32,
    pub y: u32,
    pub z: u32,
    pub basis: u32,
}

/// How many sites a cell has, and how many cells there are.
#[derive(Clone, Copy, Debug)]
pub struct Grid {
    style: Style,
    points: u32,
    nx: u32,
    ny: u32,
    nz: u32,
    by_points: Divisor,
    by_nx: Divisor,
    by_ny: Divisor,
}

impl Model for Grid {
    ghost use Rattle.std.specs.Prelude.{◌≡◌};
    ghost use Rattle.spk_lattice.specs.Layout.{Layout, IsLattice, basis_of};

    ghost Value = { Layout };

    ghost view = { λ g. record { style = g.style; nx = g.nx; ny = g.ny; nz = g.nz } };

    ghost invariant = { λ g. IsLattice (record { style = g.style; nx = g.nx; ny = g.ny; nz = g.nz }) × (basis_of g.style ≡ g.points)
        × (basis_of g.style ≡ g.by_points) × (g.nx ≡ g.by_nx) × (g.ny ≡ g.by_ny) };

    ghost inverse = { λ d. record {
      style = d.style;
      points = basis_of d.style;
      nx = d.nx;
      ny = d.ny;
      nz = d.nz;
      by_points = basis_of d.style;
      by_nx = d.nx;
      by_ny = d.ny;
    } };

    ghost inverse_ok = { λ g is i. record {
      style = g.style;
      points = is.1 i;
      nx = g.nx;
      ny = g.ny;
      nz = g.nz;
      by_points = is.2 i;
      by_nx = is.3 i;
      by_ny = is.4 i;
    } };
}

/// A coordinate after a move by d - 1, where the last cell touches the first.
fn wrap(x: u32, d: u32, n: u32) -> u32
    requires x { x < n }
    requires d { d < 3 }
    requires few { n ≤ 4194304 }
    ensures { result ≡ wrapped x d n }
{
    let after = x + d;
    if after == 0 {
        n - 1
    } else if after > n {
        0
    } else {
        after - 1
    }
}

/// Neither this cell nor those beside it lie across a rim.
fn is_between(x: u32, n: u32) -> bool
    requires { x < n }
    ensures { result ≡ is_between x n }
{
    0 < x && x + 1 < n
}

impl Grid {
    /// A grid with this style and so many cells in each dimension.
    pub fn new(style: Style, nx: u32, ny: u32, nz: u32) -> Grid
        requires { IsLattice (record { style = style; nx = nx; ny = ny; nz = nz }) }
        ensures { result ≡ record { style = style; nx = nx; ny = ny; nz = nz } }
    {
        let points = style_row(style).basis.len() as u32;
        Grid {
            style,
            points,
            nx,
            ny,
            nz,
            by_points: Divisor::new(points),
            by_nx: Divisor::new(nx),
            by_ny: Divisor::new(ny),
        }
    }

    /// What holds of every grid.
    pub fn known(&self)
        ensures { IsLattice self.now }
    {
        let _points = self.points;
    }

    pub fn style(&self) -> Style
        ensures { result ≡ self.now.style }
    {
        self.style
    }

    /// How many cells there are in x, y and z.
    pub fn extents(&self) -> [u32; 3]
        ensures { result ≡ self.now.nx ∷ self.now.ny ∷ self.now.nz ∷ [] }
    {
        [self.nx, self.ny, self.nz]
    }

    /// How many sites a cell has.
    pub fn points(&self) -> u32
        ensures count { result ≡ basis_of self.now.style }
        ensures few { result ≤ 4 }
    {
        self.points
    }

    /// How many sites there are.
    pub fn sites(&self) -> u32
        ensures { result ≡ sites_of self.now }
    {
        let cells = u128::from(self.nx) * u128::from(self.ny) * u128::from(self.nz);
        (u128::from(self.points) * cells) as u32
    }

    /// The id of the site at a spot.
    pub fn id_of(&self, spot: &Spot) -> u32
        requires { IsSpot self.now spot.now }
        ensures { result ≡ id_of self.now spot.now }
    {
        1 + spot.basis + self.points * (spot.x + self.nx * (spot.y + self.ny * spot.z))
    }

    /// Where a site lies.
    pub fn spot_of(&self, id: u32) -> Spot
        requires { IsId self.now id }
        ensures spot { result ≡ spot_of self.now id }
        ensures exists { IsSpot self.now result }
    {
        let (cell, basis) = self.by_points.split(id - 1);
        let (row, x) = self.by_nx.split(cell);
        let (z, y) = self.by_ny.split(row);
        Spot { x, y, z, basis }
    }

    /// No neighbour of this spot lies across a rim.
    pub fn is_inner(&self, spot: &Spot) -> bool
        requires { IsSpot self.now spot.now }
        ensures { result ≡ is_inner self.now spot.now }
    {
        is_between(spot.x, self.nx)
            && (self.ny == 1 || is_between(spot.y, self.ny))
            && (self.nz == 1 || is_between(spot.z, self.nz))
    }

    /// The spot that an offset leads to.
    pub fn moved(&self, spot: &Spot, offset: &Offset) -> Spot
        requires spot { IsSpot self.now spot.now }
        requires dx { offset.now.dx < 3 }
        requires dy { offset.now.dy < 3 }
        requires dz { offset.now.dz < 3 }
        ensures { result ≡ moved self.now spot.now offset.now }
    {
        Spot {
            x: wrap(spot.x, offset.dx, self.nx),
            y: wrap(spot.y, offset.dy, self.ny),
            z: wrap(spot.z, offset.dz, self.nz),
            basis: offset.basis,
        }
    }

    /// The id that an offset from a basis point adds, where no cell wraps.
    pub fn difference(&self, basis: u32, offset: &Offset) -> i64
        requires basis { basis < 4 }
        requires dx { offset.now.dx < 3 }
        requires dy { offset.now.dy < 3 }
        requires dz { offset.now.dz < 3 }
        requires offset_basis { offset.now.basis < 4 }
        ensures { result ≡ pos (id_of self.now (ahead offset.now)) -ℤ pos (id_of self.now (own basis)) }
    {
        i64::from(self.ahead(offset))
            - i64::from(self.ahead(&Offset {
                dx: 1,
                dy: 1,
                dz: 1,
                basis,
            }))
    }

    /// The id of an offset, as seen from one cell before in each dimension.
    fn ahead(&self, offset: &Offset) -> u32
        requires dx { offset.now.dx < 3 }
        requires dy { offset.now.dy < 3 }
        requires dz { offset.now.dz < 3 }
        requires basis { offset.now.basis < 4 }
        ensures { result ≡ id_of self.now (ahead offset.now) }
    {
        let row = offset.dy + self.ny * offset.dz;
        1 + offset.basis + self.points * (offset.dx + self.nx * row)
    }
}
