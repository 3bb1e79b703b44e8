//! A site's neighbours, read off the table.

ghost use Rattle.std.specs.Prelude.{◌≡◌, ◌<◌, ◌≤◌, length, slice_index, ◌≤ℤ◌, ◌+ℤ◌, pos, All, Contains};
ghost use Rattle.spk_lattice.specs.Layout.{IsLattice};
ghost use Rattle.spk_lattice.specs.Neighbours.{IsId, IsSpot, id_of, spot_of, moved, offsets, degree_of, nb, ids_of};
ghost use Rattle.spk_lattice.specs.Sites.{IsSite};
ghost use Rattle.spk_lattice.specs.Table.{is_inner, step_of, table_of};

use crate::grid::{Grid, Spot};
use crate::neighbours::Neighbours;
use crate::table::{Row, Step};

/// A site by which its neighbours are found one after another: where it lies, and whether none lies across a rim.
#[derive(Clone, Copy, Debug)]
pub struct Site {
    id: u32,
    spot: Spot,
    inner: bool,
}

/// An id with a difference added.
fn add(id: u32, difference: i64) -> u32
    requires low { pos 0 ≤ℤ (pos id +ℤ difference) }
    requires high { (pos id +ℤ difference) ≤ℤ pos 4194304 }
    ensures { pos result ≡ pos id +ℤ difference }
{
    (i64::from(id) + difference) as u32
}

/// The id of the neighbour that a step leads to.
fn reached(grid: &Grid, site: &Site, step: &Step) -> u32
    requires lattice { IsLattice grid.now }
    requires id { IsId grid.now site.now.id }
    requires spot { site.now.spot ≡ spot_of grid.now site.now.id }
    requires inner { site.now.inner ≡ is_inner grid.now site.now.spot }
    requires leads { Contains (offsets grid.now.style site.now.spot.basis) step.now.offset }
    requires step { step.now ≡ step_of grid.now site.now.spot.basis step.now.offset }
    ensures { result ≡ id_of grid.now (moved grid.now site.now.spot step.now.offset) }
{
    if site.inner {
        add(site.id, step.difference)
    } else {
        grid.id_of(&grid.moved(&site.spot, &step.offset))
    }
}

/// The site with an id.
pub fn site_of(grid: &Grid, id: u32) -> Site
    requires { IsId grid.now id }
    ensures site { IsSite grid.now result }
    ensures id { result.id ≡ id }
    ensures degree { length (nb grid.now id) ≡ degree_of grid.now.style }
{
    grid.known();
    let spot = grid.spot_of(id);
    Site {
        id,
        spot,
        inner: grid.is_inner(&spot),
    }
}

/// One of the neighbours of a site, by the table.
pub fn neighbour(grid: &Grid, table: &[Row; 4], site: &Site, k: usize) -> u32
    requires table { table.now ≡ table_of grid.now }
    requires site { IsSite grid.now site.now }
    requires k { k < degree_of grid.now.style }
    ensures id { result ≡ slice_index (nb grid.now site.now.id) k }
    ensures exists { IsId grid.now result }
{
    grid.known();
    let row = &table[site.spot.basis as usize];
    reached(grid, site, &row.steps[k])
}

/// The neighbours of a site, by the table.
pub fn neighbours(grid: &Grid, table: &[Row; 4], id: u32) -> Neighbours
    requires id { IsId grid.now id }
    requires table { table.now ≡ table_of grid.now }
    ensures few { result.count ≤ 26 }
    ensures ids { ids_of result ≡ nb grid.now id }
    ensures sites { All (IsId grid.now) (nb grid.now id) }
{
    grid.known();
    let site = site_of(grid, id);
    let row = &table[site.spot.basis as usize];
    let mut ids = [0; 26];
    for k in 0..row.count as usize {
        ids[k] = reached(grid, &site, &row.steps[k]);
    }
    Neighbours {
        count: row.count,
        ids,
    }
}
