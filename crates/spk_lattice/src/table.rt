//! The table by which a lattice finds neighbours.

ghost use Rattle.std.specs.Prelude.{◌≡◌, ◌≤◌, ◌<◌, ◌+◌, ◌*◌, IsTrue, cond, length};
ghost use Rattle.spk_lattice.specs.Layout.{basis_of};
ghost use Rattle.spk_lattice.specs.Neighbours.{leads, offset_at, basis_point, distance, apart, same_point};
ghost use Rattle.spk_lattice.specs.Styles.{row_of};
ghost use Rattle.spk_lattice.specs.Table.{step_of, added, row_at, table_of};

use crate::grid::Grid;
use crate::style_row::{Point, StyleRow, style_row};
use spk_num::Style;

/// A neighbour's cell as seen from a site's, one more in each dimension, so from 0 to 2, and its basis point.
#[derive(Clone, Copy, Debug)]
pub struct Offset {
    pub dx: u32,
    pub dy: u32,
    pub dz: u32,
    pub basis: u32,
}

/// The way from a site to a neighbour.
#[derive(Clone, Copy, Debug)]
pub struct Step {
    pub offset: Offset,
    /// The neighbour's id minus the site's, where no cell wraps.
    pub difference: i64,
}

/// The steps from a basis point to its neighbours: of these the first `count` count.
#[derive(Clone, Copy, Debug)]
pub struct Row {
    pub count: u32,
    pub steps: [Step; 26],
}

const NO_STEP: Step = Step {
    offset: Offset {
        dx: 0,
        dy: 0,
        dz: 0,
        basis: 0,
    },
    difference: 0,
};

/// The offsets to all basis points of cells that touch, one by one.
fn offset_at(points: u32, k: u32) -> Offset
    requires points { 0 < points }
    requires within { k < 27 * points }
    ensures offset { result ≡ offset_at points k }
    ensures dx { result.dx < 3 }
    ensures dy { result.dy < 3 }
    ensures dz { result.dz < 3 }
    ensures basis { result.basis < points }
{
    let cell = k / points;
    Offset {
        dx: cell % 3,
        dy: cell / 3 % 3,
        dz: cell / 3 / 3,
        basis: k % points,
    }
}

/// How far two points are apart in one dimension, in half units, where their cells are d - 1 apart.
fn apart(d: u32, there: u32, here: u32) -> u32
    requires d { d < 3 }
    requires there { there < 2 }
    requires here { here < 2 }
    ensures { result ≡ apart d there here }
{
    (2 * d + there).abs_diff(2 + here)
}

/// A basis point, in half units.
pub fn basis_point(style: Style, basis: u32) -> Point
    requires { basis < basis_of style }
    ensures point { result ≡ basis_point style basis }
    ensures x { result.x < 2 }
    ensures y { result.y < 2 }
    ensures z { result.z < 2 }
{
    style_row(style).basis[basis as usize]
}

/// Two points are the same.
fn same_point(p: &Point, q: &Point) -> bool
    ensures { result ≡ same_point p.now q.now }
{
    p.x == q.x && p.y == q.y && p.z == q.z
}

/// An offset from a basis point leads to a neighbour.
fn leads(style: Style, basis: u32, offset: &Offset) -> bool
    requires basis { basis < basis_of style }
    requires dx { offset.now.dx < 3 }
    requires dy { offset.now.dy < 3 }
    requires dz { offset.now.dz < 3 }
    requires offset_basis { offset.now.basis < basis_of style }
    ensures { result ≡ leads style basis offset.now }
{
    let there = basis_point(style, offset.basis);
    let here = basis_point(style, basis);
    let distance = Point {
        x: apart(offset.dx, there.x, here.x),
        y: apart(offset.dy, there.y, here.y),
        z: apart(offset.dz, there.z, here.z),
    };
    style_row(style)
        .distances
        .iter()
        .any(|d| same_point(d, &distance))
}

/// Adds one step more.
fn add(row: &mut Row, step: Step)
    requires { row.old.count < 26 }
    ensures { row.new ≡ added row.old step }
{
    row.steps[row.count as usize] = step;
    row.count += 1;
}

/// Adds the step of an offset, where it leads to a neighbour.
fn consider(grid: &Grid, basis: u32, offset: &Offset, row: &mut Row)
    requires basis { basis < basis_of grid.now.style }
    requires dx { offset.now.dx < 3 }
    requires dy { offset.now.dy < 3 }
    requires dz { offset.now.dz < 3 }
    requires offset_basis { offset.now.basis < basis_of grid.now.style }
    requires room { IsTrue (leads grid.now.style basis offset.now) → row.old.count < 26 }
    ensures { row.new ≡ cond (leads grid.now.style basis offset.now) (added row.old (step_of grid.now basis offset.now)) row.old }
{
    if leads(grid.style(), basis, offset) {
        add(
            row,
            Step {
                offset: *offset,
                difference: grid.difference(basis, offset),
            },
        );
    }
}

/// The row of a basis point. One past the last has an empty row.
fn row_at(grid: &Grid, basis: u32) -> Row
    ensures { result ≡ row_at grid.now basis }
{
    let mut row = Row {
        count: 0,
        steps: [NO_STEP; 26],
    };
    let points = grid.points();
    if basis < points {
        for k in 0..27 * points {
            consider(grid, basis, &offset_at(points, k), &mut row);
        }
    }
    row
}

/// The rows of all basis points.
pub fn table_of(grid: &Grid) -> [Row; 4]
    ensures { result ≡ table_of grid.now }
{
    [
        row_at(grid, 0),
        row_at(grid, 1),
        row_at(grid, 2),
        row_at(grid, 3),
    ]
}
