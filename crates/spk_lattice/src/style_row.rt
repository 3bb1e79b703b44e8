//! What is particular to each style: the one table that knows them.

ghost use Rattle.std.specs.Prelude.{◌≡◌, ◌≤◌};
ghost use Rattle.spk_lattice.specs.Layout.{basis_of, dimensions_of};
ghost use Rattle.spk_lattice.specs.Styles.{row_of};

use spk_num::Style;

/// A point, or how far two points are apart, in half units.
#[derive(Clone, Copy, PartialEq, Eq, Debug)]
pub struct Point {
    pub x: u32,
    pub y: u32,
    pub z: u32,
}

/// One row of the table.
#[derive(Clone, Copy)]
pub struct StyleRow {
    /// How many dimensions are used: x alone, x and y, or all three.
    pub dimensions: u32,
    /// The basis points of a cell.
    pub basis: &'static [Point],
    /// How far neighbours are apart, but for signs.
    pub distances: &'static [Point],
}

/// The row of a style.
pub fn style_row(style: Style) -> StyleRow
    ensures dimensions { result.dimensions ≡ (row_of style).dimensions }
    ensures few { result.dimensions ≤ 3 }
    ensures basis { result.basis.now ≡ (row_of style).basis }
    ensures distances { result.distances.now ≡ (row_of style).distances }
{
    match style {
        Style::Line2 => StyleRow {
            dimensions: 1,
            basis: &[Point { x: 0, y: 0, z: 0 }],
            distances: &[Point { x: 2, y: 0, z: 0 }],
        },
        Style::Sq4 => StyleRow {
            dimensions: 2,
            basis: &[Point { x: 0, y: 0, z: 0 }],
            distances: &[Point { x: 2, y: 0, z: 0 }, Point { x: 0, y: 2, z: 0 }],
        },
        Style::Sq8 => StyleRow {
            dimensions: 2,
            basis: &[Point { x: 0, y: 0, z: 0 }],
            distances: &[
                Point { x: 2, y: 0, z: 0 },
                Point { x: 0, y: 2, z: 0 },
                Point { x: 2, y: 2, z: 0 },
            ],
        },
        Style::Tri => StyleRow {
            dimensions: 2,
            basis: &[Point { x: 0, y: 0, z: 0 }, Point { x: 1, y: 1, z: 0 }],
            distances: &[Point { x: 2, y: 0, z: 0 }, Point { x: 1, y: 1, z: 0 }],
        },
        Style::Sc6 => StyleRow {
            dimensions: 3,
            basis: &[Point { x: 0, y: 0, z: 0 }],
            distances: &[
                Point { x: 2, y: 0, z: 0 },
                Point { x: 0, y: 2, z: 0 },
                Point { x: 0, y: 0, z: 2 },
            ],
        },
        Style::Sc26 => StyleRow {
            dimensions: 3,
            basis: &[Point { x: 0, y: 0, z: 0 }],
            distances: &[
                Point { x: 2, y: 0, z: 0 },
                Point { x: 0, y: 2, z: 0 },
                Point { x: 2, y: 2, z: 0 },
                Point { x: 0, y: 0, z: 2 },
                Point { x: 2, y: 0, z: 2 },
                Point { x: 0, y: 2, z: 2 },
                Point { x: 2, y: 2, z: 2 },
            ],
        },
        Style::Bcc => StyleRow {
            dimensions: 3,
            basis: &[Point { x: 0, y: 0, z: 0 }, Point { x: 1, y: 1, z: 1 }],
            distances: &[Point { x: 1, y: 1, z: 1 }],
        },
        Style::Fcc => StyleRow {
            dimensions: 3,
            basis: &[
                Point { x: 0, y: 0, z: 0 },
                Point { x: 0, y: 1, z: 1 },
                Point { x: 1, y: 0, z: 1 },
                Point { x: 1, y: 1, z: 0 },
            ],
            distances: &[
                Point { x: 1, y: 1, z: 0 },
                Point { x: 1, y: 0, z: 1 },
                Point { x: 0, y: 1, z: 1 },
            ],
        },
    }
}

/// How many sites a cell has.
pub fn basis_points(style: Style) -> u32
    ensures count { result ≡ basis_of style }
    ensures few { result ≤ 4 }
{
    style_row(style).basis.len() as u32
}

/// How many dimensions a style uses: x alone, x and y, or all three.
pub fn dimensions(style: Style) -> u32
    ensures count { result ≡ dimensions_of style }
    ensures few { result ≤ 3 }
{
    style_row(style).dimensions
}
