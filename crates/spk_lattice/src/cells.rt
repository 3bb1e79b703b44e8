//! Boxes of cells.

/// A box of cells, of which `hi` has the first that isn't in it any more, in x, y and z.
///
/// A cell may lie outside the lattice: it then shows the cell to which it wraps.
#[derive(Clone, Copy, PartialEq, Eq, Debug)]
pub struct Cells {
    pub lo: [i64; 3],
    pub hi: [i64; 3],
}
