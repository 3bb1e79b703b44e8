//! Where a site lies.

/// A cell, counted from 0 in x, y and z, and one of its basis points.
#[derive(Clone, Copy, PartialEq, Eq, Debug)]
pub struct Place {
    pub cell: [u32; 3],
    pub basis: u32,
}
