//! The shapes of regions.

use crate::decimal::Dec;
use crate::texts::Texts;

/// A bound of a region in one dimension, in lattice units.
#[derive(Clone, Copy, Debug, PartialEq, Eq)]
pub enum Bound {
    At(Dec),
    Open,
}

/// The shape of a region. All numbers are in lattice units, and what lies on a bound is inside.
#[derive(Debug, Drop)]
pub enum Shape {
    Block {
        lo: [Bound; 3],
        hi: [Bound; 3],
    },
    Sphere {
        centre: [Dec; 3],
        radius: Dec,
    },
    /// The axis is 0, 1 or 2 for x, y or z. The centre is that in the other two dimensions, in their order.
    Cylinder {
        axis: u32,
        centre: [Dec; 2],
        radius: Dec,
        lo: Bound,
        hi: Bound,
    },
    /// What lies in any of these regions.
    Union {
        parts: Texts,
    },
    /// What lies in all of these regions.
    Intersect {
        parts: Texts,
    },
}
