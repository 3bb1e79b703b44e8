//! Lattices: their styles, extents, sites and neighbours. Regions: which points they hold.
#![tactic(auto)]

pub mod cells;
mod divisor;
mod grid;
pub mod lattice;
pub mod neighbours;
pub mod place;
mod reach;
pub mod regions;
mod style_row;
mod table;

pub use cells::Cells;
pub use lattice::{Lattice, LatticeFault};
pub use neighbours::Neighbours;
pub use place::Place;
pub use reach::Site;
pub use regions::{Block, RegionFault, Regions};
pub use spk_num::{Bound, Shape, Style};
pub use style_row::{basis_points, dimensions};
