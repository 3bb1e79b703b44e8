//! The styles of sweep.

/// In which order a sweep tries the sites.
#[derive(Clone, Copy, Debug, PartialEq, Eq)]
pub enum Sweep {
    Random,
    Raster,
    Color,
}
