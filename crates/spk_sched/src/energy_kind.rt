//! How the energy of a site is counted.

/// Which neighbours of a site its energy counts.
#[derive(Clone, Copy, Debug, PartialEq, Eq)]
pub enum EnergyKind {
    /// Those with another value.
    Unlike,
    /// None: it is 0.
    Zero,
    /// Those that are vacant, where the site is occupied.
    Vacant,
}
