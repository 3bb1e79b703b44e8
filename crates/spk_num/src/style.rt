//! The styles of lattice.

/// How the sites of a lattice lie and which of them are neighbours, by the names of SPPARKS.
#[derive(Clone, Copy, Debug, PartialEq, Eq)]
pub enum Style {
    /// A chain, each site with two neighbours.
    Line2,
    /// A square lattice with the four nearest neighbours.
    Sq4,
    /// A square lattice with the eight nearest neighbours.
    Sq8,
    /// A triangular lattice with six neighbours.
    Tri,
    /// A simple cubic lattice with the six nearest neighbours.
    Sc6,
    /// A simple cubic lattice with the 26 nearest neighbours.
    Sc26,
    /// A body-centred cubic lattice with eight neighbours.
    Bcc,
    /// A face-centred cubic lattice with twelve neighbours.
    Fcc,
}
