//! Why a text is no site file.

use thiserror::Error;

/// The first fault of a site file. Lines are counted from 1.
#[derive(Clone, Copy, PartialEq, Eq, Debug, Error)]
pub enum SiteFault {
    /// The line `Values` comes before a count of the sites, or never.
    #[error("no count of sites before the values")]
    NoHeader,
    /// There are said to be so many sites, and the lattice has another number.
    #[error("{0} sites")]
    SitesCount(u64),
    /// A line of the values isn't an id and a value.
    #[error("line {0} isn't an id and a value")]
    BadLine(u32),
    /// No site has the id on this line.
    #[error("bad id in line {0}")]
    BadId(u32),
    /// The id on this line has had a value before.
    #[error("id a second time in line {0}")]
    TwiceId(u32),
    /// The site with this id has no value. No lesser one lacks a value.
    #[error("no value for site {0}")]
    MissingId(u32),
    /// A site can't have the value on this line.
    #[error("bad value in line {0}")]
    BadValue(u32),
    /// A section of another kind begins on this line.
    #[error("another section in line {0}")]
    OtherSection(u32),
    #[error("out of memory")]
    Memory,
}
