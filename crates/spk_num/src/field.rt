//! The fields of a text dump.

/// What a dump has of each site.
#[derive(Clone, Copy, Debug, PartialEq, Eq)]
pub enum Field {
    Id,
    Site,
    /// The same value as `Site`, under another name.
    I1,
    X,
    Y,
    Z,
    Energy,
}
