//! Why a region can't be added.

ghost use Rattle.std.specs.Prelude.{◌≡◌};

use spk_num::text::Text;
use std::alloc::{AllocError, AllocFailed};

/// Why a region can't be added.
#[derive(Debug, Drop)]
pub enum RegionFault {
    /// A region has this name already.
    Twice,
    /// No region has this name, the first such name among the parts.
    Unknown(Text),
    /// A low bound is above the high one, or there are no parts.
    Empty,
    /// There are more than 16 parts.
    TooManyParts,
    /// It would be the 129th region.
    TooManyRegions,
    /// Out of memory.
    Memory,
}

impl From<AllocError> for RegionFault {
    ghost use Rattle.spk_lattice.specs.declared.regions.fault.RegionFault.TheVariants.{Memory};

    ghost from_gives = { λ _ e. e ≡ Memory };

    fn from(_: AllocError) -> RegionFault {
        RegionFault::Memory
    }
}

impl<T: Drop> From<AllocFailed<T>> for RegionFault {
    ghost use Rattle.spk_lattice.specs.declared.regions.fault.RegionFault.TheVariants.{Memory};

    ghost from_gives = { λ _ e. e ≡ Memory };

    fn from(_: AllocFailed<T>) -> RegionFault {
        RegionFault::Memory
    }
}
