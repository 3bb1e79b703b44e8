//! Why a call of the simulator gave up.

ghost use Rattle.std.specs.Prelude.{◌≡◌};
ghost use Rattle.spk_run.specs.declared.fault.Fault.TheVariants as fault;

use crate::answer::Target;
use crate::cause::Cause;
use spk_num::text::Text;
use std::alloc::{AllocError, AllocFailed};

/// Why a command was not obeyed.
#[derive(Debug, Drop)]
pub enum Trouble {
    /// It is refused.
    Refused(Cause),
    /// This file could not be read.
    ReadFault(Text),
    /// A write there failed.
    WriteFault(Target),
    /// There was not enough memory.
    Memory,
}

/// Why a call inside gave up: a file could not be read, a write failed, or there was not enough memory.
#[derive(Debug, Drop)]
pub enum Fault {
    Read(Text),
    Write(Target),
    Memory,
}

impl From<Target> for Fault {
    ghost from_gives = { λ target e. e ≡ fault.Write target };

    fn from(target: Target) -> Fault {
        Fault::Write(target)
    }
}

impl From<AllocError> for Fault {
    ghost from_gives = { λ _ e. e ≡ fault.Memory };

    fn from(_: AllocError) -> Fault {
        Fault::Memory
    }
}

impl<T: Drop> From<AllocFailed<T>> for Fault {
    ghost from_gives = { λ _ e. e ≡ fault.Memory };

    fn from(_: AllocFailed<T>) -> Fault {
        Fault::Memory
    }
}
