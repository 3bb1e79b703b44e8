//! Why a line of a script is refused.

ghost use Rattle.std.specs.Prelude.{◌≡◌};

use spk_num::text::Text;
use std::alloc::{AllocError, AllocFailed};

/// Why a line is refused.
#[derive(Debug, Drop)]
pub enum LineFault {
    /// Its words take more than 4096 bytes, one blank between them counted.
    LineTooLong,
    /// A run of a script arrives at no more than 1000000 commands. This is the number of the line that would be next.
    TooManyCommands(u32),
    /// No variable has this name.
    UnknownVariable(Text),
    /// The command takes another number of words.
    WrongWords,
    /// A name has 1 to 32 letters, digits or `_`, and this word hasn't.
    BadName(Text),
    /// At this offset, counted from 0, stands a byte of a formula that can't stand there.
    BadFormula(u32),
    /// The result of an operation has more than six places, or a divisor is 0.
    Inexact,
    /// The result of an operation passes 10^12, with either sign.
    NumberTooLarge,
    /// A loop has 1 to 1000000 turns.
    LoopValue,
    /// The variable with this name has no next value, whatever its value is.
    NotStepped(Text),
    /// A jump names another file than the script itself.
    OtherFile,
    /// No line is this label.
    NoSuchLabel(Text),
    /// No variable has this style.
    BadStyle(Text),
    /// Out of memory.
    Memory,
}

impl From<AllocError> for LineFault {
    ghost use Rattle.spk_script.specs.declared.fault.LineFault.TheVariants.{Memory};

    ghost from_gives = { λ _ e. e ≡ Memory };

    fn from(_: AllocError) -> LineFault {
        LineFault::Memory
    }
}

impl<T: Drop> From<AllocFailed<T>> for LineFault {
    ghost use Rattle.spk_script.specs.declared.fault.LineFault.TheVariants.{Memory};

    ghost from_gives = { λ _ e. e ≡ Memory };

    fn from(_: AllocFailed<T>) -> LineFault {
        LineFault::Memory
    }
}
