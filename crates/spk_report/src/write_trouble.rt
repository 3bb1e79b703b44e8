//! Why a text was not written.

ghost use Rattle.std.specs.Prelude.{◌≡◌};
ghost use Rattle.spk_report.specs.declared.write_trouble.WriteTrouble.TheVariants as trouble;

use spk_world::Failed;

/// What a write failed at. A prefix of the text was written by then.
#[derive(Clone, Copy, Debug, PartialEq, Eq)]
pub enum WriteTrouble {
    Screen,
    /// The log, or the file of a dump.
    File,
}

impl From<Failed> for WriteTrouble {
    ghost from_gives = { λ _ e. e ≡ trouble.File };

    fn from(_: Failed) -> WriteTrouble {
        WriteTrouble::File
    }
}
