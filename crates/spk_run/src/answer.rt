//! What a run of the program came to.

ghost use Rattle.std.specs.Prelude.{◌≡◌};
ghost use Rattle.spk_run.specs.Endings.{status_of, answer_of};

use crate::cause::Cause;
use spk_num::text::Text;

/// What a run of the program came to.
#[derive(Debug, Drop)]
pub enum Answer {
    /// The script was obeyed to its end.
    Done,
    /// The script was refused at this line, counted from 1. It is 0 where the script as a whole was.
    Refused { line: u32, cause: Cause },
    /// The command line is wrong: this word, counted from 1, is the first that can't stand there.
    Usage { word: u64 },
    /// This file could not be read.
    ReadFault { name: Text },
    /// A write there failed.
    WriteFault { target: Target },
    /// There was not enough memory.
    OutOfMemory,
}

/// Where the program writes.
#[derive(Debug, Drop)]
pub enum Target {
    Screen,
    File(Text),
}

/// How a script that could be read and written to its end has ended.
#[derive(Debug, Drop)]
pub enum Ending {
    Done,
    Refused { line: u32, cause: Cause },
}

impl Ending {
    /// The answer of a run that has ended so.
    pub fn answer(self) -> Answer
        ensures { result ≡ answer_of self }
    {
        match self {
            Ending::Done => Answer::Done,
            Ending::Refused { line, cause } => Answer::Refused { line, cause },
        }
    }
}

/// The exit status of an answer: 0 where the script was obeyed, 1 where it was refused, 2 where the command line is
/// wrong, 3 after a failed read or write, 4 where there was not enough memory.
pub fn status(answer: &Answer) -> u8
    ensures { result ≡ status_of answer.now }
{
    match answer {
        Answer::Done => 0,
        Answer::Refused { .. } => 1,
        Answer::Usage { .. } => 2,
        Answer::ReadFault { .. } | Answer::WriteFault { .. } => 3,
        Answer::OutOfMemory => 4,
    }
}
