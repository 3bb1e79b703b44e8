//! What can be wrong with a file of cases.

use std::alloc::AllocError;
use thiserror::Error;

/// Why a line of a file of cases can't be read.
#[derive(Debug, Drop, Error)]
pub enum Cause {
    #[error("no heading has this word")]
    UnknownHeading,
    #[error("a heading before the first case")]
    OutsideCase,
    #[error("a line of text where none can stand")]
    OutsideText,
    #[error("this mark can't stand in this section")]
    WrongMark,
    #[error("after the mark stands neither a blank nor `*` and a number")]
    BadMark,
    #[error("an escape that there isn't")]
    BadEscape,
    #[error("a word that isn't a number of its kind")]
    BadNumber,
    #[error("a name or word that is no text")]
    NotText,
    #[error("a word without a byte, which is written as two quotes")]
    EmptyWord,
    #[error("it was given already")]
    Twice,
    #[error("the case doesn't say where its bytes come from")]
    NoSource,
    #[error("no case at all")]
    NoCase,
    #[error(transparent)]
    Memory(#[from(alloc)] AllocError),
}

/// What is wrong with a file of cases, and in which line, counted from 1.
#[derive(Debug, Drop, Error)]
#[error("line {line}: {cause}")]
pub struct Fault {
    pub line: u64,
    pub cause: Cause,
}
