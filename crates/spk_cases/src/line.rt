//! The lines of a file of cases, by their kinds.

use crate::fault::Cause;
use crate::text::{Text, copies, parted, text_of};
use std::alloc::Global;

/// What a line of text is.
#[derive(Clone, Copy, Debug, PartialEq, Eq)]
pub enum Mark {
    /// `|`: a line of a file or of the screen.
    Plain,
    /// `>`: a line of the script that the log has too.
    Echoed,
    /// `.`: a line of the script that the log doesn't have.
    Unechoed,
    /// `<`: a line that goes to the screen and to the log.
    Told,
}

/// A line of text, and how often it stands there.
#[derive(Debug, Drop)]
pub struct TextLine {
    pub mark: Mark,
    pub count: u64,
    pub text: Text,
}

/// A line of a file of cases.
#[derive(Debug, Drop)]
pub enum Line<'a> {
    /// A line without a byte, or a comment.
    Empty,
    Text(TextLine),
    /// A heading: its first word and what follows after a blank.
    Heading(&'a [u8], &'a [u8]),
}

/// What is after a mark: a number of copies or none, and the text after a blank.
fn counted(rest: &[u8]) -> Result<(u64, &[u8]), Cause> {
    match rest {
        [] => Ok((1, rest)),
        [b' ', text @ ..] => Ok((1, text)),
        [b'*', counted @ ..] => {
            let (digits, text) = parted(counted, b' ').unwrap_or((counted, &[]));
            Ok((copies(digits)?, text))
        }
        _ => Err(Cause::BadMark),
    }
}

fn text_line<'a>(alloc: Global, mark: Mark, rest: &[u8]) -> Result<Line<'a>, Cause> {
    let (count, text) = counted(rest)?;
    let text = text_of(alloc, text)?;
    Ok(Line::Text(TextLine { mark, count, text }))
}

/// What a line is.
pub fn line_of<'a>(alloc: Global, line: &'a [u8]) -> Result<Line<'a>, Cause> {
    match line {
        [] | [b'#', ..] => Ok(Line::Empty),
        [b'|', rest @ ..] => text_line(alloc, Mark::Plain, rest),
        [b'>', rest @ ..] => text_line(alloc, Mark::Echoed, rest),
        [b'.', rest @ ..] => text_line(alloc, Mark::Unechoed, rest),
        [b'<', rest @ ..] => text_line(alloc, Mark::Told, rest),
        _ => {
            let (word, rest) = parted(line, b' ').unwrap_or((line, &[]));
            Ok(Line::Heading(word, rest))
        }
    }
}
