//! Reading a file of cases.

ghost use Rattle.std.specs.Prelude.{◌<◌, IfOk, vec_len};

use crate::case::Case;
use crate::draft::Draft;
use crate::fault::{Cause, Fault};
use crate::line::{Line, line_of};
use crate::number::number;
use crate::text::{parted, text_of};
use spk_world::Fail;
use std::alloc::{AllocError, Global};

/// What has been read of a file of cases.
#[derive(Debug, Drop)]
struct Reader {
    alloc: Global,
    /// Where the bytes of cases come from that don't say it.
    source: Option<String>,
    cases: Vec<Case>,
    draft: Option<Draft>,
}

/// Text of a heading, with its escapes.
fn string_of(alloc: Global, text: &[u8]) -> Result<String, Cause> {
    let text = text_of(alloc, text)?;
    if !text.has_line_feed {
        return Err(Cause::BadEscape);
    }
    match std::str::from_utf8(&text.bytes) {
        Ok(text) => Ok(String::from_str(alloc, text)?),
        Err(_) => Err(Cause::NotText),
    }
}

/// A word of a command line. Two quotes are the word without a byte.
fn word_of(alloc: Global, word: &[u8]) -> Result<String, Cause> {
    match word {
        b"" => Err(Cause::EmptyWord),
        b"\"\"" => Ok(String::new(alloc)),
        _ => string_of(alloc, word),
    }
}

/// The words of a command line, with a blank between two of them.
fn words_of(alloc: Global, line: &[u8]) -> Result<Vec<String>, Cause> {
    let mut words = Vec::new(alloc);
    if line.is_empty() {
        return Ok(words);
    }
    for word in line.split(|byte| *byte == b' ') {
        words.push(word_of(alloc, word)?).map_err(AllocError::from)?;
    }
    Ok(words)
}

/// A call that is to fail: its number, and how many bytes of its piece are written.
fn fail_of(text: &[u8]) -> Result<Fail, Cause> {
    let (call, bytes) = parted(text, b' ').ok_or(Cause::BadNumber)?;
    Ok(Fail {
        call: number(call)?,
        bytes: number(bytes)?,
    })
}

/// Whether a case begins at this line.
fn begins_case(line: &[u8]) -> bool {
    line == b"case".as_slice() || line.starts_with(b"case ")
}

/// Puts what a heading says into the case.
fn put_heading(alloc: Global, draft: &mut Draft, word: &[u8], text: &[u8]) -> Result<(), Cause> {
    match word {
        b"from" => draft.put_source(string_of(alloc, text)?),
        b"words" => draft.put_words(words_of(alloc, text)?),
        b"before" => draft.begin_before(string_of(alloc, text)?),
        b"fail" => draft.put_fail(fail_of(text)?),
        b"session" => draft.begin_session(),
        b"status" => draft.put_status(number(text)?),
        b"answer" => draft.put_answer(string_of(alloc, text)?),
        b"calls" => draft.put_calls(number(text)?),
        b"screen" => draft.begin_screen(),
        b"after" => draft.begin_after(string_of(alloc, text)?),
        _ => Err(Cause::UnknownHeading),
    }
}

impl Reader {
    fn new(alloc: Global) -> Reader {
        Reader {
            alloc,
            source: None,
            cases: Vec::new(alloc),
            draft: None,
        }
    }

    /// Takes a case that was read to its end.
    fn put_case(&mut self, draft: Draft) -> Result<(), Cause> {
        let case = draft.close(&self.source)?;
        self.cases.push(case).map_err(AllocError::from)?;
        Ok(())
    }

    /// Ends the case that is being read, if one is. What it lacks is a fault of the line at which it begins.
    fn close(&mut self) -> Result<(), Fault> {
        match self.draft.take() {
            Some(draft) => {
                let line = draft.line();
                self.put_case(draft).map_err(|cause| Fault { line, cause })
            }
            None => Ok(()),
        }
    }

    /// Takes a heading that stands before the first case.
    fn take_words(&mut self, word: &[u8], text: &[u8]) -> Result<(), Cause> {
        if word != b"from".as_slice() {
            return Err(Cause::OutsideCase);
        }
        self.source = Some(string_of(self.alloc, text)?);
        Ok(())
    }

    fn take_heading(&mut self, number: u64, word: &[u8], text: &[u8]) -> Result<(), Cause> {
        if word == b"case".as_slice() {
            let name = string_of(self.alloc, text)?;
            self.draft = Some(Draft::new(self.alloc, name, number));
            return Ok(());
        }
        match &mut self.draft {
            Some(draft) => put_heading(self.alloc, draft, word, text),
            None => self.take_words(word, text),
        }
    }

    /// Takes a line. No case is being read where one begins.
    fn take_line(&mut self, number: u64, line: &[u8]) -> Result<(), Cause> {
        match line_of(self.alloc, line)? {
            Line::Empty => Ok(()),
            Line::Heading(word, text) => self.take_heading(number, word, text),
            Line::Text(line) => match &mut self.draft {
                Some(draft) => draft.take(&line),
                None => Err(Cause::OutsideText),
            },
        }
    }

    /// Takes the line with this number.
    fn take(&mut self, number: u64, line: &[u8]) -> Result<(), Fault> {
        if begins_case(line) {
            self.close()?;
        }
        let taken = self.take_line(number, line);
        taken.map_err(|cause| Fault {
            line: number,
            cause,
        })
    }

    /// The cases, of which there is at least one. This is the number of the last line.
    fn finish(mut self, number: u64) -> Result<Vec<Case>, Fault>
        ensures { IfOk result (λ cases. 0 < vec_len cases) }
    {
        self.close()?;
        if self.cases.is_empty() {
            return Err(Fault {
                line: number,
                cause: Cause::NoCase,
            });
        }
        Ok(self.cases)
    }
}

/// The cases of a file, of which there is at least one.
pub fn cases_of(alloc: Global, bytes: &[u8]) -> Result<Vec<Case>, Fault>
    ensures { IfOk result (λ cases. 0 < vec_len cases) }
{
    let mut reader = Reader::new(alloc);
    let mut number = 0u64;
    for line in bytes.split(|byte| *byte == b'\n') {
        number = number.saturating_add(1);
        reader.take(number, line)?;
    }
    reader.finish(number)
}
