//! A script, read whole: its logical lines.

ghost use Rattle.std.specs.Prelude.{◌≡◌, IsSome, IfSome, IfOk, IfErr};
ghost use Rattle.std.specs.Option.{option_map};
ghost use Rattle.spk_script.specs.Lines.{lines_of, is_command, line_numbered, IsFault};
ghost use Rattle.spk_script.specs.Scripts.{IsScript};

use crate::bytes::first_not_allowed;
use crate::logical::logical_lines;
use crate::physical::physical_lines;
use crate::words::Word;
use std::alloc::{AllocError, Global};
use std::marker::Model;

/// The most bytes that a script may have.
const MOST_BYTES: usize = 1_048_576;

/// The most physical lines that a script may have.
const MOST_LINES: usize = 100_000;

/// Why bytes aren't a script.
#[derive(Clone, Copy, Debug, PartialEq, Eq)]
pub enum ScriptFault {
    /// There are more than 1048576 bytes.
    TooLong,
    /// The byte at this place, counted from 0, is the first that no script may have.
    NotAscii(u32),
    /// There are more than 100000 physical lines.
    TooManyLines,
    /// The logical line with this number is the first in which a quote isn't closed.
    OpenQuote(u32),
    /// Out of memory.
    Memory,
}

impl From<AllocError> for ScriptFault {
    ghost use Rattle.spk_script.specs.declared.script.ScriptFault.TheVariants.{Memory};

    ghost from_gives = { λ _ e. e ≡ Memory };

    fn from(_: AllocError) -> ScriptFault {
        ScriptFault::Memory
    }
}

/// A logical line.
#[derive(Debug, Drop)]
pub struct Line {
    pub number: u32,
    pub raw: Vec<u8>,
    pub words: Vec<Word>,
}

impl Model for Line {
    ghost use Rattle.spk_script.specs.Lines.{LogicalLine};

    ghost Value = { LogicalLine };

    ghost view = { λ l. record { number = l.number; raw = l.raw.items; words = l.words.items } };
}

impl Line {
    /// Whether it has a word, and so is a command.
    pub fn is_command(&self) -> bool
        ensures { result ≡ is_command self.now }
    {
        !self.words.is_empty()
    }

    /// The number of its first physical line, counted from 1.
    pub fn number(&self) -> u32
        ensures { result ≡ self.now.number }
    {
        self.number
    }

    /// Its words, before names in them are replaced.
    pub fn words(&self) -> &[Word]
        ensures { result.now ≡ self.now.words }
    {
        &self.words
    }
}

/// A script, read whole: its logical lines from the top.
#[derive(Debug, Drop)]
pub struct Script {
    lines: Vec<Line>,
}

impl Model for Script {
    ghost use Rattle.std.specs.Prelude.{List};
    ghost use Rattle.spk_script.specs.Lines.{LogicalLine};
    ghost use Rattle.spk_script.specs.Scripts.{IsScript};

    ghost Value = { List LogicalLine };

    ghost view = { λ s. s.lines.items };

    ghost invariant = { λ s. IsScript s.lines.items };
}

impl Script {
    /// The script that these bytes are, or the first reason why they are none: they are too many, then a byte that no
    /// script may have, then too many lines, and then a quote that isn't closed. The rules are this project's own.
    pub fn read(alloc: Global, bytes: &[u8]) -> Result<Script, ScriptFault>
        ensures ok { IfOk result (λ script. lines_of bytes.now ≡ Ok script) }
        ensures fault { IfErr result (IsFault (lines_of bytes.now)) }
    {
        if bytes.len() > MOST_BYTES {
            return Err(ScriptFault::TooLong);
        }
        if let Some(place) = first_not_allowed(bytes) {
            return Err(ScriptFault::NotAscii(place as u32));
        }
        let physical = physical_lines(alloc, bytes)?;
        if physical.len() > MOST_LINES {
            return Err(ScriptFault::TooManyLines);
        }
        let lines = logical_lines(alloc, &physical)?;
        Ok(Script { lines })
    }

    /// The logical lines from the top.
    pub fn lines(&self) -> &[Line]
        ensures lines { result.now ≡ self.now }
        ensures script { IsScript result.now }
    {
        &self.lines
    }

    /// The physical lines of the logical line with this number as they stand, each with a line feed.
    pub fn raw(&self, line: u32) -> &[u8]
        requires { IsSome (line_numbered self.now line) }
        ensures { IfSome (line_numbered self.now line) (λ found. result.now ≡ found.raw) }
    {
        match self.line_numbered(line) {
            Some(found) => &found.raw,
            None => unreachable!(),
        }
    }

    // The logical line with this number.
    fn line_numbered(&self, number: u32) -> Option<&Line>
        ensures { option_map (λ line. line.now) result ≡ line_numbered self.now number }
    {
        match self.lines.binary_search_by_key(&number, |line| line.number) {
            Ok(place) => Some(&self.lines[place]),
            Err(_) => None,
        }
    }
}

#[cfg(test)]
mod tests {
    use super::*;
    use std::test::Fail;

    // Each line as its number, its physical lines, and its words with a bar before each.
    fn lines_text(alloc: Global, script: &Script) -> Result<String, AllocError> {
        let mut text = String::new(alloc);
        for line in script.lines() {
            text.push_str(format!(in alloc; "{}:", line.number)?.as_str())?;
            for byte in script.raw(line.number) {
                text.push(*byte as char)?;
            }
            for word in &line.words {
                text.push('|')?;
                text.push_str(word.text.as_str())?;
            }
            text.push(';')?;
        }
        Ok(text)
    }

    #[test]
    fn reads_lines_and_words(rt: HostRuntime) -> Result<(), Fail> {
        let cases: [(&[u8], &str); 3] = [
            (
                b"pri&\nnt &\t\r\n  x\nrun",
                "1:pri&\nnt &\t\r\n  x\n|print|x;4:run\n|run;",
            ),
            (b"# c &\nb\nd\n", "1:# c &\nb\n;3:d\n|d;"),
            (b"\"a # b\"c#d \"e", "1:\"a # b\"c#d \"e\n|a # b|c;"),
        ];
        for (bytes, wanted) in &cases {
            match Script::read(rt.alloc(), bytes) {
                Ok(script) => {
                    let text = lines_text(rt.alloc(), &script)?;
                    assert_eq!(rt; text.as_str(), *wanted);
                }
                Err(fault) => panic!(rt; "{fault:?} at {wanted}"),
            }
        }
        Ok(())
    }

    #[test]
    fn names_the_first_fault(rt: HostRuntime) {
        let cases: [(&[u8], ScriptFault); 2] = [
            (b"print \"a\n\x7f", ScriptFault::NotAscii(9)),
            (b"a\n\nb &\n \"c\n\"", ScriptFault::OpenQuote(3)),
        ];
        for (bytes, wanted) in &cases {
            match Script::read(rt.alloc(), bytes) {
                Ok(_) => panic!(rt; "no {wanted:?}"),
                Err(fault) => assert_eq!(rt; fault, *wanted),
            }
        }
    }

    // The fault of a script that has this byte so many times, and then this one.
    fn fault_of(
        rt: &HostRuntime,
        byte: u8,
        times: usize,
        last: u8,
    ) -> Result<Option<ScriptFault>, AllocError> {
        let mut bytes = vec![in rt.alloc(); byte; times]?;
        bytes.push(last)?;
        Ok(Script::read(rt.alloc(), &bytes).err())
    }

    #[test]
    fn has_limits(rt: HostRuntime) -> Result<(), Fail> {
        let cases = [
            (b' ', 1_048_576, b' ', Some(ScriptFault::TooLong)),
            (b'\n', 99_999, b'\n', None),
            (b'\n', 99_999, b'"', Some(ScriptFault::OpenQuote(100_000))),
            (b'\n', 100_000, b'"', Some(ScriptFault::TooManyLines)),
        ];
        for (byte, times, last, wanted) in cases {
            assert_eq!(rt; fault_of(&rt, byte, times, last)?, wanted);
        }
        Ok(())
    }
}
