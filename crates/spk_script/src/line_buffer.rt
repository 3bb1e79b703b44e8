//! The words of a line while it is read from the left. No more of them is kept than a line may have.

ghost use Rattle.std.specs.Prelude.{◌≡◌, [], position, IfOk, MatchOption};
ghost use Rattle.spk_script.specs.LineBuffers.{OpenLine, with_text, ended, with_bare, with_part, Holds, IsCut};
ghost use Rattle.spk_script.specs.Substitution.{fitted};
ghost use Rattle.spk_script.specs.Words.{is_blank};

use crate::bytes::is_blank;
use crate::fault::LineFault;
use spk_num::text::Text;
use spk_num::texts::Texts;
use std::alloc::{AllocError, Global};

/// The most bytes that the words of a line may take, with one blank between them.
const MOST_BYTES: usize = 4096;

/// The words of a line so far, and the word that is still open. Once they are too long, it only remembers that.
#[derive(Drop)]
pub struct LineBuffer {
    words: Vec<Text>,
    text: String,
    /// The bytes that are left, where a blank is counted after each word, and so one too many.
    room: usize,
    too_long: bool,
}

/// The place of the first blank.
fn blank_place(text: &str) -> Option<usize>
    ensures { result ≡ position is_blank text.now }
{
    text.bytes().position(is_blank)
}

/// Cuts a text at its first blank.
fn split_blank(text: &str) -> Option<(&str, &str)>
    ensures { MatchOption result ((line : OpenLine) → with_bare line text.now ≡ with_text line text.now) (λ parts. IsCut text.now parts.0.now parts.1.now) }
{
    let place = blank_place(text)?;
    Some((&text[..place], &text[place + 1..]))
}

impl LineBuffer {
    /// No word yet.
    pub fn new(alloc: Global) -> LineBuffer
        ensures { Holds result (record { words = []; text = [] }) }
    {
        LineBuffer {
            words: Vec::new(alloc),
            text: String::new(alloc),
            room: MOST_BYTES + 1,
            too_long: false,
        }
    }

    /// Adds text to the open word.
    fn push_text(&mut self, text: &str) -> Result<(), AllocError>
        ensures { IfOk result (λ _. (line : OpenLine) → Holds self.old line → Holds self.new (with_text line text.now)) }
    {
        if self.too_long {
            return Ok(());
        }
        if text.len() > self.room {
            self.too_long = true;
            return Ok(());
        }
        self.text.push_str(text)?;
        self.room -= text.len();
        Ok(())
    }

    /// Ends the open word. An empty one counts only where it was quoted.
    pub fn end_word(&mut self, alloc: Global, quoted: bool) -> Result<(), AllocError>
        ensures { IfOk result (λ _. (line : OpenLine) → Holds self.old line → Holds self.new (ended quoted line)) }
    {
        if self.too_long {
            return Ok(());
        }
        if !quoted && self.text.is_empty() {
            return Ok(());
        }
        if self.room == 0 {
            self.too_long = true;
            return Ok(());
        }
        self.words.push(Text::copy(alloc, self.text.as_str())?)?;
        self.text.clear();
        self.room -= 1;
        Ok(())
    }

    /// Adds text that wasn't quoted. Each blank ends a word.
    fn push_bare(&mut self, alloc: Global, text: &str) -> Result<(), AllocError>
        ensures { IfOk result (λ _. (line : OpenLine) → Holds self.old line → Holds self.new (with_bare line text.now)) }
    {
        let mut left = text;
        while let Some((part, rest)) = split_blank(left) {
            self.push_text(part)?;
            self.end_word(alloc, false)?;
            left = rest;
        }
        self.push_text(left)
    }

    /// Adds a part of a word's text.
    pub fn push_part(&mut self, alloc: Global, text: &str, quoted: bool) -> Result<(), AllocError>
        ensures { IfOk result (λ _. (line : OpenLine) → Holds self.old line → Holds self.new (with_part quoted line text.now)) }
    {
        if self.too_long {
            return Ok(());
        }
        if quoted {
            self.push_text(text)
        } else {
            self.push_bare(alloc, text)
        }
    }

    /// The words, or that they are too long.
    pub fn into_words(self) -> Result<Texts, LineFault>
        ensures { (line : OpenLine) → Holds self line → line.text ≡ [] → result ≡ fitted line.words }
    {
        if self.too_long {
            return Err(LineFault::LineTooLong);
        }
        Ok(Texts::from_vec(self.words))
    }
}
