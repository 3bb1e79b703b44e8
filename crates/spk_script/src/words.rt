//! The words of a line.

ghost use Rattle.std.specs.Prelude.{◌≡◌, ◌≤◌, true, not, IfOk, MatchOption, length};
ghost use Rattle.std.specs.List.{list_all, position};
ghost use Rattle.spk_script.specs.Words.{is_allowed, is_blank, is_quote, Blank, Quoted, words_of};
ghost use Rattle.spk_script.specs.Cuts.{BeginsBare, BeginsVisibly, Cuts, ends_bare};

use crate::bytes::is_blank;
use spk_num::text::Text;
use std::alloc::{AllocError, Global};

/// A word of a line, before names in it are replaced.
#[derive(Debug, Drop)]
pub struct Word {
    /// Its bytes, without quotes.
    pub text: Text,
    /// Whether it stood in quotes, so that it stays one word.
    pub quoted: bool,
}

/// What a part of a line begins with.
enum Cut<'a> {
    /// No word: blanks, and maybe a comment.
    End,
    /// A quoted word that isn't closed.
    Open,
    /// A word, and what stands after it.
    Next {
        bytes: &'a [u8],
        quoted: bool,
        rest: &'a [u8],
    },
}

/// The place of the first byte that isn't blank.
fn visible_place(text: &[u8]) -> Option<usize>
    ensures { result ≡ position (λ b. not (is_blank b)) text.now }
{
    text.iter().position(|byte| !is_blank(*byte))
}

/// The place of the first byte that ends a bare word.
fn bare_end(text: &[u8]) -> Option<usize>
    ensures { result ≡ position ends_bare text.now }
{
    text.iter()
        .position(|byte| is_blank(*byte) || *byte == b'#')
}

/// The place of the first quote.
fn quote_place(text: &[u8]) -> Option<usize>
    ensures { result ≡ position is_quote text.now }
{
    text.iter().position(|byte| *byte == b'"')
}

/// A text without the blanks before it.
fn without_blanks(text: &[u8]) -> &[u8]
    requires { list_all is_allowed text.now ≡ true }
    ensures same { words_of result.now ≡ words_of text.now }
    ensures begins { BeginsVisibly result.now }
    ensures allowed { list_all is_allowed result.now ≡ true }
    ensures length { length result.now ≤ length text.now }
{
    let start = visible_place(text).unwrap_or(text.len());
    &text[start..]
}

/// Cuts off a quoted word, whose first quote is gone already.
#[tactic(auto, using(crate::proofs::Cuts::quoted_none))]
fn cut_quoted(text: &[u8]) -> Cut<'_>
    requires { list_all is_allowed text.now ≡ true }
    ensures { Cuts Quoted text.now result }
{
    match quote_place(text) {
        Some(end) => Cut::Next {
            bytes: &text[..end],
            quoted: true,
            rest: &text[end + 1..],
        },
        None => Cut::Open,
    }
}

/// Cuts off a bare word. A comment right after it stays.
fn cut_bare(text: &[u8]) -> Cut<'_>
    requires begins { BeginsBare text.now }
    requires allowed { list_all is_allowed text.now ≡ true }
    ensures { Cuts Blank text.now result }
{
    let (bytes, rest) = text.split_at(bare_end(text).unwrap_or(text.len()));
    Cut::Next {
        bytes,
        quoted: false,
        rest,
    }
}

/// Cuts off the first word of a text that doesn't begin with a blank.
fn cut_first(text: &[u8]) -> Cut<'_>
    requires begins { BeginsVisibly text.now }
    requires allowed { list_all is_allowed text.now ≡ true }
    ensures { Cuts Blank text.now result }
{
    let Some((first, rest)) = text.split_first() else {
        return Cut::End;
    };
    match *first {
        b'#' => Cut::End,
        b'"' => cut_quoted(rest),
        _ => cut_bare(text),
    }
}

/// Cuts off the first word.
fn next_word(text: &[u8]) -> Cut<'_>
    requires { list_all is_allowed text.now ≡ true }
    ensures { Cuts Blank text.now result }
{
    cut_first(without_blanks(text))
}

/// The words of a line, or none where a quote that begins a word isn't closed.
pub fn words_of(alloc: Global, text: &[u8]) -> Result<Option<Vec<Word>>, AllocError>
    requires { list_all is_allowed text.now ≡ true }
    ensures { IfOk result (λ found. MatchOption found (words_of text.now ≡ None) (λ words. words_of text.now ≡ Some words.items)) }
{
    let mut words = Vec::new(alloc);
    let mut left = text;
    loop {
        match next_word(left) {
            Cut::End => return Ok(Some(words)),
            Cut::Open => return Ok(None),
            Cut::Next {
                bytes,
                quoted,
                rest,
            } => {
                let text = Text::from_ascii(alloc, bytes)?;
                words.push(Word { text, quoted })?;
                left = rest;
            }
        }
    }
}
