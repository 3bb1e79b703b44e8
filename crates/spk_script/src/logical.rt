//! The logical lines of a script.

ghost use Rattle.std.specs.Prelude.{◌≡◌, ◌<◌, ◌≤◌, ◌∷◌, ◌++◌, [], true, map, length, take, drop, IfOk, IfErr};
ghost use Rattle.std.specs.List.{All, list_all};
ghost use Rattle.spk_script.specs.Words.{is_allowed};
ghost use Rattle.spk_script.specs.Lines.{runs_of, raw_of, text_of, logical_line, logical_lines, IsFault};

use crate::continuation::{continues, given};
use crate::script::{Line, ScriptFault};
use crate::words::words_of;
use std::alloc::{AllocError, Global};

/// How many physical lines the first logical line has.
fn length_of_first(lines: &[&[u8]]) -> usize
    requires { 0 < length lines.now }
    ensures some { 0 < result }
    ensures within { result ≤ length lines.now }
    ensures cut { runs_of (map (λ line. line.now) lines.now)
        ≡ take result (map (λ line. line.now) lines.now) ∷ runs_of (drop result (map (λ line. line.now) lines.now)) }
{
    for (index, line) in lines.iter().enumerate() {
        if !continues(line) {
            return index + 1;
        }
    }
    lines.len()
}

/// The physical lines of a logical line as they stand, each with a line feed.
#[tactic(auto, using(crate::proofs::Runs::raw_more, crate::proofs::Runs::take_whole))]
fn raw_of(alloc: Global, run: &[&[u8]]) -> Result<Vec<u8>, AllocError>
    ensures { IfOk result (λ raw. raw.items ≡ raw_of (map (λ line. line.now) run.now)) }
{
    let mut raw = Vec::new(alloc);
    for line in run {
        raw.extend_from_slice(line)?;
        raw.push(b'\n')?;
    }
    Ok(raw)
}

/// What the words of a logical line are cut from.
#[tactic(auto, using(crate::proofs::Runs::text_more, crate::proofs::Runs::take_whole))]
fn text_of(alloc: Global, run: &[&[u8]]) -> Result<Vec<u8>, AllocError>
    ensures { IfOk result (λ text. text.items ≡ text_of (map (λ line. line.now) run.now)) }
{
    let mut text = Vec::new(alloc);
    for line in run {
        text.extend_from_slice(given(line))?;
    }
    Ok(text)
}

/// The logical line of these physical lines, of which the first has this number, or none where a quote isn't closed.
#[tactic(auto, using(crate::proofs::Allowed::text_is_allowed))]
fn logical_line(alloc: Global, number: u32, run: &[&[u8]]) -> Result<Option<Line>, AllocError>
    requires { All (λ line. list_all is_allowed line ≡ true) (map (λ line. line.now) run.now) }
    ensures { IfOk result (λ line. line ≡ logical_line number (map (λ line. line.now) run.now)) }
{
    let text = text_of(alloc, run)?;
    let Some(words) = words_of(alloc, &text)? else {
        return Ok(None);
    };
    let raw = raw_of(alloc, run)?;
    Ok(Some(Line { number, raw, words }))
}

/// Puts one line more after those that were read.
fn put(logical: &mut Vec<Line>, line: Line) -> Result<(), AllocError>
    ensures { IfOk result (λ _. logical.new.items ≡ logical.old.items ++ line ∷ []) }
{
    logical.push(line)?;
    Ok(())
}

/// The logical lines of these physical lines, which are all of a script.
pub fn logical_lines(alloc: Global, lines: &[&[u8]]) -> Result<Vec<Line>, ScriptFault>
    requires allowed { All (λ line. list_all is_allowed line ≡ true) (map (λ line. line.now) lines.now) }
    requires few { length lines.now ≤ 100000 }
    ensures ok { IfOk result (λ logical. logical_lines 1 (runs_of (map (λ line. line.now) lines.now)) ≡ Ok logical.items) }
    ensures fault { IfErr result (IsFault (logical_lines 1 (runs_of (map (λ line. line.now) lines.now)))) }
{
    let mut logical = Vec::new(alloc);
    let mut start = 0;
    while start < lines.len() {
        let rest = &lines[start..];
        let count = length_of_first(rest);
        let number = start as u32 + 1;
        let Some(line) = logical_line(alloc, number, &rest[..count])? else {
            return Err(ScriptFault::OpenQuote(number));
        };
        put(&mut logical, line)?;
        start += count;
    }
    Ok(logical)
}
