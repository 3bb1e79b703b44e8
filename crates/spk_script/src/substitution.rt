//! The words of a line with the names in them replaced.

ghost use Rattle.std.specs.Prelude.{◌≡◌, false, Err, IsTrue, MatchResult};
ghost use Rattle.std.specs.List.{All, list_all};
ghost use Rattle.std.specs.Str.{IsAscii};
ghost use Rattle.spk_num.specs.Results.{IsPlainOrMemory};
ghost use Rattle.spk_script.specs.Faults.{is_memory};
ghost use Rattle.spk_script.specs.LineBuffers.{IsExtended};
ghost use Rattle.spk_script.specs.References.{BeginsWithVariable, IsWrongAfter, SplitsName};
ghost use Rattle.spk_script.specs.Substitution.{substituted, line_words};
ghost use Rattle.spk_script.specs.Tables.{environment_of};
ghost use Rattle.spk_script.specs.Words.{is_allowed};

use crate::fault::LineFault;
use crate::line_buffer::LineBuffer;
use crate::variable_table::VariableTable;
use crate::variable_text::variable_text;
use crate::words::Word;
use spk_num::text::Text;
use spk_num::texts::Texts;
use std::alloc::{AllocError, Global};

/// The name that a text after a `$` begins with, and the rest. A name that doesn't end is the error: what stands after
/// its brace, or nothing where nothing stands after the `$`.
fn split_name(text: &str) -> Result<(&str, &str), &str>
    requires { IsAscii text.now }
    ensures { SplitsName text.now result }
{
    match text.strip_prefix('{') {
        Some(braced) => braced.split_once('}').ok_or(braced),
        None => text.split_at_checked(1).ok_or(text),
    }
}

/// The text of the variable whose name stands after a `$`, and what stands after the name.
fn value_after<'a>(
    alloc: Global,
    variables: &VariableTable,
    text: &'a str,
) -> Result<(Text, &'a str), LineFault>
    requires { IsAscii text.now }
    ensures { MatchResult result (λ parts. BeginsWithVariable (environment_of variables.now) text.now parts.0 parts.1.now)
        (IsWrongAfter (environment_of variables.now) text.now) }
{
    match split_name(text) {
        Ok((name, rest)) => Ok((variable_text(alloc, variables, name)?, rest)),
        Err(name) => Err(LineFault::UnknownVariable(Text::copy(alloc, name)?)),
    }
}

/// Puts a word after those of a line, with the names in it replaced.
fn push_substituted(
    alloc: Global,
    variables: &VariableTable,
    line: &mut LineBuffer,
    word: &Word,
) -> Result<(), LineFault>
    requires { IsAscii word.now.text }
    ensures { MatchResult result (λ _. IsExtended (environment_of variables.now) word.now line.old line.new)
        (λ fault. is_memory fault ≡ false → substituted (environment_of variables.now) word.now.text ≡ Err fault) }
{
    let mut left = word.text.as_str();
    while let Some((before, after)) = left.split_once('$') {
        line.push_part(alloc, before, word.quoted)?;
        let (value, rest) = value_after(alloc, variables, after)?;
        line.push_part(alloc, value.as_str(), word.quoted)?;
        left = rest;
    }
    line.push_part(alloc, left, word.quoted)?;
    line.end_word(alloc, word.quoted)?;
    Ok(())
}

/// The words of a line: names in them are replaced by the texts of their variables, and what wasn't quoted is cut again.
/// No more than a line may have is kept; past that the rest is only looked at for faults.
pub fn line_words(
    alloc: Global,
    variables: &VariableTable,
    words: &[Word],
) -> Result<Texts, LineFault>
    requires { All (λ word. IsAscii word.text) words.now }
    ensures { IsPlainOrMemory is_memory (line_words (environment_of variables.now) words.now) result }
{
    let mut line = LineBuffer::new(alloc);
    for word in words {
        push_substituted(alloc, variables, &mut line, word)?;
    }
    line.into_words()
}

#[cfg(test)]
mod tests {
    use super::*;
    use crate::bytes::is_allowed;
    use crate::variable::{Values, Variable};
    use crate::words::words_of;
    use std::test::Fail;

    fn all_allowed(line: &[u8]) -> bool
        ensures { result ≡ list_all is_allowed line.now }
    {
        line.iter().all(|byte| is_allowed(*byte))
    }

    fn all_ascii(words: &[Word]) -> bool
        ensures { IsTrue result → All (λ word. IsAscii word.text) words.now }
    {
        words.iter().all(|word| word.text.as_str().is_ascii())
    }

    fn variables(alloc: Global) -> Result<VariableTable, AllocError> {
        let mut table = VariableTable::new(alloc);
        let value = Text::copy(alloc, "x")?;
        let later = Values::new(alloc);
        table.set(alloc, "a", Variable::Index { value, later })?;
        table.set(alloc, "i", Variable::Loop { value: 2, last: 7 })?;
        for (name, text) in [
            ("s", "x # y"),
            ("e", ""),
            ("d", "$a"),
            ("u", "\u{e4}\t\u{f6}\r\u{fc}"),
        ] {
            table.set(alloc, name, Variable::String(Text::copy(alloc, text)?))?;
        }
        Ok(table)
    }

    // The words with a bar before each, or the fault.
    fn answer_text(alloc: Global, answer: &Result<Texts, LineFault>) -> Result<String, AllocError> {
        match answer {
            Ok(texts) => {
                let mut all = String::new(alloc);
                for text in texts.as_slice() {
                    all.push('|')?;
                    all.push_str(text.as_str())?;
                }
                Ok(all)
            }
            Err(LineFault::UnknownVariable(name)) => {
                format!(in alloc; "unknown <{}>", name.as_str())
            }
            Err(LineFault::Memory) => Err(AllocError),
            Err(fault) => format!(in alloc; "{fault:?}"),
        }
    }

    // What the words of a line are, where there are any.
    fn answer(alloc: Global, line: &[u8]) -> Result<Option<String>, AllocError> {
        if !all_allowed(line) {
            return Ok(None);
        }
        let Some(words) = words_of(alloc, line)? else {
            return Ok(None);
        };
        if !all_ascii(&words) {
            return Ok(None);
        }
        let answer = line_words(alloc, &variables(alloc)?, &words);
        Ok(Some(answer_text(alloc, &answer)?))
    }

    #[test]
    fn replaces_names(rt: HostRuntime) -> Result<(), Fail> {
        let cases: [(&[u8], &str); 5] = [
            (b"n$i.${a}", "|n2.x"),
            (b"$s \"$s\"", "|x|#|y|x # y"),
            (b"$d ${d} $e", "|$a|$a"),
            (b"<$u>", "|<\u{e4}|\u{f6}|\u{fc}>"),
            (b"${y} ${", "unknown <y>"),
        ];
        for (line, wanted) in &cases {
            let text = answer(rt.alloc(), line)?;
            assert_eq!(rt; text.as_deref(), Some(*wanted));
        }
        Ok(())
    }

    // A text so many times, and then the end of a line.
    fn long_line(
        alloc: Global,
        text: &[u8],
        count: usize,
        end: &[u8],
    ) -> Result<Vec<u8>, AllocError> {
        let mut line = Vec::new(alloc);
        for _ in 0..count {
            line.extend_from_slice(text)?;
        }
        line.extend_from_slice(end)?;
        Ok(line)
    }

    #[test]
    fn judges_the_length(rt: HostRuntime) -> Result<(), Fail> {
        let long = Some("LineTooLong");
        let cases: [(&[u8], usize, &[u8], Option<&str>); 3] = [
            (b"z", 4094, b" $a", None),
            (b"z", 4095, b" $a", long),
            (b"z", 5000, b" $b", Some("unknown <b>")),
        ];
        for (text, count, end, fault) in &cases {
            let line = long_line(rt.alloc(), text, *count, end)?;
            let text = answer(rt.alloc(), &line)?;
            if let Some(fault) = fault {
                assert_eq!(rt; text.as_deref(), Some(*fault));
            } else {
                assert!(rt; text.as_deref() != long, "at {count}");
            }
        }
        Ok(())
    }
}
