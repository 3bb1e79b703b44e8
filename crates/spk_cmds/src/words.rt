//! The forms of words: whether a word may stand where its kind is wanted.

ghost use Rattle.std.specs.Prelude.{◌≡◌};
ghost use Rattle.spk_num.specs.Results.{IsPlainOrMemory};
ghost use Rattle.spk_cmds.specs.Faults.{is_memory};
ghost use Rattle.spk_cmds.specs.Kinds.{is_among, is_open, is_decimal, formed, one_of, number_if, name_if};
ghost use Rattle.spk_cmds.specs.Views.{words_seen, kind_seen};

use crate::command::CommandFault;
use crate::form::Kind;
use spk_num::decimal::{Dec, DecFault};
use spk_num::name::{is_file_name, is_name};
use spk_num::text::Text;
use spk_num::whole::whole_of;
use std::alloc::Global;

/// Whether a word is one of a list.
pub fn is_among(words: &[&str], word: &str) -> bool
    ensures { result ≡ is_among (words_seen words.now) word.now }
{
    match words {
        [other, words @ ..] => word == *other || is_among(words, word),
        [] => false,
    }
}

/// Refuses a word that is in neither list, and one of the second list, which isn't built yet.
#[tactic(auto, using(crate::proofs::Refusals::plain_or_memory))]
pub fn judge_style(
    alloc: Global,
    built: &[&str],
    unbuilt: &[&str],
    word: &Text,
) -> Result<(), CommandFault>
    ensures { IsPlainOrMemory is_memory (one_of (words_seen built.now) (words_seen unbuilt.now) word.now) result }
{
    if is_among(built, word.as_str()) {
        return Ok(());
    }
    if is_among(unbuilt, word.as_str()) {
        return Err(CommandFault::NotBuilt(Text::copy(alloc, word.as_str())?));
    }
    Err(CommandFault::UnknownStyle(Text::copy(alloc, word.as_str())?))
}

/// Refuses a word that hasn't the form of a number.
#[tactic(auto, using(crate::proofs::Refusals::plain_or_memory))]
fn judge_number(alloc: Global, is_number: bool, word: &Text) -> Result<(), CommandFault>
    ensures { IsPlainOrMemory is_memory (number_if is_number word.now) result }
{
    if is_number {
        return Ok(());
    }
    Err(CommandFault::BadNumber(Text::copy(alloc, word.as_str())?))
}

/// Refuses a word that hasn't the form of a name.
#[tactic(auto, using(crate::proofs::Refusals::plain_or_memory))]
fn judge_name(alloc: Global, is_name: bool, word: &Text) -> Result<(), CommandFault>
    ensures { IsPlainOrMemory is_memory (name_if is_name word.now) result }
{
    if is_name {
        return Ok(());
    }
    Err(CommandFault::BadName(Text::copy(alloc, word.as_str())?))
}

/// Whether a word is a decimal number, which may be too large for a `Dec`.
fn is_decimal(word: &Text) -> bool
    ensures { result ≡ is_decimal word.now }
{
    match Dec::read(word.as_bytes()) {
        Ok(_) | Err(DecFault::TooLarge) => true,
        Err(_) => false,
    }
}

/// Whether a word is an open bound.
pub fn is_open(word: &Text) -> bool
    ensures { result ≡ is_open word.now }
{
    matches!(word.as_str(), "INF" | "EDGE")
}

/// Refuses a word that hasn't the form of its kind.
#[tactic(auto, using(crate::proofs::Refusals::plain_or_memory), unfolding(crate::specs::Kinds::formed))]
pub fn judge_form(alloc: Global, kind: &Kind, word: &Text) -> Result<(), CommandFault>
    ensures { IsPlainOrMemory is_memory (formed (kind_seen kind.now) word.now) result }
{
    match *kind {
        Kind::OneOf(built, unbuilt) => judge_style(alloc, built, unbuilt, word),
        Kind::WholeNumber(_, _) | Kind::WholeUpToNext(_, _) => {
            judge_number(alloc, whole_of(word).is_some(), word)
        }
        Kind::DecimalNumber(_, _) => judge_number(alloc, is_decimal(word), word),
        Kind::BoundNumber(_, _) => judge_number(alloc, is_open(word) || is_decimal(word), word),
        Kind::NameWord => judge_name(alloc, is_name(word.as_bytes()), word),
        Kind::FileWord => judge_name(alloc, is_file_name(word.as_bytes()), word),
        Kind::AnyWord => Ok(()),
    }
}
