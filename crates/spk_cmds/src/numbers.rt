//! The values of words that have the forms of their kinds: whether their numbers are in their ranges.

ghost use Rattle.std.specs.Prelude.{◌≡◌, ◌<◌, ◌^◌, Ok, Err};
ghost use Rattle.spk_num.specs.Results.{IsPlainOrMemory};
ghost use Rattle.spk_cmds.specs.Faults.{is_memory};
ghost use Rattle.spk_cmds.specs.Kinds.{whole_in, inside_or_out, decimal_in, next_number, decimal_value, bound_in, valued};
ghost use Rattle.spk_cmds.specs.declared.command.CommandFault.TheVariants.{OutOfRange};
ghost use Rattle.spk_cmds.specs.declared.value.Value.TheVariants.{Word};
ghost use Rattle.spk_cmds.specs.Views.{kind_seen};

use crate::command::CommandFault;
use crate::form::Kind;
use crate::value::Value;
use crate::words::is_open;
use spk_num::decimal::Dec;
use spk_num::shape::Bound;
use spk_num::text::Text;
use spk_num::whole::{whole_of, whole_within};
use std::alloc::Global;

/// The whole number in a range that a word is.
#[tactic(auto, using(crate::proofs::Refusals::plain_or_memory))]
fn whole_in(alloc: Global, low: u64, high: u64, word: &Text) -> Result<Value, CommandFault>
    requires { high < 2 ^ 32 }
    ensures { IsPlainOrMemory is_memory (whole_in low high word.now) result }
{
    match whole_within(low, high, word) {
        Some(number) => Ok(Value::Whole(number as u32)),
        None => Err(CommandFault::OutOfRange(Text::copy(alloc, word.as_str())?)),
    }
}

/// The number of the next word, and 0 where it is none.
fn next_number(words: &[Text]) -> u64
    ensures { result ≡ next_number words.now }
{
    match words {
        [word, ..] => whole_of(word).unwrap_or(0),
        [] => 0,
    }
}

/// A number in a range of millionths, both ends taken.
#[tactic(auto, using(crate::proofs::Refusals::plain_or_memory))]
fn inside(alloc: Global, low: i64, high: i64, word: &Text, number: Dec) -> Result<Dec, CommandFault>
    ensures { IsPlainOrMemory is_memory (inside_or_out low high (Ok number.millionths) word.now) result }
{
    if low <= number.millionths && number.millionths <= high {
        Ok(number)
    } else {
        Err(CommandFault::OutOfRange(Text::copy(alloc, word.as_str())?))
    }
}

/// Refuses a number that is too large for any range.
#[tactic(auto, using(crate::proofs::Refusals::plain_or_memory))]
fn outside(alloc: Global, word: &Text) -> Result<Dec, CommandFault>
    ensures { IsPlainOrMemory is_memory (Err (OutOfRange word.now)) result }
{
    Err(CommandFault::OutOfRange(Text::copy(alloc, word.as_str())?))
}

/// The decimal number in a range of millionths that a word is.
#[tactic(auto, using(crate::proofs::DecimalWords::decimal_by_reading))]
fn decimal_in(alloc: Global, low: i64, high: i64, word: &Text) -> Result<Dec, CommandFault>
    ensures { IsPlainOrMemory is_memory (decimal_in low high word.now) result }
{
    match Dec::read(word.as_bytes()) {
        Ok(number) => inside(alloc, low, high, word, number),
        Err(_) => outside(alloc, word),
    }
}

/// The bound that a word is.
#[tactic(auto, using(crate::proofs::Refusals::plain_or_memory))]
fn bound_in(alloc: Global, low: i64, high: i64, word: &Text) -> Result<Value, CommandFault>
    ensures { IsPlainOrMemory is_memory (bound_in low high word.now) result }
{
    if is_open(word) {
        return Ok(Value::Bound(Bound::Open));
    }
    let number = decimal_in(alloc, low, high, word)?;
    Ok(Value::Bound(Bound::At(number)))
}

/// The decimal number in a range that a word is, as a value.
#[tactic(auto, using(crate::proofs::Refusals::plain_or_memory))]
fn decimal_value(alloc: Global, low: i64, high: i64, word: &Text) -> Result<Value, CommandFault>
    ensures { IsPlainOrMemory is_memory (decimal_value low high word.now) result }
{
    let number = decimal_in(alloc, low, high, word)?;
    Ok(Value::Decimal(number))
}

/// A word as a value.
#[tactic(auto, using(crate::proofs::Refusals::plain_or_memory))]
fn word_value(alloc: Global, word: &Text) -> Result<Value, CommandFault>
    ensures { IsPlainOrMemory is_memory (Ok (Word word.now)) result }
{
    let word = Text::copy(alloc, word.as_str())?;
    Ok(Value::Word(word))
}

/// The value of a word that has the form of its kind, where its number is in the range. Other words stand after it.
#[tactic(auto, using(crate::proofs::Refusals::plain_or_memory), unfolding(crate::specs::Kinds::valued))]
pub fn value_of(
    alloc: Global,
    kind: &Kind,
    word: &Text,
    after: &[Text],
) -> Result<Value, CommandFault>
    ensures { IsPlainOrMemory is_memory (valued (kind_seen kind.now) word.now after.now) result }
{
    match *kind {
        Kind::WholeNumber(low, high) => whole_in(alloc, low as u64, high as u64, word),
        Kind::WholeUpToNext(low, high) => {
            let high = (high as u64).min(next_number(after));
            whole_in(alloc, low as u64, high, word)
        }
        Kind::DecimalNumber(low, high) => decimal_value(alloc, low, high, word),
        Kind::BoundNumber(low, high) => bound_in(alloc, low, high, word),
        Kind::OneOf(_, _) | Kind::NameWord | Kind::FileWord | Kind::AnyWord => word_value(
            alloc, word,
        ),
    }
}
