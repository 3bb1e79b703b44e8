//! The reader: the values that words are by a form, or the first fault.

ghost use Rattle.std.specs.Prelude.{◌≡◌, ◌≤◌, length, take, drop, []};
ghost use Rattle.spk_num.specs.Results.{IsPlainOrMemory};
ghost use Rattle.spk_cmds.specs.Faults.{is_memory};
ghost use Rattle.spk_cmds.specs.Kinds.{is_among};
ghost use Rattle.spk_cmds.specs.Forms.{is_tail_count, number_said, is_count, all_formed, each_formed, stands_in, keyword_formed, pair_formed, pairs_formed, tail_formed, all_valued, each_valued, pairs_valued, tail_valued, words_formed, words_valued, form_read, keyword_words, keyword_kind};
ghost use Rattle.spk_cmds.specs.Views.{words_seen, kind_seen, kinds_seen, keywords_seen, tail_seen, form_seen};

use crate::command::CommandFault;
use crate::form::{Form, Keyword, Kind, Tail};
use crate::numbers::value_of;
use crate::value::{Reading, Value, Values};
use crate::words::{is_among, judge_form};
use spk_num::text::Text;
use spk_num::whole::whole_of;
use std::alloc::Global;

/// Whether so many words may stand in a tail, where a whole number may say how many.
fn is_tail_count(tail: Tail, said: Option<u64>, words: usize) -> bool
    ensures { result ≡ is_tail_count (tail_seen tail) said words }
{
    match tail {
        Tail::NoTail => words == 0,
        Tail::Pairs(keywords, unbuilt) => {
            words % 2 == 0 && words / 2 <= keywords.len() + unbuilt.len()
        }
        Tail::Optional(kinds) => words == 0 || words == kinds.len(),
        Tail::Counted(_) => match said {
            Some(number) => number == words as u64,
            None => true,
        },
        Tail::UpTo(most, _) => words <= most,
    }
}

/// The whole number that the last of the words that always stand is, where it is one.
fn number_said(always: usize, words: &[Text]) -> Option<u64>
    ensures { result ≡ number_said always words.now }
{
    match words.get(always.saturating_sub(1)) {
        Some(word) => whole_of(word),
        None => None,
    }
}

/// Whether a form has so many words.
fn is_count(form: &Form, words: &[Text]) -> bool
    ensures { result ≡ is_count (form_seen form.now) words.now }
{
    let always = form.kinds.len();
    always <= words.len()
        && is_tail_count(form.tail, number_said(always, words), words.len() - always)
}

/// Refuses the first word that hasn't the form of its kind.
fn judge_all(alloc: Global, kinds: &[Kind], words: &[Text]) -> Result<(), CommandFault>
    ensures { IsPlainOrMemory is_memory (all_formed (kinds_seen kinds.now) words.now) result }
{
    let [kind, other_kinds @ ..] = kinds else {
        return Ok(());
    };
    let [word, other_words @ ..] = words else {
        return Ok(());
    };
    judge_form(alloc, kind, word)?;
    judge_all(alloc, other_kinds, other_words)
}

/// Refuses the first word that hasn't the form of this kind.
fn judge_each(alloc: Global, kind: &Kind, words: &[Text]) -> Result<(), CommandFault>
    ensures { IsPlainOrMemory is_memory (each_formed (kind_seen kind.now) words.now) result }
{
    let mut left = words;
    while let [word, other_words @ ..] = left {
        judge_form(alloc, kind, word)?;
        left = other_words;
    }
    Ok(())
}

/// Whether a keyword stands among pairs.
fn stands_in(pairs: &[Text], word: &str) -> bool
    ensures { result ≡ stands_in pairs.now word.now }
{
    match pairs {
        [keyword, _, pairs @ ..] => word == keyword.as_str() || stands_in(pairs, word),
        _ => false,
    }
}

/// Whether a word is a keyword.
fn is_keyword(keywords: &[Keyword], word: &str) -> bool
    ensures { result ≡ is_among (keyword_words (keywords_seen keywords.now)) word.now }
{
    match keywords {
        [keyword, keywords @ ..] => word == keyword.word || is_keyword(keywords, word),
        [] => false,
    }
}

/// The kind of the value after a keyword.
fn keyword_kind(keywords: &[Keyword], word: &str) -> Kind
    ensures { kind_seen result ≡ keyword_kind (keywords_seen keywords.now) word.now }
{
    match keywords {
        [keyword, keywords @ ..] => {
            if word == keyword.word {
                keyword.kind
            } else {
                keyword_kind(keywords, word)
            }
        }
        [] => Kind::AnyWord,
    }
}

/// Refuses a keyword that stands twice, that is unknown or that isn't built yet.
#[tactic(auto, using(crate::proofs::Refusals::plain_or_memory))]
fn judge_keyword(
    alloc: Global,
    keywords: &[Keyword],
    unbuilt: &[&str],
    again: bool,
    word: &Text,
) -> Result<(), CommandFault>
    ensures { IsPlainOrMemory is_memory (keyword_formed (keywords_seen keywords.now) (words_seen unbuilt.now) again word.now) result }
{
    if !again {
        if is_keyword(keywords, word.as_str()) {
            return Ok(());
        }
        if is_among(unbuilt, word.as_str()) {
            return Err(CommandFault::NotBuilt(Text::copy(alloc, word.as_str())?));
        }
    }
    Err(CommandFault::UnknownStyle(Text::copy(alloc, word.as_str())?))
}

/// Refuses a pair of a keyword and its value.
#[tactic(auto, using(crate::proofs::Refusals::plain_or_memory))]
fn judge_pair(
    alloc: Global,
    keywords: &[Keyword],
    unbuilt: &[&str],
    again: bool,
    word: &Text,
    given: &Text,
) -> Result<(), CommandFault>
    ensures { IsPlainOrMemory is_memory (pair_formed (keywords_seen keywords.now) (words_seen unbuilt.now) again word.now given.now) result }
{
    judge_keyword(alloc, keywords, unbuilt, again, word)?;
    let kind = keyword_kind(keywords, word.as_str());
    judge_form(alloc, &kind, given)
}

/// Refuses the first pair from a place on.
fn judge_pairs(
    alloc: Global,
    keywords: &[Keyword],
    unbuilt: &[&str],
    words: &[Text],
    place: usize,
) -> Result<(), CommandFault>
    requires { place ≤ length words.now }
    ensures { IsPlainOrMemory is_memory (pairs_formed (keywords_seen keywords.now) (words_seen unbuilt.now) (take place words.now) (drop place words.now)) result }
{
    let (before, pairs) = words.split_at(place);
    let [word, given, ..] = pairs else {
        return Ok(());
    };
    let again = stands_in(before, word.as_str());
    judge_pair(alloc, keywords, unbuilt, again, word, given)?;
    judge_pairs(alloc, keywords, unbuilt, words, place + 2)
}

/// Refuses the first word of a tail that hasn't its form.
#[tactic(auto, using(crate::proofs::Refusals::plain_or_memory))]
fn judge_tail(alloc: Global, tail: Tail, words: &[Text]) -> Result<(), CommandFault>
    ensures { IsPlainOrMemory is_memory (tail_formed (tail_seen tail) words.now) result }
{
    match tail {
        Tail::NoTail => Ok(()),
        Tail::Pairs(keywords, unbuilt) => judge_pairs(alloc, keywords, unbuilt, words, 0),
        Tail::Optional(kinds) => judge_all(alloc, kinds, words),
        Tail::Counted(kind) | Tail::UpTo(_, kind) => judge_each(alloc, &kind, words),
    }
}

/// Adds the values of words, each by its kind.
fn value_all(
    alloc: Global,
    mut values: Values,
    kinds: &[Kind],
    words: &[Text],
) -> Result<Values, CommandFault>
    ensures { IsPlainOrMemory is_memory (all_valued values (kinds_seen kinds.now) words.now) result }
{
    let [kind, other_kinds @ ..] = kinds else {
        return Ok(values);
    };
    let [word, other_words @ ..] = words else {
        return Ok(values);
    };
    values.push(value_of(alloc, kind, word, other_words)?)?;
    value_all(alloc, values, other_kinds, other_words)
}

/// Adds the values of words of one kind.
fn value_each(
    alloc: Global,
    mut values: Values,
    kind: &Kind,
    words: &[Text],
) -> Result<Values, CommandFault>
    ensures { IsPlainOrMemory is_memory (each_valued values (kind_seen kind.now) words.now) result }
{
    let mut left = words;
    while let [word, other_words @ ..] = left {
        values.push(value_of(alloc, kind, word, other_words)?)?;
        left = other_words;
    }
    Ok(values)
}

/// Adds the keywords and the values of pairs.
fn value_pairs(
    alloc: Global,
    mut values: Values,
    keywords: &[Keyword],
    words: &[Text],
) -> Result<Values, CommandFault>
    ensures { IsPlainOrMemory is_memory (pairs_valued values (keywords_seen keywords.now) words.now) result }
{
    let [word, given, pairs @ ..] = words else {
        return Ok(values);
    };
    let kind = keyword_kind(keywords, word.as_str());
    let value = value_of(alloc, &kind, given, pairs)?;
    let word = Text::copy(alloc, word.as_str())?;
    values.push(Value::Word(word))?;
    values.push(value)?;
    value_pairs(alloc, values, keywords, pairs)
}

/// The values of a tail.
#[tactic(auto, using(crate::proofs::Refusals::plain_or_memory))]
fn value_tail(alloc: Global, tail: Tail, words: &[Text]) -> Result<Values, CommandFault>
    ensures { IsPlainOrMemory is_memory (tail_valued (tail_seen tail) words.now) result }
{
    let values = Values::new(alloc);
    match tail {
        Tail::NoTail => Ok(values),
        Tail::Pairs(keywords, _) => value_pairs(alloc, values, keywords, words),
        Tail::Optional(kinds) => value_all(alloc, values, kinds, words),
        Tail::Counted(kind) | Tail::UpTo(_, kind) => value_each(alloc, values, &kind, words),
    }
}

/// Refuses the first word that hasn't its form.
#[tactic(auto, using(crate::proofs::Refusals::plain_or_memory))]
fn judge_words(alloc: Global, form: &Form, words: &[Text]) -> Result<(), CommandFault>
    requires { length form.now.kinds.now ≤ length words.now }
    ensures { IsPlainOrMemory is_memory (words_formed (form_seen form.now) words.now) result }
{
    judge_all(alloc, form.kinds, words)?;
    judge_tail(alloc, form.tail, &words[form.kinds.len()..])
}

/// The values of words that have their forms, or the first number that is out of its range.
#[tactic(auto, using(crate::proofs::Refusals::plain_or_memory))]
fn value_words(alloc: Global, form: &Form, words: &[Text]) -> Result<Reading, CommandFault>
    requires { length form.now.kinds.now ≤ length words.now }
    ensures { IsPlainOrMemory is_memory (words_valued (form_seen form.now) words.now) result }
{
    let values = value_all(alloc, Values::new(alloc), form.kinds, words)?;
    let more = value_tail(alloc, form.tail, &words[form.kinds.len()..])?;
    Ok(Reading { values, more })
}

/// The values that words are by a form, or the first fault: the number of words, the form of a word from the left, and
/// the range of a number from the left.
#[tactic(auto, using(crate::proofs::Refusals::plain_or_memory))]
pub fn read_form(alloc: Global, form: &Form, words: &[Text]) -> Result<Reading, CommandFault>
    ensures { IsPlainOrMemory is_memory (form_read (form_seen form.now) words.now) result }
{
    if !is_count(form, words) {
        return Err(CommandFault::WrongCount);
    }
    judge_words(alloc, form, words)?;
    value_words(alloc, form, words)
}
