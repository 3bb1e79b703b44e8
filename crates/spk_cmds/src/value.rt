//! The values that the words of a command are.

ghost use Rattle.std.specs.Prelude.{◌≡◌, ◌++◌, ◌∷◌, [], IfOk, map, option_map};
ghost use Rattle.spk_cmds.specs.Values.{number_at, decimal_at, bound_at, word_at, after_keyword, decimal_after, word_after, word_by, words_of};

use spk_num::decimal::Dec;
use spk_num::shape::Bound;
use spk_num::text::Text;
use spk_num::texts::Texts;
use std::alloc::{AllocError, Global};
use std::marker::Model;

/// What a word is.
#[derive(Drop)]
pub enum Value {
    Whole(u32),
    Decimal(Dec),
    Bound(Bound),
    Word(Text),
}

/// Values in the order of their words.
#[derive(Drop)]
pub struct Values {
    values: Vec<Value>,
}

/// The values of the words that always stand, and of those in the tail.
#[derive(Drop)]
pub struct Reading {
    pub values: Values,
    pub more: Values,
}

impl Model for Values {
    ghost use Rattle.std.specs.Prelude.{List};
    ghost use Rattle.spk_cmds.specs.declared.value.Value.{Value as Word};

    ghost Value = { List Word };

    ghost view = { λ v. v.values.items };
}

/// The value after a keyword, in pairs of a keyword and its value.
fn after_keyword<'a>(pairs: &'a [Value], word: &str) -> Option<&'a Value>
    ensures { option_map (λ value. value.now) result ≡ after_keyword pairs.now word.now }
{
    match pairs {
        [keyword, given, pairs @ ..] => {
            if word_of(keyword) == word {
                Some(given)
            } else {
                after_keyword(pairs, word)
            }
        }
        _ => None,
    }
}

/// The word that a value is, and an empty one where it is none.
pub fn word_of(value: &Value) -> &str
    ensures { result.now ≡ word_by (Some value.now) }
{
    match value {
        Value::Word(word) => word.as_str(),
        _ => "",
    }
}

impl Values {
    /// No values.
    pub fn new(alloc: Global) -> Values
        ensures { result ≡ [] }
    {
        Values {
            values: Vec::new(alloc),
        }
    }

    /// Puts one more at the end.
    pub fn push(&mut self, value: Value) -> Result<(), AllocError>
        ensures { IfOk result (λ _. self.new ≡ self.old ++ value ∷ []) }
    {
        self.values.push(value)?;
        Ok(())
    }

    /// The values as a slice.
    pub fn as_slice(&self) -> &[Value]
        ensures { result.now ≡ self.now }
    {
        &self.values
    }

    /// The whole number at a place, and 0 where there is none.
    pub fn number(&self, place: usize) -> u32
        ensures { result ≡ number_at self.now place }
    {
        match self.as_slice().get(place) {
            Some(Value::Whole(number)) => *number,
            _ => 0,
        }
    }

    /// The decimal number at a place, and 0 where there is none.
    pub fn decimal(&self, place: usize) -> Dec
        ensures { result ≡ decimal_at self.now place }
    {
        match self.as_slice().get(place) {
            Some(Value::Decimal(number)) => *number,
            _ => Dec { millionths: 0 },
        }
    }

    /// The bound at a place, and an open one where there is none.
    pub fn bound(&self, place: usize) -> Bound
        ensures { result ≡ bound_at self.now place }
    {
        match self.as_slice().get(place) {
            Some(Value::Bound(bound)) => *bound,
            _ => Bound::Open,
        }
    }

    /// The word at a place, and an empty one where there is none.
    pub fn word(&self, place: usize) -> &str
        ensures { result.now ≡ word_at self.now place }
    {
        match self.as_slice().get(place) {
            Some(value) => word_of(value),
            None => "",
        }
    }

    /// The words of all values in their order.
    pub fn words(&self, alloc: Global) -> Result<Texts, AllocError>
        ensures { IfOk result (λ words. words ≡ words_of self.now) }
    {
        let mut words = Vec::new(alloc);
        for value in self.as_slice() {
            words.push(Text::copy(alloc, word_of(value))?)?;
        }
        Ok(Texts::from_vec(words))
    }

    /// The decimal number after a keyword, where that stands.
    pub fn decimal_after(&self, keyword: &str) -> Option<Dec>
        ensures { result ≡ decimal_after self.now keyword.now }
    {
        match after_keyword(self.as_slice(), keyword) {
            Some(Value::Decimal(number)) => Some(*number),
            Some(_) => Some(Dec { millionths: 0 }),
            None => None,
        }
    }

    /// The word after a keyword, where that stands.
    pub fn word_after(&self, keyword: &str) -> Option<&str>
        ensures { option_map (λ word. word.now) result ≡ word_after self.now keyword.now }
    {
        match after_keyword(self.as_slice(), keyword) {
            Some(value) => Some(word_of(value)),
            None => None,
        }
    }
}
