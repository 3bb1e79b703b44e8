//! A variable of a script.

ghost use Rattle.std.specs.Prelude.{◌≡◌, ◌≤◌, ◌∷◌, ◌++◌, [], length, IfOk, MatchOption, Some, None};
ghost use Rattle.std.specs.Bool.{MatchBool};
ghost use Rattle.spk_script.specs.Commands.Next.{has_steps, next_variable};

use spk_num::text::Text;
use std::alloc::{AllocError, Global};
use std::collections::VecDeque;
use std::marker::Model;

/// A variable, by its style.
#[derive(Debug, Drop)]
pub enum Variable {
    /// A value, and those that come after it.
    Index { value: Text, later: Values },
    /// A whole number, and the last one that it comes to.
    Loop { value: u32, last: u32 },
    /// A text.
    String(Text),
    /// A formula, whose value is computed at each use.
    Equal(FormulaText),
}

impl Variable {
    /// Whether a variable of this style has a next value.
    pub fn has_steps(&self) -> bool
        ensures { result ≡ has_steps self.now }
    {
        matches!(self, Variable::Index { .. } | Variable::Loop { .. })
    }

    /// Goes to the next value, where there is one.
    pub fn advance(&mut self) -> bool
        ensures { MatchBool result (next_variable self.old ≡ Some self.new) ((next_variable self.old ≡ None) × (self.new ≡ self.old)) }
    {
        match self {
            Variable::Index { value, later } => match later.pop() {
                Some(next) => {
                    *value = next;
                    true
                }
                None => false,
            },
            Variable::Loop { value, last } if *value < *last => {
                *value += 1;
                true
            }
            _ => false,
        }
    }
}

/// Values in the order in which a variable takes them.
#[derive(Debug, Drop)]
pub struct Values {
    texts: VecDeque<Text>,
}

impl Model for Values {
    ghost use Rattle.std.specs.Prelude.{ℕ, List};

    ghost Value = { List (List ℕ) };

    ghost view = { λ v. v.texts.items };
}

impl Values {
    /// No values.
    pub fn new(alloc: Global) -> Values
        ensures { result ≡ [] }
    {
        Values {
            texts: VecDeque::new(alloc),
        }
    }

    /// Puts one more at the end.
    pub fn push(&mut self, value: Text) -> Result<(), AllocError>
        ensures { IfOk result (λ _. self.new ≡ self.old ++ value ∷ []) }
    {
        self.texts.push_back(value)?;
        Ok(())
    }

    /// Takes the first.
    pub fn pop(&mut self) -> Option<Text>
        ensures { MatchOption result ((self.old ≡ []) × (self.new ≡ [])) (λ value. self.old ≡ value ∷ self.new) }
    {
        self.texts.pop_front()
    }
}

/// The text of a formula. It is a word of a line, and so has no more than 4096 bytes.
#[derive(Debug, Drop)]
pub struct FormulaText {
    text: Text,
}

impl Model for FormulaText {
    ghost use Rattle.std.specs.Prelude.{ℕ, List, ◌≤◌, length};

    ghost Value = { List ℕ };

    ghost view = { λ f. f.text };

    ghost invariant = { λ f. length f.text ≤ 4096 };
}

impl FormulaText {
    /// The formula with this text.
    pub fn new(text: Text) -> FormulaText
        requires { length text ≤ 4096 }
        ensures { result ≡ text }
    {
        FormulaText { text }
    }

    /// The bytes of the text.
    pub fn as_bytes(&self) -> &[u8]
        ensures bytes { result.now ≡ self.now }
        ensures short { length result.now ≤ 4096 }
    {
        self.text.as_bytes()
    }
}
