//! How far the evaluation of a formula has come.

ghost use Rattle.std.specs.Prelude.{◌≡◌, ◌≤◌};
ghost use Rattle.spk_num.specs.Results.{IsPlainOrMemory};
ghost use Rattle.spk_script.specs.Faults.{is_memory};
ghost use Rattle.spk_script.specs.Evaluation.{started, opened, counted, evaluated_on, is_product_sign, closed, after_operand_by, after_operand, finished};

use super::amount::Amount;
use super::part::{Part, Token};
use super::stack::{Frame, Stack, is_product};
use crate::fault::LineFault;
use std::alloc::Global;
use std::marker::Model;

/// A formula stands inside no more than this many parentheses, minuses and names.
pub const MOST_DEPTH: usize = 100;

/// A formula has no more than this many numbers and names.
pub const MOST_NUMBERS: u32 = 1000;

/// The value of a formula, and how many numbers and names have been read up to it.
#[derive(Debug, Drop)]
pub struct Evaluated {
    value: Amount,
    operand_count: u32,
}

impl Model for Evaluated {
    ghost use Rattle.spk_script.specs.Values.{Evaluated as ReckonedValue};

    ghost Value = { ReckonedValue };

    ghost view = { λ r. record { value = r.value; operand_count = r.operand_count } };
}

impl Evaluated {
    /// This value, after so many numbers and names.
    pub fn new(value: Amount, operand_count: u32) -> Evaluated
        ensures { result ≡ record { value = value; operand_count = operand_count } }
    {
        Evaluated {
            value,
            operand_count,
        }
    }

    /// The value.
    pub fn value(&self) -> Amount
        ensures { result ≡ self.now.value }
    {
        self.value
    }
}

/// What stands open, how many numbers and names have been read, and the number that was read last.
#[derive(Debug, Drop)]
pub struct Progress {
    pub stack: Stack,
    pub operand_count: u32,
    /// With none, a number is wanted next.
    pub value: Option<Amount>,
}

impl Progress {
    /// Nothing has been read yet, after so many numbers and names.
    pub fn new(alloc: Global, operand_count: u32) -> Progress
        ensures { result ≡ started operand_count }
    {
        Progress {
            stack: Stack::new(alloc),
            operand_count,
            value: None,
        }
    }

    /// Opens a minus or a parenthesis.
    #[tactic(auto, unfolding(spk_num::specs::Results::IsPlainOrMemory))]
    pub fn opened(mut self, depth: usize, place: u32, frame: Frame) -> Result<Progress, LineFault>
        requires { depth ≤ 100 }
        ensures { IsPlainOrMemory is_memory (opened depth place self frame) result }
    {
        if self.stack.depth() >= MOST_DEPTH - depth {
            return Err(LineFault::BadFormula(place));
        }
        self.stack.push(frame)?;
        Ok(self)
    }

    /// Takes a number.
    pub fn counted(mut self, place: u32, number: Amount) -> Result<Progress, LineFault>
        ensures { result ≡ counted place self number }
    {
        if self.operand_count >= MOST_NUMBERS {
            return Err(LineFault::BadFormula(place));
        }
        self.operand_count += 1;
        self.value = Some(number);
        Ok(self)
    }

    /// Takes the value of a name.
    pub fn evaluated_on(mut self, evaluated: Evaluated) -> Progress
        ensures { result ≡ evaluated_on self evaluated }
    {
        self.operand_count = evaluated.operand_count;
        self.value = Some(evaluated.value);
        self
    }

    /// Closes the parenthesis that was opened last, where nothing else stands open in it.
    fn closed(mut self, place: u32, value: Amount) -> Result<Progress, LineFault>
        ensures { result ≡ closed place self.operand_count value self.stack }
    {
        match self.stack.pop() {
            Some(Frame::Parenthesis) => {
                self.value = Some(value);
                Ok(self)
            }
            _ => Err(LineFault::BadFormula(place)),
        }
    }

    /// Takes a part after a number, when what the number finishes is gone.
    #[tactic(auto, unfolding(spk_num::specs::Results::IsPlainOrMemory))]
    fn after_settled(mut self, value: Amount, part: &Part) -> Result<Progress, LineFault>
        ensures { IsPlainOrMemory is_memory (after_operand_by part.now.place self.operand_count part.now.token self.stack value) result }
    {
        match &part.token {
            Token::Sign(operator) => {
                self.stack.push(Frame::Pending {
                    operator: *operator,
                    left: value,
                })?;
                self.value = None;
                Ok(self)
            }
            Token::Close => self.closed(part.place, value),
            _ => Err(LineFault::BadFormula(part.place)),
        }
    }

    /// Takes a part after a number.
    pub fn after_operand(mut self, value: Amount, part: &Part) -> Result<Progress, LineFault>
        ensures { IsPlainOrMemory is_memory (after_operand part.now.place self value part.now.token) result }
    {
        let before_product = is_product_sign(&part.token);
        let value = self.stack.settle(before_product, value)?;
        self.after_settled(value, part)
    }

    /// What has come of all parts. Those of a formula end after a number.
    pub fn finished(mut self) -> Result<Evaluated, LineFault>
        ensures { result ≡ finished self }
    {
        let Some(value) = self.value else {
            return Err(LineFault::BadFormula(0));
        };
        let value = self.stack.settle(false, value)?;
        Ok(Evaluated::new(value, self.operand_count))
    }
}

/// Whether it is the sign of a product.
fn is_product_sign(token: &Token) -> bool
    ensures { result ≡ is_product_sign token.now }
{
    match token {
        Token::Sign(operator) => is_product(*operator),
        _ => false,
    }
}
