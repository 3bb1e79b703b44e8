//! What stands open in a formula.

ghost use Rattle.std.specs.Prelude.{◌≡◌, [], ◌∷◌, ◌++◌, IfOk, MatchResult, if◌then◌else◌};
ghost use Rattle.std.specs.Option.{option_to_list};
ghost use Rattle.spk_script.specs.Frames.{nests, depth_of, is_finished, applied, settled, first_frame, finished_first};
ghost use Rattle.spk_script.specs.Formulas.{is_product};

use super::amount::Amount;
use super::part::Operator;
use crate::fault::LineFault;
use std::alloc::{AllocError, Global};
use std::marker::Model;

/// Whether a product has this sign.
pub fn is_product(operator: Operator) -> bool
    ensures { result ≡ is_product operator }
{
    matches!(operator, Operator::Times | Operator::Over)
}

/// What stands open before a number.
#[derive(Clone, Copy, Debug, PartialEq, Eq)]
pub enum Frame {
    Minus,
    Parenthesis,
    /// An operator, and the number on its left.
    Pending { operator: Operator, left: Amount },
}

impl Frame {
    /// Whether what stands in it is one deeper.
    fn nests(&self) -> bool
        ensures { nests self.now ≡ (if result then 1 else 0) }
    {
        !matches!(self, Frame::Pending { .. })
    }

    /// Whether a number finishes it where the sign of a product comes next, or something else.
    fn is_finished(self, before_product: bool) -> bool
        ensures { result ≡ is_finished before_product self }
    {
        match self {
            Frame::Minus => true,
            Frame::Parenthesis => false,
            Frame::Pending { operator, .. } => is_product(operator) || !before_product,
        }
    }

    /// What becomes of a number inside.
    fn applied(self, value: Amount) -> Result<Amount, LineFault>
        ensures { result ≡ applied self value }
    {
        match self {
            Frame::Minus => Ok(value.negated()),
            Frame::Parenthesis => Ok(value),
            Frame::Pending { operator, left } => Amount::result_of(operator, left, value),
        }
    }
}

/// All that stands open, the innermost last.
#[derive(Debug, Drop)]
pub struct Stack {
    frames: Vec<Frame>,
    depth: usize,
}

impl Model for Stack {
    ghost use Rattle.std.specs.Prelude.{◌≡◌, List, reverse};
    ghost use Rattle.spk_script.specs.declared.formula.stack.Frame.{Frame};
    ghost use Rattle.spk_script.specs.Frames.{depth_of};

    ghost Value = { List Frame };

    ghost view = { λ s. reverse s.frames.items };

    ghost invariant = { λ s. s.depth ≡ depth_of (reverse s.frames.items) };
}

impl Stack {
    /// No frame.
    pub fn new(alloc: Global) -> Stack
        ensures { result ≡ [] }
    {
        Stack {
            frames: Vec::new(alloc),
            depth: 0,
        }
    }

    /// How many minuses and parentheses stand open.
    pub fn depth(&self) -> usize
        ensures { result ≡ depth_of self.now }
    {
        self.depth
    }

    /// Opens one more.
    #[tactic(auto, using(crate::proofs::Frames::depth_of_reverse))]
    pub fn push(&mut self, frame: Frame) -> Result<(), AllocError>
        ensures { IfOk result (λ _. self.new ≡ frame ∷ self.old) }
    {
        let deeper = usize::from(frame.nests());
        self.frames.push(frame)?;
        self.depth += deeper;
        Ok(())
    }

    /// Takes what was opened last.
    #[tactic(auto, using(crate::proofs::Frames::last_taken))]
    pub fn pop(&mut self) -> Option<Frame>
        ensures first { result ≡ first_frame self.old }
        ensures rest { self.old ≡ option_to_list result ++ self.new }
    {
        let frame = self.frames.pop()?;
        self.depth -= usize::from(frame.nests());
        Some(frame)
    }

    /// Takes what was opened last, where a number finishes it.
    fn pop_finished(&mut self, before_product: bool) -> Option<Frame>
        ensures first { result ≡ finished_first before_product self.old }
        ensures rest { self.old ≡ option_to_list result ++ self.new }
    {
        let frame = *self.frames.last()?;
        if frame.is_finished(before_product) {
            self.pop()
        } else {
            None
        }
    }

    /// Takes all that a number finishes where the sign of a product comes next, or something else, and says what
    /// becomes of the number.
    #[tactic(auto, using(crate::proofs::Frames::settled_end))]
    pub fn settle(&mut self, before_product: bool, value: Amount) -> Result<Amount, LineFault>
        ensures { MatchResult result (λ y. settled before_product self.old value ≡ Ok (self.new, y))
            (λ fault. settled before_product self.old value ≡ Err fault) }
    {
        let mut value = value;
        while let Some(frame) = self.pop_finished(before_product) {
            value = frame.applied(value)?;
        }
        Ok(value)
    }
}
