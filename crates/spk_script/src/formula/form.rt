//! The form of a formula.

ghost use Rattle.std.specs.Prelude.{◌≡◌, ◌<◌, ◌≤◌, ◌^◌, ◌+◌, Ok, Err, false, length, IfOk, MatchResult};
ghost use Rattle.spk_script.specs.Faults.{is_memory};
ghost use Rattle.spk_script.specs.Formulas.{begins_blank, ends_blank};
ghost use Rattle.spk_script.specs.Forms.{parts_formed, passed_before, passed_after, passed, depth_of, fault_at_end, form_fault};

use super::part::{Operator, Part, Token, parts_of};
use crate::bytes::is_blank;
use crate::fault::LineFault;
use std::alloc::Global;

/// The state of a formula between two of its parts, inside so many open parentheses.
#[derive(Clone, Copy)]
enum FormState {
    /// An operand has to come.
    BeforeOperand(usize),
    /// An operator, a closing parenthesis or the end has to come.
    AfterOperand(usize),
}

/// The state after a part that an operand has to begin with.
fn pass_before(depth: usize, part: &Part) -> Result<FormState, u32>
    requires { depth < 2 ^ 63 }
    ensures { result ≡ passed_before depth part.now.place part.now.token }
{
    match &part.token {
        Token::Number(_) | Token::Name(_) => Ok(FormState::AfterOperand(depth)),
        Token::Open => Ok(FormState::BeforeOperand(depth + 1)),
        Token::Sign(Operator::Minus) => Ok(FormState::BeforeOperand(depth)),
        Token::Broken(place) => Err(*place),
        _ => Err(part.place),
    }
}

/// The state after a part that comes after an operand.
fn pass_after(depth: usize, part: &Part) -> Result<FormState, u32>
    ensures { result ≡ passed_after depth part.now.place part.now.token }
{
    match &part.token {
        Token::Sign(_) => Ok(FormState::BeforeOperand(depth)),
        Token::Close if depth > 0 => Ok(FormState::AfterOperand(depth - 1)),
        _ => Err(part.place),
    }
}

impl FormState {
    /// The state after one part more, or the place of the fault.
    fn pass(self, part: &Part) -> Result<FormState, u32>
        requires { depth_of self < 2 ^ 63 }
        ensures passed { result ≡ passed self part.now.place part.now.token }
        ensures depth { IfOk result (λ next. depth_of next ≤ depth_of self + 1) }
    {
        match self {
            FormState::BeforeOperand(depth) => pass_before(depth, part),
            FormState::AfterOperand(depth) => pass_after(depth, part),
        }
    }

    /// The fault of a text that ends here.
    fn fault_at_end(self, text: &[u8]) -> Option<u32>
        requires { length text.now ≤ 4096 }
        ensures { result ≡ fault_at_end text.now self }
    {
        match self {
            FormState::AfterOperand(0) if !ends_blank(text) => None,
            _ => Some(text.len() as u32),
        }
    }
}

fn begins_blank(text: &[u8]) -> bool
    ensures { result ≡ begins_blank text.now }
{
    matches!(text, [first, ..] if is_blank(*first))
}

fn ends_blank(text: &[u8]) -> bool
    ensures { result ≡ ends_blank text.now }
{
    matches!(text, [.., last] if is_blank(*last))
}

/// The first byte of a text with these parts that can't stand there, if it is no formula.
fn form_fault(text: &[u8], parts: &[Part]) -> Option<u32>
    requires { length text.now ≤ 4096 }
    ensures { result ≡ form_fault text.now parts.now }
{
    if begins_blank(text) {
        return Some(0);
    }
    let mut state = FormState::BeforeOperand(0);
    for part in parts {
        match state.pass(part) {
            Ok(next) => state = next,
            Err(place) => return Some(place),
        }
    }
    state.fault_at_end(text)
}

/// The parts of a text that is a formula. Its form is judged whole.
#[tactic(auto, using(crate::proofs::FormReads::formed, crate::proofs::FormReads::not_formed))]
pub fn formed_parts(alloc: Global, text: &[u8]) -> Result<Vec<Part>, LineFault>
    requires { length text.now ≤ 4096 }
    ensures { MatchResult result (λ parts. parts_formed text.now ≡ Ok parts.items)
        (λ fault. is_memory fault ≡ false → parts_formed text.now ≡ Err fault) }
{
    let parts = parts_of(alloc, text)?;
    match form_fault(text, &parts) {
        Some(place) => Err(LineFault::BadFormula(place)),
        None => Ok(parts),
    }
}

#[cfg(test)]
mod tests {
    use super::*;

    #[test]
    fn judges_the_form(rt: HostRuntime) {
        let cases: [(&[u8], Option<u32>); 6] = [
            (b"( 1 + 2 ) * - 3", None),
            (b"((v_a))/.5-(1.)", None),
            (b"", Some(0)),
            (b"(1", Some(2)),
            (b"1+*2", Some(2)),
            (b"1.2345678", Some(0)),
        ];
        for (text, wanted) in &cases {
            assert!(rt; text.len() <= 4096);
            let fault = match formed_parts(rt.alloc(), text) {
                Ok(_) => None,
                Err(LineFault::BadFormula(place)) => Some(place),
                Err(fault) => panic!(rt; "{fault:?}"),
            };
            assert_eq!(rt; fault, *wanted);
        }
    }
}
