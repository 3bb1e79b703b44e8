//! The value of a formula, and of the names in it.

ghost use Rattle.std.specs.Prelude.{◌≡◌, ◌≤◌};
ghost use Rattle.std.specs.List.{All};
ghost use Rattle.spk_num.specs.Decimal.{millionths_of};
ghost use Rattle.spk_num.specs.Results.{IsPlainOrMemory};
ghost use Rattle.spk_script.specs.Faults.{is_memory};
ghost use Rattle.spk_script.specs.Formulas.{formula_of};
ghost use Rattle.spk_script.specs.Tables.{environment_of};
ghost use Rattle.spk_script.specs.Values.{at_reference, decimal_of, value_of_read};
ghost use Rattle.spk_script.specs.Evaluation.{IsSmall, naming_of, started, named, opened_by, operand_by, step, run};

use super::amount::Amount;
use super::form::formed_parts;
use super::part::{Operator, Part, Token};
use super::progress::{Evaluated, MOST_DEPTH, MOST_NUMBERS, Progress};
use super::stack::Frame;
use crate::fault::LineFault;
use crate::variable::{FormulaText, Variable};
use crate::variable_table::VariableTable;
use spk_num::decimal::Dec;
use spk_num::text::Text;
use std::alloc::Global;

/// The value of a text as a formula, at this depth and after so many numbers and names.
#[cycle(value)]
pub fn value_of_text(
    alloc: Global,
    variables: &VariableTable,
    depth: usize,
    operand_count: u32,
    text: &FormulaText,
) -> Result<Evaluated, LineFault>
    requires { depth ≤ 100 }
    ensures { IsPlainOrMemory is_memory (value_of_read (naming_of (environment_of variables.now)) depth operand_count (formula_of text.now)) result }
{
    let parts = formed_parts(alloc, text.as_bytes())?;
    value_of_parts(alloc, variables, depth, operand_count, &parts)
}

/// What comes of the parts of a formula.
#[cycle(value)]
fn value_of_parts(
    alloc: Global,
    variables: &VariableTable,
    depth: usize,
    operand_count: u32,
    parts: &[Part],
) -> Result<Evaluated, LineFault>
    requires depth { depth ≤ 100 }
    requires small { All (λ part. IsSmall part.token) parts.now }
    ensures { IsPlainOrMemory is_memory (run (naming_of (environment_of variables.now)) depth (started operand_count) parts.now) result }
{
    let mut progress = Progress::new(alloc, operand_count);
    for part in parts {
        progress = step(alloc, variables, depth, progress, part)?;
    }
    progress.finished()
}

/// Takes one part more.
#[cycle(value)]
fn step(
    alloc: Global,
    variables: &VariableTable,
    depth: usize,
    progress: Progress,
    part: &Part,
) -> Result<Progress, LineFault>
    requires depth { depth ≤ 100 }
    requires small { IsSmall part.now.token }
    ensures { IsPlainOrMemory is_memory (step (naming_of (environment_of variables.now)) depth progress part.now) result }
{
    match progress.value {
        Some(value) => progress.after_operand(value, part),
        None => operand(alloc, variables, depth, progress, part),
    }
}

/// Takes a part where a number is wanted.
#[cycle(value)]
fn operand(
    alloc: Global,
    variables: &VariableTable,
    depth: usize,
    progress: Progress,
    part: &Part,
) -> Result<Progress, LineFault>
    requires depth { depth ≤ 100 }
    requires small { IsSmall part.now.token }
    ensures { IsPlainOrMemory is_memory (operand_by (naming_of (environment_of variables.now)) depth part.now.place progress part.now.token) result }
{
    match &part.token {
        Token::Number(number) => progress.counted(part.place, Amount::new(*number)),
        Token::Name(name) => named(alloc, variables, depth, progress, part.place, name),
        token => match opened_by(token) {
            Some(frame) => progress.opened(depth, part.place, frame),
            None => Err(LineFault::BadFormula(part.place)),
        },
    }
}

/// What a part opens where a number is wanted.
fn opened_by(token: &Token) -> Option<Frame>
    ensures { result ≡ opened_by token.now }
{
    match token {
        Token::Open => Some(Frame::Parenthesis),
        Token::Sign(Operator::Minus) => Some(Frame::Minus),
        _ => None,
    }
}

/// Takes a name where a number is wanted.
#[cycle(value)]
fn named(
    alloc: Global,
    variables: &VariableTable,
    depth: usize,
    progress: Progress,
    place: u32,
    name: &Text,
) -> Result<Progress, LineFault>
    requires { depth ≤ 100 }
    ensures { IsPlainOrMemory is_memory (named (naming_of (environment_of variables.now)) depth place progress name.now) result }
{
    let nested = progress.stack.depth();
    if nested >= MOST_DEPTH - depth || progress.operand_count >= MOST_NUMBERS {
        return Err(LineFault::BadFormula(place));
    }
    let value = value_of_name(
        alloc,
        variables,
        depth + nested + 1,
        progress.operand_count + 1,
        name,
    );
    Ok(progress.evaluated_on(at_reference(place, value)?))
}

/// What stands wrong in the formula of a name stands wrong at that name.
fn at_reference(place: u32, value: Result<Evaluated, LineFault>) -> Result<Evaluated, LineFault>
    ensures { result ≡ at_reference place value }
{
    match value {
        Err(LineFault::BadFormula(_)) => Err(LineFault::BadFormula(place)),
        value => value,
    }
}

/// The value of a name, at this depth and after so many numbers and names.
#[cycle(value)]
fn value_of_name(
    alloc: Global,
    variables: &VariableTable,
    depth: usize,
    operand_count: u32,
    name: &Text,
) -> Result<Evaluated, LineFault>
    requires { depth ≤ 100 }
    ensures { IsPlainOrMemory is_memory (naming_of (environment_of variables.now) depth operand_count name.now) result }
{
    match variables.get(name.as_str()) {
        Some(Variable::Index { value, .. }) => decimal_of(operand_count, value.as_bytes()),
        Some(Variable::Loop { value, .. }) => Ok(Evaluated::new(
            Amount::whole(*value),
            operand_count,
        )),
        Some(Variable::String(text)) => decimal_of(operand_count, text.as_bytes()),
        Some(Variable::Equal(text)) => value_of_text(alloc, variables, depth, operand_count, text),
        None => Err(LineFault::UnknownVariable(Text::copy(alloc, name.as_str())?)),
    }
}

/// A text that is read as a decimal number, and else is wrong where its name stands.
fn decimal_of(operand_count: u32, text: &[u8]) -> Result<Evaluated, LineFault>
    ensures { result ≡ decimal_of operand_count (millionths_of text.now) }
{
    match Dec::read(text) {
        Ok(number) => Ok(Evaluated::new(Amount::new(number), operand_count)),
        Err(_) => Err(LineFault::BadFormula(0)),
    }
}
