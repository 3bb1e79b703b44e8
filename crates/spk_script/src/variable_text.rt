//! The text that stands for a name.

ghost use Rattle.std.specs.Prelude.{◌≡◌, IfOk};
ghost use Rattle.spk_num.specs.Decimal.{decimal_text};
ghost use Rattle.spk_num.specs.Results.{IsPlainOrMemory};
ghost use Rattle.spk_script.specs.Faults.{is_memory};
ghost use Rattle.spk_script.specs.Tables.{environment_of};
ghost use Rattle.spk_script.specs.Values.{variable_text};

use crate::fault::LineFault;
use crate::formula::formula_value;
use crate::variable::Variable;
use crate::variable_table::VariableTable;
use spk_num::decimal::Dec;
use spk_num::text::Text;
use std::alloc::{AllocError, Global};

/// A printed number.
fn number_text(alloc: Global, number: Dec) -> Result<Text, AllocError>
    ensures { IfOk result (λ text. text ≡ decimal_text number.millionths) }
{
    Text::from_ascii(alloc, number.print().as_bytes())
}

/// The text of the variable with this name. A whole number and the value of a formula are printed as decimals.
#[tactic(auto, unfolding(spk_num::specs::Results::IsPlainOrMemory, crate::specs::Values::variable_text))]
pub fn variable_text(
    alloc: Global,
    variables: &VariableTable,
    name: &str,
) -> Result<Text, LineFault>
    ensures { IsPlainOrMemory is_memory (variable_text (environment_of variables.now) name.now) result }
{
    match variables.get(name) {
        Some(Variable::Index { value, .. } | Variable::String(value)) => {
            Ok(Text::copy(alloc, value.as_str())?)
        }
        Some(Variable::Loop { value, .. }) => {
            let text = format!(in alloc; "{value}")?;
            Ok(Text::copy(alloc, text.as_str())?)
        }
        Some(Variable::Equal(formula)) => {
            let number = formula_value(alloc, variables, formula)?;
            Ok(number_text(alloc, number)?)
        }
        None => Err(LineFault::UnknownVariable(Text::copy(alloc, name)?)),
    }
}
