//! Formulas: exact decimal numbers of six places, computed from a text.

ghost use Rattle.spk_num.specs.Results.{IsPlainOrMemory};
ghost use Rattle.spk_script.specs.Faults.{is_memory};
ghost use Rattle.spk_script.specs.Values.{formula_value};
ghost use Rattle.spk_script.specs.Tables.{environment_of};

mod amount;
mod form;
mod part;
mod progress;
mod stack;
mod value;

use crate::fault::LineFault;
use crate::variable::FormulaText;
use crate::variable_table::VariableTable;
use spk_num::decimal::Dec;
use std::alloc::Global;
use value::value_of_text;

/// The value of a text as a formula. The first fault is the answer: of its form, and then from the left as its numbers,
/// names and operations are met.
pub fn formula_value(
    alloc: Global,
    variables: &VariableTable,
    text: &FormulaText,
) -> Result<Dec, LineFault>
    ensures { IsPlainOrMemory is_memory (formula_value (environment_of variables.now) text.now) result }
{
    let evaluated = value_of_text(alloc, variables, 0, 0, text)?;
    Ok(evaluated.value().number())
}

#[cfg(test)]
mod tests {
    use super::*;
    use crate::variable::{Values, Variable};
    use spk_num::text::Text;
    use std::process::Abort;
    use std::test::Fail;

    fn formula(rt: &impl Abort, alloc: Global, text: &str) -> Result<FormulaText, Fail> {
        assert!(rt; text.len() <= 4096);
        Ok(FormulaText::new(Text::copy(alloc, text)?))
    }

    fn shown(alloc: Global, value: &Result<Dec, LineFault>) -> Result<String, Fail> {
        Ok(match value {
            Ok(number) => {
                String::from_str(alloc, std::str::from_utf8(number.print().as_bytes())?)?
            }
            Err(LineFault::BadFormula(place)) => format!(in alloc; "wrong at {place}")?,
            Err(LineFault::UnknownVariable(name)) => {
                let name = name.as_str();
                format!(in alloc; "no variable {name}")?
            }
            Err(LineFault::Inexact) => String::from_str(alloc, "inexact")?,
            Err(LineFault::NumberTooLarge) => String::from_str(alloc, "too large")?,
            Err(_) => String::from_str(alloc, "another fault")?,
        })
    }

    fn expect_value(
        rt: &impl Abort,
        alloc: Global,
        variables: &VariableTable,
        text: &str,
        wanted: &str,
    ) -> Result<(), Fail> {
        let value = formula_value(alloc, variables, &formula(rt, alloc, text)?);
        assert_eq!(rt; shown(alloc, &value)?.as_str(), wanted, "at {text}");
        Ok(())
    }

    /// A text so many times, and then another.
    fn repeated(alloc: Global, text: &str, count: u32, end: &str) -> Result<String, Fail> {
        let mut all = String::new(alloc);
        for _ in 0..count {
            all.push_str(text)?;
        }
        all.push_str(end)?;
        Ok(all)
    }

    #[test]
    fn computes(rt: HostRuntime) -> Result<(), Fail> {
        let alloc = rt.alloc();
        let variables = VariableTable::new(alloc);
        for (text, wanted) in [
            ("(1+2)*0.5", "1.5"),
            ("2 - 3 * -4 / 6", "4"),
            ("1/3", "inexact"),
            ("1000000000000+0.000001", "too large"),
            ("1/0+", "wrong at 4"),
        ] {
            expect_value(&rt, alloc, &variables, text, wanted)?;
        }
        Ok(())
    }

    #[test]
    fn reads_variables(rt: HostRuntime) -> Result<(), Fail> {
        let alloc = rt.alloc();
        let mut variables = VariableTable::new(alloc);
        variables.set(
            alloc,
            "a",
            Variable::Equal(formula(&rt, alloc, "(1+2)*0.5")?),
        )?;
        variables.set(alloc, "f", Variable::String(Text::copy(alloc, "x")?))?;
        variables.set(alloc, "g", Variable::Equal(formula(&rt, alloc, "1+v_f")?))?;
        for (text, wanted) in [
            ("v_a/4", "0.375"),
            ("1+v_f", "wrong at 2"),
            ("10*v_g", "wrong at 3"),
        ] {
            expect_value(&rt, alloc, &variables, text, wanted)?;
        }
        Ok(())
    }

    #[test]
    fn bounds_depth(rt: HostRuntime) -> Result<(), Fail> {
        let alloc = rt.alloc();
        let variables = VariableTable::new(alloc);
        for (opening, closing) in [("(", ")"), ("-", "")] {
            let end = repeated(alloc, closing, 100, "")?;
            let number = format!(in alloc; "1{end}")?;
            let text = repeated(alloc, opening, 100, number.as_str())?;
            expect_value(&rt, alloc, &variables, text.as_str(), "1")?;
            let deeper = format!(in alloc; "{opening}{text}{closing}")?;
            expect_value(&rt, alloc, &variables, deeper.as_str(), "wrong at 100")?;
        }
        Ok(())
    }

    #[test]
    fn bounds_names_in_one_another(rt: HostRuntime) -> Result<(), Fail> {
        let alloc = rt.alloc();
        let mut variables = VariableTable::new(alloc);
        for number in 1..100u32 {
            let name = format!(in alloc; "c{number}")?;
            let next = number + 1;
            let text = format!(in alloc; "v_c{next}")?;
            variables.set(
                alloc,
                name.as_str(),
                Variable::Equal(formula(&rt, alloc, text.as_str())?),
            )?;
        }
        variables.set(alloc, "c100", Variable::Equal(formula(&rt, alloc, "1")?))?;
        expect_value(&rt, alloc, &variables, "1+v_c1", "2")?;
        variables.set(
            alloc,
            "c100",
            Variable::Equal(formula(&rt, alloc, "v_c101")?),
        )?;
        variables.set(alloc, "c101", Variable::Equal(formula(&rt, alloc, "1")?))?;
        expect_value(&rt, alloc, &variables, "1+v_c1", "wrong at 2")?;
        Ok(())
    }

    #[test]
    fn bounds_numbers(rt: HostRuntime) -> Result<(), Fail> {
        let alloc = rt.alloc();
        let mut variables = VariableTable::new(alloc);
        variables.set(alloc, "n", Variable::String(Text::copy(alloc, "2")?))?;
        variables.set(alloc, "e", Variable::Equal(formula(&rt, alloc, "1+1")?))?;
        for (text, count, end, wanted) in [
            ("v_n+", 999, "1", "1999"),
            ("v_e+", 333, "v_e", "wrong at 1332"),
        ] {
            let text = repeated(alloc, text, count, end)?;
            expect_value(&rt, alloc, &variables, text.as_str(), wanted)?;
        }
        Ok(())
    }
}
