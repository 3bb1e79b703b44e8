//! `variable NAME STYLE VALUE ..`: makes a variable.

ghost use Rattle.std.specs.Prelude.{◌≡◌, ◌≤◌, length, IfOk, OnErr, Ok};
ghost use Rattle.std.specs.List.{All};
ghost use Rattle.spk_num.specs.Whole.{whole_within};
ghost use Rattle.spk_num.specs.Results.{IsPlainOrMemory, result_with};
ghost use Rattle.spk_script.specs.Faults.{is_memory};
ghost use Rattle.spk_script.specs.States.{with_new_variable};
ghost use Rattle.spk_script.specs.Commands.Variable.{with_turns, with_loop, with_string, with_formula, with_styled, with_named, after_variable};
ghost use Rattle.spk_script.specs.MachineStates.{state_of};

use crate::commands::{judge_name, judge_rest};
use crate::fault::LineFault;
use crate::state::MachineState;
use crate::variable::{FormulaText, Values, Variable};
use spk_num::text::Text;
use spk_num::whole::whole_within;
use std::alloc::{AllocError, Global};

/// The most turns of a loop.
const MOST_TURNS: u64 = 1_000_000;

/// A copy of some values.
fn values_of(alloc: Global, words: &[Text]) -> Result<Values, AllocError>
    ensures { IfOk result (λ values. values ≡ words.now) }
{
    let mut values = Values::new(alloc);
    for word in words {
        values.push(Text::copy(alloc, word.as_str())?)?;
    }
    Ok(values)
}

impl MachineState {
    #[tactic(auto, using(crate::proofs::FaultLaws::state_or_memory))]
    fn make_index(
        &mut self,
        alloc: Global,
        name: &Text,
        value: &Text,
        later: &[Text],
    ) -> Result<(), LineFault>
        ensures answer { IsPlainOrMemory is_memory (Ok (with_new_variable (state_of self.old) name.now (Variable.Index value.now later.now))) (result_with (state_of self.new) result) }
        ensures same { OnErr result (state_of self.new ≡ state_of self.old) }
        ensures arrivals { self.new.arrivals ≡ self.old.arrivals }
    {
        let value = Text::copy(alloc, value.as_str())?;
        let later = values_of(alloc, later)?;
        self.set_new(alloc, name, Variable::Index { value, later })?;
        Ok(())
    }

    #[tactic(auto, using(crate::proofs::FaultLaws::state_or_memory))]
    fn make_loop(
        &mut self,
        alloc: Global,
        name: &Text,
        turns: &Text,
        rest: &[Text],
    ) -> Result<(), LineFault>
        ensures answer { IsPlainOrMemory is_memory (with_loop (state_of self.old) name.now turns.now rest.now) (result_with (state_of self.new) result) }
        ensures same { OnErr result (state_of self.new ≡ state_of self.old) }
        ensures arrivals { self.new.arrivals ≡ self.old.arrivals }
    {
        judge_rest(rest)?;
        self.make_turns(alloc, name, turns)
    }

    #[tactic(auto, using(crate::proofs::FaultLaws::state_or_memory))]
    fn make_turns(&mut self, alloc: Global, name: &Text, turns: &Text) -> Result<(), LineFault>
        ensures answer { IsPlainOrMemory is_memory (with_turns (state_of self.old) name.now (whole_within 1 1000000 turns.now)) (result_with (state_of self.new) result) }
        ensures same { OnErr result (state_of self.new ≡ state_of self.old) }
        ensures arrivals { self.new.arrivals ≡ self.old.arrivals }
    {
        let Some(last) = whole_within(1, MOST_TURNS, turns) else {
            return Err(LineFault::LoopValue);
        };
        self.set_new(
            alloc,
            name,
            Variable::Loop {
                value: 1,
                last: last as u32,
            },
        )?;
        Ok(())
    }

    #[tactic(auto, using(crate::proofs::FaultLaws::state_or_memory))]
    fn make_string(
        &mut self,
        alloc: Global,
        name: &Text,
        text: &Text,
        rest: &[Text],
    ) -> Result<(), LineFault>
        ensures answer { IsPlainOrMemory is_memory (with_string (state_of self.old) name.now text.now rest.now) (result_with (state_of self.new) result) }
        ensures same { OnErr result (state_of self.new ≡ state_of self.old) }
        ensures arrivals { self.new.arrivals ≡ self.old.arrivals }
    {
        judge_rest(rest)?;
        let text = Text::copy(alloc, text.as_str())?;
        self.set(alloc, name, Variable::String(text))?;
        Ok(())
    }

    #[tactic(auto, using(crate::proofs::FaultLaws::state_or_memory))]
    fn make_equal(
        &mut self,
        alloc: Global,
        name: &Text,
        formula: &Text,
        rest: &[Text],
    ) -> Result<(), LineFault>
        requires { length formula.now ≤ 4096 }
        ensures answer { IsPlainOrMemory is_memory (with_formula (state_of self.old) name.now formula.now rest.now) (result_with (state_of self.new) result) }
        ensures same { OnErr result (state_of self.new ≡ state_of self.old) }
        ensures arrivals { self.new.arrivals ≡ self.old.arrivals }
    {
        judge_rest(rest)?;
        let formula = FormulaText::new(Text::copy(alloc, formula.as_str())?);
        self.set(alloc, name, Variable::Equal(formula))?;
        Ok(())
    }

    /// Makes a variable of a style, by the value that stands after it and those after that one.
    #[tactic(auto, using(crate::proofs::FaultLaws::state_or_memory))]
    fn make_styled(
        &mut self,
        alloc: Global,
        name: &Text,
        style: &Text,
        value: &Text,
        rest: &[Text],
    ) -> Result<(), LineFault>
        requires { length value.now ≤ 4096 }
        ensures answer { IsPlainOrMemory is_memory (with_styled (state_of self.old) name.now style.now value.now rest.now) (result_with (state_of self.new) result) }
        ensures same { OnErr result (state_of self.new ≡ state_of self.old) }
        ensures arrivals { self.new.arrivals ≡ self.old.arrivals }
    {
        match style.as_str() {
            "index" => self.make_index(alloc, name, value, rest),
            "loop" => self.make_loop(alloc, name, value, rest),
            "string" => self.make_string(alloc, name, value, rest),
            "equal" => self.make_equal(alloc, name, value, rest),
            _ => Err(LineFault::BadStyle(Text::copy(alloc, style.as_str())?)),
        }
    }

    /// Obeys `variable` with these words after it.
    #[tactic(auto, using(crate::proofs::FaultLaws::state_or_memory))]
    pub fn obey_variable(&mut self, alloc: Global, words: &[Text]) -> Result<(), LineFault>
        requires { All (λ word. length word ≤ 4096) words.now }
        ensures answer { IsPlainOrMemory is_memory (after_variable (state_of self.old) words.now) (result_with (state_of self.new) result) }
        ensures same { OnErr result (state_of self.new ≡ state_of self.old) }
        ensures arrivals { self.new.arrivals ≡ self.old.arrivals }
    {
        let [name, style, value, rest @ ..] = words else {
            return Err(LineFault::WrongWords);
        };
        self.make_named(alloc, name, style, value, rest)
    }

    /// Makes a variable whose name, style and value are these words.
    #[tactic(auto, using(crate::proofs::FaultLaws::state_or_memory))]
    fn make_named(
        &mut self,
        alloc: Global,
        name: &Text,
        style: &Text,
        value: &Text,
        rest: &[Text],
    ) -> Result<(), LineFault>
        requires { length value.now ≤ 4096 }
        ensures answer { IsPlainOrMemory is_memory (with_named (state_of self.old) name.now style.now value.now rest.now) (result_with (state_of self.new) result) }
        ensures same { OnErr result (state_of self.new ≡ state_of self.old) }
        ensures arrivals { self.new.arrivals ≡ self.old.arrivals }
    {
        judge_name(alloc, name)?;
        self.make_styled(alloc, name, style, value, rest)
    }
}
