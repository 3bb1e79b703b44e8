//! `next NAME`: goes to the next value of a variable.

ghost use Rattle.std.specs.Prelude.{◌≡◌, OnErr};
ghost use Rattle.spk_num.specs.Results.{IsPlainOrMemory, result_with};
ghost use Rattle.spk_script.specs.Faults.{is_memory};
ghost use Rattle.spk_script.specs.Commands.Next.{with_step, with_named_step, after_next};
ghost use Rattle.spk_script.specs.MachineStates.{state_of};

use crate::commands::judge_name;
use crate::fault::LineFault;
use crate::state::MachineState;
use crate::variable_table::Stepped;
use spk_num::text::Text;
use std::alloc::Global;

impl MachineState {
    /// Goes to the next value of a variable. After its last one the variable is deleted, and the next jump is skipped.
    #[tactic(auto, using(crate::proofs::FaultLaws::state_or_memory))]
    fn step(&mut self, alloc: Global, name: &Text) -> Result<(), LineFault>
        ensures answer { IsPlainOrMemory is_memory (with_step (state_of self.old) name.now ((state_of self.old).variables name.now)) (result_with (state_of self.new) result) }
        ensures same { OnErr result (state_of self.new ≡ state_of self.old) }
        ensures arrivals { self.new.arrivals ≡ self.old.arrivals }
    {
        match self.variables.advance(name.as_str()) {
            Stepped::Next => Ok(()),
            Stepped::Exhausted => {
                self.variables.remove(name.as_str());
                self.skips = true;
                Ok(())
            }
            Stepped::Stays => Err(LineFault::NotStepped(Text::copy(alloc, name.as_str())?)),
            Stepped::Unknown => Err(LineFault::UnknownVariable(Text::copy(alloc, name.as_str())?)),
        }
    }

    /// Obeys `next` with these words after it.
    #[tactic(auto, using(crate::proofs::FaultLaws::state_or_memory))]
    pub fn obey_next(&mut self, alloc: Global, words: &[Text]) -> Result<(), LineFault>
        ensures answer { IsPlainOrMemory is_memory (after_next (state_of self.old) words.now) (result_with (state_of self.new) result) }
        ensures same { OnErr result (state_of self.new ≡ state_of self.old) }
        ensures arrivals { self.new.arrivals ≡ self.old.arrivals }
    {
        let [name] = words else {
            return Err(LineFault::WrongWords);
        };
        self.step_named(alloc, name)
    }

    /// Goes to the next value of the variable that a word names.
    #[tactic(auto, using(crate::proofs::FaultLaws::state_or_memory))]
    fn step_named(&mut self, alloc: Global, name: &Text) -> Result<(), LineFault>
        ensures answer { IsPlainOrMemory is_memory (with_named_step (state_of self.old) name.now) (result_with (state_of self.new) result) }
        ensures same { OnErr result (state_of self.new ≡ state_of self.old) }
        ensures arrivals { self.new.arrivals ≡ self.old.arrivals }
    {
        judge_name(alloc, name)?;
        self.step(alloc, name)
    }
}
