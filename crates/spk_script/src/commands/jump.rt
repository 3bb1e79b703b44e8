//! `jump SELF L`: goes to a label.

ghost use Rattle.std.specs.Prelude.{◌≡◌, OnErr};
ghost use Rattle.spk_num.specs.Results.{IsPlainOrMemory, result_with};
ghost use Rattle.spk_script.specs.Faults.{is_memory};
ghost use Rattle.spk_script.specs.Commands.Jump.{with_jump, after_jump};
ghost use Rattle.spk_script.specs.MachineStates.{state_of};

use crate::fault::LineFault;
use crate::labelled_script::LabelledScript;
use crate::state::MachineState;
use spk_num::text::Text;
use std::alloc::Global;

impl MachineState {
    /// Goes to a label of the script, unless this jump is skipped.
    #[tactic(auto, using(crate::proofs::FaultLaws::state_or_memory))]
    fn jump_to(
        &mut self,
        alloc: Global,
        script: &LabelledScript,
        file: &Text,
        label: &Text,
    ) -> Result<(), LineFault>
        ensures answer { IsPlainOrMemory is_memory (with_jump script.now (state_of self.old) file.now label.now) (result_with (state_of self.new) result) }
        ensures same { OnErr result (state_of self.new ≡ state_of self.old) }
        ensures arrivals { self.new.arrivals ≡ self.old.arrivals }
    {
        if self.skips {
            self.skips = false;
            return Ok(());
        }
        if file.as_str() != "SELF" {
            return Err(LineFault::OtherFile);
        }
        let Some(place) = script.label_place(label.as_str()) else {
            return Err(LineFault::NoSuchLabel(Text::copy(alloc, label.as_str())?));
        };
        self.place = place + 1;
        Ok(())
    }

    /// Obeys `jump` with these words after it.
    #[tactic(auto, using(crate::proofs::FaultLaws::state_or_memory))]
    pub fn obey_jump(
        &mut self,
        alloc: Global,
        script: &LabelledScript,
        words: &[Text],
    ) -> Result<(), LineFault>
        ensures answer { IsPlainOrMemory is_memory (after_jump script.now (state_of self.old) words.now) (result_with (state_of self.new) result) }
        ensures same { OnErr result (state_of self.new ≡ state_of self.old) }
        ensures arrivals { self.new.arrivals ≡ self.old.arrivals }
    {
        let [file, label] = words else {
            return Err(LineFault::WrongWords);
        };
        self.jump_to(alloc, script, file, label)
    }
}
