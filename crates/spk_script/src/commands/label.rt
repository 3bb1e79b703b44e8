//! `label L`: a place to which a jump may go.

ghost use Rattle.std.specs.Prelude.{◌≡◌};
ghost use Rattle.spk_num.specs.Results.{IsPlainOrMemory, result_with};
ghost use Rattle.spk_script.specs.Faults.{is_memory};
ghost use Rattle.spk_script.specs.Commands.Label.{after_label};
ghost use Rattle.spk_script.specs.MachineStates.{state_of};

use crate::fault::LineFault;
use crate::state::MachineState;
use spk_num::text::Text;

impl MachineState {
    /// Obeys `label` with these words after it.
    #[tactic(auto, using(crate::proofs::FaultLaws::state_or_memory))]
    pub fn obey_label(&mut self, words: &[Text]) -> Result<(), LineFault>
        ensures answer { IsPlainOrMemory is_memory (after_label (state_of self.old) words.now) (result_with (state_of self.new) result) }
        ensures same { state_of self.new ≡ state_of self.old }
        ensures arrivals { self.new.arrivals ≡ self.old.arrivals }
    {
        let [_] = words else {
            return Err(LineFault::WrongWords);
        };
        Ok(())
    }
}
