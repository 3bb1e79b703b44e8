//! Variables that are there before the first line of a script.

ghost use Rattle.std.specs.Prelude.{◌≡◌, IfOk};
ghost use Rattle.spk_script.specs.States.{new_state, with_settings};
ghost use Rattle.spk_script.specs.MachineStates.{state_of};

use crate::state::MachineState;
use crate::variable::{Values, Variable};
use spk_num::text::Text;
use std::alloc::{AllocError, Global};

/// A variable that is there before the first line: its name, and its one value.
#[derive(Debug, Drop)]
pub struct Setting {
    pub name: Text,
    pub value: Text,
}

impl MachineState {
    /// What the machine keeps before the first line. Of two settings with one name the first is kept.
    pub fn with_settings(alloc: Global, settings: &[Setting]) -> Result<MachineState, AllocError>
        ensures { IfOk result (λ state. state_of state ≡ with_settings new_state settings.now) }
    {
        let mut state = MachineState::new(alloc);
        for setting in settings {
            let value = Text::copy(alloc, setting.value.as_str())?;
            let later = Values::new(alloc);
            state.set_new(alloc, &setting.name, Variable::Index { value, later })?;
        }
        Ok(state)
    }
}
