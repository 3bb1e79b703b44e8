//! What the machine keeps: where it stands, its variables, and what it counts.

ghost use Rattle.std.specs.Prelude.{◌≡◌, IfOk, OnErr};
ghost use Rattle.spk_script.specs.States.{new_state, with_variable, with_new_variable};
ghost use Rattle.spk_script.specs.Machine.{arrive};
ghost use Rattle.spk_script.specs.Scripts.{IsScript};
ghost use Rattle.spk_script.specs.MachineStates.{state_of, arrived_to};

use crate::fault::LineFault;
use crate::labelled_script::LabelledScript;
use crate::machine::Arrival;
use crate::variable::Variable;
use crate::variable_table::VariableTable;
use spk_num::text::Text;
use std::alloc::{AllocError, Global};

/// The most commands at which a run of a script arrives.
const MOST_COMMANDS: u32 = 1_000_000;

/// What the machine keeps of a run of a script.
#[derive(Debug, Drop)]
pub struct MachineState {
    /// How many lines it has gone past, the one that it stands at included.
    pub place: usize,
    pub variables: VariableTable,
    /// Whether the next jump is skipped.
    pub skips: bool,
    /// How often it has arrived at a command, and 1000001 where it was once too often.
    pub arrivals: u32,
}

impl MachineState {
    /// What the machine keeps before the first line, without settings.
    pub fn new(alloc: Global) -> MachineState
        ensures { state_of result ≡ new_state }
    {
        MachineState {
            place: 0,
            variables: VariableTable::new(alloc),
            skips: false,
            arrivals: 0,
        }
    }

    /// Goes to the next line with a word, and counts it.
    pub fn arrive(&mut self, script: &LabelledScript) -> Result<Arrival, LineFault>
        ensures arrival { arrive script.now (state_of self.old) ≡ arrived_to (state_of self.new) result }
        ensures script { IsScript script.now }
    {
        let Some(command) = script.command_from(self.place) else {
            return Ok(Arrival::End);
        };
        if self.arrivals >= MOST_COMMANDS {
            self.arrivals = MOST_COMMANDS + 1;
            return Err(LineFault::TooManyCommands(command.number));
        }
        self.arrivals += 1;
        self.place = command.place + 1;
        Ok(Arrival::At(command.number))
    }

    /// Sets a variable, whatever its name was.
    pub fn set(&mut self, alloc: Global, name: &Text, variable: Variable) -> Result<(), AllocError>
        ensures ok { IfOk result (λ _. state_of self.new ≡ with_variable (state_of self.old) name.now variable) }
        ensures err { OnErr result (state_of self.new ≡ state_of self.old) }
        ensures arrivals { self.new.arrivals ≡ self.old.arrivals }
    {
        self.variables.set(alloc, name.as_str(), variable)
    }

    /// Sets a variable where its name is free.
    pub fn set_new(
        &mut self,
        alloc: Global,
        name: &Text,
        variable: Variable,
    ) -> Result<(), AllocError>
        ensures ok { IfOk result (λ _. state_of self.new ≡ with_new_variable (state_of self.old) name.now variable) }
        ensures err { OnErr result (state_of self.new ≡ state_of self.old) }
        ensures arrivals { self.new.arrivals ≡ self.old.arrivals }
    {
        if self.variables.get(name.as_str()).is_some() {
            return Ok(());
        }
        self.set(alloc, name, variable)
    }
}
