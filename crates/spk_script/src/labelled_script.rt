//! A script whose labels and commands are found without going through its lines.

ghost use Rattle.std.specs.Prelude.{◌≡◌, ◌<◌, ◌+◌, ◌^◌, length, get_or, drop, IfSome, IfOk};
ghost use Rattle.spk_script.specs.Lines.{LogicalLine};
ghost use Rattle.spk_script.specs.States.{State};
ghost use Rattle.spk_script.specs.Machine.{arrive_ahead};
ghost use Rattle.spk_script.specs.Commands.Label.{label_place};
ghost use Rattle.spk_script.specs.Scripts.{IsScript};
ghost use Rattle.spk_script.specs.MachineStates.{arrive_found};

use crate::command_table::CommandTable;
use crate::labels::Labels;
use crate::script::Script;
use std::alloc::{AllocError, Global};
use std::marker::Model;

/// A line with a word: its place among the lines of a script, counted from 0, and its number.
#[derive(Clone, Copy)]
pub struct Command {
    pub place: usize,
    pub number: u32,
}

/// A script with tables of its labels and its commands.
#[derive(Debug, Drop)]
pub struct LabelledScript {
    script: Script,
    labels: Labels,
    commands: CommandTable,
}

impl Model for LabelledScript {
    ghost use Rattle.std.specs.Prelude.{◌≡◌, ℕ, List};
    ghost use Rattle.spk_script.specs.Lines.{LogicalLine};

    ghost Value = { List LogicalLine };

    ghost use Rattle.spk_script.specs.LabelledScripts.{IsLabelled};

    ghost view = { λ s. s.script };

    ghost invariant = { λ s. IsLabelled s.script s.labels s.commands };
}

impl LabelledScript {
    /// Makes the tables of a script.
    pub fn new(alloc: Global, script: Script) -> Result<LabelledScript, AllocError>
        ensures { IfOk result (λ labelled. labelled ≡ script) }
    {
        let labels = Labels::of(alloc, script.lines())?;
        let commands = CommandTable::of(alloc, script.lines())?;
        Ok(LabelledScript {
            script,
            labels,
            commands,
        })
    }

    /// The script.
    pub fn script(&self) -> &Script
        ensures { result.now ≡ self.now }
    {
        &self.script
    }

    /// The place of the line that is this label, counted from 0.
    pub fn label_place(&self, label: &str) -> Option<usize>
        ensures place { result ≡ label_place self.now label.now }
        ensures within { IfSome result (λ place. place < length self.now) }
        ensures fits { IfSome result (λ place. place + 1 < 2 ^ 64) }
    {
        let place = self.labels.place(label)?;
        let lines = self.script.lines().len();
        prove!(place < lines);
        Some(place)
    }

    /// The number of the line at a place.
    fn number_at(&self, place: usize) -> u32
        requires { place < length self.now }
        ensures { (line : LogicalLine) → result ≡ (get_or self.now place line).number }
    {
        self.script.lines()[place].number()
    }

    /// The first command from a place on.
    pub fn command_from(&self, place: usize) -> Option<Command>
        ensures found { (state : State) → arrive_ahead state place (drop place self.now) ≡ arrive_found state result }
        ensures fits { IfSome result (λ command. command.place + 1 < 2 ^ 64) }
        ensures script { IsScript self.now }
    {
        let lines = self.script.lines().len();
        let place = self.commands.first_from(place)?;
        prove!(place < lines);
        let number = self.number_at(place);
        Some(Command { place, number })
    }
}

#[cfg(test)]
mod tests {
    use super::*;
    use std::test::Fail;

    #[test]
    fn finds_labels(rt: HostRuntime) -> Result<(), Fail> {
        let cases: [(&[u8], &str, Option<usize>); 4] = [
            (b"run 1\nlabel a\nlabel b\nlabel a\n", "a", Some(1)),
            (b"\"label\" \"a b\"\nlabel \"\"\n", "", Some(1)),
            (b"label a b\nlabel\n", "a", None),
            (b"a &\nb\n\n label &\n\tend # here\n", "end", Some(2)),
        ];
        for (bytes, label, wanted) in &cases {
            let Ok(script) = Script::read(rt.alloc(), bytes) else {
                panic!(rt; "no script at {label}");
            };
            let labelled = LabelledScript::new(rt.alloc(), script)?;
            assert_eq!(rt; labelled.label_place(label), *wanted);
        }
        Ok(())
    }
}
