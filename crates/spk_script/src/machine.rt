//! The machine that goes through a script line by line.

ghost use Rattle.std.specs.Prelude.{◌≡◌, ◌≤◌, length, Some, IfOk, IfSome, IsSome, OnErr, MatchOption};
ghost use Rattle.std.specs.List.{All};
ghost use Rattle.std.specs.Str.{IsAscii};
ghost use Rattle.spk_num.specs.Results.{IsPlainOrMemory};
ghost use Rattle.spk_script.specs.Faults.{is_memory};
ghost use Rattle.spk_script.specs.States.{new_state, with_settings};
ghost use Rattle.spk_script.specs.Machine.{arrive, line_at, step_by, read};
ghost use Rattle.spk_script.specs.Commands.{own_state_named, own_state};
ghost use Rattle.spk_script.specs.Substitution.{line_words};
ghost use Rattle.spk_script.specs.MachineStates.{state_of, arrived_to, OwnTo, own_step, read_to, StandsAt};

use crate::fault::LineFault;
use crate::labelled_script::LabelledScript;
use crate::script::{Line, Script};
use crate::setting::Setting;
use crate::state::MachineState;
use crate::substitution::line_words;
use spk_num::OutOfMemory;
use spk_num::text::Text;
use spk_num::texts::Texts;
use std::alloc::Global;

/// Where the machine arrives: at a line with this number, or at the script's end.
#[derive(Clone, Copy, Debug, PartialEq, Eq)]
pub enum Arrival {
    At(u32),
    End,
}

/// What the line with this number came to.
#[derive(Debug, Drop)]
pub enum Step {
    /// A command with these words, which the caller must obey.
    Words(u32, Texts),
    /// The machine has obeyed it, or it had no word left.
    Own(u32),
}

/// What a command of the machine has come to.
fn own(number: u32, obeyed: Result<(), LineFault>) -> Result<Step, LineFault>
    ensures { result ≡ own_step number obeyed }
{
    match obeyed {
        Ok(()) => Ok(Step::Own(number)),
        Err(fault) => Err(fault),
    }
}

/// A machine that goes through a script: it stands at a line, keeps the variables, and counts the commands.
#[derive(Debug, Drop)]
pub struct Machine {
    alloc: Global,
    script: LabelledScript,
    state: MachineState,
}

impl Machine {
    /// The machine before the first line of a script. Of two settings with one name the first is kept.
    pub fn new(alloc: Global, script: Script, settings: &[Setting]) -> Result<Machine, OutOfMemory>
        ensures { IfOk result (λ machine. (machine.script ≡ script) × (state_of machine.state ≡ with_settings new_state settings.now)) }
    {
        let script = LabelledScript::new(alloc, script)?;
        let state = MachineState::with_settings(alloc, settings)?;
        Ok(Machine {
            alloc,
            script,
            state,
        })
    }

    /// The script that the machine was made with.
    pub fn script(&self) -> &Script
        ensures { result.now ≡ self.now.script }
    {
        self.script.script()
    }

    /// Goes to the next line that has a word, and counts it. A run of a script arrives at no more than 1000000 commands.
    pub fn next_line(&mut self) -> Result<Arrival, LineFault>
        ensures arrival { arrive self.old.script (state_of self.old.state) ≡ arrived_to (state_of self.new.state) result }
        ensures stands { StandsAt self.new.script (state_of self.new.state) result }
        ensures script { self.new.script ≡ self.old.script }
    {
        self.state.arrive(&self.script)
    }

    /// Reads the line at which the machine stands: names in it are replaced, and a command of the machine is obeyed.
    /// After a fault variables and position are as they were.
    pub fn next_command(&mut self) -> Result<Step, LineFault>
        requires { IsSome (line_at self.old.script (state_of self.old.state)) }
        ensures step { IfSome (line_at self.old.script (state_of self.old.state))
            (λ line. IsPlainOrMemory is_memory (read self.old.script (state_of self.old.state) line) (read_to (state_of self.new.state) result)) }
        ensures same { OnErr result (state_of self.new.state ≡ state_of self.old.state) }
        ensures arrivals { self.new.state.arrivals ≡ self.old.state.arrivals }
        ensures script { self.new.script ≡ self.old.script }
    {
        let number = self.number();
        let words = self.words()?;
        self.obey(number, words)
    }

    /// The line at which it stands.
    fn line(&self) -> &Line
        requires { IsSome (line_at self.now.script (state_of self.now.state)) }
        ensures line { line_at self.now.script (state_of self.now.state) ≡ Some result.now }
        ensures ascii { All (λ word. IsAscii word.text) result.now.words }
    {
        &self.script.script().lines()[self.state.place - 1]
    }

    /// The number of the line at which it stands.
    fn number(&self) -> u32
        requires { IsSome (line_at self.now.script (state_of self.now.state)) }
        ensures { IfSome (line_at self.now.script (state_of self.now.state)) (λ line. result ≡ line.number) }
    {
        self.line().number()
    }

    /// The words of the line at which it stands, with the names in them replaced.
    fn words(&self) -> Result<Texts, LineFault>
        requires { IsSome (line_at self.now.script (state_of self.now.state)) }
        ensures answer { IfSome (line_at self.now.script (state_of self.now.state)) (λ line. IsPlainOrMemory is_memory (line_words (state_of self.now.state).variables line.words) result) }
        ensures short { IfOk result (All (λ word. length word ≤ 4096)) }
    {
        line_words(self.alloc, &self.state.variables, self.line().words())
    }

    /// Obeys a command of the machine, and hands on the words of another one.
    fn obey(&mut self, number: u32, words: Texts) -> Result<Step, LineFault>
        requires { All (λ word. length word ≤ 4096) words }
        ensures step { IsPlainOrMemory is_memory (step_by self.old.script (state_of self.old.state) number words) (read_to (state_of self.new.state) result) }
        ensures same { OnErr result (state_of self.new.state ≡ state_of self.old.state) }
        ensures arrivals { self.new.state.arrivals ≡ self.old.state.arrivals }
        ensures script { self.new.script ≡ self.old.script }
    {
        match self.obey_own(words.as_slice()) {
            Some(obeyed) => own(number, obeyed),
            None => Ok(Step::Words(number, words)),
        }
    }

    /// Obeys a command of the machine, where these words are one.
    fn obey_own(&mut self, words: &[Text]) -> Option<Result<(), LineFault>>
        requires { All (λ word. length word ≤ 4096) words.now }
        ensures own { OwnTo (own_state self.old.script (state_of self.old.state) words.now) (state_of self.new.state) result }
        ensures same { MatchOption result (state_of self.new.state ≡ state_of self.old.state) (λ obeyed. OnErr obeyed (state_of self.new.state ≡ state_of self.old.state)) }
        ensures arrivals { self.new.state.arrivals ≡ self.old.state.arrivals }
        ensures script { self.new.script ≡ self.old.script }
    {
        match words {
            [first, rest @ ..] => self.obey_named(first, rest),
            [] => Some(Ok(())),
        }
    }

    /// Obeys a command of the machine with these words after its first one, where that names one.
    fn obey_named(&mut self, first: &Text, rest: &[Text]) -> Option<Result<(), LineFault>>
        requires { All (λ word. length word ≤ 4096) rest.now }
        ensures own { OwnTo (own_state_named self.old.script (state_of self.old.state) first.now rest.now) (state_of self.new.state) result }
        ensures same { MatchOption result (state_of self.new.state ≡ state_of self.old.state) (λ obeyed. OnErr obeyed (state_of self.new.state ≡ state_of self.old.state)) }
        ensures arrivals { self.new.state.arrivals ≡ self.old.state.arrivals }
        ensures script { self.new.script ≡ self.old.script }
    {
        match first.as_str() {
            "variable" => Some(self.state.obey_variable(self.alloc, rest)),
            "next" => Some(self.state.obey_next(self.alloc, rest)),
            "label" => Some(self.state.obey_label(rest)),
            "jump" => Some(self.state.obey_jump(self.alloc, &self.script, rest)),
            _ => None,
        }
    }
}
