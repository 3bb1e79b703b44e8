//! The session: it obeys the commands of a script, one after another.

ghost use Rattle.std.specs.Prelude.{◌≡◌, IfOk, IfNone};
ghost use Rattle.spk_cmds.specs.WellFormed.{IsWellFormed};
ghost use Rattle.spk_world.specs.Effects.{Wrote};
ghost use Rattle.spk_run.specs.Causes.{FileRefusalRose};
ghost use Rattle.spk_run.specs.Commands.{cause, obeys};
ghost use Rattle.spk_run.specs.Endings.{EndingFileCause, refuses, NoneRose};
ghost use Rattle.spk_run.specs.Faults.{fault_stop, trouble_stop, verdict, obeyed_to, trouble_of, IsRefusal, IfRefused, OnRefusal, Unwritten, Leaves, IsCompleteCommand};
ghost use Rattle.spk_run.specs.Output.{starts_log, echoes};
ghost use Rattle.spk_run.specs.States.{new_state};

use crate::answer::Ending;
use crate::cause::Cause;
use crate::fault::{Fault, Trouble};
use crate::messages::refusal_line;
use crate::output::Output;
use crate::state::SessionState;
use spk_cmds::{Command, Options};
use spk_num::OutOfMemory;
use spk_world::World;
use std::alloc::Global;

/// A session of the simulator: what the commands so far have set and made.
///
/// All ranks run in this thread. It has the name of the log to which it writes.
#[derive(Debug, Drop)]
pub struct Session {
    alloc: Global,
    state: SessionState,
}

/// Why a command was not obeyed, where it was not.
fn trouble_of(obeyed: Result<Result<(), Cause>, Fault>) -> Result<(), Trouble>
    ensures { result ≡ trouble_of obeyed }
{
    match obeyed {
        Ok(Ok(())) => Ok(()),
        Ok(Err(cause)) => Err(Trouble::Refused(cause)),
        Err(Fault::Read(name)) => Err(Trouble::ReadFault(name)),
        Err(Fault::Write(target)) => Err(Trouble::WriteFault(target)),
        Err(Fault::Memory) => Err(Trouble::Memory),
    }
}

impl Session {
    /// The session before the first line of a script.
    pub fn new(alloc: Global, options: &Options) -> Result<Session, OutOfMemory>
        ensures { IfOk result (λ session. session.state ≡ new_state options.now) }
    {
        let state = SessionState::new(alloc, options)?;
        Ok(Session { alloc, state })
    }

    /// Starts the log, where there is one.
    pub(crate) fn start_log<W: World>(&self, world: &mut W) -> Result<(), Fault>
        ensures { Wrote fault_stop (W.state world.old) (W.state world.new) (starts_log self.now.state.log) result }
    {
        let mut output = Output::new(self.alloc, &self.state.log)?;
        output.start_log(world)?;
        Ok(())
    }

    /// Echoes the lines of a command, as they stand in the script.
    pub(crate) fn echo<W: World>(&self, world: &mut W, text: &[u8]) -> Result<(), Fault>
        ensures { Wrote fault_stop (W.state world.old) (W.state world.new) (echoes self.now.state.echo self.now.state.log text.now) result }
    {
        let mut output = Output::new(self.alloc, &self.state.log)?;
        output.echo(world, self.state.echo, text)?;
        Ok(())
    }

    /// Refuses the script: the line that says so goes to the screen, and then to the log.
    pub(crate) fn refuse<W: World>(
        &self,
        world: &mut W,
        line: u32,
        cause: Cause,
    ) -> Result<Ending, Fault>
        ensures wrote { Wrote fault_stop (W.state world.old) (W.state world.new) (refuses self.now.state.log line cause) result }
        ensures ending { IfOk result (λ ending. ending ≡ Ending.Refused line cause) }
    {
        let text = refusal_line(self.alloc, line, &cause)?;
        let mut output = Output::new(self.alloc, &self.state.log)?;
        output.print(world, text.as_bytes())?;
        Ok(Ending::Refused { line, cause })
    }

    /// Obeys a command, or refuses it for a cause.
    pub(crate) fn obey_or_refuse<W: World>(
        &mut self,
        command: &Command,
        world: &mut W,
    ) -> Result<Result<(), Cause>, Fault>
        requires { IsWellFormed command.now }
        ensures wrote { Wrote fault_stop (W.state world.old) (W.state world.new) (obeys self.old.state command.now) (verdict self.new.state result) }
        ensures refused { OnRefusal result (IsRefusal (cause self.old.state command.now)) }
        ensures untold { IfNone (W.state world.old).told (OnRefusal result (FileRefusalRose (W.state world.old).faults (W.state world.new).faults)) }
        ensures unwritten { Unwritten (W.state world.old).told (W.state world.new).told (trouble_of result) }
        ensures leaves { Leaves (W.state world.old).told (obeys self.old.state command.now) self.old.state self.new.state (trouble_of result) }
    {
        if let Some(cause) = self.state.cause(self.alloc, command)? {
            return Ok(Err(cause));
        }
        self.state.perform(self.alloc, command, world)
    }

    /// Obeys a command, or refuses it: of several causes it is the one with the least number.
    ///
    /// All memory is taken before the first write.
    pub fn obey<W: World>(&mut self, command: &Command, world: &mut W) -> Result<(), Trouble>
        requires { IsWellFormed command.now }
        ensures wrote { Wrote trouble_stop (W.state world.old) (W.state world.new) (obeys self.old.state command.now) (obeyed_to self.new.state result) }
        ensures refused { IfRefused result (IsRefusal (cause self.old.state command.now)) }
        ensures untold { IfNone (W.state world.old).told (IfRefused result (FileRefusalRose (W.state world.old).faults (W.state world.new).faults)) }
        ensures unwritten { Unwritten (W.state world.old).told (W.state world.new).told result }
        ensures leaves { Leaves (W.state world.old).told (obeys self.old.state command.now) self.old.state self.new.state result }
        ensures complete { NoneRose (W.state world.old).faults (W.state world.new).faults →
            IsCompleteCommand (W.state world.old).told (obeys self.old.state command.now) self.new.state result }
    {
        trouble_of(self.obey_or_refuse(command, world))
    }
}
