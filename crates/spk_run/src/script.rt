//! A script, obeyed command by command.

ghost use Rattle.std.specs.Prelude.{◌≡◌, List, Ok, Err, Result, IfOk, IfNone};
ghost use Rattle.spk_num.specs.Results.{IsPlainOrMemory};
ghost use Rattle.spk_script.specs.declared.machine.Step.{Step as LineStep};
ghost use Rattle.spk_script.specs.declared.fault.LineFault.{LineFault as Fault_of_line};
ghost use Rattle.spk_script.specs.Lines.{LogicalLine};
ghost use Rattle.spk_script.specs.Faults.{is_memory};
ghost use Rattle.spk_script.specs.States.{State, new_state as new_machine, with_settings};
ghost use Rattle.spk_script.specs.Machine.{line_at};
ghost use Rattle.spk_script.specs.MachineStates.{state_of, read_to, StandsAt};
ghost use Rattle.spk_script.proofs.Arriving.{CountsAt};
ghost use Rattle.spk_cmds.specs.Faults.{is_memory as is_words_memory};
ghost use Rattle.spk_cmds.specs.WellFormed.{IsWellFormed};
ghost use Rattle.spk_cmds.specs.declared.command.Command.{Command as Made};
ghost use Rattle.spk_cmds.specs.declared.command.CommandFault.{CommandFault as WordsFault};
ghost use Rattle.spk_world.specs.Effects.{Wrote};
ghost use Rattle.spk_run.specs.declared.state.SessionState.{SessionState};
ghost use Rattle.spk_run.specs.Causes.{IsOfState};
ghost use Rattle.spk_run.specs.Endings.{EndingFileCause};
ghost use Rattle.spk_run.specs.Faults.{fault_stop};
ghost use Rattle.spk_run.specs.Plain.{ends_for, obeys_command, obeys_words, obeys_step, obeys_line, obeys_arrival, obeys_next, obeys_commands};
ghost use Rattle.spk_run.specs.Scripts.{course_to, ProgressFileCause, CountsOn, IsOneTooMany};

use crate::answer::Ending;
use crate::cause::Cause;
use crate::fault::Fault;
use crate::session::Session;
use spk_cmds::{Command, CommandFault, command_of};
use spk_num::text::Text;
use spk_script::{Arrival, LineFault, Machine, Script, Setting, Step};
use spk_world::World;
use std::alloc::Global;

/// How a script goes on after a line: with the next, or not, since it has ended.
#[derive(Debug, Drop)]
pub enum Progress {
    GoesOn,
    Ends(Ending),
}

/// Ends the script at a line that is refused.
fn end<W: World>(
    session: &Session,
    world: &mut W,
    number: u32,
    cause: Cause,
) -> Result<Progress, Fault>
    ensures wrote { (state : State) → Wrote fault_stop (W.state world.old) (W.state world.new)
        (ends_for session.now.state number (Some cause)) (course_to state session.now.state result) }
    ensures ending { IfOk result (λ progress. progress ≡ Progress.Ends (Ending.Refused number cause)) }
{
    let ending = session.refuse(world, number, cause)?;
    Ok(Progress::Ends(ending))
}

/// Ends the script for a fault of a line.
fn refuse_line<W: World>(
    session: &Session,
    world: &mut W,
    number: u32,
    fault: LineFault,
) -> Result<Progress, Fault>
    ensures wrote { (plain : Result (LineStep × State) Fault_of_line) (state : State) → IsPlainOrMemory is_memory plain (Err fault) →
        Wrote fault_stop (W.state world.old) (W.state world.new) (obeys_step number session.now.state plain) (course_to state session.now.state result) }
    ensures untold { IfOk result (ProgressFileCause (W.state world.old).faults (W.state world.new).faults) }
{
    match Cause::of_line(fault) {
        Some(cause) => end(session, world, number, cause),
        None => Err(Fault::Memory),
    }
}

/// Ends the script for words that are no command.
fn refuse_words<W: World>(
    session: &Session,
    world: &mut W,
    number: u32,
    fault: CommandFault,
) -> Result<Progress, Fault>
    ensures wrote { (plain : Result Made WordsFault) (state : State) → IsPlainOrMemory is_words_memory plain (Err fault) →
        Wrote fault_stop (W.state world.old) (W.state world.new) (obeys_command number state session.now.state plain) (course_to state session.now.state result) }
    ensures untold { IfOk result (ProgressFileCause (W.state world.old).faults (W.state world.new).faults) }
{
    match Cause::of_words(fault) {
        Some(cause) => end(session, world, number, cause),
        None => Err(Fault::Memory),
    }
}

/// Obeys a command.
fn obey_command<W: World>(
    session: &mut Session,
    world: &mut W,
    number: u32,
    command: &Command,
) -> Result<Progress, Fault>
    requires { IsWellFormed command.now }
    ensures wrote { (state : State) → Wrote fault_stop (W.state world.old) (W.state world.new)
        (obeys_command number state session.old.state (Ok command.now)) (course_to state session.new.state result) }
    ensures untold { IfNone (W.state world.old).told (IfOk result (ProgressFileCause (W.state world.old).faults (W.state world.new).faults)) }
{
    match session.obey_or_refuse(command, world)? {
        Ok(()) => Ok(Progress::GoesOn),
        Err(cause) => end(session, world, number, cause),
    }
}

/// Obeys a command by its words.
fn obey_words<W: World>(
    alloc: Global,
    session: &mut Session,
    world: &mut W,
    number: u32,
    words: &[Text],
) -> Result<Progress, Fault>
    ensures wrote { (state : State) → Wrote fault_stop (W.state world.old) (W.state world.new)
        (obeys_words number state session.old.state words.now) (course_to state session.new.state result) }
    ensures untold { IfNone (W.state world.old).told (IfOk result (ProgressFileCause (W.state world.old).faults (W.state world.new).faults)) }
{
    match command_of(alloc, words) {
        Ok(command) => obey_command(session, world, number, &command),
        Err(fault) => refuse_words(session, world, number, fault),
    }
}

/// Goes on with what the machine has made of the line with this number.
fn obey_step<W: World>(
    alloc: Global,
    session: &mut Session,
    world: &mut W,
    number: u32,
    step: Result<Step, LineFault>,
) -> Result<Progress, Fault>
    ensures wrote { (plain : Result (LineStep × State) Fault_of_line) (state : State) → IsPlainOrMemory is_memory plain (read_to state step) →
        Wrote fault_stop (W.state world.old) (W.state world.new) (obeys_step number session.old.state plain) (course_to state session.new.state result) }
    ensures untold { IfNone (W.state world.old).told (IfOk result (ProgressFileCause (W.state world.old).faults (W.state world.new).faults)) }
{
    match step {
        Ok(Step::Own(_)) => Ok(Progress::GoesOn),
        Ok(Step::Words(line, words)) => obey_words(alloc, session, world, line, words.as_slice()),
        Err(fault) => refuse_line(session, world, number, fault),
    }
}

/// Obeys the line with this number, at which the machine has arrived. It is echoed first, as it stands in the script.
fn obey_line<W: World>(
    alloc: Global,
    machine: &mut Machine,
    session: &mut Session,
    world: &mut W,
    number: u32,
) -> Result<Progress, Fault>
    requires { StandsAt machine.old.script (state_of machine.old.state) (Ok (Arrival.At number)) }
    ensures wrote { Wrote fault_stop (W.state world.old) (W.state world.new)
        (obeys_line machine.old.script (state_of machine.old.state) session.old.state (line_at machine.old.script (state_of machine.old.state)))
        (course_to (state_of machine.new.state) session.new.state result) }
    ensures untold { IfNone (W.state world.old).told (IfOk result (ProgressFileCause (W.state world.old).faults (W.state world.new).faults)) }
    ensures arrivals { machine.new.state.arrivals ≡ machine.old.state.arrivals }
    ensures script { machine.new.script ≡ machine.old.script }
{
    session.echo(world, machine.script().raw(number))?;
    let step = machine.next_command();
    obey_step(alloc, session, world, number, step)
}

/// Goes on where the machine has arrived: at a line, or at the end.
fn obey_arrival<W: World>(
    alloc: Global,
    machine: &mut Machine,
    session: &mut Session,
    world: &mut W,
    arrival: Arrival,
) -> Result<Progress, Fault>
    requires { StandsAt machine.old.script (state_of machine.old.state) (Ok arrival) }
    ensures wrote { Wrote fault_stop (W.state world.old) (W.state world.new)
        (obeys_arrival machine.old.script (state_of machine.old.state) session.old.state (Ok arrival))
        (course_to (state_of machine.new.state) session.new.state result) }
    ensures untold { IfNone (W.state world.old).told (IfOk result (ProgressFileCause (W.state world.old).faults (W.state world.new).faults)) }
    ensures counts { (before : State) → CountsAt before (state_of machine.old.state) (Ok arrival) →
        IfOk result (CountsOn before (state_of machine.new.state)) }
    ensures script { machine.new.script ≡ machine.old.script }
{
    match arrival {
        Arrival::End => Ok(Progress::Ends(Ending::Done)),
        Arrival::At(number) => obey_line(alloc, machine, session, world, number),
    }
}

/// Ends the script where the machine has arrived at a command once too often.
fn refuse_arrival<W: World>(
    session: &Session,
    world: &mut W,
    fault: LineFault,
) -> Result<Progress, Fault>
    requires { IsOneTooMany fault }
    ensures wrote { (lines : List LogicalLine) (state : State) → Wrote fault_stop (W.state world.old) (W.state world.new)
        (obeys_arrival lines state session.now.state (Err fault)) (course_to state session.now.state result) }
    ensures untold { IfOk result (ProgressFileCause (W.state world.old).faults (W.state world.new).faults) }
    ensures counts { (before now : State) → IfOk result (CountsOn before now) }
{
    let LineFault::TooManyCommands(number) = fault else {
        unreachable!()
    };
    end(session, world, number, Cause::TooManyCommands)
}

/// Obeys the next command, where there is one.
fn obey_next<W: World>(
    alloc: Global,
    machine: &mut Machine,
    session: &mut Session,
    world: &mut W,
) -> Result<Progress, Fault>
    ensures wrote { Wrote fault_stop (W.state world.old) (W.state world.new)
        (obeys_next machine.old.script (state_of machine.old.state) session.old.state)
        (course_to (state_of machine.new.state) session.new.state result) }
    ensures untold { IfNone (W.state world.old).told (IfOk result (ProgressFileCause (W.state world.old).faults (W.state world.new).faults)) }
    ensures counts { IfOk result (CountsOn (state_of machine.old.state) (state_of machine.new.state)) }
    ensures script { machine.new.script ≡ machine.old.script }
{
    match machine.next_line() {
        Ok(arrival) => obey_arrival(alloc, machine, session, world, arrival),
        Err(fault) => refuse_arrival(session, world, fault),
    }
}

/// Obeys a script from its first line on, with these variables before it.
pub fn run_script<W: World>(
    alloc: Global,
    script: Script,
    vars: &[Setting],
    session: &mut Session,
    world: &mut W,
) -> Result<Ending, Fault>
    ensures wrote { Wrote fault_stop (W.state world.old) (W.state world.new)
        (obeys_commands 1000001 script (with_settings new_machine vars.now) session.old.state) result }
    ensures untold { IfNone (W.state world.old).told (IfOk result (EndingFileCause (W.state world.old).faults (W.state world.new).faults)) }
{
    let mut machine = Machine::new(alloc, script, vars)?;
    loop {
        match obey_next(alloc, &mut machine, session, world)? {
            Progress::GoesOn => {}
            Progress::Ends(ending) => return Ok(ending),
        }
    }
}
