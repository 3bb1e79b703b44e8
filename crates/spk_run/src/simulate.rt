//! The top call: the command line, the log, the load of the script, and what is answered.

ghost use Rattle.std.specs.Prelude.{◌≡◌, ◌≤◌, ℕ, List, length, map, Some, None, Ok, Err, Result, IfOk, IfNone};
ghost use Rattle.std.specs.String.{string_bytes};
ghost use Rattle.spk_script.specs.Lines.{LogicalLine, IsFault};
ghost use Rattle.spk_cmds.specs.CommandLine.{options_of};
ghost use Rattle.spk_cmds.specs.Inputs.{IsFile};
ghost use Rattle.spk_world.specs.Causes.{Later};
ghost use Rattle.spk_world.specs.Effects.{Wrote};
ghost use Rattle.spk_run.specs.Endings.{Simulated, AnswerCause, IsUsageAt, EndingFileCause, AnswerFileCause, IsUsageOf, NoneRose, IsComplete};
ghost use Rattle.spk_run.specs.Faults.{fault_stop, answer_by};
ghost use Rattle.spk_run.specs.Plain.{obeys_lines, obeys_file, obeys_input, obeys_options, plain_words, plain_alone, with_one_worker};

use crate::answer::{Answer, Ending, Target};
use crate::cause::Cause;
use crate::fault::Fault;
use crate::messages::usage_line;
use crate::output::say;
use crate::script::run_script;
use crate::session::Session;
use spk_cmds::{Input, Options, Usage, words_of};
use spk_num::text::Text;
use spk_script::{Script, ScriptFault, Setting};
use spk_world::{LoadFault, World};
use std::alloc::Global;

/// The longest script, in bytes.
const LONGEST_SCRIPT: u64 = 1_048_576;

/// Refuses bytes that are no script. They aren't too many.
fn refuse_script<W: World>(
    session: &Session,
    world: &mut W,
    fault: ScriptFault,
) -> Result<Ending, Fault>
    requires { fault ≡ ScriptFault.TooLong → ⊥ }
    ensures wrote { (vars : List Setting) (plain : Result (List LogicalLine) ScriptFault) → IsFault plain fault →
        Wrote fault_stop (W.state world.old) (W.state world.new) (obeys_lines vars session.now.state plain) result }
    ensures untold { IfOk result (EndingFileCause (W.state world.old).faults (W.state world.new).faults) }
{
    match fault {
        ScriptFault::TooLong => unreachable!(),
        ScriptFault::NotAscii(place) => session.refuse(world, 0, Cause::NotAscii(place)),
        ScriptFault::TooManyLines => session.refuse(world, 0, Cause::TooManyLines),
        ScriptFault::OpenQuote(number) => session.refuse(world, number, Cause::OpenQuote),
        ScriptFault::Memory => Err(Fault::Memory),
    }
}

/// Obeys a script that was loaded.
fn obey_script<W: World>(
    alloc: Global,
    vars: &[Setting],
    session: &mut Session,
    world: &mut W,
    bytes: &[u8],
) -> Result<Ending, Fault>
    requires { length bytes.now ≤ 1048576 }
    ensures wrote { (name : List ℕ) → Wrote fault_stop (W.state world.old) (W.state world.new)
        (obeys_file vars.now session.old.state name (Some bytes.now)) result }
    ensures untold { IfNone (W.state world.old).told (IfOk result (EndingFileCause (W.state world.old).faults (W.state world.new).faults)) }
{
    match Script::read(alloc, bytes) {
        Ok(script) => run_script(alloc, script, vars, session, world),
        Err(fault) => refuse_script(session, world, fault),
    }
}

/// Loads the script with this name, and obeys it. The name is copied before the load.
fn obey_file<W: World>(
    alloc: Global,
    vars: &[Setting],
    session: &mut Session,
    world: &mut W,
    name: &Text,
) -> Result<Ending, Fault>
    ensures wrote { Wrote fault_stop (W.state world.old) (W.state world.new) (obeys_input vars.now session.old.state (Input.File name.now)) result }
    ensures untold { IfNone (W.state world.old).told (IfOk result (EndingFileCause (W.state world.old).faults (W.state world.new).faults)) }
{
    let copy = Text::copy(alloc, name.as_str())?;
    match world.load(alloc, name.as_str(), LONGEST_SCRIPT) {
        Ok(script) => obey_script(alloc, vars, session, world, &script),
        Err(LoadFault::Missing) => session.refuse(world, 0, Cause::FileMissing(copy)),
        Err(LoadFault::TooLong) => session.refuse(world, 0, Cause::ScriptTooLong),
        Err(LoadFault::Failed) => Err(Fault::Read(copy)),
        Err(LoadFault::Memory) => Err(Fault::Memory),
    }
}

/// Obeys the script that the options name.
fn obey_input<W: World>(
    alloc: Global,
    options: &Options,
    session: &mut Session,
    world: &mut W,
) -> Result<Ending, Fault>
    requires { IsFile options.now.input }
    ensures wrote { Wrote fault_stop (W.state world.old) (W.state world.new) (obeys_input options.now.vars session.old.state options.now.input) result }
    ensures untold { IfNone (W.state world.old).told (IfOk result (EndingFileCause (W.state world.old).faults (W.state world.new).faults)) }
{
    match &options.input {
        Input::File(name) => obey_file(alloc, options.vars.as_slice(), session, world, name),
        Input::Generate { .. } => unreachable!(),
    }
}

/// Starts the log, loads the script and obeys it.
fn obey_options<W: World>(alloc: Global, options: &Options, world: &mut W) -> Result<Ending, Fault>
    requires { IsFile options.now.input }
    ensures wrote { Wrote fault_stop (W.state world.old) (W.state world.new) (obeys_options options.now) result }
    ensures untold { IfNone (W.state world.old).told (IfOk result (EndingFileCause (W.state world.old).faults (W.state world.new).faults)) }
{
    let mut session = Session::new(alloc, options)?;
    session.start_log(world)?;
    obey_input(alloc, options, &mut session, world)
}

/// The answer of a run that came to this.
fn answer(outcome: Result<Ending, Fault>) -> Answer
    ensures { result ≡ answer_by outcome }
{
    match outcome {
        Ok(ending) => ending.answer(),
        Err(Fault::Read(name)) => Answer::ReadFault { name },
        Err(Fault::Write(target)) => Answer::WriteFault { target },
        Err(Fault::Memory) => Answer::OutOfMemory,
    }
}

/// Says which word of the command line is the first bad one.
fn refuse_command_line<W: World>(alloc: Global, world: &mut W, place: u64) -> Answer
    ensures simulated { Simulated (W.state world.old).told (W.state world.new).told (plain_words (Err place)) result }
    ensures counts { Later (W.state world.old).faults (W.state world.new).faults }
    ensures cause { AnswerCause (W.state world.old).faults (W.state world.new).faults result }
    ensures usage { IsUsageAt place result }
{
    let Ok(line) = usage_line(alloc, place) else {
        return Answer::OutOfMemory;
    };
    match say(world, line.as_bytes()) {
        Ok(()) => Answer::Usage { word: place },
        Err(_) => Answer::WriteFault {
            target: Target::Screen,
        },
    }
}

/// The options for one thread, which does the work of one worker.
fn alone_options(alloc: Global, words: &[String]) -> Result<Options, Usage>
    ensures ok { IfOk result (λ options. with_one_worker (options_of (map string_bytes words.now)) ≡ Ok options) }
    ensures file { IfOk result (λ options. IsFile options.input) }
    ensures word { (place : ℕ) → result ≡ Err (Usage.Word place) → with_one_worker (options_of (map string_bytes words.now)) ≡ Err place }
{
    let options = words_of(alloc, words)?;
    if options.workers > 1 {
        return Err(Usage::Word(options.workers_word));
    }
    Ok(options)
}

/// Does what a command line asks for.
fn run_words<W: World>(alloc: Global, words: &[String], world: &mut W) -> Answer
    ensures simulated { Simulated (W.state world.old).told (W.state world.new).told (plain_alone (map string_bytes words.now)) result }
    ensures counts { Later (W.state world.old).faults (W.state world.new).faults }
    ensures cause { AnswerCause (W.state world.old).faults (W.state world.new).faults result }
    ensures file_cause { IfNone (W.state world.old).told (AnswerFileCause (W.state world.old).faults (W.state world.new).faults result) }
    ensures usage { IsUsageOf (with_one_worker (options_of (map string_bytes words.now))) result }
{
    match alone_options(alloc, words) {
        Ok(options) => answer(obey_options(alloc, &options, world)),
        Err(Usage::Word(place)) => refuse_command_line(alloc, world, place),
        Err(Usage::Memory) => Answer::OutOfMemory,
    }
}

/// Runs the program in one thread: reads the command line, starts the log, loads the script and obeys it.
///
/// The words are those after the program's name. After a fault and out of memory nothing more is written.
pub fn simulate_alone<W: World>(alloc: Global, words: &[String], world: &mut W) -> Answer
    ensures simulated { Simulated (W.state world.old).told (W.state world.new).told (plain_alone (map string_bytes words.now)) result }
    ensures counts { Later (W.state world.old).faults (W.state world.new).faults }
    ensures cause { AnswerCause (W.state world.old).faults (W.state world.new).faults result }
    ensures file_cause { IfNone (W.state world.old).told (AnswerFileCause (W.state world.old).faults (W.state world.new).faults result) }
    ensures usage { IsUsageOf (with_one_worker (options_of (map string_bytes words.now))) result }
    ensures complete { NoneRose (W.state world.old).faults (W.state world.new).faults →
        IsComplete (W.state world.old).told (plain_alone (map string_bytes words.now)) result }
{
    run_words(alloc, words, world)
}
