//! The options of a command line, word by word.

ghost use Rattle.std.specs.Prelude.{◌≡◌, IfOk, option_map};
ghost use Rattle.spk_cmds.specs.CommandLine.{awaiting, with_option, with_script, with_log, with_style, with_workers, with_name, with_var, word_read, log_asked, log_named, finished, nothing};
ghost use Rattle.spk_cmds.specs.Usages.{OptionsTo, line_seen};

use crate::option_values::{
    Asked, Awaited, Line, echo_in, echo_of, log_in, option_of, script_in, workers_in, workers_of,
};
use crate::options::{Echo, Input, Options, Usage};
use crate::variables::Settings;
use spk_num::name::{is_file_name, is_name};
use spk_num::text::Text;
use spk_script::Setting;
use std::alloc::{AllocError, Global};

/// The name of a log that isn't given.
const LOG: &str = "log.spparks";

impl Line {
    /// No words.
    pub fn new(alloc: Global) -> Line
        ensures { line_seen result ≡ nothing }
    {
        Line {
            vars: Settings::new(alloc),
            asked: Vec::new(alloc),
            awaited: Awaited::AnOption,
        }
    }
}

/// The value that an option wants comes next.
fn awaiting(vars: Settings, asked: Vec<Asked>, awaited: Option<Awaited>) -> Option<Line>
    ensures { option_map line_seen result ≡ awaiting vars asked.items awaited }
{
    match awaited {
        Some(awaited) => Some(Line {
            vars,
            asked,
            awaited,
        }),
        None => None,
    }
}

fn with_option(
    vars: Settings,
    mut asked: Vec<Asked>,
    option: Asked,
) -> Result<Option<Line>, AllocError>
    ensures { IfOk result (λ line. option_map line_seen line ≡ with_option vars asked.items option) }
{
    asked.push(option)?;
    Ok(Some(Line {
        vars,
        asked,
        awaited: Awaited::AnOption,
    }))
}

fn with_script(
    alloc: Global,
    vars: Settings,
    asked: Vec<Asked>,
    word: &str,
) -> Result<Option<Line>, AllocError>
    ensures { IfOk result (λ line. option_map line_seen line ≡ with_script vars asked.items word.now) }
{
    if !is_file_name(word.as_bytes()) {
        return Ok(None);
    }
    let name = Text::copy(alloc, word)?;
    with_option(vars, asked, Asked::In(name))
}

fn with_log(
    alloc: Global,
    vars: Settings,
    asked: Vec<Asked>,
    word: &str,
) -> Result<Option<Line>, AllocError>
    ensures { IfOk result (λ line. option_map line_seen line ≡ with_log vars asked.items word.now) }
{
    if !is_file_name(word.as_bytes()) {
        return Ok(None);
    }
    let name = Text::copy(alloc, word)?;
    with_option(vars, asked, Asked::Log(name))
}

fn with_style(
    vars: Settings,
    asked: Vec<Asked>,
    style: Option<Echo>,
) -> Result<Option<Line>, AllocError>
    ensures { IfOk result (λ line. option_map line_seen line ≡ with_style vars asked.items style) }
{
    match style {
        Some(style) => with_option(vars, asked, Asked::EchoTo(style)),
        None => Ok(None),
    }
}

fn with_workers(
    vars: Settings,
    asked: Vec<Asked>,
    place: u64,
    number: Option<u32>,
) -> Result<Option<Line>, AllocError>
    ensures { IfOk result (λ line. option_map line_seen line ≡ with_workers vars asked.items place number) }
{
    match number {
        Some(number) => with_option(vars, asked, Asked::Workers(number, place)),
        None => Ok(None),
    }
}

fn with_name(
    alloc: Global,
    vars: Settings,
    asked: Vec<Asked>,
    word: &str,
) -> Result<Option<Line>, AllocError>
    ensures { IfOk result (λ line. option_map line_seen line ≡ with_name vars asked.items word.now) }
{
    if !is_name(word.as_bytes()) {
        return Ok(None);
    }
    let name = Text::copy(alloc, word)?;
    Ok(Some(Line {
        vars,
        asked,
        awaited: Awaited::VarValue(name),
    }))
}

fn with_var(
    alloc: Global,
    mut vars: Settings,
    asked: Vec<Asked>,
    name: Text,
    word: &str,
) -> Result<Option<Line>, AllocError>
    ensures { IfOk result (λ line. option_map line_seen line ≡ with_var vars asked.items name word.now) }
{
    let value = Text::copy(alloc, word)?;
    vars.push(Setting { name, value })?;
    Ok(Some(Line {
        vars,
        asked,
        awaited: Awaited::AnOption,
    }))
}

/// What words ask for with one more, and none where that can't stand at its place.
pub fn word_read(
    alloc: Global,
    line: Line,
    place: u64,
    word: &str,
) -> Result<Option<Line>, AllocError>
    ensures { IfOk result (λ next. option_map line_seen next ≡ word_read (line_seen line) place word.now) }
{
    let Line {
        vars,
        asked,
        awaited,
    } = line;
    match awaited {
        Awaited::AnOption => {
            let awaited = option_of(&asked, word);
            Ok(awaiting(vars, asked, awaited))
        }
        Awaited::ScriptName => with_script(alloc, vars, asked, word),
        Awaited::LogName => with_log(alloc, vars, asked, word),
        Awaited::EchoStyle => with_style(vars, asked, echo_of(word)),
        Awaited::WorkersNumber => with_workers(vars, asked, place, workers_of(word)),
        Awaited::VarName => with_name(alloc, vars, asked, word),
        Awaited::VarValue(name) => with_var(alloc, vars, asked, name, word),
    }
}

/// The name of the log.
fn log_asked(asked: &[Asked]) -> &str
    ensures { result.now ≡ log_asked asked.now }
{
    match log_in(asked) {
        Some(name) => name.as_str(),
        None => LOG,
    }
}

/// The log with this name, and none where that is `none`.
fn log_named(alloc: Global, name: &str) -> Result<Option<Text>, AllocError>
    ensures { IfOk result (λ log. log ≡ log_named name.now) }
{
    if name == "none" {
        return Ok(None);
    }
    Ok(Some(Text::copy(alloc, name)?))
}

/// The options, where the words end before a place.
pub fn finished(alloc: Global, line: Line, place: u64) -> Result<Options, Usage>
    ensures { OptionsTo (finished (line_seen line) place) result }
{
    let Line {
        vars,
        asked,
        awaited,
    } = line;
    if !matches!(awaited, Awaited::AnOption) {
        return Err(Usage::Word(place));
    }
    let Some(script) = script_in(&asked) else {
        return Err(Usage::Word(place));
    };
    let script = Text::copy(alloc, script.as_str())?;
    let log = log_named(alloc, log_asked(&asked))?;
    let (workers, workers_word) = workers_in(&asked).unwrap_or((1, 0));
    Ok(Options {
        input: Input::File(script),
        vars,
        log,
        echo: echo_in(&asked).unwrap_or(Echo::Log),
        workers,
        workers_word,
    })
}
