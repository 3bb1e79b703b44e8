//! Options of a command line with their values, and the values by their forms.

ghost use Rattle.std.specs.Prelude.{◌≡◌, ◌<◌, true, length, option_map};
ghost use Rattle.std.specs.List.{list_all};
ghost use Rattle.std.specs.Char.{is_ascii_digit};
ghost use Rattle.spk_cmds.specs.Numbers.{Fits};
ghost use Rattle.spk_cmds.specs.CommandLine.{echo_of, has_leading_zero, workers_of, script_in, log_in, echo_in, workers_in, once, option_of};

use crate::options::Echo;
use crate::variables::Settings;
use spk_num::text::Text;
use std::num::ParseIntError;

/// The most workers.
const MOST_WORKERS: u32 = 64;

/// An option with its value.
#[derive(Drop)]
pub enum Asked {
    In(Text),
    Log(Text),
    EchoTo(Echo),
    /// The number of workers, and its place among the words.
    Workers(u32, u64),
}

/// What must stand at a place.
#[derive(Drop)]
pub enum Awaited {
    AnOption,
    ScriptName,
    LogName,
    EchoStyle,
    WorkersNumber,
    VarName,
    /// The value of the variable with this name.
    VarValue(Text),
}

/// What words ask for.
#[derive(Drop)]
pub struct Line {
    pub vars: Settings,
    pub asked: Vec<Asked>,
    pub awaited: Awaited,
}

/// The style of the echo with this name.
pub fn echo_of(word: &str) -> Option<Echo>
    ensures { result ≡ echo_of word.now }
{
    match word {
        "none" => Some(Echo::None),
        "screen" => Some(Echo::Screen),
        "log" => Some(Echo::Log),
        "both" => Some(Echo::Both),
        _ => None,
    }
}

fn are_digits(word: &[u8]) -> bool
    ensures { result ≡ list_all is_ascii_digit word.now }
{
    word.iter().all(|byte| byte.is_ascii_digit())
}

fn has_leading_zero(word: &[u8]) -> bool
    ensures { result ≡ has_leading_zero word.now }
{
    matches!(word, [] | [b'0', ..])
}

/// A number that fits.
#[tactic(auto, using(crate::proofs::Numerals::digits_fit))]
fn number_of(word: &str) -> Result<u32, ParseIntError>
    requires digits { list_all is_ascii_digit word.now ≡ true }
    requires some { 0 < length word.now }
    ensures { Fits word.now result }
{
    word.parse::<u32>()
}

/// How many workers a word asks for.
pub fn workers_of(word: &str) -> Option<u32>
    ensures { result ≡ workers_of word.now }
{
    let bytes = word.as_bytes();
    if !are_digits(bytes) || has_leading_zero(bytes) {
        return None;
    }
    match number_of(word) {
        Ok(workers) if workers <= MOST_WORKERS => Some(workers),
        _ => None,
    }
}

/// The name of the script.
pub fn script_in(asked: &[Asked]) -> Option<&Text>
    ensures { option_map (λ name. name.now) result ≡ script_in asked.now }
{
    match asked {
        [option, others @ ..] => match option {
            Asked::In(name) => Some(name),
            _ => script_in(others),
        },
        [] => None,
    }
}

/// The name of the log.
pub fn log_in(asked: &[Asked]) -> Option<&Text>
    ensures { option_map (λ name. name.now) result ≡ log_in asked.now }
{
    match asked {
        [option, others @ ..] => match option {
            Asked::Log(name) => Some(name),
            _ => log_in(others),
        },
        [] => None,
    }
}

/// The style of the echo.
pub fn echo_in(asked: &[Asked]) -> Option<Echo>
    ensures { result ≡ echo_in asked.now }
{
    match asked {
        [option, others @ ..] => match option {
            Asked::EchoTo(style) => Some(*style),
            _ => echo_in(others),
        },
        [] => None,
    }
}

/// The number of workers, and its place among the words.
pub fn workers_in(asked: &[Asked]) -> Option<(u32, u64)>
    ensures { result ≡ workers_in asked.now }
{
    match asked {
        [option, others @ ..] => match option {
            Asked::Workers(number, place) => Some((*number, *place)),
            _ => workers_in(others),
        },
        [] => None,
    }
}

/// The value that an option wants, where it may stand once.
fn once(given: bool, awaited: Awaited) -> Option<Awaited>
    ensures { result ≡ once given awaited }
{
    if given { None } else { Some(awaited) }
}

/// The value that the option of this name wants, where it may stand after others.
pub fn option_of(asked: &[Asked], word: &str) -> Option<Awaited>
    ensures { result ≡ option_of asked.now word.now }
{
    match word {
        "-in" | "-i" => once(script_in(asked).is_some(), Awaited::ScriptName),
        "-var" | "-v" => Some(Awaited::VarName),
        "-log" | "-l" => once(log_in(asked).is_some(), Awaited::LogName),
        "-echo" | "-e" => once(echo_in(asked).is_some(), Awaited::EchoStyle),
        "-workers" => once(workers_in(asked).is_some(), Awaited::WorkersNumber),
        _ => None,
    }
}
