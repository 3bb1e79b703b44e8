//! The lines that say why a script or a command line is refused.

ghost use Rattle.std.specs.Prelude.{◌≡◌, ◌++◌, IfOk, string_bytes};
ghost use Rattle.spk_run.specs.Causes.{cause_number, cause_text, dimension_text};
ghost use Rattle.spk_run.specs.Endings.{refusal_text, usage_text};

use crate::cause::Cause;
use spk_num::text::Text;
use std::alloc::{AllocError, Global};

/// The number that goes with a cause.
fn number(cause: &Cause) -> u32
    ensures { result ≡ cause_number cause.now }
{
    match cause {
        Cause::ScriptTooLong => 101,
        Cause::NotAscii(_) => 102,
        Cause::OpenQuote => 103,
        Cause::TooManyLines => 104,
        Cause::LineTooLong => 111,
        Cause::TooManyCommands => 112,
        Cause::UnknownVariable(_) => 113,
        Cause::WrongWords => 114,
        Cause::BadName(_) => 115,
        Cause::BadFormula(_) => 116,
        Cause::Inexact => 117,
        Cause::NumberTooLarge => 118,
        Cause::LoopValue => 119,
        Cause::NotStepped(_) => 120,
        Cause::OtherFile => 121,
        Cause::NoSuchLabel(_) => 122,
        Cause::BadStyle(_) => 123,
        Cause::UnknownCommand(_) => 201,
        Cause::UnknownStyle(_) => 202,
        Cause::WrongCount => 203,
        Cause::BadNumber(_) => 204,
        Cause::OutOfRange(_) => 205,
        Cause::NotBuilt(_) => 206,
        Cause::BadCommandName(_) => 207,
        Cause::NoSeed => 301,
        Cause::NoApp => 302,
        Cause::NoLattice => 303,
        Cause::NoBox => 304,
        Cause::NoSites => 305,
        Cause::AlreadyMade => 306,
        Cause::WrongDimension => 307,
        Cause::RegionTwice(_) => 308,
        Cause::NoSuchRegion(_) => 309,
        Cause::RegionEmpty => 310,
        Cause::TooManyParts => 311,
        Cause::TooManyRegions => 312,
        Cause::BoxNotBlock => 313,
        Cause::BoxNotWhole(_) => 314,
        Cause::TooSmall(_) => 315,
        Cause::TooManySites => 316,
        Cause::NoSolver => 319,
        Cause::BothSolverAndSweep => 320,
        Cause::NoSweepForApp => 321,
        Cause::BadValueForApp(_) => 324,
        Cause::NotWhole => 325,
        Cause::RunTooLong => 326,
        Cause::DumpTwice(_) => 327,
        Cause::NoSuchDump(_) => 328,
        Cause::TooManyDumps => 329,
        Cause::FileMissing(_) => 401,
        Cause::FileTooLong(_) => 402,
        Cause::NoHeader => 411,
        Cause::SitesCount(_) => 412,
        Cause::BadLine(_) => 413,
        Cause::BadId(_) => 414,
        Cause::TwiceId(_) => 415,
        Cause::MissingId(_) => 416,
        Cause::BadValue(_) => 417,
        Cause::OtherSection(_) => 418,
    }
}

/// A text that names a word.
fn with_word(alloc: Global, start: &str, word: &Text) -> Result<String, AllocError>
    ensures { IfOk result (λ text. string_bytes text ≡ start.now ++ word.now) }
{
    let word = word.as_str();
    format!(in alloc; "{start}{word}")
}

/// What a cause says.
fn text(alloc: Global, cause: &Cause) -> Result<String, AllocError>
    ensures { IfOk result (λ text. string_bytes text ≡ cause_text cause.now) }
{
    match cause {
        Cause::ScriptTooLong => String::from_str(alloc, "script over 1048576 bytes"),
        Cause::NotAscii(place) => format!(in alloc; "byte {place} is not allowed"),
        Cause::OpenQuote => String::from_str(alloc, "quote is not closed"),
        Cause::TooManyLines => String::from_str(alloc, "more than 100000 lines"),
        Cause::LineTooLong => String::from_str(alloc, "line over 4096 bytes"),
        Cause::TooManyCommands => String::from_str(alloc, "more than 1000000 commands"),
        Cause::UnknownVariable(name) => with_word(alloc, "no variable ", name),
        Cause::WrongWords => String::from_str(alloc, "wrong number of words"),
        Cause::BadName(word) => with_word(alloc, "bad name ", word),
        Cause::BadFormula(place) => format!(in alloc; "bad formula at {place}"),
        Cause::Inexact => String::from_str(alloc, "formula is not exact"),
        Cause::NumberTooLarge => String::from_str(alloc, "formula passes 10^12"),
        Cause::LoopValue => String::from_str(alloc, "bad loop count"),
        Cause::NotStepped(name) => not_stepped(alloc, name),
        Cause::OtherFile => String::from_str(alloc, "jump to another file"),
        Cause::NoSuchLabel(label) => with_word(alloc, "no label ", label),
        Cause::BadStyle(word) => with_word(alloc, "unknown variable style ", word),
        Cause::UnknownCommand(word) => with_word(alloc, "unknown command ", word),
        Cause::UnknownStyle(word) => with_word(alloc, "unknown word ", word),
        Cause::WrongCount => String::from_str(alloc, "wrong number of words"),
        Cause::BadNumber(word) => with_word(alloc, "bad number ", word),
        Cause::OutOfRange(word) => with_word(alloc, "number out of range ", word),
        Cause::NotBuilt(word) => with_word(alloc, "not built yet ", word),
        Cause::BadCommandName(word) => with_word(alloc, "bad name ", word),
        Cause::NoSeed => String::from_str(alloc, "no seed"),
        Cause::NoApp => String::from_str(alloc, "no app_style"),
        Cause::NoLattice => String::from_str(alloc, "no lattice"),
        Cause::NoBox => String::from_str(alloc, "no box"),
        Cause::NoSites => String::from_str(alloc, "no sites"),
        Cause::AlreadyMade => String::from_str(alloc, "already made"),
        Cause::WrongDimension => String::from_str(alloc, "dimension and lattice disagree"),
        Cause::RegionTwice(name) => region_twice(alloc, name),
        Cause::NoSuchRegion(name) => with_word(alloc, "no region ", name),
        Cause::RegionEmpty => String::from_str(alloc, "region is empty"),
        Cause::TooManyParts => String::from_str(alloc, "more than 16 parts"),
        Cause::TooManyRegions => String::from_str(alloc, "more than 128 regions"),
        Cause::BoxNotBlock => String::from_str(alloc, "box is not a block"),
        Cause::BoxNotWhole(dimension) => with_dimension(alloc, "box is not whole in ", *dimension),
        Cause::TooSmall(dimension) => with_dimension(alloc, "fewer than 3 cells in ", *dimension),
        Cause::TooManySites => String::from_str(alloc, "more than 4194304 sites"),
        Cause::NoSolver => String::from_str(alloc, "no solve_style and no sweep"),
        Cause::BothSolverAndSweep => String::from_str(alloc, "both solve_style and sweep"),
        Cause::NoSweepForApp => String::from_str(alloc, "application has no sweep"),
        Cause::BadValueForApp(site) => format!(in alloc; "bad value at site {site}"),
        Cause::NotWhole => String::from_str(alloc, "not a whole number of sweeps"),
        Cause::RunTooLong => String::from_str(alloc, "run too long"),
        Cause::DumpTwice(name) => dump_twice(alloc, name),
        Cause::NoSuchDump(name) => with_word(alloc, "no dump ", name),
        Cause::TooManyDumps => String::from_str(alloc, "more than 32 dumps"),
        Cause::FileMissing(name) => with_word(alloc, "no file ", name),
        Cause::FileTooLong(name) => file_too_long(alloc, name),
        Cause::NoHeader => String::from_str(alloc, "site file has no header"),
        Cause::SitesCount(count) => format!(in alloc; "site file has {count} sites"),
        Cause::BadLine(line) => format!(in alloc; "bad line {line}"),
        Cause::BadId(line) => format!(in alloc; "bad id in line {line}"),
        Cause::TwiceId(line) => format!(in alloc; "id twice in line {line}"),
        Cause::MissingId(id) => format!(in alloc; "no id {id}"),
        Cause::BadValue(line) => format!(in alloc; "bad value in line {line}"),
        Cause::OtherSection(line) => format!(in alloc; "other section in line {line}"),
    }
}

/// A text that names a dimension.
fn with_dimension(alloc: Global, start: &str, dimension: u32) -> Result<String, AllocError>
    ensures { IfOk result (λ text. string_bytes text ≡ start.now ++ dimension_text dimension) }
{
    let name = match dimension {
        0 => "x",
        1 => "y",
        _ => "z",
    };
    format!(in alloc; "{start}{name}")
}

/// What is said of a region whose name another one has.
fn region_twice(alloc: Global, name: &Text) -> Result<String, AllocError>
    ensures { IfOk result (λ text. string_bytes text ≡ cause_text (Cause.RegionTwice name.now)) }
{
    let name = name.as_str();
    format!(in alloc; "region {name} is there")
}

/// What is said of a dump whose name another one has.
fn dump_twice(alloc: Global, name: &Text) -> Result<String, AllocError>
    ensures { IfOk result (λ text. string_bytes text ≡ cause_text (Cause.DumpTwice name.now)) }
{
    let name = name.as_str();
    format!(in alloc; "dump {name} is there")
}

/// What is said of a file that has too many bytes.
fn file_too_long(alloc: Global, name: &Text) -> Result<String, AllocError>
    ensures { IfOk result (λ text. string_bytes text ≡ cause_text (Cause.FileTooLong name.now)) }
{
    let name = name.as_str();
    format!(in alloc; "file {name} too long")
}

/// What is said of a variable whose style has no next value.
fn not_stepped(alloc: Global, name: &Text) -> Result<String, AllocError>
    ensures { IfOk result (λ text. string_bytes text ≡ cause_text (Cause.NotStepped name.now)) }
{
    let name = name.as_str();
    format!(in alloc; "variable {name} has no next value")
}

/// The line that says why a script is refused, and at which line.
#[tactic(auto, unfolding(crate::specs::Endings::refusal_text))]
pub fn refusal_line(alloc: Global, line: u32, cause: &Cause) -> Result<String, AllocError>
    ensures { IfOk result (λ text. string_bytes text ≡ refusal_text line cause.now) }
{
    let number = number(cause);
    let text = text(alloc, cause)?;
    format!(in alloc; "ERROR: line {line}: ({number}) {text}\n")
}

/// The line that names the first bad word of a command line.
#[tactic(auto, unfolding(crate::specs::Endings::usage_text))]
pub fn usage_line(alloc: Global, place: u64) -> Result<String, AllocError>
    ensures { IfOk result (λ text. string_bytes text ≡ usage_text place) }
{
    format!(in alloc; "ERROR: usage at word {place}\n")
}
