//! The causes for which a script is refused, and the faults that they come from.

ghost use Rattle.std.specs.Prelude.{◌≡◌, IfOk, IfSome};
ghost use Rattle.spk_run.specs.Causes.{IsOfContent, IsOfState, line_cause, words_cause, lattice_cause, plan_cause, shape_cause, site_file_cause};

use spk_cmds::CommandFault;
use spk_files::SiteFault;
use spk_lattice::{LatticeFault, RegionFault};
use spk_num::text::Text;
use spk_sched::PlanFault;
use spk_script::LineFault;
use std::alloc::{AllocError, Global};

/// Why a script is refused.
#[derive(Debug, Drop)]
pub enum Cause {
    /// It has more than 1048576 bytes.
    ScriptTooLong,
    /// No script may have the byte at this place, counted from 0.
    NotAscii(u32),
    /// A quote isn't closed.
    OpenQuote,
    /// It has more than 100000 lines.
    TooManyLines,
    /// The words of the line take more than 4096 bytes.
    LineTooLong,
    /// A run of it arrives at more than 1000000 commands.
    TooManyCommands,
    /// No variable has this name.
    UnknownVariable(Text),
    /// A command of the script's language takes another number of words.
    WrongWords,
    /// This word is no name.
    BadName(Text),
    /// A byte of a formula can't stand at this place, counted from 0.
    BadFormula(u32),
    /// The result of an operation has more than six places, or a divisor is 0.
    Inexact,
    /// The result of an operation passes 10^12.
    NumberTooLarge,
    /// A loop has 1 to 1000000 turns.
    LoopValue,
    /// The variable with this name has no next value.
    NotStepped(Text),
    /// A jump leads to another file.
    OtherFile,
    /// No line is this label.
    NoSuchLabel(Text),
    /// No variable has this style.
    BadStyle(Text),
    /// No command has this name.
    UnknownCommand(Text),
    /// A command takes another word in the place of this one.
    UnknownStyle(Text),
    /// A command takes another number of words.
    WrongCount,
    /// This word is no number of its kind.
    BadNumber(Text),
    /// This number isn't in its range.
    OutOfRange(Text),
    /// This command or word isn't built yet.
    NotBuilt(Text),
    /// This word of a command is no name.
    BadCommandName(Text),
    /// No `seed` was given.
    NoSeed,
    /// No `app_style` was given.
    NoApp,
    /// No `lattice` was given.
    NoLattice,
    /// There is no box yet.
    NoBox,
    /// There are no sites yet.
    NoSites,
    /// It was given or made already.
    AlreadyMade,
    /// `dimension` and the style of the lattice speak of different numbers of dimensions.
    WrongDimension,
    /// A region has this name already.
    RegionTwice(Text),
    /// No region has this name.
    NoSuchRegion(Text),
    /// A region's low bound is above its high one, or it has no parts.
    RegionEmpty,
    /// A region has more than 16 parts.
    TooManyParts,
    /// It would be the 129th region.
    TooManyRegions,
    /// A box is made of a region that is no block.
    BoxNotBlock,
    /// A box does not reach from 0 to a whole number in this dimension, 0 to 2 for x to z.
    BoxNotWhole(u32),
    /// A box has fewer than 3 cells in this dimension.
    TooSmall(u32),
    /// A box has more than 4194304 sites.
    TooManySites,
    /// Neither a solver nor a sweep was given.
    NoSolver,
    /// Both a solver and a sweep were given.
    BothSolverAndSweep,
    /// A sweep was given, and the application has none.
    NoSweepForApp,
    /// The application has no such value as that of this site.
    BadValueForApp(u32),
    /// A cycle or a run is no whole number of sweeps.
    NotWhole,
    /// A run has more than 10^9 steps, or ends after 4 * 10^18 ticks.
    RunTooLong,
    /// A dump has this name already.
    DumpTwice(Text),
    /// No dump has this name.
    NoSuchDump(Text),
    /// It would be the 33rd dump.
    TooManyDumps,
    /// No file has this name.
    FileMissing(Text),
    /// The file with this name has more than 134217728 bytes.
    FileTooLong(Text),
    /// A site file has no line with the number of sites before its values, or no values.
    NoHeader,
    /// A site file is for this number of sites.
    SitesCount(u64),
    /// This line of a site file, counted from 1, isn't two numbers.
    BadLine(u32),
    /// No site has the id in this line of a site file.
    BadId(u32),
    /// The id in this line of a site file has a value already.
    TwiceId(u32),
    /// A site file has no value for the site with this id.
    MissingId(u32),
    /// The application has no such value as that in this line of a site file.
    BadValue(u32),
    /// A site file has another section at this line.
    OtherSection(u32),
}

impl Cause {
    /// The cause that a fault of a line is. Out of memory is none.
    pub fn of_line(fault: LineFault) -> Option<Cause>
        ensures cause { result ≡ line_cause fault }
        ensures of_state { IfSome result IsOfState }
    {
        match fault {
            LineFault::LineTooLong => Some(Cause::LineTooLong),
            LineFault::TooManyCommands(_) => Some(Cause::TooManyCommands),
            LineFault::UnknownVariable(name) => Some(Cause::UnknownVariable(name)),
            LineFault::WrongWords => Some(Cause::WrongWords),
            LineFault::BadName(word) => Some(Cause::BadName(word)),
            LineFault::BadFormula(place) => Some(Cause::BadFormula(place)),
            LineFault::Inexact => Some(Cause::Inexact),
            LineFault::NumberTooLarge => Some(Cause::NumberTooLarge),
            LineFault::LoopValue => Some(Cause::LoopValue),
            LineFault::NotStepped(name) => Some(Cause::NotStepped(name)),
            LineFault::OtherFile => Some(Cause::OtherFile),
            LineFault::NoSuchLabel(label) => Some(Cause::NoSuchLabel(label)),
            LineFault::BadStyle(word) => Some(Cause::BadStyle(word)),
            LineFault::Memory => None,
        }
    }

    /// The cause that a fault of the words of a command is. Out of memory is none.
    pub fn of_words(fault: CommandFault) -> Option<Cause>
        ensures cause { result ≡ words_cause fault }
        ensures of_state { IfSome result IsOfState }
    {
        match fault {
            CommandFault::UnknownCommand(word) => Some(Cause::UnknownCommand(word)),
            CommandFault::UnknownStyle(word) => Some(Cause::UnknownStyle(word)),
            CommandFault::WrongCount => Some(Cause::WrongCount),
            CommandFault::BadNumber(word) => Some(Cause::BadNumber(word)),
            CommandFault::OutOfRange(word) => Some(Cause::OutOfRange(word)),
            CommandFault::NotBuilt(word) => Some(Cause::NotBuilt(word)),
            CommandFault::BadName(word) => Some(Cause::BadCommandName(word)),
            CommandFault::Memory => None,
        }
    }

    /// The cause that a fault of a region is. Out of memory is none.
    pub fn of_region(
        alloc: Global,
        name: &Text,
        fault: RegionFault,
    ) -> Result<Option<Cause>, AllocError>
        ensures cause { IfOk result (λ found. found ≡ shape_cause name.now fault) }
        ensures of_state { IfOk result (λ found. IfSome found IsOfState) }
    {
        match fault {
            RegionFault::Twice => {
                let name = Text::copy(alloc, name.as_str())?;
                Ok(Some(Cause::RegionTwice(name)))
            }
            RegionFault::Unknown(part) => Ok(Some(Cause::NoSuchRegion(part))),
            RegionFault::Empty => Ok(Some(Cause::RegionEmpty)),
            RegionFault::TooManyParts => Ok(Some(Cause::TooManyParts)),
            RegionFault::TooManyRegions => Ok(Some(Cause::TooManyRegions)),
            RegionFault::Memory => Ok(None),
        }
    }

    /// The cause that a fault of a lattice is.
    pub fn of_lattice(fault: LatticeFault) -> Cause
        ensures cause { result ≡ lattice_cause fault }
        ensures of_state { IsOfState result }
    {
        match fault {
            LatticeFault::TooSmall(dimension) => Cause::TooSmall(dimension),
            LatticeFault::TooManySites => Cause::TooManySites,
        }
    }

    /// The cause that a fault of a site file is. Out of memory is none.
    pub fn of_site_file(fault: SiteFault) -> Option<Cause>
        ensures cause { result ≡ site_file_cause fault }
        ensures of_content { IfSome result IsOfContent }
    {
        match fault {
            SiteFault::NoHeader => Some(Cause::NoHeader),
            SiteFault::SitesCount(count) => Some(Cause::SitesCount(count)),
            SiteFault::BadLine(line) => Some(Cause::BadLine(line)),
            SiteFault::BadId(line) => Some(Cause::BadId(line)),
            SiteFault::TwiceId(line) => Some(Cause::TwiceId(line)),
            SiteFault::MissingId(id) => Some(Cause::MissingId(id)),
            SiteFault::BadValue(line) => Some(Cause::BadValue(line)),
            SiteFault::OtherSection(line) => Some(Cause::OtherSection(line)),
            SiteFault::Memory => None,
        }
    }

    /// The cause that a fault of a plan is. Out of memory is none.
    pub fn of_plan(fault: PlanFault) -> Option<Cause>
        ensures cause { result ≡ plan_cause fault }
        ensures of_state { IfSome result IsOfState }
    {
        match fault {
            PlanFault::NotWhole => Some(Cause::NotWhole),
            PlanFault::RunTooLong => Some(Cause::RunTooLong),
            PlanFault::Memory => None,
        }
    }
}
