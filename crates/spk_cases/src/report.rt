//! What is printed of the cases.

ghost use Rattle.std.specs.Prelude.{◌≡◌, ◌+◌, ◌-◌, ◌^◌, min, if◌then◌else◌};

use crate::case::Case;
use crate::difference::Differences;
use std::{fmt, io};

/// How many cases were played, and how many of them differ.
#[derive(Clone, Copy, Debug, PartialEq, Eq)]
pub struct Tally {
    pub played: u64,
    pub differ: u64,
}

impl fmt::Display for Tally {
    fn fmt<W: fmt::Write>(&self, f: &mut fmt::Formatter<W>) -> fmt::Result {
        let played = self.played;
        let differ = self.differ;
        write!(f, "{played} cases played, {differ} differ")
    }
}

impl Tally {
    pub const NONE: Tally = Tally {
        played: 0,
        differ: 0,
    };

    /// Counts a case that was played.
    pub fn count(&mut self, differs: bool)
        ensures played { self.new.played ≡ min (self.old.played + 1) (2 ^ 64 - 1) }
        ensures differ { self.new.differ ≡ min (self.old.differ + (if differs then 1 else 0)) (2 ^ 64 - 1) }
    {
        self.played = self.played.saturating_add(1);
        self.differ = self.differ.saturating_add(u64::from(differs));
    }
}

/// Prints a case of this file that differs: its name, and what was wanted and came.
pub fn print_case(
    rt: &impl Print,
    file: &str,
    case: &Case,
    differences: &Differences,
) -> io::Result<()> {
    let line = case.line;
    let name = case.name.as_str();
    let source = case.source.as_str();
    println!(rt; "{file}, line {line}: {name} ({source})")?;
    for difference in differences.found() {
        println!(rt; "{difference}")?;
    }
    Ok(())
}
