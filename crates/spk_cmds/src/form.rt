//! Forms of commands as data: the kinds of their words, and what may stand after these.

use crate::command::{AppStyle, DumpStyle, SolveStyle};
use crate::options::Echo;
use spk_num::style::Style;
use spk_num::sweep::Sweep;

/// What may stand in the place of a word.
#[derive(Clone, Copy)]
pub enum Kind {
    /// One of these words. Those of the second list aren't built yet.
    OneOf(&'static [&'static str], &'static [&'static str]),
    /// A whole number from one to another, both ends taken.
    WholeNumber(u32, u32),
    /// A whole number in a range, which is at most the number that the next word is.
    WholeUpToNext(u32, u32),
    /// A decimal number, in millionths, from one to another, both ends taken.
    DecimalNumber(i64, i64),
    /// A bound of a region: `INF`, `EDGE` or a decimal number in a range.
    BoundNumber(i64, i64),
    NameWord,
    FileWord,
    AnyWord,
}

/// A keyword with the kind of its value.
#[derive(Clone, Copy)]
pub struct Keyword {
    pub word: &'static str,
    pub kind: Kind,
}

/// What may stand after the words that always stand.
#[derive(Clone, Copy)]
pub enum Tail {
    NoTail,
    /// Pairs of a keyword and its value in any order, each keyword at most once. The keywords of the second list aren't
    /// built yet.
    Pairs(&'static [Keyword], &'static [&'static str]),
    /// All of these words or none.
    Optional(&'static [Kind]),
    /// As many words of a kind as the last word before them says.
    Counted(Kind),
    /// So many words of a kind at most.
    UpTo(usize, Kind),
}

/// What is made of the words of a form.
#[derive(Clone, Copy)]
pub enum Maker {
    Seed,
    App(AppStyle),
    Potts,
    PottsNeighonly,
    Diffusion,
    Dimension,
    Lattice(Style),
    Boundary,
    Block,
    Sphere,
    Cylinder,
    Union,
    Intersect,
    CreateBox,
    CreateSites,
    SetValue,
    SetRange,
    SetUnique,
    ReadSites,
    Solve(SolveStyle),
    Sweep(Sweep),
    Temperature,
    Stats,
    DiagEnergy,
    Dump(DumpStyle),
    Undump,
    Run,
    Print,
    SetEcho(Echo),
}

/// The words after a command's first.
#[derive(Clone, Copy)]
pub struct Form {
    pub maker: Maker,
    /// The kinds of the words that always stand.
    pub kinds: &'static [Kind],
    pub tail: Tail,
}

/// A form with its deciding word.
#[derive(Clone, Copy)]
pub struct Styled {
    pub word: &'static str,
    pub form: Form,
}

/// The forms of a command.
#[derive(Clone, Copy)]
pub enum Forms {
    /// None is built yet.
    Unbuilt,
    One(Form),
    /// The word at this place after the first decides. Those of the last list decide for a form that isn't built yet.
    Several(usize, &'static [Styled], &'static [&'static str]),
}

/// A command with its forms.
#[derive(Clone, Copy)]
pub struct Row {
    pub name: &'static str,
    pub forms: Forms,
}
