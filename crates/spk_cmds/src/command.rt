//! Commands with their numbers and names.

ghost use Rattle.std.specs.Prelude.{◌≡◌};

use crate::fields::Fields;
use crate::options::Echo;
use spk_num::decimal::Dec;
use spk_num::shape::Shape;
use spk_num::style::Style;
use spk_num::sweep::Sweep;
use spk_num::text::Text;
use std::alloc::AllocError;

/// A command. Words without an effect have no field.
#[derive(Debug, Drop)]
pub enum Command {
    Seed {
        seed: u32,
    },
    App {
        style: AppStyle,
    },
    Dimension {
        d: u32,
    },
    Lattice {
        style: Style,
        scale: Dec,
    },
    /// A face is true where the lattice isn't periodic.
    Boundary {
        faces: [bool; 3],
    },
    Processors {
        ranks: [u32; 3],
    },
    Region {
        name: Text,
        shape: Shape,
    },
    CreateBox {
        region: Text,
    },
    CreateSites,
    Set {
        value: SetValue,
        fraction: Option<Dec>,
        region: Option<Text>,
    },
    ReadSites {
        file: Text,
    },
    WriteRestart {
        file: Text,
    },
    ReadRestart {
        file: Text,
    },
    Sector {
        yes: bool,
        tstop: Option<Dec>,
        nstop: Option<Dec>,
    },
    Solve {
        style: SolveStyle,
    },
    Sweep {
        style: Sweep,
    },
    Temperature {
        t: Dec,
    },
    Stats {
        delta: Dec,
    },
    DiagEnergy,
    Dump {
        name: Text,
        style: DumpStyle,
        delta: Dec,
        file: Text,
        fields: Fields,
    },
    Undump {
        name: Text,
    },
    Run {
        length: Dec,
    },
    Print {
        text: Text,
    },
    SetEcho {
        echo: Echo,
    },
}

/// The application. Potts styles have their number of values.
#[derive(Clone, Copy, Debug, PartialEq, Eq)]
pub enum AppStyle {
    Ising,
    IsingSingle,
    Potts(u32),
    PottsNeighonly(u32),
    DiffusionOff,
    DiffusionLinear,
}

/// Which values `set` gives.
#[derive(Clone, Copy, Debug, PartialEq, Eq)]
pub enum SetValue {
    Value(u32),
    /// Drawn values, both ends taken.
    Range(u32, u32),
    /// Each site its number.
    Unique,
}

/// How an event is chosen.
#[derive(Clone, Copy, Debug, PartialEq, Eq)]
pub enum SolveStyle {
    Linear,
    Tree,
    Group,
}

/// What a dump writes.
#[derive(Clone, Copy, Debug, PartialEq, Eq)]
pub enum DumpStyle {
    Text,
    Sites,
}

/// Why words are no command. Where a fault names a word, it is the first such word in the order of its kind.
#[derive(Debug, Drop)]
pub enum CommandFault {
    UnknownCommand(Text),
    UnknownStyle(Text),
    WrongCount,
    BadNumber(Text),
    OutOfRange(Text),
    /// A later version will have this command or word.
    NotBuilt(Text),
    BadName(Text),
    /// There is no memory left.
    Memory,
}

impl From<AllocError> for CommandFault {
    ghost use Rattle.spk_cmds.specs.declared.command.CommandFault.TheVariants.{Memory};

    ghost from_gives = { λ _ e. e ≡ Memory };

    fn from(_: AllocError) -> CommandFault {
        CommandFault::Memory
    }
}
