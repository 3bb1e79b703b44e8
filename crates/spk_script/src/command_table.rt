//! Where the commands among the lines of a script are.

ghost use Rattle.std.specs.Prelude.{◌≡◌, length, slice_get, IfOk};
ghost use Rattle.spk_script.specs.CommandPlaces.{IsTableUpTo};

use crate::script::Line;
use std::alloc::{AllocError, Global};

/// For each line the place of the first command from it on. It ends with the last command.
#[derive(Debug, Drop)]
pub struct CommandTable {
    places: Vec<usize>,
}

impl CommandTable {
    /// The table of these lines.
    pub fn of(alloc: Global, lines: &[Line]) -> Result<CommandTable, AllocError>
        ensures { IfOk result (λ table. IsTableUpTo lines.now table.places.items (length lines.now)) }
    {
        let mut places = Vec::new(alloc);
        for (place, line) in lines.iter().enumerate() {
            if line.is_command() {
                places.resize(place + 1, place)?;
            }
        }
        Ok(CommandTable { places })
    }

    /// The place of the first command from a place on.
    pub fn first_from(&self, place: usize) -> Option<usize>
        ensures { result ≡ slice_get self.now.places.items place }
    {
        self.places.get(place).copied()
    }
}
