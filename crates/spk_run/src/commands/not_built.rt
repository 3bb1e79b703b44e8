//! Commands that aren't built yet, whatever their words are, and words that aren't.

ghost use Rattle.std.specs.Prelude.{◌≡◌, IfOk};
ghost use Rattle.std.specs.List.{list_any};
ghost use Rattle.spk_run.specs.Commands.NotBuilt.{word_if, unbuilt_word};

use spk_cmds::Command;
use spk_num::sweep::Sweep;
use spk_num::text::Text;
use std::alloc::{AllocError, Global};

/// Whether a face isn't periodic.
fn has_open_face(faces: &[bool]) -> bool
    ensures { result ≡ list_any (λ face. face) faces.now }
{
    faces.iter().any(|face| *face)
}

/// A word, where what it begins isn't built.
fn word_if(alloc: Global, unbuilt: bool, word: &str) -> Result<Option<Text>, AllocError>
    ensures { IfOk result (λ found. found ≡ word_if unbuilt word.now) }
{
    if !unbuilt {
        return Ok(None);
    }
    Ok(Some(Text::copy(alloc, word)?))
}

/// The first word of a command that isn't built.
#[tactic(auto, unfolding(crate::specs::Commands::NotBuilt::unbuilt_word))]
pub fn unbuilt_word(alloc: Global, command: &Command) -> Result<Option<Text>, AllocError>
    ensures { IfOk result (λ found. found ≡ unbuilt_word command.now) }
{
    match command {
        Command::Boundary { faces } => word_if(alloc, has_open_face(faces), "boundary"),
        Command::Processors { .. } => word_if(alloc, true, "processors"),
        Command::WriteRestart { .. } => word_if(alloc, true, "write_restart"),
        Command::ReadRestart { .. } => word_if(alloc, true, "read_restart"),
        Command::Sector { .. } => word_if(alloc, true, "sector"),
        Command::Sweep {
            style: Sweep::Color,
        } => word_if(alloc, true, "color"),
        Command::Seed { .. }
        | Command::App { .. }
        | Command::Dimension { .. }
        | Command::Lattice { .. }
        | Command::Region { .. }
        | Command::CreateBox { .. }
        | Command::CreateSites
        | Command::Set { .. }
        | Command::ReadSites { .. }
        | Command::Temperature { .. }
        | Command::Solve { .. }
        | Command::Sweep { .. }
        | Command::Stats { .. }
        | Command::DiagEnergy
        | Command::Dump { .. }
        | Command::Undump { .. }
        | Command::Run { .. }
        | Command::Print { .. }
        | Command::SetEcho { .. } => Ok(None),
    }
}
