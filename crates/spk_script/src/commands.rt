//! The commands that the machine obeys itself, and what they ask of their words.

ghost use Rattle.std.specs.Prelude.{◌≡◌};
ghost use Rattle.spk_num.specs.Results.{IsPlainOrMemory};
ghost use Rattle.spk_script.specs.Faults.{is_memory};
ghost use Rattle.spk_script.specs.Commands.CheckedWords.{checked_name, nothing_after};

pub mod jump;
pub mod label;
pub mod next;
pub mod variable;

use crate::fault::LineFault;
use spk_num::name::is_name;
use spk_num::text::Text;
use std::alloc::Global;

/// Refuses a word that is no name.
#[tactic(auto, using(crate::proofs::FaultLaws::plain_or_memory))]
pub fn judge_name(alloc: Global, word: &Text) -> Result<(), LineFault>
    ensures { IsPlainOrMemory is_memory (checked_name word.now) result }
{
    if is_name(word.as_bytes()) {
        return Ok(());
    }
    Err(LineFault::BadName(Text::copy(alloc, word.as_str())?))
}

/// Refuses words after the one that a style takes.
#[tactic(auto, using(crate::proofs::FaultLaws::plain_or_memory))]
pub fn judge_rest(rest: &[Text]) -> Result<(), LineFault>
    ensures { IsPlainOrMemory is_memory (nothing_after rest.now) result }
{
    if rest.is_empty() {
        Ok(())
    } else {
        Err(LineFault::WrongWords)
    }
}
