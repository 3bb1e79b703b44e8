//! `print`: a line for the screen and the log.

ghost use Rattle.std.specs.Prelude.{◌≡◌, ◌++◌, ◌∷◌, [], IfErr, IfOk};
ghost use Rattle.spk_world.specs.Effects.{Wrote};
ghost use Rattle.spk_run.specs.Faults.{fault_stop, NoRead, WritesAfterMemory};
ghost use Rattle.spk_report.specs.Output.{prints};

use crate::fault::Fault;
use crate::output::Output;
use crate::state::SessionState;
use spk_num::text::Text;
use spk_world::World;
use std::alloc::{AllocError, Global};

/// A text with a line feed after it.
fn with_line_feed(alloc: Global, text: &[u8]) -> Result<Vec<u8>, AllocError>
    ensures { IfOk result (λ line. line.items ≡ text.now ++ 10 ∷ []) }
{
    let mut line = Vec::with_capacity(alloc, text.len().saturating_add(1))?;
    line.extend_from_slice(text)?;
    line.push(b'\n')?;
    Ok(line)
}

impl SessionState {
    pub fn print<W: World>(&self, alloc: Global, text: &Text, world: &mut W) -> Result<(), Fault>
        ensures wrote { Wrote fault_stop (W.state world.old) (W.state world.new) (prints self.now.log (text.now ++ 10 ∷ [])) result }
        ensures memory { WritesAfterMemory (W.state world.old).told (W.state world.new).told result }
        ensures read { IfErr result NoRead }
    {
        let line = with_line_feed(alloc, text.as_bytes())?;
        let mut output = Output::new(alloc, &self.log)?;
        output.print(world, &line)?;
        Ok(())
    }
}
