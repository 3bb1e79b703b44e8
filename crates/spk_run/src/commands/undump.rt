//! `undump`: a dump writes no more.

ghost use Rattle.std.specs.Prelude.{◌≡◌, IfOk, IfSome};
ghost use Rattle.spk_run.specs.Causes.{IsOfState};
ghost use Rattle.spk_run.specs.Commands.Dump.{undump_cause, without_dump};

use crate::cause::Cause;
use crate::state::SessionState;
use spk_num::text::Text;
use std::alloc::{AllocError, Global};

impl SessionState {
    pub fn undump_cause(&self, alloc: Global, name: &Text) -> Result<Option<Cause>, AllocError>
        ensures cause { IfOk result (λ found. found ≡ undump_cause self.now name.now) }
        ensures of_state { IfOk result (λ found. IfSome found IsOfState) }
    {
        if self.dumps.find(name).is_some() {
            return Ok(None);
        }
        Ok(Some(Cause::NoSuchDump(Text::copy(alloc, name.as_str())?)))
    }

    /// Takes the dump with this name away, where there is one.
    pub fn remove_dump(&mut self, name: &Text)
        ensures { self.new ≡ without_dump self.old name.now }
    {
        if let Some(place) = self.dumps.find(name) {
            self.dumps.remove(place);
        }
    }
}
