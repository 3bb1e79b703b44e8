//! `lattice`: how the sites of a box lie.

ghost use Rattle.std.specs.Prelude.{◌≡◌, IfSome};
ghost use Rattle.spk_run.specs.Causes.{IsOfState};
ghost use Rattle.spk_run.specs.Commands.Lattice.{style_cause};

use crate::cause::Cause;
use crate::commands::dimension::disagrees;
use crate::state::SessionState;
use spk_num::style::Style;

impl SessionState {
    pub fn style_cause(&self, style: Style) -> Option<Cause>
        ensures cause { result ≡ style_cause self.now style }
        ensures of_state { IfSome result IsOfState }
    {
        if self.lattice.is_some() {
            return Some(Cause::AlreadyMade);
        }
        match self.dimension {
            Some(wanted) if disagrees(wanted, style) => Some(Cause::WrongDimension),
            _ => None,
        }
    }
}
