//! `dimension`: how many dimensions the lattice is to use.

ghost use Rattle.std.specs.Prelude.{◌≡◌, IfSome};
ghost use Rattle.spk_run.specs.Causes.{IsOfState};
ghost use Rattle.spk_run.specs.Commands.Dimension.{disagrees, dimension_cause};

use crate::cause::Cause;
use crate::state::SessionState;
use spk_lattice::dimensions;
use spk_num::style::Style;

/// Whether a style uses another number of dimensions than this one.
pub fn disagrees(wanted: u32, style: Style) -> bool
    ensures { result ≡ disagrees wanted style }
{
    wanted != dimensions(style)
}

impl SessionState {
    pub fn dimension_cause(&self, wanted: u32) -> Option<Cause>
        ensures cause { result ≡ dimension_cause self.now wanted }
        ensures of_state { IfSome result IsOfState }
    {
        match &self.lattice {
            Some(lattice) if disagrees(wanted, lattice.style) => Some(Cause::WrongDimension),
            _ => None,
        }
    }
}
