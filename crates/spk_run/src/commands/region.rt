//! `region`: a shape with a name.

ghost use Rattle.std.specs.Prelude.{◌≡◌, IfOk, IfSome};
ghost use Rattle.spk_cmds.specs.WellFormed.{IsShape};
ghost use Rattle.spk_run.specs.Causes.{IsOfState};
ghost use Rattle.spk_run.specs.Commands.Region.{IsNoMemory, region_cause, with_region};

use crate::cause::Cause;
use crate::state::SessionState;
use spk_lattice::RegionFault;
use spk_num::shape::Shape;
use spk_num::text::Text;
use std::alloc::{AllocError, Global};

/// Whether a region was not added since there was no memory left.
fn out_of_memory(added: &Result<(), RegionFault>) -> Result<(), AllocError>
    ensures { IfOk result (λ _. IsNoMemory added.now) }
{
    match added {
        Err(RegionFault::Memory) => Err(AllocError),
        _ => Ok(()),
    }
}

impl SessionState {
    pub fn region_cause(
        &self,
        alloc: Global,
        name: &Text,
        shape: &Shape,
    ) -> Result<Option<Cause>, AllocError>
        ensures cause { IfOk result (λ found. found ≡ region_cause self.now name.now shape.now) }
        ensures of_state { IfOk result (λ found. IfSome found IsOfState) }
    {
        match self.regions.judge(alloc, name, shape) {
            Ok(()) => Ok(None),
            Err(RegionFault::Memory) => Err(AllocError),
            Err(fault) => Cause::of_region(alloc, name, fault),
        }
    }

    pub fn add_region(
        &mut self,
        alloc: Global,
        name: &Text,
        shape: &Shape,
    ) -> Result<(), AllocError>
        requires { IsShape shape.now }
        ensures { IfOk result (λ _. self.new ≡ with_region self.old name.now shape.now) }
    {
        out_of_memory(&self.regions.add(alloc, name, shape))
    }
}
