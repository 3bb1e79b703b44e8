//! `create_sites`: new sites have the value 1.

ghost use Rattle.std.specs.Prelude.{◌≡◌, IfOk, IfSome};
ghost use Rattle.spk_run.specs.Causes.{IsOfState};
ghost use Rattle.spk_run.specs.Commands.CreateSites.{sites_cause, domain_with_sites, with_sites};

use crate::cause::Cause;
use crate::domain::Domain;
use crate::state::SessionState;
use crate::values::Values;
use std::alloc::{AllocError, Global};

impl Domain {
    fn make_sites(&mut self, alloc: Global) -> Result<(), AllocError>
        ensures { IfOk result (λ _. self.new ≡ domain_with_sites self.old) }
    {
        self.values = Values::filled(alloc, self.lattice.sites(), 1)?;
        Ok(())
    }
}

impl SessionState {
    pub fn sites_cause(&self) -> Option<Cause>
        ensures cause { result ≡ sites_cause self.now }
        ensures of_state { IfSome result IsOfState }
    {
        if self.domain.is_none() {
            return Some(Cause::NoBox);
        }
        if self.are_made() {
            return Some(Cause::AlreadyMade);
        }
        None
    }

    pub fn make_sites(&mut self, alloc: Global) -> Result<(), AllocError>
        ensures { IfOk result (λ _. self.new ≡ with_sites self.old) }
    {
        if let Some(domain) = &mut self.domain {
            domain.make_sites(alloc)?;
        }
        Ok(())
    }
}
