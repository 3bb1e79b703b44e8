//! `seed`: the streams of a box start anew, and no `set` is counted.

ghost use Rattle.std.specs.Prelude.{◌≡◌, IfOk};
ghost use Rattle.spk_run.specs.Commands.Seed.{with_streams, with_seed};

use crate::domain::Domain;
use crate::seed::Seed;
use crate::state::SessionState;
use crate::streams::Streams;
use std::alloc::{AllocError, Global};

impl Domain {
    /// Starts the streams of a seed.
    fn start_streams(&mut self, alloc: Global, seed: Seed) -> Result<(), AllocError>
        ensures { IfOk result (λ _. self.new ≡ with_streams seed self.old) }
    {
        let count = self.streams.len();
        self.streams = Streams::new(alloc, seed, self.sectors(), count)?;
        Ok(())
    }
}

impl SessionState {
    pub fn set_seed(&mut self, alloc: Global, seed: Seed) -> Result<(), AllocError>
        ensures { IfOk result (λ _. self.new ≡ with_seed self.old seed) }
    {
        if let Some(domain) = &mut self.domain {
            domain.start_streams(alloc, seed)?;
        }
        self.seed = Some(seed);
        self.sets = 0;
        Ok(())
    }
}
