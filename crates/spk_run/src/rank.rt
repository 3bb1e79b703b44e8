//! A rank, between its turns.

ghost use Rattle.std.specs.Prelude.{◌≡◌, All, IfSome, IsTrue, Some, None};
ghost use Rattle.spk_lattice.specs.Boxes.{cells_of, whole_box};
ghost use Rattle.spk_solve.specs.Choice.{Rule};
ghost use Rattle.spk_sched.specs.Turns.{no_counts, sweeps_of, turn_by, turn_of};
ghost use Rattle.spk_patch.specs.Patches.{sight_of};
ghost use Rattle.spk_turn.specs.Ready.{propensities_in};
ghost use Rattle.spk_turn.specs.Sectors.{places_in};
ghost use Rattle.spk_run.specs.Ranks.{IsKept, sector_at_rank, state_of};
ghost use Rattle.spk_run.specs.Solvers.{list_of, room_of, rule_of, style_of};

use crate::solver::AnySolver;
use spk_app::{App, Steps};
use spk_lattice::{Cells, Lattice};
use spk_num::stream::Stream;
use spk_num::sweep::Sweep;
use spk_patch::Patch;
use spk_sched::Counts;
use spk_turn::turn_sweep;
use std::sync::ledger::Ledger;

/// Ticks of a sweep.
pub const SWEEP: u64 = 1_000_000_000;

/// A patch, the cells whose sites change, the solver that keeps their propensities, the stream from which it draws, and its events since the run's start.
#[derive(Debug, Drop)]
pub struct Rank {
    pub patch: Patch,
    pub cells: Cells,
    pub solver: AnySolver,
    /// Whether the solver's list is that of the propensities.
    pub is_listed: bool,
    pub stream: Stream,
    pub counts: Counts,
}

/// All cells of a lattice.
pub fn all_cells(lattice: &Lattice) -> Cells
    ensures { result ≡ cells_of (whole_box lattice.now) }
{
    let [x, y, z] = lattice.extents();
    Cells {
        lo: [0; 3],
        hi: [i64::from(x), i64::from(y), i64::from(z)],
    }
}

impl Rank {
    /// A turn with a window of so many ticks: sweeps where there is a sweep, and events where there is none.
    pub fn turn<A: App, L: Ledger>(
        &mut self,
        app: &A,
        sweep: Option<Sweep>,
        window: u64,
        steps: &mut Steps<L>,
    )
        requires sweeps { IfSome sweep (λ _. IsTrue A.SWEEPS) }
        requires kept { IsKept (A.rules app.now) sweep self.old }
        ensures state { state_of self.new ≡ turn_by sweep (sector_at_rank (A.rules app.now) (rule_of (style_of self.old.solver)) self.old) window (state_of self.old) }
        ensures patch { self.new.patch ≡ record self.old.patch { values = self.new.patch.values } }
        ensures cells { self.new.cells ≡ self.old.cells }
        ensures solver { style_of self.new.solver ≡ style_of self.old.solver }
        ensures kept { IsKept (A.rules app.now) sweep self.new }
    {
        match sweep {
            Some(style) => self.sweep(app, style, window / SWEEP),
            None => self.events(app, window, steps),
        }
    }

    /// A turn of so many sweeps.
    fn sweep<A: App>(&mut self, app: &A, style: Sweep, count: u64)
        requires sweeps { IsTrue A.SWEEPS }
        requires kept { IsKept (A.rules app.now) (Some style) self.old }
        ensures state { (rule : Rule) → state_of self.new ≡ sweeps_of style (sector_at_rank (A.rules app.now) rule self.old) count (state_of self.old) }
        ensures patch { self.new.patch ≡ record self.old.patch { values = self.new.patch.values } }
        ensures cells { self.new.cells ≡ self.old.cells }
        ensures solver { style_of self.new.solver ≡ style_of self.old.solver }
        ensures kept { IsKept (A.rules app.now) (Some style) self.new }
    {
        let counts = turn_sweep(
            &mut self.patch,
            &self.cells,
            app,
            style,
            &mut self.stream,
            count,
        );
        self.counts = self.counts.plus(counts);
        self.is_listed = false;
    }

    /// A turn of events.
    fn events<A: App, L: Ledger>(&mut self, app: &A, window: u64, steps: &mut Steps<L>)
        requires { IsKept (A.rules app.now) None self.old }
        ensures state { state_of self.new ≡ turn_of (sector_at_rank (A.rules app.now) (rule_of (style_of self.old.solver)) self.old) window (state_of self.old) }
        ensures patch { self.new.patch ≡ record self.old.patch { values = self.new.patch.values } }
        ensures cells { self.new.cells ≡ self.old.cells }
        ensures solver { style_of self.new.solver ≡ style_of self.old.solver }
        ensures kept { IsKept (A.rules app.now) None self.new }
    {
        let counts = self.turned(app, window, steps);
        self.counts = self.counts.plus(counts);
        self.is_listed = true;
    }

    /// A turn of events, of which it gives the counts. The list is made first where it isn't that of the propensities.
    fn turned<A: App, L: Ledger>(&mut self, app: &A, window: u64, steps: &mut Steps<L>) -> Counts
        requires { IsKept (A.rules app.now) None self.old }
        ensures turn { turn_of (sector_at_rank (A.rules app.now) (rule_of (style_of self.old.solver)) self.old) window
            (record { values = self.old.patch.values; stream = self.old.stream; counts = no_counts })
            ≡ record { values = self.new.patch.values; stream = self.new.stream; counts = result } }
        ensures patch { self.new.patch ≡ record self.old.patch { values = self.new.patch.values } }
        ensures cells { self.new.cells ≡ self.old.cells }
        ensures counts { self.new.counts ≡ self.old.counts }
        ensures valid { All (λ v. IsTrue ((A.rules app.now).is_valid v)) self.new.patch.values }
        ensures afresh { list_of self.new.solver ≡ propensities_in (A.rules app.now) (sight_of self.new.patch) (places_in self.new.patch self.new.cells) }
        ensures style { style_of self.new.solver ≡ style_of self.old.solver }
        ensures room { room_of self.new.solver ≡ room_of self.old.solver }
    {
        if self.is_listed {
            self.solver.turn_again(
                &mut self.patch,
                &self.cells,
                app,
                &mut self.stream,
                window,
                steps,
            )
        } else {
            self.solver.turn(
                &mut self.patch,
                &self.cells,
                app,
                &mut self.stream,
                window,
                steps,
            )
        }
    }
}
