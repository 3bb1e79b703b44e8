//! The solver of a run.

ghost use Rattle.std.specs.Prelude.{◌≡◌, ◌≤◌, All, IfOk, IsTrue};
ghost use Rattle.spk_patch.specs.Patches.{sight_of};
ghost use Rattle.spk_sched.specs.Turns.{no_counts, turn_of};
ghost use Rattle.spk_turn.specs.Ready.{propensities_in, sector_on};
ghost use Rattle.spk_turn.specs.Sectors.{IsOwn, places_in, slots_on};
ghost use Rattle.spk_turn.specs.Slots.{slot_count};
ghost use Rattle.spk_run.specs.Solvers.{rule_of, style_of, list_of, room_of};

use spk_app::{App, Steps};
use spk_cmds::SolveStyle;
use spk_lattice::Cells;
use spk_num::stream::Stream;
use spk_patch::Patch;
use spk_sched::Counts;
use spk_solve::{Group, Linear, Tree};
use spk_turn::{turn_kmc, turn_kmc_again};
use std::alloc::{AllocError, Global};
use std::sync::ledger::Ledger;

/// One of the solvers. A further one is a variant more, and an arm in each function here.
#[derive(Debug, Drop)]
pub enum AnySolver {
    Linear(Linear),
    Tree(Tree),
    Group(Group),
}

impl AnySolver {
    /// A solver of a style that keeps nothing yet, with room for so many propensities.
    pub fn new(alloc: Global, style: SolveStyle, room: usize) -> Result<AnySolver, AllocError>
        requires { room ≤ 4194304 }
        ensures style { IfOk result (λ solver. style_of solver ≡ style) }
        ensures room { IfOk result (λ solver. room_of solver ≡ room) }
    {
        Ok(match style {
            SolveStyle::Linear => AnySolver::Linear(Linear::new(alloc, room)?),
            SolveStyle::Tree => AnySolver::Tree(Tree::new(alloc, room)?),
            SolveStyle::Group => AnySolver::Group(Group::new(alloc, room)?),
        })
    }

    /// A turn of a sector, with a window of so many ticks.
    pub fn turn<A: App, L: Ledger>(
        &mut self,
        patch: &mut Patch,
        cells: &Cells,
        app: &A,
        stream: &mut Stream,
        window: u64,
        steps: &mut Steps<L>,
    ) -> Counts
        requires cells { IsOwn patch.old cells.now }
        requires valid { All (λ v. IsTrue ((A.rules app.now).is_valid v)) patch.old.values }
        requires room { slot_count (slots_on patch.old cells.now) ≤ room_of self.old }
        ensures turn { turn_of (sector_on (A.rules app.now) (rule_of (style_of self.old)) (sight_of patch.old) (places_in patch.old cells.now)) window
            (record { values = patch.old.values; stream = stream.old; counts = no_counts })
            ≡ record { values = patch.new.values; stream = stream.new; counts = result } }
        ensures patch { patch.new ≡ record patch.old { values = patch.new.values } }
        ensures valid { All (λ v. IsTrue ((A.rules app.now).is_valid v)) patch.new.values }
        ensures afresh { list_of self.new ≡ propensities_in (A.rules app.now) (sight_of patch.new) (places_in patch.new cells.now) }
        ensures style { style_of self.new ≡ style_of self.old }
        ensures room { room_of self.new ≡ room_of self.old }
    {
        match self {
            AnySolver::Linear(solver) => turn_kmc(patch, cells, app, solver, stream, window, steps),
            AnySolver::Tree(solver) => turn_kmc(patch, cells, app, solver, stream, window, steps),
            AnySolver::Group(solver) => turn_kmc(patch, cells, app, solver, stream, window, steps),
        }
    }

    /// The next window of the same sector.
    pub fn turn_again<A: App, L: Ledger>(
        &mut self,
        patch: &mut Patch,
        cells: &Cells,
        app: &A,
        stream: &mut Stream,
        window: u64,
        steps: &mut Steps<L>,
    ) -> Counts
        requires cells { IsOwn patch.old cells.now }
        requires valid { All (λ v. IsTrue ((A.rules app.now).is_valid v)) patch.old.values }
        requires room { slot_count (slots_on patch.old cells.now) ≤ room_of self.old }
        requires afresh { list_of self.old ≡ propensities_in (A.rules app.now) (sight_of patch.old) (places_in patch.old cells.now) }
        ensures turn { turn_of (sector_on (A.rules app.now) (rule_of (style_of self.old)) (sight_of patch.old) (places_in patch.old cells.now)) window
            (record { values = patch.old.values; stream = stream.old; counts = no_counts })
            ≡ record { values = patch.new.values; stream = stream.new; counts = result } }
        ensures patch { patch.new ≡ record patch.old { values = patch.new.values } }
        ensures valid { All (λ v. IsTrue ((A.rules app.now).is_valid v)) patch.new.values }
        ensures afresh { list_of self.new ≡ propensities_in (A.rules app.now) (sight_of patch.new) (places_in patch.new cells.now) }
        ensures style { style_of self.new ≡ style_of self.old }
        ensures room { room_of self.new ≡ room_of self.old }
    {
        match self {
            AnySolver::Linear(solver) => turn_kmc_again(
                patch, cells, app, solver, stream, window, steps,
            ),
            AnySolver::Tree(solver) => turn_kmc_again(
                patch, cells, app, solver, stream, window, steps,
            ),
            AnySolver::Group(solver) => turn_kmc_again(
                patch, cells, app, solver, stream, window, steps,
            ),
        }
    }
}
