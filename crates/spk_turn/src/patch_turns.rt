//! Turns of a sector of a patch, which is a box of its own cells.

ghost use Rattle.std.specs.Prelude.{◌≡◌, ◌+◌, ◌*◌, ◌≤◌, All, IsTrue, unsigned_abs};
ghost use Rattle.spk_lattice.specs.Spread.{spread};
ghost use Rattle.spk_patch.specs.Patches.{sight_of};
ghost use Rattle.spk_sched.specs.Turns.{no_counts, sweeps_of, turn_of};
ghost use Rattle.spk_solve.specs.Choice.{Rule};
ghost use Rattle.spk_turn.specs.Ready.{propensities_in, sector_on};
ghost use Rattle.spk_turn.specs.Sectors.{IsOwn, places_in, slots_on};
ghost use Rattle.spk_turn.specs.Slots.{slot_count};

use crate::refresh::fill;
use crate::slots::{Along, Slots};
use crate::sweep::sweeps;
use crate::turn::turn;
use spk_app::{App, Steps};
use spk_lattice::Cells;
use spk_num::stream::Stream;
use spk_num::sweep::Sweep;
use spk_patch::Patch;
use spk_sched::Counts;
use spk_solve::Solver;
use std::sync::ledger::Ledger;

/// So many cells along a dimension, and those of a box.
fn along(cells: u32, lo: i64, hi: i64) -> Along
    requires lo { unsigned_abs lo ≤ 4194304 }
    requires hi { unsigned_abs hi ≤ 4194304 }
    ensures { result ≡ record { cells = cells; from = unsigned_abs lo; to = unsigned_abs hi } }
{
    Along {
        cells,
        from: lo.unsigned_abs() as u32,
        to: hi.unsigned_abs() as u32,
    }
}

/// The sites of a sector of a patch.
fn slots_of(patch: &Patch, cells: &Cells) -> Slots
    requires { IsOwn patch.now cells.now }
    ensures { result ≡ slots_on patch.now cells.now }
{
    patch.known();
    let lattice = patch.lattice();
    let [x, y, z] = lattice.extents();
    Slots::new(
        lattice.style(),
        along(x, cells.lo[0], cells.hi[0]),
        along(y, cells.lo[1], cells.hi[1]),
        along(z, cells.lo[2], cells.hi[2]),
    )
}

/// A turn of a sector by the kinetic Monte Carlo rule, with a window of so many ticks. It fills the solver's list first.
pub fn turn_kmc<A: App, S: Solver, L: Ledger>(
    patch: &mut Patch,
    cells: &Cells,
    app: &A,
    solver: &mut S,
    stream: &mut Stream,
    window: u64,
    steps: &mut Steps<L>,
) -> Counts
    requires cells { IsOwn patch.old cells.now }
    requires valid { All (λ v. IsTrue ((A.rules app.now).is_valid v)) patch.old.values }
    requires room { slot_count (slots_on patch.old cells.now) ≤ S.capacity solver.old }
    ensures turn { turn_of (sector_on (A.rules app.now) S.rule (sight_of patch.old) (places_in patch.old cells.now)) window
        (record { values = patch.old.values; stream = stream.old; counts = no_counts })
        ≡ record { values = patch.new.values; stream = stream.new; counts = result } }
    ensures patch { patch.new ≡ record patch.old { values = patch.new.values } }
    ensures valid { All (λ v. IsTrue ((A.rules app.now).is_valid v)) patch.new.values }
    ensures afresh { S.list solver.new ≡ propensities_in (A.rules app.now) (sight_of patch.new) (places_in patch.new cells.now) }
    ensures capacity { S.capacity solver.new ≡ S.capacity solver.old }
    ensures cost { steps.new ≤ steps.old + slot_count (slots_on patch.old cells.now)
        + result.accepted * (spread patch.old.lattice.style (A.PROP + A.STEP) + 1)
        + (result.accepted + 1) * S.reach (slot_count (slots_on patch.old cells.now)) }
{
    patch.known();
    let slots = slots_of(patch, cells);
    fill(patch, &slots, app, solver, steps);
    turn_kmc_again(patch, cells, app, solver, stream, window, steps)
}

/// A turn of the same sector with its next window: the solver's list is that of the propensities already.
pub fn turn_kmc_again<A: App, S: Solver, L: Ledger>(
    patch: &mut Patch,
    cells: &Cells,
    app: &A,
    solver: &mut S,
    stream: &mut Stream,
    window: u64,
    steps: &mut Steps<L>,
) -> Counts
    requires cells { IsOwn patch.old cells.now }
    requires valid { All (λ v. IsTrue ((A.rules app.now).is_valid v)) patch.old.values }
    requires room { slot_count (slots_on patch.old cells.now) ≤ S.capacity solver.old }
    requires afresh { S.list solver.old ≡ propensities_in (A.rules app.now) (sight_of patch.old) (places_in patch.old cells.now) }
    ensures turn { turn_of (sector_on (A.rules app.now) S.rule (sight_of patch.old) (places_in patch.old cells.now)) window
        (record { values = patch.old.values; stream = stream.old; counts = no_counts })
        ≡ record { values = patch.new.values; stream = stream.new; counts = result } }
    ensures patch { patch.new ≡ record patch.old { values = patch.new.values } }
    ensures valid { All (λ v. IsTrue ((A.rules app.now).is_valid v)) patch.new.values }
    ensures afresh { S.list solver.new ≡ propensities_in (A.rules app.now) (sight_of patch.new) (places_in patch.new cells.now) }
    ensures capacity { S.capacity solver.new ≡ S.capacity solver.old }
    ensures cost { steps.new ≤ steps.old
        + result.accepted * (spread patch.old.lattice.style (A.PROP + A.STEP) + 1)
        + (result.accepted + 1) * S.reach (slot_count (slots_on patch.old cells.now)) }
{
    patch.known();
    let slots = slots_of(patch, cells);
    let counts = turn(patch, &slots, app, solver, stream, window, steps);
    patch.known();
    counts
}

/// So many sweeps of a sector.
pub fn turn_sweep<A: App>(
    patch: &mut Patch,
    cells: &Cells,
    app: &A,
    style: Sweep,
    stream: &mut Stream,
    count: u64,
) -> Counts
    requires sweeps { IsTrue A.SWEEPS }
    requires cells { IsOwn patch.old cells.now }
    requires valid { All (λ v. IsTrue ((A.rules app.now).is_valid v)) patch.old.values }
    ensures turn { (rule : Rule) → sweeps_of style (sector_on (A.rules app.now) rule (sight_of patch.old) (places_in patch.old cells.now)) count
        (record { values = patch.old.values; stream = stream.old; counts = no_counts })
        ≡ record { values = patch.new.values; stream = stream.new; counts = result } }
    ensures patch { patch.new ≡ record patch.old { values = patch.new.values } }
    ensures valid { All (λ v. IsTrue ((A.rules app.now).is_valid v)) patch.new.values }
{
    patch.known();
    let slots = slots_of(patch, cells);
    let counts = sweeps(patch, &slots, app, style, stream, count);
    patch.known();
    counts
}

#[cfg(test)]
mod tests;
