//! Propensities in a solver's list that are taken afresh.

ghost use Rattle.std.specs.Prelude.{◌≡◌, ◌≢◌, ℕ, ◌+◌, ◌<◌, ◌≤◌, ◌∷◌, All, AllPairs, List, length, slice_index};
ghost use Rattle.spk_lattice.specs.Layout.{sites_of};
ghost use Rattle.spk_app.specs.Applications.{propensity};
ghost use Rattle.spk_turn.specs.Reached.{IsNear, ReachAtMost};
ghost use Rattle.spk_turn.specs.Ready.{IsReady, IsRightBut, propensities_in};
ghost use Rattle.spk_turn.specs.Slots.{place_of, places, slot_count};

use crate::gather::gather;
use crate::gathered::Gathered;
use crate::slots::Slots;
use spk_app::{App, Steps, View};
use spk_solve::Solver;
use std::sync::ledger::Ledger;

/// Takes the propensity of the site at a place afresh, where the solver keeps it.
fn refresh_one<V: View, A: App, S: Solver, L: Ledger>(
    view: &V,
    slots: &Slots,
    app: &A,
    solver: &mut S,
    place: usize,
    steps: &mut Steps<L>,
)
    requires ready { IsReady (A.rules app.now) (V.whole view.now) (A.PROP + A.STEP) (V.sight view.now) }
    requires view { sites_of slots.now.view ≡ length (V.sight view.now).values }
    requires place { place < length (V.sight view.now).values }
    requires all { length (S.list solver.old) ≡ length (places slots.now) }
    ensures right { (todo : List ℕ) → IsRightBut (A.rules app.now) (V.sight view.now) (places slots.now) (S.list solver.old) (place ∷ todo) →
        IsRightBut (A.rules app.now) (V.sight view.now) (places slots.now) (S.list solver.new) todo }
    ensures all { length (S.list solver.new) ≡ length (S.list solver.old) }
    ensures capacity { S.capacity solver.new ≡ S.capacity solver.old }
    ensures cost { steps.new ≤ steps.old + 1 }
{
    slots.known();
    let Some(slot) = slots.slot(place) else {
        return;
    };
    let weight = app.propensity(view, place, steps);
    solver.set(slot, weight);
}

/// Fills a solver's list with the propensities of all sites of a sector.
pub(crate) fn fill<V: View, A: App, S: Solver, L: Ledger>(
    view: &V,
    slots: &Slots,
    app: &A,
    solver: &mut S,
    steps: &mut Steps<L>,
)
    requires ready { IsReady (A.rules app.now) (V.whole view.now) (A.PROP + A.STEP) (V.sight view.now) }
    requires view { sites_of slots.now.view ≡ length (V.sight view.now).values }
    requires room { slot_count slots.now ≤ S.capacity solver.old }
    ensures afresh { S.list solver.new ≡ propensities_in (A.rules app.now) (V.sight view.now) (places slots.now) }
    ensures capacity { S.capacity solver.new ≡ S.capacity solver.old }
    ensures cost { steps.new ≡ steps.old + slot_count slots.now }
{
    let count = slots.count();
    solver.reset(count);
    'slots: for slot in 0..count {
        let weight = app.propensity(view, slots.place(slot), steps);
        solver.set(slot, weight);
    }
}

/// Takes the propensities afresh that an event may have changed, which gave other values to the places that are gathered.
pub fn refresh<V: View, A: App, S: Solver, L: Ledger>(
    view: &V,
    slots: &Slots,
    app: &A,
    solver: &mut S,
    gathered: &mut Gathered,
    steps: &mut Steps<L>,
)
    requires ready { IsReady (A.rules app.now) (V.whole view.now) (A.PROP + A.STEP) (V.sight view.now) }
    requires view { sites_of slots.now.view ≡ length (V.sight view.now).values }
    requires inside { All (λ j. j < length (V.sight view.now).values) gathered.old }
    requires once { AllPairs (λ a b. a ≢ b) gathered.old }
    requires room { ReachAtMost (V.sight view.now).near A.PROP gathered.old 729 }
    requires all { length (S.list solver.old) ≡ length (places slots.now) }
    requires right { (slot : ℕ) → slot < length (places slots.now) →
        (IsNear (V.sight view.now).near A.PROP gathered.old (slice_index (places slots.now) slot) → ⊥) →
        slice_index (S.list solver.old) slot ≡ propensity ((A.rules app.now).events (V.sight view.now) (slice_index (places slots.now) slot)) }
    ensures afresh { S.list solver.new ≡ propensities_in (A.rules app.now) (V.sight view.now) (places slots.now) }
    ensures capacity { S.capacity solver.new ≡ S.capacity solver.old }
    ensures cost { (most : ℕ) → ReachAtMost (V.sight view.now).near A.PROP gathered.old most → steps.new ≤ steps.old + most }
{
    gather(view, A::PROP, gathered);
    for other in gathered.as_slice() {
        refresh_one(view, slots, app, solver, *other, steps);
    }
}
