//! Turns by the kinetic Monte Carlo rule.

ghost use Rattle.std.specs.Prelude.{◌≡◌, ℕ, suc, ◌+◌, ◌*◌, ◌<◌, ◌≤◌, length, IfSome, IfNone};
ghost use Rattle.spk_app.specs.Applications.{propensity};
ghost use Rattle.spk_solve.specs.Choice.{Chooses};
ghost use Rattle.spk_sched.specs.declared.counts.Counts.{Counts as EventCounts};
ghost use Rattle.spk_sched.specs.Turns.{event_by, after_event_of, with_accepted, no_counts, turn_from, turn_of};
ghost use Rattle.spk_turn.specs.Ready.{IsReady, sector_on, propensities_in};
ghost use Rattle.spk_turn.specs.Slots.{place_of, places, slot_count};
ghost use Rattle.spk_lattice.specs.Hops.{ReachesAtMost};
ghost use Rattle.spk_lattice.specs.Layout.{sites_of};

use crate::changes::Changes;
use crate::mark::mark_of;
use crate::refresh::refresh;
use crate::slots::Slots;
use spk_app::{App, Steps, View};
use spk_num::logarithm::wait;
use spk_num::stream::Stream;
use spk_sched::Counts;
use spk_solve::{Chosen, Solver};
use std::sync::ledger::Ledger;

/// Does the event that a place and a rest name, and takes the propensities afresh that it may have changed.
fn act<V: View, A: App, S: Solver, L: Ledger>(
    view: &mut V,
    slots: &Slots,
    app: &A,
    solver: &mut S,
    chosen: Chosen,
    changes: &mut Changes,
    steps: &mut Steps<L>,
)
    requires ready { IsReady (A.rules app.now) (V.whole view.old) (A.PROP + A.STEP) (V.sight view.old) }
    requires view { sites_of slots.now.view ≡ length (V.sight view.old).values }
    requires afresh { S.list solver.old ≡ propensities_in (A.rules app.now) (V.sight view.old) (places slots.now) }
    requires room { slot_count slots.now ≤ S.capacity solver.old }
    requires place { chosen.place < slot_count slots.now }
    requires rest { chosen.rest < propensity ((A.rules app.now).events (V.sight view.old) (place_of slots.now chosen.place)) }
    ensures values { (stream after : ℕ) → Chooses S.rule (S.list solver.old) stream chosen after →
        (V.sight view.new).values ≡ after_event_of (sector_on (A.rules app.now) S.rule (V.sight view.old) (places slots.now)) (V.sight view.old).values
        (event_by S.rule (sector_on (A.rules app.now) S.rule (V.sight view.old) (places slots.now)) (V.sight view.old).values stream) }
    ensures near { (V.sight view.new).near ≡ (V.sight view.old).near }
    ensures all { length (V.sight view.new).values ≡ length (V.sight view.old).values }
    ensures frame { V.frame view.new ≡ V.frame view.old }
    ensures ready { IsReady (A.rules app.now) (V.whole view.new) (A.PROP + A.STEP) (V.sight view.new) }
    ensures afresh { S.list solver.new ≡ propensities_in (A.rules app.now) (V.sight view.new) (places slots.now) }
    ensures capacity { S.capacity solver.new ≡ S.capacity solver.old }
    ensures cost { (most : ℕ) →
        ((place : ℕ) → place < length (V.sight view.old).values → ReachesAtMost (V.sight view.old).near (A.PROP + A.STEP) place most) →
        steps.new ≤ steps.old + (most + 1) }
{
    slots.known();
    let place = slots.place(chosen.place);
    let events = app.events(view, place, steps);
    let mark = mark_of(&events, chosen.rest);
    changes.note(view, place, A::STEP);
    app.apply(view, place, mark);
    changes.find(view);
    refresh(view, slots, app, solver, &mut changes.changed, steps);
}

/// Does the next event, if it comes before so many ticks have passed, and gives the time that it took.
fn event<V: View, A: App, S: Solver, L: Ledger>(
    view: &mut V,
    slots: &Slots,
    app: &A,
    solver: &mut S,
    stream: &mut Stream,
    rest: u64,
    changes: &mut Changes,
    steps: &mut Steps<L>,
) -> Option<u64>
    requires ready { IsReady (A.rules app.now) (V.whole view.old) (A.PROP + A.STEP) (V.sight view.old) }
    requires view { sites_of slots.now.view ≡ length (V.sight view.old).values }
    requires afresh { S.list solver.old ≡ propensities_in (A.rules app.now) (V.sight view.old) (places slots.now) }
    requires room { slot_count slots.now ≤ S.capacity solver.old }
    ensures ends { IfNone result ((more local : ℕ) (counts : EventCounts) →
        turn_from (sector_on (A.rules app.now) S.rule (V.sight view.old) (places slots.now)) (suc more) (local + rest) local
        (record { values = (V.sight view.old).values; stream = stream.old; counts = counts })
        ≡ record { values = (V.sight view.new).values; stream = stream.new; counts = counts }) }
    ensures goes { IfSome result (λ ticks. (more local : ℕ) (counts : EventCounts) →
        turn_from (sector_on (A.rules app.now) S.rule (V.sight view.old) (places slots.now)) (suc more) (local + rest) local
        (record { values = (V.sight view.old).values; stream = stream.old; counts = counts })
        ≡ turn_from (sector_on (A.rules app.now) S.rule (V.sight view.old) (places slots.now)) more (local + rest) (local + ticks)
        (record { values = (V.sight view.new).values; stream = stream.new; counts = with_accepted counts })) }
    ensures within { IfSome result (λ ticks. ticks < rest) }
    ensures near { (V.sight view.new).near ≡ (V.sight view.old).near }
    ensures all { length (V.sight view.new).values ≡ length (V.sight view.old).values }
    ensures frame { V.frame view.new ≡ V.frame view.old }
    ensures ready { IsReady (A.rules app.now) (V.whole view.new) (A.PROP + A.STEP) (V.sight view.new) }
    ensures afresh { S.list solver.new ≡ propensities_in (A.rules app.now) (V.sight view.new) (places slots.now) }
    ensures capacity { S.capacity solver.new ≡ S.capacity solver.old }
    ensures idle { IfNone result (steps.new ≤ steps.old + S.reach (slot_count slots.now)) }
    ensures cost { IfSome result (λ _. (most : ℕ) →
        ((place : ℕ) → place < length (V.sight view.old).values → ReachesAtMost (V.sight view.old).near (A.PROP + A.STEP) place most) →
        steps.new ≤ steps.old + S.reach (slot_count slots.now) + (most + 1)) }
{
    let total = solver.total();
    let Some(chosen) = solver.choose(stream, steps) else {
        return None;
    };
    let ticks = wait(total, stream.next());
    if ticks >= rest {
        return None;
    }
    act(view, slots, app, solver, chosen, changes, steps);
    Some(ticks)
}

/// A turn with a window of so many ticks: events, one after another, until the next would reach its end.
pub(crate) fn turn<V: View, A: App, S: Solver, L: Ledger>(
    view: &mut V,
    slots: &Slots,
    app: &A,
    solver: &mut S,
    stream: &mut Stream,
    window: u64,
    steps: &mut Steps<L>,
) -> Counts
    requires ready { IsReady (A.rules app.now) (V.whole view.old) (A.PROP + A.STEP) (V.sight view.old) }
    requires view { sites_of slots.now.view ≡ length (V.sight view.old).values }
    requires afresh { S.list solver.old ≡ propensities_in (A.rules app.now) (V.sight view.old) (places slots.now) }
    requires room { slot_count slots.now ≤ S.capacity solver.old }
    ensures turn { turn_of (sector_on (A.rules app.now) S.rule (V.sight view.old) (places slots.now)) window
        (record { values = (V.sight view.old).values; stream = stream.old; counts = no_counts })
        ≡ record { values = (V.sight view.new).values; stream = stream.new; counts = result } }
    ensures near { (V.sight view.new).near ≡ (V.sight view.old).near }
    ensures all { length (V.sight view.new).values ≡ length (V.sight view.old).values }
    ensures frame { V.frame view.new ≡ V.frame view.old }
    ensures ready { IsReady (A.rules app.now) (V.whole view.new) (A.PROP + A.STEP) (V.sight view.new) }
    ensures afresh { S.list solver.new ≡ propensities_in (A.rules app.now) (V.sight view.new) (places slots.now) }
    ensures capacity { S.capacity solver.new ≡ S.capacity solver.old }
    ensures cost { (most : ℕ) →
        ((place : ℕ) → place < length (V.sight view.old).values → ReachesAtMost (V.sight view.old).near (A.PROP + A.STEP) place most) →
        steps.new ≤ steps.old + result.accepted * (most + 1) + (result.accepted + 1) * S.reach (slot_count slots.now) }
{
    let mut counts = Counts::none();
    let mut changes = Changes::none();
    let mut local = 0;
    'events: for _ in 0..window {
        match event(
            view,
            slots,
            app,
            solver,
            stream,
            window - local,
            &mut changes,
            steps,
        ) {
            Some(ticks) => {
                local += ticks;
                counts.accept();
            }
            None => return counts,
        }
    }
    counts
}
