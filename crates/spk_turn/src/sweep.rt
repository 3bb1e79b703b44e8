//! Sweeps: a trial at each site of a sector, in the order of the sites, or at as many sites that are drawn.

ghost use Rattle.std.specs.Prelude.{◌≡◌, ℕ, ◌+◌, ◌<◌, IsTrue, List, length};
ghost use Rattle.spk_lattice.specs.Layout.{sites_of};
ghost use Rattle.spk_sched.specs.Turns.{after_pick, no_counts, pick_by, sweep_of, sweeps_of};
ghost use Rattle.spk_solve.specs.Choice.{Rule};
ghost use Rattle.spk_turn.specs.Ready.{IsReady, sector_on};
ghost use Rattle.spk_turn.specs.Slots.{places, slot_count};

use crate::slots::Slots;
use spk_app::{App, View};
use spk_num::stream::Stream;
use spk_num::sweep::Sweep;
use spk_sched::Counts;

/// The place of the k-th pick of a sweep.
fn pick(slots: &Slots, style: Sweep, k: usize, stream: &mut Stream) -> usize
    requires { k < slot_count slots.now }
    ensures place { result ≡ (pick_by style (places slots.now) k stream.old).place }
    ensures stream { stream.new ≡ (pick_by style (places slots.now) k stream.old).stream }
    ensures inside { result < sites_of slots.now.view }
{
    slots.known();
    match style {
        Sweep::Random => slots.place(stream.below(slots.count() as u64) as usize),
        _ => slots.place(k),
    }
}

/// A trial at a place, which is counted.
fn try_at<V: View, A: App>(
    view: &mut V,
    app: &A,
    place: usize,
    stream: &mut Stream,
    counts: &mut Counts,
)
    requires sweeps { IsTrue A.SWEEPS }
    requires ready { IsReady (A.rules app.now) (V.whole view.old) (A.PROP + A.STEP) (V.sight view.old) }
    requires place { place < length (V.sight view.old).values }
    ensures state { (rule : Rule) (sites : List ℕ) → after_pick (sector_on (A.rules app.now) rule (V.sight view.old) sites)
        (record { values = (V.sight view.old).values; stream = stream.old; counts = counts.old }) (record { place = place; stream = stream.old })
        ≡ record { values = (V.sight view.new).values; stream = stream.new; counts = counts.new } }
    ensures near { (V.sight view.new).near ≡ (V.sight view.old).near }
    ensures all { length (V.sight view.new).values ≡ length (V.sight view.old).values }
    ensures frame { V.frame view.new ≡ V.frame view.old }
    ensures ready { IsReady (A.rules app.now) (V.whole view.new) (A.PROP + A.STEP) (V.sight view.new) }
{
    if app.trial(view, place, stream) {
        counts.accept();
    } else {
        counts.reject();
    }
}

/// One sweep: as many trials as the box has sites.
fn sweep<V: View, A: App>(
    view: &mut V,
    slots: &Slots,
    app: &A,
    style: Sweep,
    stream: &mut Stream,
    counts: &mut Counts,
)
    requires sweeps { IsTrue A.SWEEPS }
    requires ready { IsReady (A.rules app.now) (V.whole view.old) (A.PROP + A.STEP) (V.sight view.old) }
    requires view { sites_of slots.now.view ≡ length (V.sight view.old).values }
    ensures sweep { (rule : Rule) → sweep_of style (sector_on (A.rules app.now) rule (V.sight view.old) (places slots.now))
        (record { values = (V.sight view.old).values; stream = stream.old; counts = counts.old })
        ≡ record { values = (V.sight view.new).values; stream = stream.new; counts = counts.new } }
    ensures near { (V.sight view.new).near ≡ (V.sight view.old).near }
    ensures all { length (V.sight view.new).values ≡ length (V.sight view.old).values }
    ensures frame { V.frame view.new ≡ V.frame view.old }
    ensures ready { IsReady (A.rules app.now) (V.whole view.new) (A.PROP + A.STEP) (V.sight view.new) }
{
    'picks: for k in 0..slots.count() {
        let place = pick(slots, style, k, stream);
        try_at(view, app, place, stream, counts);
    }
}

/// So many sweeps: in each as many trials as the box has sites.
pub(crate) fn sweeps<V: View, A: App>(
    view: &mut V,
    slots: &Slots,
    app: &A,
    style: Sweep,
    stream: &mut Stream,
    count: u64,
) -> Counts
    requires sweeps { IsTrue A.SWEEPS }
    requires ready { IsReady (A.rules app.now) (V.whole view.old) (A.PROP + A.STEP) (V.sight view.old) }
    requires view { sites_of slots.now.view ≡ length (V.sight view.old).values }
    ensures turn { (rule : Rule) → sweeps_of style (sector_on (A.rules app.now) rule (V.sight view.old) (places slots.now)) count
        (record { values = (V.sight view.old).values; stream = stream.old; counts = no_counts })
        ≡ record { values = (V.sight view.new).values; stream = stream.new; counts = result } }
    ensures near { (V.sight view.new).near ≡ (V.sight view.old).near }
    ensures all { length (V.sight view.new).values ≡ length (V.sight view.old).values }
    ensures frame { V.frame view.new ≡ V.frame view.old }
    ensures ready { IsReady (A.rules app.now) (V.whole view.new) (A.PROP + A.STEP) (V.sight view.new) }
{
    let mut counts = Counts::none();
    'sweeps: for _ in 0..count {
        sweep(view, slots, app, style, stream, &mut counts);
    }
    counts
}
