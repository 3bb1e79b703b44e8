//! Diffusion: atoms that hop to vacant sites beside them.

ghost use Rattle.std.specs.Prelude.{◌≡◌, ◌^◌, ◌<◌, ◌≤◌, ◌==◌, All, IsTrue, count_by, false, filter, length, map, slice_index, sum_by};
ghost use Rattle.spk_lattice.specs.Neighbours.{ids_of};
ghost use Rattle.spk_app.specs.Applications.{listed};
ghost use Rattle.spk_app.specs.Sights.{with_written};
ghost use Rattle.spk_app.specs.Weights.{weight_between};
ghost use Rattle.spk_diffusion.specs.Diffusion.{crowd_but, diffusion, exchange, hops_to, is_vacant};
ghost use Rattle.spk_diffusion.specs.Laws.{diffusion_bounded, diffusion_narrow, diffusion_stays_valid};
ghost use Rattle.spk_diffusion.specs.Locality.{diffusion_local};

use spk_app::{App, Events, Neighbours, Steps, View, WeightTable};
use spk_lattice::{Lattice, Style};
use spk_num::Stream;
use std::marker::Model;
use std::sync::ledger::Ledger;

/// The value of a vacant site.
const VACANT: u32 = 1;

/// The value of a site that an atom occupies.
const OCCUPIED: u32 = 2;

/// The weight of a hop that doesn't raise the energy, in units of 2^-30.
const WHOLE_WEIGHT: u32 = 1 << 30;

/// Atoms that hop to vacant sites beside them, where energies are off or linear. They are modelled on SPPARKS's
/// `diffusion`. The order of the hops of a site is a rule of our own.
#[derive(Clone, Copy, Debug)]
pub struct Diffusion {
    linear: bool,
    style: Style,
    /// How many neighbours a site has.
    degree: u32,
    weights: WeightTable,
}

impl Model for Diffusion {
    ghost use Rattle.std.specs.Prelude.{◌≡◌};
    ghost use Rattle.spk_lattice.specs.Neighbours.{degree_of};
    ghost use Rattle.spk_diffusion.specs.Diffusion.{DiffusionSettings};

    ghost Value = { DiffusionSettings };

    ghost view = { λ d. record { linear = d.linear; style = d.style; temperature = d.weights } };

    ghost invariant = { λ d. degree_of d.style ≡ d.degree };

    ghost inverse = { λ d. record { linear = d.linear; style = d.style; degree = degree_of d.style; weights = d.temperature } };

    ghost inverse_ok = { λ d is i. record { linear = d.linear; style = d.style; degree = is i; weights = d.weights } };
}

impl Diffusion {
    /// Diffusion on a lattice at a temperature in millionths, where energies are linear or off.
    pub fn new(linear: bool, lattice: &Lattice, t: u64) -> Diffusion
        ensures { result ≡ record { linear = linear; style = lattice.now.style; temperature = t } }
    {
        Diffusion {
            linear,
            style: lattice.style(),
            degree: lattice.degree(),
            weights: WeightTable::new(t),
        }
    }
}

/// A list of no places, into which a view lists some.
fn no_neighbours() -> Neighbours {
    Neighbours {
        count: 0,
        ids: [0; 26],
    }
}

/// How many of some places have this value.
fn count_among<V: View>(view: &V, near: &Neighbours, value: u32) -> u32
    requires few { near.now.count ≤ 26 }
    requires inside { All (λ j. j < length (V.sight view.now).values) (ids_of near.now) }
    ensures count { result ≡ count_by (λ v. v == value) (map (slice_index (V.sight view.now).values) (ids_of near.now)) }
    ensures few { result ≤ 26 }
{
    let mut count = 0;
    for j in near.as_slice() {
        count += u32::from(view.value(*j as usize) == value);
    }
    count
}

/// How many neighbours of a new place are occupied, but for the old place.
fn crowd_but<V: View>(view: &V, old: usize, new: usize) -> u32
    requires place { new < length (V.sight view.now).values }
    requires whole { IsTrue (V.whole view.now new) }
    ensures count { result ≡ crowd_but (V.sight view.now) old new }
    ensures few { result ≤ 26 }
{
    view.count_near(new, OCCUPIED, old)
}

/// The hops to those of some places that are vacant, where energies are off.
fn free_hops<V: View>(view: &V, near: &Neighbours) -> Events
    requires few { near.now.count ≤ 26 }
    requires inside { All (λ j. j < length (V.sight view.now).values) (ids_of near.now) }
    ensures events { listed result ≡ hops_to (λ _. 2 ^ 30) (V.sight view.now) 0 (ids_of near.now) }
    ensures few { result.count ≤ 26 }
{
    let mut hops = Events::none();
    for (mark, j) in near.as_slice().iter().enumerate() {
        if view.value(*j as usize) == VACANT {
            hops.push(mark as u32, WHOLE_WEIGHT);
        }
    }
    hops
}

/// The hops from an old place to those of some places that are vacant, where energies are linear. `crowd` is how many
/// neighbours of the old place are occupied.
fn weighed_hops<V: View>(
    view: &V,
    old: usize,
    near: &Neighbours,
    crowd: u32,
    weights: &WeightTable,
) -> Events
    requires few { near.now.count ≤ 26 }
    requires inside { All (λ j. j < length (V.sight view.now).values) (ids_of near.now) }
    requires whole { All (λ j. IsTrue (V.whole view.now j)) (ids_of near.now) }
    requires crowd { crowd ≤ 26 }
    ensures events { listed result
        ≡ hops_to (λ j. weight_between weights.now (crowd_but (V.sight view.now) old j) crowd)
        (V.sight view.now) 0 (ids_of near.now) }
    ensures few { result.count ≤ 26 }
{
    let mut hops = Events::none();
    for (mark, j) in near.as_slice().iter().enumerate() {
        let new = *j as usize;
        if view.value(new) == VACANT {
            let weight = weights.between(crowd_but(view, old, new), crowd);
            hops.push(mark as u32, weight);
        }
    }
    hops
}

/// Drops those of some places that aren't vacant. Nothing is skipped, as a jump that can't be foreseen takes longer than to
/// write a place that is overwritten.
fn keep_vacant<V: View>(view: &V, near: &mut Neighbours)
    requires few { near.old.count ≤ 26 }
    requires inside { All (λ j. j < length (V.sight view.now).values) (ids_of near.old) }
    ensures few { near.new.count ≤ 26 }
    ensures ids { ids_of near.new ≡ filter (λ j. is_vacant (slice_index (V.sight view.now).values j)) (ids_of near.old) }
{
    let mut kept = 0;
    'places: for k in 0..near.count as usize {
        let place = near.ids[k];
        near.ids[kept] = place;
        kept += usize::from(view.value(place as usize) == VACANT);
    }
    near.count = kept as u32;
}

/// The sum of the weights of the hops from an old place to each of some places, where energies are linear. `crowd` is how many
/// neighbours of the old place are occupied.
fn weighed_sum<V: View>(
    view: &V,
    old: usize,
    near: &Neighbours,
    crowd: u32,
    weights: &WeightTable,
) -> u64
    requires few { near.now.count ≤ 26 }
    requires inside { All (λ j. j < length (V.sight view.now).values) (ids_of near.now) }
    requires whole { All (λ j. IsTrue (V.whole view.now j)) (ids_of near.now) }
    requires crowd { crowd ≤ 26 }
    ensures sum { result ≡ sum_by (λ j. weight_between weights.now (crowd_but (V.sight view.now) old j) crowd) (ids_of near.now) }
    ensures limit { result ≤ 2 ^ 35 }
{
    let mut sum = 0;
    for j in near.as_slice() {
        sum += u64::from(weights.between(crowd_but(view, old, *j as usize), crowd));
    }
    sum
}

/// Two places exchange their values.
fn exchange<V: View>(view: &mut V, i: usize, j: usize)
    requires i { i < length (V.sight view.old).values }
    requires j { j < length (V.sight view.old).values }
    ensures sight { V.sight view.new ≡ with_written (exchange (V.sight view.old) i j) (V.sight view.old) }
    ensures frame { V.frame view.new ≡ V.frame view.old }
    ensures whole { V.whole view.new ≡ V.whole view.old }
{
    let first = view.value(i);
    let second = view.value(j);
    view.put(i, second);
    view.put(j, first);
}

impl App for Diffusion {
    const PROP: u32 = 2;

    const STEP: u32 = 1;

    const SWEEPS: bool = false;

    ghost PROP = { 2 };

    ghost STEP = { 1 };

    ghost SWEEPS = { false };

    ghost rules = { λ d. diffusion d };

    fn largest(&self) -> u64 {
        u64::from(self.degree) * u64::from(WHOLE_WEIGHT)
    }

    fn valid(&self, v: u32) -> bool {
        v == VACANT || v == OCCUPIED
    }

    fn events<V: View, L: Ledger>(&self, view: &V, i: usize, steps: &mut Steps<L>) -> Events {
        steps.tick();
        if view.value(i) != OCCUPIED {
            return Events::none();
        }
        let near = view.neighbours(i);
        if self.linear {
            let crowd = count_among(view, &near, OCCUPIED);
            weighed_hops(view, i, &near, crowd, &self.weights)
        } else {
            free_hops(view, &near)
        }
    }

    fn propensity<V: View, L: Ledger>(&self, view: &V, i: usize, steps: &mut Steps<L>) -> u64 {
        steps.tick();
        let value = view.value(i);
        if value != OCCUPIED {
            return 0;
        }
        let mut near = no_neighbours();
        view.list_near(i, &mut near);
        let crowd = count_among(view, &near, OCCUPIED);
        keep_vacant(view, &mut near);
        if self.linear {
            weighed_sum(view, i, &near, crowd, &self.weights)
        } else {
            near.as_slice().len() as u64 * u64::from(WHOLE_WEIGHT)
        }
    }

    fn apply<V: View>(&self, view: &mut V, i: usize, mark: u32) {
        let near = view.neighbours(i);
        exchange(view, i, near.as_slice()[mark as usize] as usize);
    }

    /// There are no trials: nothing is written or drawn.
    fn trial<V: View>(&self, view: &mut V, i: usize, stream: &mut Stream) -> bool
        ensures sight { V.sight view.new ≡ V.sight view.old }
        ensures stream { stream.new ≡ stream.old }
        ensures changed { result ≡ false }
        ensures frame { V.frame view.new ≡ V.frame view.old }
        ensures whole { V.whole view.new ≡ V.whole view.old }
    {
        false
    }

    fn energy<V: View>(&self, view: &V, i: usize) -> u32 {
        if self.linear && view.value(i) == OCCUPIED {
            count_among(view, &view.neighbours(i), VACANT)
        } else {
            0
        }
    }

    ghost local = { λ d. diffusion_local d };

    ghost bounded = { λ d. diffusion_bounded d };

    ghost stays_valid = { λ d. diffusion_stays_valid d };

    ghost narrow = { diffusion_narrow };
}
