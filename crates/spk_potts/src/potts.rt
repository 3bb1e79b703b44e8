//! Potts: each site has one of the values 1 to q. Energies and events are modelled on SPPARKS's manual.

ghost use Rattle.std.specs.Prelude.{◌≡◌, ◌^◌, ◌*◌, ◌<◌, ◌≤◌, IsTrue, length};
ghost use Rattle.spk_app.specs.Applications.{listed, propensity};
ghost use Rattle.spk_app.specs.Sights.{with_written};
ghost use Rattle.spk_potts.specs.Potts.{near_trial, other_values, potts, potts_events};
ghost use Rattle.spk_potts.specs.PottsLaws.{potts_bounded, potts_local, potts_narrow, potts_stays_valid};

use crate::energy::{energy_of, unlike, weight_to};
use crate::proposal::{WHOLE_WEIGHT, judge, propose};
use spk_app::{App, Events, NearValues, Steps, View, WeightTable};
use spk_lattice::{Lattice, Style};
use spk_num::Stream;
use std::marker::Model;
use std::sync::ledger::Ledger;

/// SPPARKS's `potts` and, where `neighonly` is set, its `potts/neighonly`. A site's energy is the number of neighbours that
/// have another value, and its events take the values of such neighbours. A trial proposes one of all values, or one of
/// those that its events take. The order of the events, and how a trial draws, are rules of our own.
#[derive(Clone, Copy, Debug)]
pub struct Potts {
    q: u32,
    neighonly: bool,
    style: Style,
    /// How many neighbours a site has.
    degree: u32,
    weights: WeightTable,
}

impl Model for Potts {
    ghost use Rattle.std.specs.Prelude.{◌≡◌};
    ghost use Rattle.spk_lattice.specs.Neighbours.{degree_of};
    ghost use Rattle.spk_potts.specs.Potts.{PottsSettings};

    ghost Value = { PottsSettings };

    ghost view = { λ a. record { q = a.q; neighonly = a.neighonly; style = a.style; temperature = a.weights } };

    ghost invariant = { λ a. degree_of a.style ≡ a.degree };

    ghost inverse = { λ s. record { q = s.q; neighonly = s.neighonly; style = s.style; degree = degree_of s.style; weights = s.temperature } };

    ghost inverse_ok = { λ a is i. record { q = a.q; neighonly = a.neighonly; style = a.style; degree = is i; weights = a.weights } };
}

/// The values other than its own that a site's neighbours have, in the order in which they first appear.
fn other_values(own: u32, near: &[u32]) -> NearValues
    requires { length near.now ≤ 26 }
    ensures { result ≡ other_values own near.now }
{
    let mut others = NearValues::none();
    'near: for value in near {
        if *value != own && !others.as_slice().contains(value) {
            others.push(*value);
        }
    }
    others
}

/// The events of a site: one for each value that a neighbour has and the site hasn't.
fn events_of(own: u32, near: &[u32], weights: &WeightTable) -> Events
    requires { length near.now ≤ 26 }
    ensures events { listed result ≡ potts_events weights.now own near.now }
    ensures few { result.count ≤ 26 }
{
    let before = unlike(own, near);
    let others = other_values(own, near);
    let mut events = Events::none();
    'others: for value in others.as_slice() {
        events.push(*value, weights.between(before, unlike(*value, near)));
    }
    events
}

/// The sum of the weights of a site's events, value after value.
fn propensity_of(own: u32, near: &mut NearValues, weights: &WeightTable) -> u64
    ensures sum { result ≡ propensity (potts_events weights.now own near.old) }
    ensures limit { result ≤ 2 ^ 35 }
{
    let degree = near.len();
    near.drop_all(own);
    let before = near.len();
    let mut sum = 0;
    'kinds: for _ in 0..degree {
        let Some(value) = near.first() else {
            return sum;
        };
        let left = near.len();
        near.drop_all(value);
        let alike = left - near.len();
        sum += u64::from(weights.between(before, degree - alike));
    }
    sum
}

/// A trial that proposes one of the values of the site's events, if there is one. Says whether the site took it.
fn near_trial<V: View>(view: &mut V, i: usize, weights: &WeightTable, stream: &mut Stream) -> bool
    requires place { i < length (V.sight view.old).values }
    requires whole { IsTrue (V.whole view.old i) }
    ensures sight { V.sight view.new ≡ with_written (near_trial weights.now (V.sight view.old) i stream.old).writes (V.sight view.old) }
    ensures stream { stream.new ≡ (near_trial weights.now (V.sight view.old) i stream.old).stream }
    ensures changed { result ≡ (near_trial weights.now (V.sight view.old) i stream.old).changed }
    ensures frame { V.frame view.new ≡ V.frame view.old }
    ensures whole { V.whole view.new ≡ V.whole view.old }
{
    let own = view.value(i);
    let mut read = NearValues::none();
    view.read_near(i, &mut read);
    let near = read.as_slice();
    let others = other_values(own, near);
    let others = others.as_slice();
    if others.is_empty() {
        return false;
    }
    let value = others[stream.below(others.len() as u64) as usize];
    let weight = weight_to(weights, own, value, near);
    judge(view, i, value, weight, stream)
}

impl Potts {
    /// Potts sites with the values 1 to `q` on a lattice, at the temperature `t` in millionths of the energy of a pair of
    /// unlike neighbours.
    pub fn new(q: u32, neighonly: bool, lattice: &Lattice, t: u64) -> Potts
        ensures { result ≡ record { q = q; neighonly = neighonly; style = lattice.now.style; temperature = t } }
    {
        Potts {
            q,
            neighonly,
            style: lattice.style(),
            degree: lattice.degree(),
            weights: WeightTable::new(t),
        }
    }
}

impl App for Potts {
    const PROP: u32 = 1;

    const STEP: u32 = 0;

    const SWEEPS: bool = true;

    ghost use Rattle.std.specs.Prelude.{true};

    ghost PROP = { 1 };

    ghost STEP = { 0 };

    ghost SWEEPS = { true };

    ghost rules = { λ a. potts a };

    fn largest(&self) -> u64 {
        u64::from(self.degree) * u64::from(WHOLE_WEIGHT)
    }

    fn valid(&self, v: u32) -> bool {
        (1..=self.q).contains(&v)
    }

    fn events<V: View, L: Ledger>(&self, view: &V, i: usize, steps: &mut Steps<L>) -> Events {
        steps.tick();
        let mut near = NearValues::none();
        view.read_near(i, &mut near);
        events_of(view.value(i), near.as_slice(), &self.weights)
    }

    fn propensity<V: View, L: Ledger>(&self, view: &V, i: usize, steps: &mut Steps<L>) -> u64 {
        steps.tick();
        let mut near = NearValues::none();
        view.read_near(i, &mut near);
        propensity_of(view.value(i), &mut near, &self.weights)
    }

    fn apply<V: View>(&self, view: &mut V, i: usize, mark: u32) {
        view.put(i, mark);
    }

    fn trial<V: View>(&self, view: &mut V, i: usize, stream: &mut Stream) -> bool {
        if self.neighonly {
            near_trial(view, i, &self.weights, stream)
        } else {
            let drawn = 1 + stream.below(u64::from(self.q)) as u32;
            propose(view, i, drawn, &self.weights, stream)
        }
    }

    fn energy<V: View>(&self, view: &V, i: usize) -> u32 {
        energy_of(view, i)
    }

    ghost local = { λ a. potts_local a };

    ghost bounded = { λ a. potts_bounded a };

    ghost stays_valid = { λ a. potts_stays_valid a };

    ghost narrow = { potts_narrow };
}
