//! Ising: each site has one of the values 1 and 2. Energies and events are modelled on SPPARKS's manual.

ghost use Rattle.std.specs.Prelude.{◌≡◌, ◌-◌, ◌^◌, ◌≤◌, length};
ghost use Rattle.spk_app.specs.Applications.{listed, propensity};
ghost use Rattle.spk_potts.specs.Ising.{ising, ising_events, other_value};
ghost use Rattle.spk_potts.specs.IsingLaws.{ising_local, ising_bounded, ising_narrow, ising_stays_valid};

use crate::energy::{energy_of, weight_to};
use crate::proposal::{WHOLE_WEIGHT, propose};
use spk_app::{App, Events, NearValues, Steps, View, WeightTable};
use spk_lattice::{Lattice, Style};
use spk_num::Stream;
use std::marker::Model;
use std::sync::ledger::Ledger;

/// SPPARKS's `ising` and, where `single` is set, its `ising/single`. A site's energy is the number of neighbours that have
/// the other value, and its one event takes that value. A trial proposes one of the two values, or always the other one.
/// How a trial draws is a rule of our own.
#[derive(Clone, Copy, Debug)]
pub struct Ising {
    single: bool,
    style: Style,
    weights: WeightTable,
}

impl Model for Ising {
    ghost use Rattle.spk_potts.specs.Ising.{IsingSettings};

    ghost Value = { IsingSettings };

    ghost view = { λ a. record { single = a.single; style = a.style; temperature = a.weights } };

    ghost inverse = { λ s. record { single = s.single; style = s.style; weights = s.temperature } };
}

/// The other one of the two values.
fn other_value(own: u32) -> u32
    requires { own ≤ 3 }
    ensures { result ≡ other_value own }
{
    3 - own
}

/// The one event of a site: it takes the other value.
fn events_of(own: u32, near: &[u32], weights: &WeightTable) -> Events
    requires own { own ≤ 3 }
    requires few { length near.now ≤ 26 }
    ensures events { listed result ≡ ising_events weights.now own near.now }
    ensures few { result.count ≤ 26 }
{
    let other = other_value(own);
    let mut events = Events::none();
    events.push(other, weight_to(weights, own, other, near));
    events
}

/// The weight of a site's event.
#[tactic(auto, using(crate::proofs::Propensities::propensity_one))]
fn propensity_of(own: u32, near: &[u32], weights: &WeightTable) -> u64
    requires own { own ≤ 3 }
    requires few { length near.now ≤ 26 }
    ensures sum { result ≡ propensity (ising_events weights.now own near.now) }
    ensures limit { result ≤ 2 ^ 35 }
{
    u64::from(weight_to(weights, own, other_value(own), near))
}

impl Ising {
    /// Ising sites on a lattice, at the temperature `t` in millionths of the energy of a pair of unlike neighbours.
    pub fn new(single: bool, lattice: &Lattice, t: u64) -> Ising
        ensures { result ≡ record { single = single; style = lattice.now.style; temperature = t } }
    {
        Ising {
            single,
            style: lattice.style(),
            weights: WeightTable::new(t),
        }
    }
}

impl App for Ising {
    const PROP: u32 = 1;

    const STEP: u32 = 0;

    const SWEEPS: bool = true;

    ghost use Rattle.std.specs.Prelude.{true};

    ghost PROP = { 1 };

    ghost STEP = { 0 };

    ghost SWEEPS = { true };

    ghost rules = { λ a. ising a };

    fn largest(&self) -> u64 {
        u64::from(WHOLE_WEIGHT)
    }

    fn valid(&self, v: u32) -> bool {
        v == 1 || v == 2
    }

    fn events<V: View, L: Ledger>(&self, view: &V, i: usize, steps: &mut Steps<L>) -> Events {
        steps.tick();
        let mut near = NearValues::none();
        view.read_near(i, &mut near);
        events_of(view.value(i), near.as_slice(), &self.weights)
    }

    fn propensity<V: View, L: Ledger>(&self, view: &V, i: usize, steps: &mut Steps<L>) -> u64 {
        steps.tick();
        let mut near = NearValues::none();
        view.read_near(i, &mut near);
        propensity_of(view.value(i), near.as_slice(), &self.weights)
    }

    fn apply<V: View>(&self, view: &mut V, i: usize, mark: u32) {
        view.put(i, mark);
    }

    fn trial<V: View>(&self, view: &mut V, i: usize, stream: &mut Stream) -> bool {
        if self.single {
            let other = other_value(view.value(i));
            propose(view, i, other, &self.weights, stream)
        } else {
            let drawn = 1 + stream.below(2) as u32;
            propose(view, i, drawn, &self.weights, stream)
        }
    }

    fn energy<V: View>(&self, view: &V, i: usize) -> u32 {
        energy_of(view, i)
    }

    ghost local = { λ a. ising_local a };

    ghost bounded = { λ a. ising_bounded a };

    ghost stays_valid = { λ a. ising_stays_valid a };

    ghost narrow = { ising_narrow };
}
