//! The weights of events by the energies before and after them.

ghost use Rattle.std.specs.Prelude.{◌≡◌, ◌^◌, ◌≤◌, pos};
ghost use Rattle.spk_num.specs.Weights.{weight_of};
ghost use Rattle.spk_app.specs.Weights.{weight_between};

use spk_num::weight;
use std::marker::Model;

/// How many rises of the energy there are, from 0 to 26.
const RISES: usize = 27;

/// The weights of all events at a temperature. An energy is at most 26, since a site has at most 26 neighbours.
#[derive(Clone, Copy, Debug)]
pub struct WeightTable {
    temperature: u64,
    /// The weight of each rise of the energy.
    weights: [u32; RISES],
}

impl Model for WeightTable {
    ghost use Rattle.std.specs.Prelude.{ℕ, ◌≡◌};
    ghost use Rattle.spk_app.specs.Weights.{rising_weights};

    ghost Value = { ℕ };

    ghost view = { λ t. t.temperature };

    ghost invariant = { λ t. rising_weights t.temperature ≡ t.weights };

    ghost inverse = { λ t. record { temperature = t; weights = rising_weights t } };

    ghost inverse_ok = { λ t is i. record { temperature = t.temperature; weights = is i } };
}

/// The weight of a rise of the energy at a temperature.
fn weight_of_rise(rise: u32, temperature: u64) -> u32
    ensures { result ≡ weight_of (pos rise) temperature }
{
    weight(i64::from(rise), temperature)
}

impl WeightTable {
    /// The weights at a temperature, in millionths.
    pub fn new(temperature: u64) -> WeightTable
        ensures { result ≡ temperature }
    {
        let mut weights = [0; RISES];
        'rises: for rise in 0..RISES {
            weights[rise] = weight_of_rise(rise as u32, temperature);
        }
        WeightTable {
            temperature,
            weights,
        }
    }

    /// The weight of an event that takes a site from one energy to another, in units of 2^-30.
    pub fn between(&self, before: u32, after: u32) -> u32
        requires { after ≤ 26 }
        ensures weight { result ≡ weight_between self.now before after }
        ensures small { result ≤ 2 ^ 30 }
    {
        self.weights[after.saturating_sub(before) as usize]
    }
}

#[cfg(test)]
mod tests {
    use super::*;

    #[test]
    fn weighs_by_energies(rt: HostRuntime) {
        for (temperature, before, after, want) in [
            (1_000_000, 1, 2, 395007542),
            (1_000_000, 1, 3, 145315153),
            (1_000_000, 2, 2, 1073741824),
            (1_000_000, 5, 1, 1073741824),
            (1_000_000, 0, 26, 0),
            (2_000_000, 0, 1, 651257336),
            (0, 0, 1, 0),
        ] {
            assert!(rt; after <= 26);
            assert_eq!(rt;
                WeightTable::new(temperature).between(before, after),
                want,
                "{temperature} {before} {after}"
            );
        }
    }
}
