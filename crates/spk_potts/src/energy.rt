//! Energies of sites, and the weights of changes of a site's value.

ghost use Rattle.std.specs.Prelude.{◌≡◌, ◌<◌, ◌≤◌, IsTrue, length};
ghost use Rattle.spk_potts.specs.Energies.{energy_of, unlike, weight_to};

use spk_app::{NearValues, View, WeightTable};

/// How many of these values differ from a site's own.
pub(crate) fn unlike(own: u32, near: &[u32]) -> u32
    requires { length near.now ≤ 26 }
    ensures count { result ≡ unlike own near.now }
    ensures few { result ≤ 26 }
{
    let mut count = 0;
    for value in near {
        count += u32::from(*value != own);
    }
    count
}

/// The weight of taking a value, in units of 2^-30, where the site has its own and its neighbours have these.
pub(crate) fn weight_to(weights: &WeightTable, own: u32, value: u32, near: &[u32]) -> u32
    requires { length near.now ≤ 26 }
    ensures { result ≡ weight_to weights.now own value near.now }
{
    weights.between(unlike(own, near), unlike(value, near))
}

/// A site's energy: how many of its neighbours have another value.
pub(crate) fn energy_of<V: View>(view: &V, i: usize) -> u32
    requires place { i < length (V.sight view.now).values }
    requires whole { IsTrue (V.whole view.now i) }
    ensures { result ≡ energy_of (V.sight view.now) i }
{
    let mut near = NearValues::none();
    view.read_near(i, &mut near);
    unlike(view.value(i), near.as_slice())
}
