//! Lengths, in millionths of half units, and how they compare.

ghost use Rattle.std.specs.Prelude.{◌≡◌, ◌≤◌, unsigned_abs};
ghost use Rattle.spk_lattice.specs.Shapes.{half_units, units, is_from, is_to, is_between, square_from, square_of, IsNear, IsNearBound};

use spk_num::decimal::Dec;
use spk_num::shape::Bound;

/// A number of half units.
fn half_units(count: i64) -> i64
    requires { unsigned_abs count ≤ 16777216 }
    ensures value { result ≡ half_units count }
    ensures near { unsigned_abs result ≤ 20000000000000 }
{
    count * 1_000_000
}

/// A number of units.
fn units(dec: Dec) -> i64
    requires { IsNear dec }
    ensures value { result ≡ units dec }
    ensures near { unsigned_abs result ≤ 20000000000000 }
{
    dec.millionths * 2
}

fn is_from(low: &Bound, coordinate: i64) -> bool
    requires low { IsNearBound low.now }
    requires coordinate { unsigned_abs coordinate ≤ 16777216 }
    ensures { result ≡ is_from low.now coordinate }
{
    match low {
        Bound::At(low) => units(*low) <= half_units(coordinate),
        Bound::Open => true,
    }
}

fn is_to(high: &Bound, coordinate: i64) -> bool
    requires high { IsNearBound high.now }
    requires coordinate { unsigned_abs coordinate ≤ 16777216 }
    ensures { result ≡ is_to high.now coordinate }
{
    match high {
        Bound::At(high) => half_units(coordinate) <= units(*high),
        Bound::Open => true,
    }
}

/// Whether a coordinate, which is in half units, lies between two bounds.
#[tactic(auto, unfolding(crate::specs::Shapes::is_between))]
pub(crate) fn is_between(low: &Bound, high: &Bound, coordinate: i64) -> bool
    requires low { IsNearBound low.now }
    requires high { IsNearBound high.now }
    requires coordinate { unsigned_abs coordinate ≤ 16777216 }
    ensures { result ≡ is_between low.now high.now coordinate }
{
    is_from(low, coordinate) && is_to(high, coordinate)
}

/// How far a coordinate, which is in half units, is from a centre's, squared.
#[tactic(auto, using(crate::proofs::Squares::square_limit), unfolding(crate::specs::Shapes::square_from))]
pub(crate) fn square_from(centre: Dec, coordinate: i64) -> u128
    requires centre { IsNear centre }
    requires coordinate { unsigned_abs coordinate ≤ 16777216 }
    ensures value { result ≡ square_from centre coordinate }
    ensures limit { result ≤ 1600000000000000000000000000 }
{
    let distance = u128::from(half_units(coordinate).abs_diff(units(centre)));
    distance * distance
}

/// The square of a radius.
#[tactic(auto, using(crate::proofs::Squares::square_limit), unfolding(crate::specs::Shapes::square_of))]
pub(crate) fn square_of(radius: Dec) -> u128
    requires { IsNear radius }
    ensures { result ≡ square_of radius }
{
    let length = u128::from(units(radius).unsigned_abs());
    length * length
}
