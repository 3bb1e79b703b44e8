//! The weight of a change of energy at a temperature: a whole-number rule of our own for exp(-dE / t),
//! so that every machine finds the same weight.

ghost use Rattle.std.specs.Prelude.{◌≡◌, ◌*◌, ◌/◌, ◌^◌, ◌<◌, ◌≤◌};
ghost use Rattle.spk_num.specs.Weights.{series, attenuated, factor_of, weight_of};

/// The weight 1.
const WHOLE_WEIGHT: u32 = 1 << 30;
/// A unit of temperature, in millionths.
const MILLIONTHS: u128 = 1_000_000;
/// The number that stands for 1 in an exponent.
const ONE: u128 = 1 << 32;
/// The whole part from which on an exponent has the weight 0.
const VANISHING: u128 = 22;
/// The number that stands for 1 in a series.
const UNIT: u64 = 1 << 40;
/// How many pairs of terms a series has.
const PAIRS: u64 = 8;
/// What the series gives for exp(-1).
const INVERSE_E: u64 = 404_487_723_187;
/// How many units of a series are one of a weight.
const PER_WEIGHT: u64 = 1 << 10;

/// The term with this number, by the one before it.
fn next_term(term: u64, number: u64, fraction: u64) -> u64
    requires term { term ≤ 2 ^ 40 }
    requires number { 0 < number }
    requires fraction { fraction ≤ 2 ^ 32 }
    ensures value { result ≡ term * fraction / (2 ^ 32 * number) }
    ensures at_most { result ≤ term }
{
    let product = u128::from(term) * u128::from(fraction) / ONE;
    product as u64 / number
}

#[tactic(auto, using(crate::proofs::WeightSteps::terms))]
fn series(fraction: u64) -> u64
    requires { fraction ≤ 2 ^ 32 }
    ensures value { result ≡ series fraction }
    ensures at_most { result ≤ 2 ^ 40 }
{
    let mut value = 0;
    let mut term = UNIT;
    'pairs: for pair in 0..PAIRS {
        let taken = next_term(term, 2 * pair + 1, fraction);
        value += term - taken;
        term = next_term(taken, 2 * pair + 2, fraction);
    }
    value
}

#[tactic(auto, using(crate::proofs::WeightSteps::factors))]
fn attenuated(times: u64, value: u64) -> u64
    requires { value ≤ 2 ^ 40 }
    ensures value { result ≡ attenuated times value }
    ensures at_most { result ≤ 2 ^ 40 }
{
    let mut left = value;
    'factors: for _ in 0..times {
        left = (u128::from(left) * u128::from(INVERSE_E) / u128::from(UNIT)) as u64;
    }
    left
}

/// The weight of a rise of the energy, at a temperature above 0.
fn weight_of_rise(rise: u64, t: u64) -> u32
    requires { 0 < t }
    ensures value { result ≡ factor_of (rise * 10 ^ 6 * 2 ^ 32 / t) }
    ensures at_most { result ≤ 2 ^ 30 }
{
    let exponent = u128::from(rise) * MILLIONTHS * ONE / u128::from(t);
    let whole = exponent / ONE;
    if whole < VANISHING {
        let factor = attenuated(whole as u64, series((exponent % ONE) as u64));
        (factor / PER_WEIGHT) as u32
    } else {
        0
    }
}

/// The weight of a change of the energy at a temperature: exp(-de / t), in units of 2^-30. The change `de` is in whole
/// units of energy, and the temperature `t` in millionths. Where the energy doesn't rise, the weight is 1 at any
/// temperature, and where it rises, it is 0 at temperature 0.
#[tactic(auto, unfolding(crate::specs::Weights::weight_of))]
pub fn weight(de: i64, t: u64) -> u32
    ensures weight { result ≡ weight_of de t }
    ensures at_most { result ≤ 2 ^ 30 }
{
    if de <= 0 {
        WHOLE_WEIGHT
    } else if t == 0 {
        0
    } else {
        weight_of_rise(de.unsigned_abs(), t)
    }
}

#[cfg(test)]
mod tests {
    use super::*;

    #[test]
    fn weighs(rt: HostRuntime) {
        for (de, t, want) in [
            (1, 1_000_000, 395007542),
            (2, 1_000_000, 145315153),
            (1, 2_000_000, 651257336),
            (3, 700_000, 14778753),
            (20, 1_000_000, 2),
            (21, 1_000_000, 0),
            (22, 1_000_000, 0),
            (1, u64::MAX, 1073741824),
            (i64::MAX, u64::MAX, 0),
            (1, 0, 0),
            (0, 0, 1073741824),
            (-5, 0, 1073741824),
            (i64::MIN, 1, 1073741824),
        ] {
            assert_eq!(rt; weight(de, t), want, "at {de}, {t}");
        }
    }
}
