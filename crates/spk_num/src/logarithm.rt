//! The logarithm of a draw, and the waiting time that it gives: whole-number rules of our own,
//! so that every machine finds the same time.

ghost use Rattle.std.specs.Prelude.{◌≡◌, ℕ, suc, ◌+◌, ◌*◌, ◌^◌, ◌<◌, ◌≤◌};
ghost use Rattle.spk_num.specs.Logarithm.{shift_of, log_bits, neg_log_of, wait_of};

/// How many bits of a logarithm stand after the point.
const PLACES: u32 = 24;
/// The unit of a logarithm with these bits.
const UNIT: u64 = 1 << 24;
/// The natural logarithm of 2, in units of 2^-24.
const LN_2: u64 = 11_629_080;
/// What a scaled draw is at least.
const HALF: u64 = 1 << 30;
/// The number that stands for 1 where the bits of a logarithm are found.
const ONE: u64 = 1 << 31;
/// The number that stands for 2 there.
const TWO: u64 = 1 << 32;
/// Ticks in a unit of time.
const TICKS: u128 = 1_000_000_000;
/// The longest waiting time, in ticks.
const LONGEST: u128 = (1 << 63) - 1;

/// A draw, doubled until it is at least 2^30.
#[derive(Drop)]
struct Scaled {
    shift: u32,
    value: u64,
}

/// A logarithm to base 2 of which some bits are found. The bits to come are those of the logarithm of `rest`.
#[derive(Clone, Copy)]
struct Bits {
    found: u64,
    rest: u64,
}

#[tactic(auto, using(crate::proofs::LogarithmSteps::large_doublings))]
fn scale_up(x: u32) -> Scaled
    requires above { 0 < x }
    requires below { x < 2 ^ 31 }
    ensures shift { result.shift ≡ shift_of x }
    ensures few { result.shift ≤ 30 }
    ensures value { result.value ≡ x * 2 ^ result.shift }
    ensures at_least { 2 ^ 30 ≤ result.value }
    ensures at_most { result.value < 2 ^ 31 }
{
    let mut shift = 0;
    let mut value = u64::from(x);
    while value < HALF {
        value *= 2;
        shift += 1;
    }
    Scaled { shift, value }
}

#[tactic(auto, using(crate::proofs::LogarithmSteps::log_steps))]
fn with_next_bit(log: Bits) -> Bits
    requires at_least { 2 ^ 31 ≤ log.rest }
    requires at_most { log.rest < 2 ^ 32 }
    requires room { log.found < 2 ^ 24 }
    ensures step { (k : ℕ) → log_bits (suc k) log.rest log.found ≡ log_bits k result.rest result.found }
    ensures at_least { 2 ^ 31 ≤ result.rest }
    ensures at_most { result.rest < 2 ^ 32 }
    ensures found { result.found ≤ 2 * log.found + 1 }
{
    let square = log.rest * log.rest / ONE;
    let carry = square / TWO;
    Bits {
        found: 2 * log.found + carry,
        rest: square >> carry,
    }
}

#[tactic(auto, using(crate::proofs::LogarithmSteps::bits_done))]
fn bits_of(y: u64) -> u64
    requires at_least { 2 ^ 31 ≤ y }
    requires at_most { y < 2 ^ 32 }
    ensures bits { result ≡ log_bits 24 y 0 }
    ensures below { result < 2 ^ 24 }
{
    let mut log = Bits { found: 0, rest: y };
    'bits: for _ in 0..PLACES {
        log = with_next_bit(log);
    }
    log.found
}

/// The negative natural logarithm of the draw `x` over 2^31, in units of 2^-24.
pub fn neg_log(x: u32) -> u32
    requires above { 0 < x }
    requires below { x < 2147483647 }
    ensures value { result ≡ neg_log_of x }
    ensures at_most { result ≤ 31 * 11629080 }
{
    let draw = scale_up(x);
    let whole = u64::from(draw.shift + 1) * UNIT;
    let log_two = whole - bits_of(2 * draw.value);
    (LN_2 * log_two / UNIT) as u32
}

/// How many ticks pass until the next event, by the draw `x`. The total of the propensities is in units of 2^-30.
pub fn wait(total: u64, x: u32) -> u64
    requires total { 0 < total }
    requires above { 0 < x }
    requires below { x < 2147483647 }
    ensures ticks { result ≡ wait_of total x }
    ensures at_least { 1 ≤ result }
    ensures below { result < 2 ^ 63 }
{
    let ticks = u128::from(neg_log(x)) * 64 * TICKS / u128::from(total);
    ticks.max(1).min(LONGEST) as u64
}

#[cfg(test)]
mod tests {
    use super::*;

    #[test]
    fn waits(rt: HostRuntime) {
        for (total, draw, want) in [
            (1073741824, 1073741824, 693147182),
            (1073741824, 1, 21487562656),
            (1073741824, 2147483646, 1),
            (1, 1, 9223372036854775807),
        ] {
            assert_eq!(rt; wait(total, draw), want, "at {total}, {draw}");
        }
        assert_eq!(rt; neg_log(1), 31 * 11629080);
    }
}
