//! Streams of random numbers: the minimal standard generator of Park and Miller.
//! How a stream starts and how a draw becomes a choice are rules of our own.

ghost use Rattle.std.specs.Prelude.{◌≡◌, ℕ, ◌*◌, ◌/◌, ◌^◌, ◌<◌, SomeIff};
ghost use Rattle.spk_num.specs.Draws.{next_state, start_state, below_of, below_two_of};

use std::marker::Model;

/// The generator's modulus, a prime.
const MODULUS: u32 = 2147483647;
/// The generator's multiplier.
const MULTIPLIER: u64 = 16807;
/// How many values a draw can take.
const VALUES: u32 = MODULUS - 1;
/// How far the starts of two streams of one seed lie apart, before the modulus is taken.
const STRIDE: u64 = 100_003;
/// How many draws a new stream discards.
const DISCARDED: u32 = 16;

/// A stream of draws from 1 to 2147483646. Its state is its last draw.
#[derive(Clone, Copy, Debug, PartialEq, Eq)]
pub struct Stream {
    state: u32,
}

impl Model for Stream {
    ghost Value = { ℕ };

    ghost view = { λ s. s.state };

    ghost invariant = { λ s. (0 < s.state) × (s.state < 2147483647) };

    ghost inverse = { λ x. record { state = x } };
}

/// How many pairs of values two draws can take.
const PAIRS: u64 = 4611686009837453316;
/// 2^125 divided by the number of pairs, rounded down.
const RECIPROCAL: u128 = 9223372054034645016;

/// A pair of draws scaled to numbers below `total`, with no wide division.
#[tactic(auto, using(crate::proofs::Scales::scales))]
fn scaled(pair: u64, total: u64) -> u64
    requires pair { pair < 4611686009837453316 }
    requires total { total < 2 ^ 63 }
    ensures { result ≡ pair * total / 4611686009837453316 }
{
    let product = u128::from(pair) * u128::from(total);
    let high = product / (1 << 61);
    let guess = high * RECIPROCAL / (1 << 64);
    let rest = product - guess * u128::from(PAIRS);
    if rest >= u128::from(PAIRS) {
        (guess + 1) as u64
    } else {
        guess as u64
    }
}

impl Stream {
    /// The stream with this number, for this seed.
    #[tactic(auto, using(crate::proofs::DrawSteps::draws))]
    pub fn new(seed: u32, number: u64) -> Stream
        requires seed_above { 0 < seed }
        requires seed_below { seed < 2147483647 }
        requires number_below { number < 2 ^ 33 }
        ensures { result ≡ start_state seed number }
    {
        let offset = (u64::from(seed) + STRIDE * (number + 1)) % u64::from(VALUES);
        let mut stream = Stream {
            state: 1 + offset as u32,
        };
        'discards: for _ in 0..DISCARDED {
            let _draw = stream.next();
        }
        stream
    }

    /// The stream whose last draw was `x`, if a draw can be that.
    pub fn of_state(x: u32) -> Option<Stream>
        ensures { SomeIff result ((0 < x) × (x < 2147483647)) x }
    {
        if x > 0 && x < MODULUS {
            Some(Stream { state: x })
        } else {
            None
        }
    }

    /// The next draw.
    pub fn next(&mut self) -> u32
        ensures draw { result ≡ next_state self.old }
        ensures state { self.new ≡ next_state self.old }
        ensures above { 0 < result }
        ensures below { result < 2147483647 }
    {
        let product = MULTIPLIER * u64::from(self.state);
        let folded = product % (1 << 31) + product / (1 << 31);
        let modulus = u64::from(MODULUS);
        self.state = (if folded >= modulus {
            folded - modulus
        } else {
            folded
        }) as u32;
        self.state
    }

    /// A number below `n`, by one draw.
    pub fn below(&mut self, n: u64) -> u64
        requires above { 0 < n }
        requires small { n < 2 ^ 63 }
        ensures state { self.new ≡ next_state self.old }
        ensures number { result ≡ below_of n self.new }
        ensures below { result < n }
    {
        let draw = self.next() - 1;
        // A division of 64 bits by a constant is a multiplication, and one of 128 bits isn't.
        if n < 1 << 32 {
            return u64::from(draw) * n / u64::from(VALUES);
        }
        (u128::from(draw) * u128::from(n) / u128::from(VALUES)) as u64
    }

    /// A number below `total`, by two draws: finer than one draw where `total` is large.
    pub fn below_two(&mut self, total: u64) -> u64
        requires above { 0 < total }
        requires small { total < 2 ^ 63 }
        ensures state { self.new ≡ next_state (next_state self.old) }
        ensures number { result ≡ below_two_of total (next_state self.old) self.new }
        ensures below { result < total }
    {
        let first = self.next();
        let second = self.next();
        let pair = u64::from(first - 1) * u64::from(VALUES) + u64::from(second - 1);
        scaled(pair, total)
    }

    /// The last draw, or the start of a stream that has made none.
    pub fn state(&self) -> u32
        ensures state { result ≡ self.now }
        ensures above { 0 < result }
        ensures below { result < 2147483647 }
    {
        self.state
    }
}

#[cfg(test)]
mod tests {
    use super::*;

    fn first(rt: &impl std::process::Abort) -> Stream {
        Stream::of_state(1).expect(rt, "1 is a state")
    }

    #[test]
    fn draws_park_and_millers_numbers(rt: HostRuntime) {
        let mut stream = first(&rt);
        for want in [16807, 282475249, 1622650073, 984943658, 1144108930] {
            assert_eq!(rt; stream.next(), want);
            assert_eq!(rt; stream.state(), want);
        }
        for _ in 5..10_000 {
            let _draw = stream.next();
        }
        assert_eq!(rt; stream.state(), 1043618065);
    }

    #[test]
    fn chooses_below(rt: HostRuntime) {
        let mut stream = first(&rt);
        for want in [0, 13, 75, 45, 53] {
            assert_eq!(rt; stream.below(100), want);
        }
        stream = first(&rt);
        for want in [0, 755] {
            assert_eq!(rt; stream.below_two(1000), want);
        }
    }

    #[test]
    fn starts_by_seed_and_number(rt: HostRuntime) {
        for (seed, number, want) in [
            (1, 0, 1434163631),
            (12345, 7, 1172654246),
            (2147483646, 8589934591, 852922444),
        ] {
            assert_eq!(rt; Stream::new(seed, number).state(), want);
        }
    }

    #[test]
    fn takes_a_draw_as_a_state(rt: HostRuntime) {
        for (state, want) in [
            (0, false),
            (1, true),
            (2147483646, true),
            (2147483647, false),
        ] {
            assert_eq!(rt; Stream::of_state(state).is_some(), want, "at {state}");
        }
    }
}
