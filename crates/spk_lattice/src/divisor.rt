//! Division by a number that is known beforehand.

ghost use Rattle.std.specs.Prelude.{◌≡◌, ◌≤◌, ◌<◌, ◌/◌, ◌%◌};

use std::marker::Model;

/// A number by which others are divided often. It divides by a multiplication, since a division takes several times as long.
#[derive(Clone, Copy, Debug)]
pub struct Divisor {
    number: u32,
    /// 2^44 divided by the number, rounded down, and 1 more.
    reciprocal: u64,
}

impl Model for Divisor {
    ghost use Rattle.std.specs.Prelude.{ℕ, ◌≡◌, ◌+◌, ◌/◌, ◌<◌, ◌≤◌, ◌^◌};

    ghost Value = { ℕ };

    ghost view = { λ d. d.number };

    ghost invariant = { λ d. (0 < d.number) × (d.number ≤ 4194304) × (d.reciprocal ≡ 2 ^ 44 / d.number + 1) };

    ghost inverse = { λ n. record { number = n; reciprocal = 2 ^ 44 / n + 1 } };
}

impl Divisor {
    /// Division by this number.
    pub fn new(number: u32) -> Divisor
        requires some { 0 < number }
        requires few { number ≤ 4194304 }
        ensures { result ≡ number }
    {
        Divisor {
            number,
            reciprocal: (1 << 44) / u64::from(number) + 1,
        }
    }

    /// How often the number goes into another one.
    #[tactic(auto, using(crate::proofs::Reciprocals::quotient))]
    fn quotient(&self, dividend: u32) -> u32
        requires { dividend < 4194304 }
        ensures { result ≡ dividend / self.now }
    {
        let product = u128::from(dividend) * u128::from(self.reciprocal);
        (product / (1 << 44)) as u32
    }

    /// How often the number goes into another one, and what is left.
    #[tactic(auto, using(crate::proofs::Reciprocals::parts))]
    pub fn split(&self, dividend: u32) -> (u32, u32)
        requires { dividend < 4194304 }
        ensures quotient { result.0 ≡ dividend / self.now }
        ensures rest { result.1 ≡ dividend % self.now }
    {
        let quotient = self.quotient(dividend);
        (quotient, dividend - self.number * quotient)
    }
}

#[cfg(test)]
mod tests {
    use super::*;

    #[test]
    fn divides(rt: HostRuntime) {
        for (dividend, by, want) in [
            (0, 1, (0, 0)),
            (4194303, 1, (4194303, 0)),
            (4194303, 4194304, (0, 4194303)),
            (4194303, 3, (1398101, 0)),
            (4194302, 3, (1398100, 2)),
            (250499, 500, (500, 499)),
        ] {
            assert!(rt; dividend < 4194304);
            assert!(rt; 0 < by);
            assert!(rt; by <= 4194304);
            assert_eq!(rt;
                Divisor::new(by).split(dividend),
                want,
                "{dividend} by {by}"
            );
        }
    }
}
