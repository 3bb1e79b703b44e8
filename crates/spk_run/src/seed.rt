//! Seeds of random streams.

ghost use Rattle.std.specs.Prelude.{◌≡◌, ◌<◌, ◌^◌};
ghost use Rattle.spk_num.specs.Draws.{start_state};

use spk_num::stream::Stream;
use std::marker::Model;

/// A seed of random streams, 1 to 2147483646.
#[derive(Clone, Copy, Debug, PartialEq, Eq)]
pub struct Seed {
    number: u32,
}

impl Model for Seed {
    ghost use Rattle.std.specs.Prelude.{ℕ, ◌<◌};

    ghost Value = { ℕ };

    ghost view = { λ s. s.number };

    ghost invariant = { λ s. (0 < s.number) × (s.number < 2147483647) };

    ghost inverse = { λ n. record { number = n } };
}

impl Seed {
    /// The seed with this number.
    pub fn new(number: u32) -> Seed
        requires above { 0 < number }
        requires below { number < 2147483647 }
        ensures { result ≡ number }
    {
        Seed { number }
    }

    /// The seed as a number.
    pub fn number(self) -> u32
        ensures { result ≡ self }
    {
        self.number
    }

    /// The stream with this number, for this seed.
    pub fn stream(self, number: u64) -> Stream
        requires { number < 2 ^ 33 }
        ensures { result ≡ start_state self number }
    {
        Stream::new(self.number, number)
    }
}
