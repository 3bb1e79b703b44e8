//! The scale of a lattice.

ghost use Rattle.std.specs.Prelude.{◌≡◌, ◌<◌, ◌≤◌};
ghost use Rattle.spk_cmds.specs.WellFormed.{IsAboveZero};

use spk_num::decimal::Dec;
use std::marker::Model;

/// How long a lattice unit is: above 0, and at most 1000000.
#[derive(Clone, Copy, Debug)]
pub struct Scale {
    dec: Dec,
}

impl Model for Scale {
    ghost use Rattle.spk_num.specs.declared.decimal.Dec.{Dec};
    ghost use Rattle.spk_cmds.specs.WellFormed.{IsAboveZero};

    ghost Value = { Dec };

    ghost view = { λ s. s.dec };

    ghost invariant = { λ s. IsAboveZero 1000000000000 s.dec };

    ghost inverse = { λ d. record { dec = d } };
}

impl Scale {
    /// The scale that a number is.
    pub fn new(dec: Dec) -> Scale
        requires { IsAboveZero 1000000000000 dec }
        ensures { result ≡ dec }
    {
        Scale { dec }
    }

    /// The scale as a number.
    pub fn dec(self) -> Dec
        ensures number { result ≡ self }
        ensures range { IsAboveZero 1000000000000 result }
    {
        self.dec
    }
}
