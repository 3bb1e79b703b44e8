//! Numbers of formulas, and operations on them.

ghost use Rattle.std.specs.Prelude.{◌≡◌, ◌≤◌, ◌<◌, ◌*◌, ◌^◌, pos, neg_ℤ, unsigned_abs};
ghost use Rattle.spk_script.specs.Values.{within, quotient, result_of};

use super::part::Operator;
use crate::fault::LineFault;
use spk_num::decimal::Dec;
use std::marker::Model;

const MILLIONTHS_OF_ONE: i128 = 1_000_000;

const LARGEST_MILLIONTHS: u128 = 1_000_000_000_000_000_000;

/// A number that stands in a formula or comes out of one: no more than 10^12 with either sign, in millionths.
#[derive(Clone, Copy, Debug, PartialEq, Eq)]
pub struct Amount {
    millionths: i64,
}

impl Model for Amount {
    ghost use Rattle.std.specs.Prelude.{ℤ, unsigned_abs, ◌≤◌, ◌^◌};

    ghost Value = { ℤ };

    ghost view = { λ a. a.millionths };

    ghost invariant = { λ a. unsigned_abs a.millionths ≤ 10 ^ 18 };

    ghost inverse = { λ z. record { millionths = z } };
}

impl Amount {
    /// A number that isn't too large.
    pub fn new(number: Dec) -> Amount
        requires { unsigned_abs number.millionths ≤ 10 ^ 18 }
        ensures { result ≡ number.millionths }
    {
        Amount {
            millionths: number.millionths,
        }
    }

    /// A whole number.
    pub fn whole(number: u32) -> Amount
        ensures { result ≡ pos (number * 1000000) }
    {
        Amount {
            millionths: i64::from(number) * 1_000_000,
        }
    }

    /// The same as a decimal number.
    pub fn number(self) -> Dec
        ensures { result.millionths ≡ self }
    {
        Dec {
            millionths: self.millionths,
        }
    }

    /// The number with the other sign.
    pub fn negated(self) -> Amount
        ensures { result ≡ neg_ℤ self }
    {
        Amount {
            millionths: -self.millionths,
        }
    }

    /// What an operator makes of two numbers. That the result has no more than six places is looked at first.
    pub fn result_of(operator: Operator, left: Amount, right: Amount) -> Result<Amount, LineFault>
        ensures { result ≡ result_of operator left right }
    {
        let a = i128::from(left.millionths);
        let b = i128::from(right.millionths);
        match operator {
            Operator::Plus => Amount::within(a + b),
            Operator::Minus => Amount::within(a - b),
            Operator::Times => Amount::quotient(a * b, MILLIONTHS_OF_ONE),
            Operator::Over => Amount::quotient(a * MILLIONTHS_OF_ONE, b),
        }
    }

    /// The quotient of two numbers, where it is exact.
    fn quotient(dividend: i128, divisor: i128) -> Result<Amount, LineFault>
        requires { unsigned_abs dividend < 2 ^ 127 }
        ensures { result ≡ quotient dividend divisor }
    {
        if divisor == 0 || dividend % divisor != 0 {
            return Err(LineFault::Inexact);
        }
        Amount::within(dividend / divisor)
    }

    /// So many millionths, where that isn't too large.
    fn within(millionths: i128) -> Result<Amount, LineFault>
        ensures { result ≡ within millionths }
    {
        if millionths.unsigned_abs() > LARGEST_MILLIONTHS {
            return Err(LineFault::NumberTooLarge);
        }
        Ok(Amount {
            millionths: millionths as i64,
        })
    }
}
