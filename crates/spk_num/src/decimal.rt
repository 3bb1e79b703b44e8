//! Decimal numbers of six places. How they are read and printed is a rule of our own.

ghost use Rattle.std.specs.Prelude.{◌≡◌, MatchResult};
ghost use Rattle.spk_num.specs.Decimal.{millionths_of, decimal_text};

mod digits;

use crate::decimal_text::DecText;
use digits::{magnitude_of, passes_six_places, split_digits, split_places, split_sign, with_sign};

/// A decimal number, in millionths.
#[derive(Clone, Copy, Debug, PartialEq, Eq)]
pub struct Dec {
    pub millionths: i64,
}

/// Why a text is not a decimal number.
#[derive(Clone, Copy, Debug, PartialEq, Eq)]
pub enum DecFault {
    /// At this offset stands a byte that can't stand there.
    BadByte(u64),
    /// There is no digit.
    Empty,
    /// A digit after the sixth place isn't 0.
    TooManyPlaces,
    /// The number passes 10^12, with either sign.
    TooLarge,
}

impl Dec {
    /// Reads an optional `-`, digits, an optional `.` and digits, with at least one digit in all.
    /// The first fault in the order of `DecFault` is the answer.
    pub fn read(text: &[u8]) -> Result<Dec, DecFault>
        ensures { MatchResult result (λ d. millionths_of text.now ≡ Ok d.millionths) (λ e. millionths_of text.now ≡ Err e) }
    {
        let (negative, unsigned) = split_sign(text);
        let (whole, after) = split_digits(unsigned);
        let (places, rest) = split_places(after);
        if !rest.is_empty() {
            return Err(DecFault::BadByte((text.len() - rest.len()) as u64));
        }
        if whole.is_empty() && places.is_empty() {
            return Err(DecFault::Empty);
        }
        if passes_six_places(places) {
            return Err(DecFault::TooManyPlaces);
        }
        match magnitude_of(whole, places) {
            Some(magnitude) => Ok(Dec {
                millionths: with_sign(negative, magnitude),
            }),
            None => Err(DecFault::TooLarge),
        }
    }

    /// Prints a `-` where the number is negative, its whole part, and where the fraction isn't 0
    /// a dot and the places without zeros at their end.
    #[tactic(auto, using(crate::proofs::Lengths::lengths))]
    pub fn print(self) -> DecText
        ensures { result ≡ decimal_text self.millionths }
    {
        let magnitude = self.millionths.unsigned_abs();
        let mut text = DecText::new();
        if self.millionths < 0 {
            text.push(b'-');
        }
        text.push_number(magnitude / 1_000_000);
        text.push_fraction(magnitude % 1_000_000);
        text
    }
}

#[cfg(test)]
mod tests {
    use super::*;

    #[test]
    fn reads(rt: HostRuntime) {
        for (text, millionths) in [
            (b"-0.250".as_slice(), -250_000),
            (b".5".as_slice(), 500_000),
            (b"5.".as_slice(), 5_000_000),
            (b"007".as_slice(), 7_000_000),
            (b"-0".as_slice(), 0),
            (b"1.23456700".as_slice(), 1_234_567),
            (b"1000000000000".as_slice(), 1_000_000_000_000_000_000),
        ] {
            assert_eq!(rt; Dec::read(text), Ok(Dec { millionths }), "at {millionths}");
        }
    }

    #[test]
    fn refuses(rt: HostRuntime) {
        for (text, fault) in [
            (b"".as_slice(), DecFault::Empty),
            (b"-".as_slice(), DecFault::Empty),
            (b".".as_slice(), DecFault::Empty),
            (b"-.".as_slice(), DecFault::Empty),
            (b"1e3".as_slice(), DecFault::BadByte(1)),
            (b"--1".as_slice(), DecFault::BadByte(1)),
            (b"1-".as_slice(), DecFault::BadByte(1)),
            (b"1.2.3".as_slice(), DecFault::BadByte(3)),
            (b"+1".as_slice(), DecFault::BadByte(0)),
            (b" 1".as_slice(), DecFault::BadByte(0)),
            (b"1.2345678".as_slice(), DecFault::TooManyPlaces),
            (b"1000000000001.0000001".as_slice(), DecFault::TooManyPlaces),
            (b"1000000000000.000001".as_slice(), DecFault::TooLarge),
            (b"-1000000000001".as_slice(), DecFault::TooLarge),
        ] {
            assert_eq!(rt; Dec::read(text), Err(fault), "at {fault:?}");
        }
    }

    #[test]
    fn reads_long_texts(rt: HostRuntime) {
        let mut text = [b'0'; 101];
        text[100] = b'1';
        assert_eq!(rt;
            Dec::read(&text),
            Ok(Dec {
                millionths: 1_000_000
            })
        );
        assert_eq!(rt; Dec::read(&[b'7'; 100]), Err(DecFault::TooLarge));
    }

    #[test]
    fn prints(rt: HostRuntime) {
        for (millionths, text) in [
            (0, b"0".as_slice()),
            (1, b"0.000001".as_slice()),
            (-1, b"-0.000001".as_slice()),
            (-250_000, b"-0.25".as_slice()),
            (1_500_000, b"1.5".as_slice()),
            (i64::MIN, b"-9223372036854.775808".as_slice()),
            (i64::MAX, b"9223372036854.775807".as_slice()),
        ] {
            assert_eq!(rt;
                Dec { millionths }.print().as_bytes(),
                text,
                "at {millionths}"
            );
        }
    }
}
