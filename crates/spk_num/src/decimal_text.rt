//! Printed numbers, in a few bytes that need no allocator. How they look is a rule of our own.

ghost use Rattle.std.specs.Prelude.{◌≡◌, ◌+◌, ◌<◌, ◌≤◌, [], ◌∷◌, ◌++◌, length, decimal};
ghost use Rattle.spk_num.specs.Decimal.{without_last_zeros, fraction_text, ticks_text};

use itoa::Buffer;
use std::marker::Model;

/// A printed number, in ASCII. The longest has 21 bytes.
#[derive(Debug, Drop)]
pub struct DecText {
    bytes: [u8; 32],
    len: usize,
}

impl Model for DecText {
    ghost use Rattle.std.specs.Prelude.{ℕ, List, take, ◌≤◌};

    ghost Value = { List ℕ };

    ghost view = { λ text. take text.len text.bytes };

    ghost invariant = { λ text. text.len ≤ 32 };
}

impl DecText {
    pub(crate) fn new() -> DecText
        ensures { result ≡ [] }
    {
        DecText {
            bytes: [0; 32],
            len: 0,
        }
    }

    /// The text, for a writer.
    pub fn as_bytes(&self) -> &[u8]
        ensures value { result.now ≡ self.now }
        ensures len { length result.now ≤ 32 }
    {
        &self.bytes[..self.len]
    }

    pub(crate) fn push(&mut self, byte: u8)
        requires { length self.old < 32 }
        ensures { self.new ≡ self.old ++ byte ∷ [] }
    {
        self.bytes[self.len] = byte;
        self.len += 1;
    }

    fn push_all(&mut self, bytes: &[u8])
        requires { length self.old + length bytes.now ≤ 32 }
        ensures { self.new ≡ self.old ++ bytes.now }
    {
        for byte in bytes {
            self.push(*byte);
        }
    }

    pub(crate) fn push_number(&mut self, number: u64)
        requires { length self.old + length (decimal number) ≤ 32 }
        ensures { self.new ≡ self.old ++ decimal number }
    {
        let mut buffer = Buffer::new();
        self.push_all(buffer.format(number).as_bytes());
    }

    // The fraction of so many millionths, with its dot, and nothing where it is 0.
    #[tactic(auto, using(crate::proofs::Lengths::lengths))]
    pub(crate) fn push_fraction(&mut self, millionths: u64)
        requires below_one { millionths < 1000000 }
        requires room { length self.old ≤ 24 }
        ensures { self.new ≡ self.old ++ fraction_text millionths }
    {
        if millionths != 0 {
            let mut buffer = Buffer::new();
            // A leading 1 keeps the zeros after it.
            let digits = &buffer.format(1_000_000 + millionths).as_bytes()[1..];
            self.push(b'.');
            self.push_all(trimmed(digits));
        }
    }
}

// The digits without the zeros at their end.
#[tactic(auto, using(crate::proofs::Zeros::trims))]
fn trimmed(digits: &[u8]) -> &[u8]
    ensures value { result.now ≡ without_last_zeros digits.now }
    ensures len { length result.now ≤ length digits.now }
{
    let mut end = 0;
    for (i, digit) in digits.iter().enumerate() {
        if *digit != b'0' {
            end = i + 1;
        }
    }
    &digits[..end]
}

/// A time, of which 10^9 ticks are one unit: the whole part, a dot and nine places.
#[tactic(auto, using(crate::proofs::Lengths::lengths))]
pub fn print_ticks(ticks: u64) -> DecText
    ensures { result ≡ ticks_text ticks }
{
    let mut buffer = Buffer::new();
    let mut text = DecText::new();
    text.push_number(ticks / 1_000_000_000);
    text.push(b'.');
    // A leading 1 keeps the zeros after it.
    let fraction = 1_000_000_000 + ticks % 1_000_000_000;
    text.push_all(&buffer.format(fraction).as_bytes()[1..]);
    text
}

#[cfg(test)]
mod tests {
    use super::*;

    #[test]
    fn prints_ticks(rt: HostRuntime) {
        for (ticks, text) in [
            (0, b"0.000000000".as_slice()),
            (1_000_000_000, b"1.000000000".as_slice()),
            (693_147_182, b"0.693147182".as_slice()),
            (u64::MAX, b"18446744073.709551615".as_slice()),
        ] {
            assert_eq!(rt; print_ticks(ticks).as_bytes(), text, "at {ticks}");
        }
    }
}
