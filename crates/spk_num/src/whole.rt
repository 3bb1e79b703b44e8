//! Whole numbers of 1 to 18 digits. How they are read is a rule of our own.

ghost use Rattle.std.specs.Prelude.{◌≡◌, ◌≤◌, ◌&&◌, nat_lt, nat_le, length, IfSome};
ghost use Rattle.std.specs.Char.{is_ascii_digit};
ghost use Rattle.std.specs.List.{list_all};
ghost use Rattle.spk_num.specs.Whole.{within, whole_of, whole_within};

use crate::text::Text;

/// The most digits of a whole number.
const MOST_DIGITS: usize = 18;

/// A number in a range, both ends taken.
pub fn within(low: u64, high: u64, number: u64) -> Option<u64>
    ensures { result ≡ within low high number }
{
    if low <= number && number <= high {
        Some(number)
    } else {
        None
    }
}

fn are_digits(word: &[u8]) -> bool
    ensures { result ≡ list_all is_ascii_digit word.now }
{
    word.iter().all(|byte| byte.is_ascii_digit())
}

/// Whether a word is a whole number: it has 1 to 18 digits.
fn is_whole(word: &[u8]) -> bool
    ensures { result ≡ (list_all is_ascii_digit word.now && nat_lt 0 (length word.now) && nat_le (length word.now) 18) }
{
    are_digits(word) && !word.is_empty() && word.len() <= MOST_DIGITS
}

/// The whole number that a word of bytes is. Leading zeros are allowed.
#[tactic(auto, using(crate::proofs::Wholes::digits_are_text, crate::proofs::Wholes::whole_is_read))]
pub fn whole_of_bytes(word: &[u8]) -> Option<u64>
    ensures { result ≡ whole_of word.now }
{
    if !is_whole(word) {
        return None;
    }
    std::str::from_utf8(word).ok()?.parse::<u64>().ok()
}

/// The whole number that a word is. Leading zeros are allowed.
pub fn whole_of(word: &Text) -> Option<u64>
    ensures { result ≡ whole_of word.now }
{
    whole_of_bytes(word.as_bytes())
}

/// The whole number that a word is, where it is in a range, both ends taken.
pub fn whole_within(low: u64, high: u64, word: &Text) -> Option<u64>
    ensures value { result ≡ whole_within low high word.now }
    ensures range { IfSome result (λ number. number ≤ high) }
{
    within(low, high, whole_of(word)?)
}

#[cfg(test)]
mod tests {
    use super::*;
    use std::test::Fail;

    #[test]
    fn reads(rt: HostRuntime) -> Result<(), Fail> {
        for (word, wanted) in [
            ("0", Some(0)),
            ("007", Some(7)),
            ("999999999999999999", Some(999_999_999_999_999_999)),
            ("0000000000000000001", None),
            ("", None),
            ("-1", None),
            ("+1", None),
            ("1 ", None),
            ("1.0", None),
        ] {
            let text = Text::copy(rt.alloc(), word)?;
            assert_eq!(rt; whole_of(&text), wanted, "at {word}");
        }
        Ok(())
    }

    #[test]
    fn reads_no_bytes_that_are_no_text(rt: HostRuntime) -> Result<(), Fail> {
        assert_eq!(rt; whole_of_bytes(&[49, 255]), None);
        assert_eq!(rt; whole_of_bytes(b"0120"), Some(120));
        Ok(())
    }

    #[test]
    fn takes_both_ends(rt: HostRuntime) -> Result<(), Fail> {
        for (word, wanted) in [("2", None), ("3", Some(3)), ("05", Some(5)), ("6", None)] {
            let text = Text::copy(rt.alloc(), word)?;
            assert_eq!(rt; whole_within(3, 5, &text), wanted, "at {word}");
        }
        assert_eq!(rt; within(3, 5, 4), Some(4));
        Ok(())
    }
}
