//! The parts of a decimal number's text, and what its digits are worth.

ghost use Rattle.std.specs.Prelude.{◌≡◌, ◌+◌, ◌<◌, ◌≤◌, ◌*◌, ◌^◌, ◌++◌, not, ◌==◌, nat_lt, length, take, drop, replicate, if◌then◌else◌, min, slice_index, EachIndex};
ghost use Rattle.std.specs.Char.{IsAsciiDigit};
ghost use Rattle.std.specs.List.{list_any};
ghost use Rattle.std.specs.Str.Parse.{digits_value};
ghost use Rattle.spk_num.specs.Decimal.{is_negative, after_sign, leading_digits, after_digits, places_in, after_places, signed};

// The largest number, and then the same in millionths.
const LARGEST_WHOLE: u64 = 1_000_000_000_000;

const LARGEST_MILLIONTHS: u64 = LARGEST_WHOLE * 1_000_000;

// Whether the text begins with a minus, and what stands after it.
pub(crate) fn split_sign(text: &[u8]) -> (bool, &[u8])
    ensures negative { result.0 ≡ is_negative text.now }
    ensures rest { result.1.now ≡ after_sign text.now }
    ensures within { length result.1.now ≤ length text.now }
{
    match text {
        [b'-', rest @ ..] => (true, rest),
        _ => (false, text),
    }
}

fn count_digits(text: &[u8]) -> usize
    ensures { result ≡ length (leading_digits text.now) }
{
    text.iter().take_while(|byte| byte.is_ascii_digit()).count()
}

// The leading digits, and what stands after them.
pub(crate) fn split_digits(text: &[u8]) -> (&[u8], &[u8])
    ensures leading { result.0.now ≡ leading_digits text.now }
    ensures rest { result.1.now ≡ after_digits text.now }
    ensures digits { EachIndex result.0.now (λ k. IsAsciiDigit (slice_index result.0.now k)) }
    ensures within { length result.1.now ≤ length text.now }
{
    text.split_at(count_digits(text))
}

// The digits after a dot, and what stands after them. With no dot there are none.
pub(crate) fn split_places(text: &[u8]) -> (&[u8], &[u8])
    ensures places { result.0.now ≡ places_in text.now }
    ensures rest { result.1.now ≡ after_places text.now }
    ensures digits { EachIndex result.0.now (λ k. IsAsciiDigit (slice_index result.0.now k)) }
    ensures within { length result.1.now ≤ length text.now }
{
    match text {
        [b'.', places @ ..] => split_digits(places),
        _ => text.split_at(0),
    }
}

// Whether a digit after the sixth place isn't 0.
pub(crate) fn passes_six_places(places: &[u8]) -> bool
    ensures { result ≡ list_any (λ d. not (d == 48)) (drop 6 places.now) }
{
    places.iter().skip(6).any(|place| *place != b'0')
}

// What the digits are worth, or the limit where they pass it: there may be any number of them.
#[tactic(auto, using(crate::proofs::Values::capped))]
fn capped_value(digits: &[u8], limit: u64) -> u64
    requires digits { EachIndex digits.now (λ k. IsAsciiDigit (slice_index digits.now k)) }
    requires room { limit < 2 ^ 60 }
    ensures { result ≡ min (digits_value 10 digits.now) limit }
{
    let mut value = 0;
    for digit in digits {
        value = (value * 10 + u64::from(*digit - b'0')).min(limit);
    }
    value
}

// The first six places, with zeros for those left out.
#[tactic(auto, using(crate::proofs::Values::six_places_are))]
fn six_places(places: &[u8]) -> [u8; 6]
    ensures { result ≡ take 6 (places.now ++ replicate 6 48) }
{
    let mut six = [b'0'; 6];
    let count = places.len().min(6);
    six[..count].copy_from_slice(&places[..count]);
    six
}

// The size of the number in millionths, unless that is too large.
pub(crate) fn magnitude_of(whole: &[u8], places: &[u8]) -> Option<u64>
    requires whole { EachIndex whole.now (λ k. IsAsciiDigit (slice_index whole.now k)) }
    requires places { EachIndex places.now (λ k. IsAsciiDigit (slice_index places.now k)) }
    ensures { let units = digits_value 10 whole.now in
        let millionths = digits_value 10 (take 6 (places.now ++ replicate 6 48)) in
        let magnitude = units * 1000000 + millionths in
        result ≡ (if nat_lt (10 ^ 18) magnitude then None else Some magnitude) }
{
    let units = capped_value(whole, LARGEST_WHOLE + 1);
    let millionths = capped_value(&six_places(places), 1_000_000);
    let magnitude = units * 1_000_000 + millionths;
    if magnitude > LARGEST_MILLIONTHS {
        None
    } else {
        Some(magnitude)
    }
}

pub(crate) fn with_sign(negative: bool, magnitude: u64) -> i64
    requires { magnitude < 2 ^ 63 }
    ensures { result ≡ signed negative magnitude }
{
    let value = magnitude as i64;
    if negative { -value } else { value }
}
