//! Text with escapes, by which each byte can be written.

ghost use Rattle.std.specs.Prelude.{◌<◌, ◌≤◌, IfSome, IfOk};

use crate::fault::Cause;
use crate::number::number;
use std::alloc::Global;

/// The most copies of a text or a line.
const MOST_COPIES: u64 = 4_194_304;

/// The bytes of a line, and whether a line feed ends it.
#[derive(Debug, Drop)]
pub struct Text {
    pub bytes: Vec<u8>,
    pub has_line_feed: bool,
}

/// The number of copies that these digits ask for.
pub fn copies(digits: &[u8]) -> Result<u64, Cause>
    ensures { IfOk result (λ count. count ≤ MOST_COPIES) }
{
    let count = number(digits)?;
    if count > MOST_COPIES {
        return Err(Cause::BadNumber);
    }
    Ok(count)
}

/// The value of a hexadecimal digit.
fn digit(byte: u8) -> Option<u8>
    ensures { IfSome result (λ digit. digit < 16) }
{
    match byte {
        b'0'..=b'9' => Some(byte - b'0'),
        b'a'..=b'f' => Some(byte - b'a' + 10),
        _ => None,
    }
}

/// The byte with these two hexadecimal digits.
fn byte_of(high: u8, low: u8) -> Option<u8> {
    Some(digit(high)? * 16 + digit(low)?)
}

/// The byte that an escape without its backslash stands for, and what is after it.
fn escape_of(escaped: &[u8]) -> Result<(u8, &[u8]), Cause> {
    match escaped {
        [b'\\', rest @ ..] => Ok((b'\\', rest)),
        [b't', rest @ ..] => Ok((b'\t', rest)),
        [b'r', rest @ ..] => Ok((b'\r', rest)),
        [b'n', rest @ ..] => Ok((b'\n', rest)),
        [b's', rest @ ..] => Ok((b' ', rest)),
        [b'x', high, low, rest @ ..] => match byte_of(*high, *low) {
            Some(byte) => Ok((byte, rest)),
            None => Err(Cause::BadEscape),
        },
        _ => Err(Cause::BadEscape),
    }
}

/// The bytes of a text whose escapes stand for a byte each.
fn plain_text(alloc: Global, text: &[u8]) -> Result<Vec<u8>, Cause> {
    let mut bytes = Vec::new(alloc);
    let mut rest = text;
    for _ in 0..text.len() {
        rest = match rest {
            [] => break,
            [b'\\', escaped @ ..] => {
                let (byte, others) = escape_of(escaped)?;
                bytes.push(byte)?;
                others
            }
            [byte, others @ ..] => {
                bytes.push(*byte)?;
                others
            }
        };
    }
    Ok(bytes)
}

/// The two parts of a text around the first byte of this kind, which is in neither.
pub fn parted(text: &[u8], separator: u8) -> Option<(&[u8], &[u8])> {
    let place = text.iter().position(|byte| *byte == separator)?;
    let (before, after) = text.split_at(place);
    match after {
        [_, rest @ ..] => Some((before, rest)),
        [] => None,
    }
}

/// Appends the copies of the text before the next closing brace, as in `4000*z}`. The rest is what is after it.
fn put_copies<'a>(alloc: Global, bytes: &mut Vec<u8>, inner: &'a [u8]) -> Result<&'a [u8], Cause> {
    let (inside, rest) = parted(inner, b'}').ok_or(Cause::BadEscape)?;
    let (digits, text) = parted(inside, b'*').ok_or(Cause::BadEscape)?;
    let text = plain_text(alloc, text)?;
    for _ in 0..copies(digits)? {
        bytes.extend_from_slice(&text)?;
    }
    Ok(rest)
}

/// A line of text. Beside escapes of a byte it may have copies, and a mark at its end that no line feed follows.
pub fn text_of(alloc: Global, text: &[u8]) -> Result<Text, Cause> {
    let mut bytes = Vec::new(alloc);
    let mut rest = text;
    let mut has_line_feed = true;
    for _ in 0..text.len() {
        rest = match rest {
            [] => break,
            [b'\\', b'c'] => {
                has_line_feed = false;
                break;
            }
            [b'\\', b'{', inner @ ..] => put_copies(alloc, &mut bytes, inner)?,
            [b'\\', escaped @ ..] => {
                let (byte, others) = escape_of(escaped)?;
                bytes.push(byte)?;
                others
            }
            [byte, others @ ..] => {
                bytes.push(*byte)?;
                others
            }
        };
    }
    Ok(Text {
        bytes,
        has_line_feed,
    })
}
