//! Bytes as a report shows them.

ghost use Rattle.std.specs.Prelude.{◌≤◌, length};

use std::alloc::{AllocError, Global};

/// How many bytes are shown.
const SHOWN: usize = 160;

/// How many of them may stand before the first that differs.
const BEFORE: usize = 60;

/// How many bytes two texts have in common before they differ.
pub fn common(left: &[u8], right: &[u8]) -> usize
    ensures { result ≤ length left.now }
{
    let pairs = left.iter().zip(right);
    pairs.take_while(|(left, right)| **left == **right).count()
}

/// Appends a byte, or the escape that stands for it.
fn put_byte(alloc: Global, text: &mut String, byte: u8) -> Result<(), AllocError> {
    match byte {
        b'\n' => text.push_str("\\n"),
        b'\t' => text.push_str("\\t"),
        b'\r' => text.push_str("\\r"),
        b'\\' => text.push_str("\\\\"),
        b' '..=b'~' => text.push(char::from(byte)),
        _ => text.push_str(format!(in alloc; "\\x{byte:02x}")?.as_str()),
    }
}

/// The bytes round a place, with escapes. Dots stand for what is left out.
pub fn shown(alloc: Global, bytes: &[u8], place: usize) -> Result<String, AllocError> {
    let start = place.saturating_sub(BEFORE);
    let mut text = String::from_str(alloc, if start > 0 { ".." } else { "" })?;
    for byte in bytes.iter().skip(start).take(SHOWN) {
        put_byte(alloc, &mut text, *byte)?;
    }
    if start.saturating_add(SHOWN) < bytes.len() {
        text.push_str("..")?;
    }
    Ok(text)
}
