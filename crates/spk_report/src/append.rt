//! Appending to a text that has room.

ghost use Rattle.std.specs.Prelude.{◌≡◌, ◌++◌, ◌+◌, ◌≤◌, length, decimal, vec_len, vec_capacity};

use itoa::Buffer;

/// Appends a piece where there is room for it.
pub fn append(text: &mut Vec<u8>, piece: &[u8])
    requires { vec_len text.old + length piece.now ≤ vec_capacity text.old }
    ensures items { text.new.items ≡ text.old.items ++ piece.now }
    ensures len { vec_len text.new ≡ vec_len text.old + length piece.now }
    ensures room { vec_capacity text.old ≤ vec_capacity text.new }
{
    text.extend_from_slice(piece).unwrap();
}

/// Appends a number where there is room for it.
pub fn append_number(text: &mut Vec<u8>, number: u64)
    requires { vec_len text.old + length (decimal number) ≤ vec_capacity text.old }
    ensures items { text.new.items ≡ text.old.items ++ decimal number }
    ensures len { vec_len text.new ≡ vec_len text.old + length (decimal number) }
    ensures room { vec_capacity text.old ≤ vec_capacity text.new }
{
    append(text, Buffer::new().format(number).as_bytes());
}
