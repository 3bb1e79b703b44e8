//! The values of a patch's sites.

ghost use Rattle.std.specs.Prelude.{◌≡◌, ◌<◌, IfOk, IsTrue, length, replicate, slice_index, slice_set};

use std::alloc::{AllocError, Global};
use std::marker::Model;

/// The largest value that a byte can hold.
const LARGEST_BYTE: u32 = 255;

/// The values of a patch's sites by place. They stand in bytes as long as each of them fits into one, as in most runs, and in
/// words from the first larger one on. A cache holds four times as many bytes as words.
#[derive(Debug, Drop)]
pub struct Values {
    small: bool,
    bytes: Vec<u8>,
    words: Vec<u32>,
}

impl Model for Values {
    ghost use Rattle.std.specs.Prelude.{◌≡◌, List, ℕ, length, if◌then◌else◌};

    ghost Value = { List ℕ };

    ghost view = { λ v. if v.small then v.bytes.items else v.words.items };

    ghost invariant = { λ v. length v.bytes.items ≡ length v.words.items };
}

impl Values {
    /// So many values, all 0.
    pub fn new(alloc: Global, count: usize) -> Result<Values, AllocError>
        ensures { IfOk result (λ v. v ≡ replicate count 0) }
    {
        Ok(Values {
            small: true,
            bytes: vec![in alloc; 0; count]?,
            words: vec![in alloc; 0; count]?,
        })
    }

    /// The value at a place.
    pub fn get(&self, i: usize) -> u32
        requires { i < length self.now }
        ensures { result ≡ slice_index self.now i }
    {
        if self.small {
            u32::from(self.bytes[i])
        } else {
            self.words[i]
        }
    }

    /// Gives a place a value.
    pub fn set(&mut self, i: usize, value: u32)
        requires { i < length self.old }
        ensures { self.new ≡ slice_set self.old i value }
    {
        if self.small && value > LARGEST_BYTE {
            copy_bytes(&self.bytes, &mut self.words);
            self.small = false;
        }
        if self.small {
            self.bytes[i] = value as u8;
        } else {
            self.words[i] = value;
        }
    }

    /// Takes these values.
    pub fn copy_from(&mut self, values: &[u32])
        requires { length values.now ≡ length self.old }
        ensures { self.new ≡ values.now }
    {
        self.small = copy_words(values, &mut self.bytes);
        if !self.small {
            self.words.copy_from_slice(values);
        }
    }
}

/// Copies bytes to words.
fn copy_bytes(bytes: &Vec<u8>, words: &mut Vec<u32>)
    requires { length bytes.now.items ≡ length words.old.items }
    ensures { words.new.items ≡ bytes.now.items }
{
    'bytes: for i in 0..bytes.len() {
        words[i] = u32::from(bytes[i]);
    }
}

/// Copies words to bytes as far as they fit, and says whether all did.
fn copy_words(words: &[u32], bytes: &mut Vec<u8>) -> bool
    requires { length words.now ≡ length bytes.old.items }
    ensures all { IsTrue result → bytes.new.items ≡ words.now }
    ensures length { length bytes.new.items ≡ length words.now }
{
    'words: for i in 0..words.len() {
        if words[i] > LARGEST_BYTE {
            return false;
        }
        bytes[i] = words[i] as u8;
    }
    true
}
