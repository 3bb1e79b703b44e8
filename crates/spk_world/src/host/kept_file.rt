//! A file that stays open, with the name that led to it.

ghost use Rattle.std.specs.Prelude.{◌≡◌, ◌≤◌, ◌↔◌, length, IsTrue, IsSome, IfSome};

use std::marker::Model;

/// No file is kept under a longer name.
const LONGEST_NAME: usize = 255;

/// A name that needs no allocator.
#[derive(Drop)]
struct ShortName {
    bytes: [u8; LONGEST_NAME],
    len: usize,
}

impl Model for ShortName {
    ghost use Rattle.std.specs.Prelude.{ℕ, ◌≤◌, List, take};
    ghost use Rattle.spk_world.specs.declared.host.kept_file.TheConstants.{LONGEST_NAME};

    ghost Value = { List ℕ };

    ghost view = { λ name. take name.len name.bytes };

    ghost invariant = { λ name. name.len ≤ LONGEST_NAME };
}

impl ShortName {
    fn new(name: &str) -> Option<ShortName>
        ensures fits { IsSome result ↔ (length name.now ≤ LONGEST_NAME) }
        ensures same { IfSome result (λ short. short ≡ name.now) }
    {
        let text = name.as_bytes();
        let len = text.len();
        if len > LONGEST_NAME {
            return None;
        }
        let mut bytes = [0; LONGEST_NAME];
        bytes[..len].copy_from_slice(text);
        Some(ShortName { bytes, len })
    }

    fn is(&self, name: &str) -> bool
        ensures { IsTrue result ↔ (self.now ≡ name.now) }
    {
        &self.bytes[..self.len] == name.as_bytes()
    }
}

/// An open file.
#[derive(Drop)]
pub(super) struct KeptFile<F> {
    name: ShortName,
    pub(super) file: F,
}

impl<F: Drop> KeptFile<F> {
    /// The file, if its name is short. Otherwise it is closed.
    pub(super) fn new(name: &str, file: F) -> Option<KeptFile<F>>
        ensures short { IsSome result → length name.now ≤ LONGEST_NAME }
        ensures name { IfSome result (λ kept. kept.name ≡ name.now) }
        ensures file { IfSome result (λ kept. kept.file ≡ file) }
    {
        let name = ShortName::new(name)?;
        Some(KeptFile { name, file })
    }
}

impl<F> KeptFile<F> {
    /// Whether the file was opened by this name.
    pub(super) fn has_name(&self, name: &str) -> bool
        ensures { IsTrue result ↔ (self.now.name ≡ name.now) }
    {
        self.name.is(name)
    }
}
