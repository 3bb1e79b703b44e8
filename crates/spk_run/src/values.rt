//! The values of the sites.

ghost use Rattle.std.specs.Prelude.{◌≡◌, ◌<◌, ◌≤◌, not, [], length, position, replicate, slice_index, slice_set, vec_len, IfOk};
ghost use Rattle.spk_run.specs.Applications.{rules_of};

use crate::application::AnyApplication;
use spk_patch::Patch;
use std::alloc::{AllocError, Global};
use std::marker::Model;

/// The values of the sites, in the order of their ids.
#[derive(Debug, Drop)]
pub struct Values {
    items: Vec<u32>,
}

impl Model for Values {
    ghost use Rattle.std.specs.Prelude.{List, ℕ, ◌≤◌, vec_len};

    ghost Value = { List ℕ };

    ghost view = { λ v. v.items.items };

    ghost invariant = { λ v. vec_len v.items ≤ 4194304 };
}

/// Takes the values of a patch that has all cells.
pub fn copy_values(values: &mut Vec<u32>, patch: &Patch)
    requires { length values.old.items ≡ length patch.now.values }
    ensures items { values.new.items ≡ patch.now.values }
    ensures len { vec_len values.new ≡ vec_len values.old }
{
    for place in 0..values.len() {
        values[place] = patch.value(place);
    }
}

impl Values {
    /// No sites.
    pub fn new(alloc: Global) -> Values
        ensures { result ≡ [] }
    {
        Values {
            items: Vec::new(alloc),
        }
    }

    /// So many sites, all with this value.
    pub fn filled(alloc: Global, count: u32, value: u32) -> Result<Values, AllocError>
        requires { count ≤ 4194304 }
        ensures { IfOk result (λ v. v ≡ replicate count value) }
    {
        let items = vec![in alloc; value; count as usize]?;
        Ok(Values { items })
    }

    /// These values.
    pub fn from_vec(items: Vec<u32>) -> Values
        requires { vec_len items ≤ 4194304 }
        ensures { result ≡ items.items }
    {
        Values { items }
    }

    /// How many sites there are.
    pub fn len(&self) -> usize
        ensures sites { result ≡ length self.now }
        ensures at_most { result ≤ 4194304 }
    {
        self.items.len()
    }

    /// The value of the site at `place`.
    pub fn get(&self, place: usize) -> u32
        requires { place < length self.now }
        ensures { result ≡ slice_index self.now place }
    {
        self.items[place]
    }

    /// Gives the site at `place` this value.
    pub fn set(&mut self, place: usize, value: u32)
        requires { place < length self.old }
        ensures { self.new ≡ slice_set self.old place value }
    {
        self.items[place] = value;
    }

    /// The place of the first site whose value an application doesn't allow.
    pub fn first_invalid(&self, application: &AnyApplication) -> Option<usize>
        ensures { result ≡ position (λ value. not ((rules_of application.now).is_valid value)) self.now }
    {
        self.items
            .iter()
            .position(|value| !application.valid(*value))
    }

    /// The values as a list.
    pub fn as_slice(&self) -> &[u32]
        ensures { result.now ≡ self.now }
    {
        &self.items
    }

    /// Takes the values of a patch that has all cells.
    pub fn copy_from(&mut self, patch: &Patch)
        requires { length self.old ≡ length patch.now.values }
        ensures { self.new ≡ patch.now.values }
    {
        copy_values(&mut self.items, patch);
    }
}
