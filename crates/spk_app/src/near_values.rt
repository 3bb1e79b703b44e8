//! The values of a site's neighbours.

ghost use Rattle.std.specs.Prelude.{◌≡◌, ◌<◌, ◌≤◌, ◌==◌, ◌++◌, [], ◌∷◌, IfNone, IfSome, drop, filter, length, not, slice_set};

use std::marker::Model;

/// The values of a site's neighbours, in the order of the lattice.
#[derive(Debug, Drop)]
pub struct NearValues {
    count: u32,
    values: [u32; 26],
}

impl Model for NearValues {
    ghost use Rattle.std.specs.Prelude.{List, ℕ, take, ◌≤◌};

    ghost Value = { List ℕ };

    ghost view = { λ n. take n.count n.values };

    ghost invariant = { λ n. n.count ≤ 26 };
}

impl NearValues {
    /// No values.
    pub fn none() -> NearValues
        ensures { result ≡ [] }
    {
        NearValues {
            count: 0,
            values: [0; 26],
        }
    }

    /// Adds a value. There are 26 at most.
    pub fn push(&mut self, value: u32)
        requires { length self.old < 26 }
        ensures { self.new ≡ self.old ++ value ∷ [] }
    {
        self.values[self.count as usize] = value;
        self.count += 1;
    }

    /// Makes the list so long, with any values.
    pub fn set_len(&mut self, count: u32)
        requires { count ≤ 26 }
        ensures { length self.new ≡ count }
    {
        self.count = count;
    }

    /// Replaces a value. There are 26 at most.
    pub fn set(&mut self, k: usize, value: u32)
        requires k { k < length self.old }
        requires few { k < 26 }
        ensures { self.new ≡ slice_set self.old k value }
    {
        self.values[k] = value;
    }

    /// How many values there are.
    pub fn len(&self) -> u32
        ensures count { result ≡ length self.now }
        ensures few { result ≤ 26 }
    {
        self.count
    }

    /// The first value, if there is one.
    pub fn first(&self) -> Option<u32>
        ensures some { IfSome result (λ v. self.now ≡ v ∷ drop 1 self.now) }
        ensures none { IfNone result (self.now ≡ []) }
    {
        if self.count == 0 {
            None
        } else {
            Some(self.values[0])
        }
    }

    /// Drops each one that is this value. The others keep their order. Nothing is skipped, as a jump that can't be foreseen takes
    /// longer than to write a value that is overwritten.
    pub fn drop_all(&mut self, value: u32)
        ensures { self.new ≡ filter (λ v. not (v == value)) self.old }
    {
        let mut kept = 0;
        'values: for k in 0..self.count as usize {
            let other = self.values[k];
            self.values[kept] = other;
            kept += usize::from(other != value);
        }
        self.count = kept as u32;
    }

    /// The values in their order.
    pub fn as_slice(&self) -> &[u32]
        ensures values { result.now ≡ self.now }
        ensures few { length result.now ≤ 26 }
    {
        &self.values[..self.count as usize]
    }
}

#[cfg(test)]
mod tests {
    use super::*;

    #[test]
    fn keeps_the_order(rt: HostRuntime) {
        let mut values = NearValues::none();
        assert!(rt; values.as_slice().is_empty());
        values.push(7);
        values.push(3);
        values.push(7);
        assert_eq!(rt; values.as_slice(), [7, 3, 7].as_slice());
    }

    #[test]
    fn replaces_values(rt: HostRuntime) {
        let mut values = NearValues::none();
        values.set_len(2);
        values.set(1, 9);
        values.set(0, 4);
        assert_eq!(rt; values.as_slice(), [4, 9].as_slice());
    }

    #[test]
    fn drops_a_value(rt: HostRuntime) {
        let mut values = NearValues::none();
        assert_eq!(rt; values.first(), None);
        for value in [7, 3, 7, 5] {
            assert!(rt; values.len() < 26);
            values.push(value);
        }
        assert_eq!(rt; values.len(), 4);
        assert_eq!(rt; values.first(), Some(7));
        values.drop_all(7);
        assert_eq!(rt; values.as_slice(), [3, 5].as_slice());
        assert_eq!(rt; values.first(), Some(3));
    }
}
