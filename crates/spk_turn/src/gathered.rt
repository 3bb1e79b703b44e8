//! Places, each once.

ghost use Rattle.std.specs.Prelude.{◌≡◌, ◌<◌, ◌≤◌, ◌==◌, ◌∷◌, [], length};
ghost use Rattle.std.specs.List.{list_any};
ghost use Rattle.spk_turn.specs.Reached.{with_place, with_places};

use std::marker::Model;

/// The most places.
pub const MOST: usize = 729;

/// How many marks there are. It is a prime number, so that the rows of most lattices don't fall on the same marks.
const MARKS: usize = 1021;

/// Places, each once, in the order in which they came. A place's remainder by the number of marks names its mark, which is the
/// index of the last place that came with the same remainder, if one is there. Where none is, the mark counts for nothing. It is
/// past the last place then, as a mark that is left from before makes a jump that can't be foreseen.
#[derive(Debug, Drop)]
pub struct Gathered {
    count: usize,
    places: [usize; MOST],
    marks: [usize; MARKS],
}

impl Model for Gathered {
    ghost use Rattle.std.specs.Prelude.{List, ℕ, take};
    ghost use Rattle.spk_turn.specs.Reached.{AreMarked};

    ghost Value = { List ℕ };

    ghost view = { λ g. take g.count g.places };

    ghost invariant = { λ g. AreMarked g.count g.places g.marks };
}

impl Gathered {
    /// No place.
    pub fn none() -> Gathered
        ensures { result ≡ [] }
    {
        Gathered {
            count: 0,
            places: [0; MOST],
            marks: [0; MARKS],
        }
    }

    /// Makes this the only place.
    pub fn start(&mut self, place: usize)
        ensures { self.new ≡ place ∷ [] }
    {
        self.clear();
        self.add(place);
    }

    /// Drops all places.
    pub fn clear(&mut self)
        ensures { self.new ≡ [] }
    {
        'places: for k in 0..self.count {
            self.marks[self.places[k] % MARKS] = MOST;
        }
        self.count = 0;
    }

    /// The places.
    pub fn as_slice(&self) -> &[usize]
        ensures places { result.now ≡ self.now }
        ensures few { length result.now ≤ 729 }
    {
        &self.places[..self.count]
    }

    /// Whether a place is there.
    fn has(&self, place: usize) -> bool
        ensures { result ≡ list_any (λ k. k == place) self.now }
    {
        let mark = self.marks[place % MARKS];
        if mark >= self.count {
            return false;
        }
        let other = self.places[mark];
        other == place || other % MARKS == place % MARKS && self.as_slice().contains(&place)
    }

    /// Adds a place, if it isn't there.
    pub fn add(&mut self, place: usize)
        requires { length (with_place self.old place) ≤ 729 }
        ensures { self.new ≡ with_place self.old place }
    {
        if self.has(place) {
            return;
        }
        self.marks[place % MARKS] = self.count;
        self.places[self.count] = place;
        self.count += 1;
    }

    /// Adds those of some places that aren't there.
    pub fn add_all(&mut self, places: &[u32])
        requires { length (with_places self.old places.now) ≤ 729 }
        ensures { self.new ≡ with_places self.old places.now }
    {
        for place in places {
            self.add(*place as usize);
        }
    }
}

#[cfg(test)]
mod tests {
    use super::*;

    #[test]
    fn has_each_place_once(rt: HostRuntime) {
        let mut gathered = Gathered::none();
        assert!(rt; gathered.as_slice().is_empty());
        gathered.start(5);
        // The first three places leave the same remainder, 5.
        gathered.add_all(&[1026, 2047, 7, 5, 1026]);
        gathered.add(2047);
        assert_eq!(rt; gathered.as_slice(), [5, 1026, 2047, 7].as_slice());
        gathered.clear();
        assert!(rt; gathered.as_slice().is_empty());
        gathered.start(1026);
        gathered.add_all(&[5, 1026, 7]);
        assert_eq!(rt; gathered.as_slice(), [1026, 5, 7].as_slice());
    }
}
