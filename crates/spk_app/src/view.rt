//! Views: sites with their values, by places of the view's own.

ghost use Rattle.std.specs.Prelude.{◌≡◌, ℕ, ◌<◌, ◌≤◌, ◌==◌, ◌&&◌, not, count_by, length, slice_index, All, List, Bool, IsTrue, []};
ghost use Rattle.spk_lattice.specs.Neighbours.{ids_of};
ghost use Rattle.spk_app.specs.Sights.{Sight, values_near, with_value};

use crate::near_values::NearValues;
use spk_lattice::Neighbours;

/// Sites with their values. A place counts from 0.
pub trait View {
    /// The values by place, and the places beside each place.
    ghost sight: { Self → Sight };

    /// What the view was made with.
    ghost frame: { Self → List ℕ };

    /// All neighbours of this place are in the view.
    ghost whole: { Self → ℕ → Bool };

    /// The value at this place.
    fn value(&self, i: usize) -> u32
        requires { i < length (sight self.now).values }
        ensures { result ≡ slice_index (sight self.now).values i };

    /// Gives this place a value.
    fn put(&mut self, i: usize, v: u32)
        requires { i < length (sight self.old).values }
        ensures sight { sight self.new ≡ with_value i v (sight self.old) }
        ensures frame { frame self.new ≡ frame self.old }
        ensures whole { whole self.new ≡ whole self.old };

    /// The places beside this one, in the order of the lattice.
    fn neighbours(&self, i: usize) -> Neighbours
        requires place { i < length (sight self.now).values }
        requires whole { IsTrue (whole self.now i) }
        ensures few { result.count ≤ 26 }
        ensures ids { ids_of result ≡ (sight self.now).near i }
        ensures inside { All (λ j. j < length (sight self.now).values) ((sight self.now).near i) };

    /// Lists the places beside this one, as `neighbours` does, in a list that the caller has.
    fn list_near(&self, i: usize, near: &mut Neighbours)
        requires place { i < length (sight self.now).values }
        requires whole { IsTrue (whole self.now i) }
        ensures few { near.new.count ≤ 26 }
        ensures ids { ids_of near.new ≡ (sight self.now).near i }
        ensures inside { All (λ j. j < length (sight self.now).values) ((sight self.now).near i) }
    {
        *near = self.neighbours(i);
    }

    /// Reads the values at these places, at once.
    fn read_near(&self, i: usize, near: &mut NearValues)
        requires place { i < length (sight self.now).values }
        requires whole { IsTrue (whole self.now i) }
        requires empty { near.old ≡ [] }
        ensures { near.new ≡ values_near (sight self.now) i }
    {
        let places = self.neighbours(i);
        for j in places.as_slice() {
            near.push(self.value(*j as usize));
        }
    }

    /// How many of the places beside this one have this value, but for one place that isn't counted.
    fn count_near(&self, i: usize, value: u32, but: usize) -> u32
        requires place { i < length (sight self.now).values }
        requires whole { IsTrue (whole self.now i) }
        ensures count { result ≡ count_by (λ j. not (j == but) && (slice_index (sight self.now).values j == value)) ((sight self.now).near i) }
        ensures few { result ≤ 26 }
    {
        let places = self.neighbours(i);
        let mut count = 0;
        for j in places.as_slice() {
            let place = *j as usize;
            let has_value = self.value(place) == value;
            count += u32::from(place != but && has_value);
        }
        count
    }
}
