//! The places that an event changes.

ghost use Rattle.std.specs.Prelude.{◌≡◌, ◌≢◌, ℕ, ◌<◌, ◌≤◌, All, AllPairs, Contains, IsTrue, length, slice_index};
ghost use Rattle.spk_lattice.specs.Hops.{IsMutual, ReachesAtMost};
ghost use Rattle.spk_turn.specs.Noted.{AreNoted, IsChanged};

use crate::gather::gather;
use crate::gathered::{Gathered, MOST};
use spk_app::View;

/// The places that an event may change, the values that they had before it, and the places that it did change.
#[derive(Debug, Drop)]
pub struct Changes {
    pub places: Gathered,
    pub before: [u32; MOST],
    pub changed: Gathered,
}

/// Notes the values of some places.
fn note_values<V: View>(view: &V, places: &[usize], values: &mut [u32; MOST])
    requires few { length places.now ≤ 729 }
    requires inside { All (λ j. j < length (V.sight view.now).values) places.now }
    ensures { (k : ℕ) → k < length places.now →
        slice_index values.new k ≡ slice_index (V.sight view.now).values (slice_index places.now k) }
{
    for (k, place) in places.iter().enumerate() {
        values[k] = view.value(*place);
    }
}

/// Gathers those of some places that have other values than were noted.
fn gather_changed<V: View>(view: &V, places: &[usize], before: &[u32; MOST], changed: &mut Gathered)
    requires few { length places.now ≤ 729 }
    requires inside { All (λ j. j < length (V.sight view.now).values) places.now }
    ensures all { (k : ℕ) → k < length places.now →
        slice_index before.now k ≢ slice_index (V.sight view.now).values (slice_index places.now k) →
        Contains changed.new (slice_index places.now k) }
    ensures other { All (IsChanged (V.sight view.now).values places.now before.now) changed.new }
    ensures once { AllPairs (λ a b. a ≢ b) changed.new }
{
    changed.clear();
    for (k, place) in places.iter().enumerate() {
        if view.value(*place) != before[k] {
            changed.add(*place);
        }
    }
}

impl Changes {
    /// No places.
    pub fn none() -> Changes {
        Changes {
            places: Gathered::none(),
            before: [0; MOST],
            changed: Gathered::none(),
        }
    }

    /// Notes the values of the places to which at most so many hops lead from a place.
    pub fn note<V: View>(&mut self, view: &V, origin: usize, hops: u32)
        requires place { origin < length (V.sight view.now).values }
        requires mutual { IsMutual (V.sight view.now).near (λ j. j < length (V.sight view.now).values) }
        requires whole { (k : ℕ) → IsTrue (V.whole view.now k) }
        requires room { ReachesAtMost (V.sight view.now).near hops origin 729 }
        ensures { AreNoted (V.sight view.now).near (V.sight view.now).values hops origin self.new }
    {
        self.places.start(origin);
        gather(view, hops, &mut self.places);
        note_values(view, self.places.as_slice(), &mut self.before);
    }

    /// Finds the places that have other values now.
    pub fn find<V: View>(&mut self, view: &V)
        requires { All (λ j. j < length (V.sight view.now).values) self.old.places }
        ensures all { (k : ℕ) → k < length self.old.places →
            slice_index self.old.before k ≢ slice_index (V.sight view.now).values (slice_index self.old.places k) →
            Contains self.new.changed (slice_index self.old.places k) }
        ensures other { All (IsChanged (V.sight view.now).values self.old.places self.old.before) self.new.changed }
        ensures once { AllPairs (λ a b. a ≢ b) self.new.changed }
    {
        gather_changed(
            view,
            self.places.as_slice(),
            &self.before,
            &mut self.changed,
        );
    }
}

#[cfg(test)]
mod tests {
    use super::*;
    use spk_app::PlainView;
    use spk_lattice::Lattice;
    use spk_num::Style;
    use std::test::Fail;

    #[test]
    fn finds_what_changed_on_a_square(rt: HostRuntime) -> Result<(), Fail> {
        let lattice = Lattice::new(Style::Sq4, 5, 5, 1).ok().ok_or("a lattice")?;
        lattice.known();
        let sites = lattice.sites() as usize;
        assert!(rt; sites > 17);
        let mut view = PlainView::new(&lattice, vec![in rt.alloc(); 1; sites]?);
        let mut changes = Changes::none();
        changes.note(&view, 12, 1);
        assert_eq!(rt; changes.places.as_slice().len(), 5);
        view.put(17, 2);
        view.put(7, 3);
        // Two hops away, so not noted.
        view.put(2, 2);
        changes.find(&view);
        assert_eq!(rt; changes.changed.as_slice().len(), 2);
        for place in [7, 17] {
            assert!(rt; changes.changed.as_slice().contains(&place), "at {place}");
        }
        Ok(())
    }
}
