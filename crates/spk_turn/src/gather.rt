//! The places to which few hops lead, each once.

ghost use Rattle.std.specs.Prelude.{◌≡◌, ◌≢◌, ℕ, ◌<◌, ◌≤◌, All, AllPairs, length, Contains, IsTrue};
ghost use Rattle.spk_lattice.specs.Hops.{IsMutual};
ghost use Rattle.spk_turn.specs.Reached.{IsNear, IsReached, ReachAtMost};

use crate::gathered::Gathered;
use spk_app::{Neighbours, View};

/// Gathers, besides those that are there, the places to which at most so many hops lead from one of them, each once.
pub fn gather<V: View>(view: &V, hops: u32, gathered: &mut Gathered)
    requires places { All (λ j. j < length (V.sight view.now).values) gathered.old }
    requires once { AllPairs (λ a b. a ≢ b) gathered.old }
    requires mutual { IsMutual (V.sight view.now).near (λ j. j < length (V.sight view.now).values) }
    requires whole { (k : ℕ) → IsTrue (V.whole view.now k) }
    requires room { ReachAtMost (V.sight view.now).near hops gathered.old 729 }
    ensures reached { IsReached (V.sight view.now).near hops gathered.old gathered.new }
    ensures covers { (j : ℕ) → IsNear (V.sight view.now).near hops gathered.old j → Contains gathered.new j }
    ensures at_most { (most : ℕ) → ReachAtMost (V.sight view.now).near hops gathered.old most → length gathered.new ≤ most }
{
    let mut near = Neighbours {
        count: 0,
        ids: [0; 26],
    };
    // The neighbours of the places before this one are there.
    let mut first = 0;
    'hops: for _ in 0..hops {
        let last = gathered.as_slice().len();
        for k in first..last {
            view.list_near(gathered.as_slice()[k], &mut near);
            gathered.add_all(near.as_slice());
        }
        first = last;
    }
}

#[cfg(test)]
mod tests {
    use super::*;
    use spk_app::PlainView;
    use spk_lattice::Lattice;
    use spk_num::Style;
    use std::test::Fail;

    #[test]
    fn gathers_around_the_middle_of_a_square(rt: HostRuntime) -> Result<(), Fail> {
        let lattice = Lattice::new(Style::Sq4, 5, 5, 1).ok().ok_or("a lattice")?;
        lattice.known();
        let sites = lattice.sites() as usize;
        assert!(rt; sites > 12);
        let view = PlainView::new(&lattice, vec![in rt.alloc(); 1; sites]?);
        let mut gathered = Gathered::none();
        for (hops, want) in [1, 5, 13, 21, 25].iter().enumerate() {
            gathered.start(12);
            gather(&view, hops as u32, &mut gathered);
            assert_eq!(rt; gathered.as_slice().len(), *want, "at {hops} hops");
        }
        gathered.start(12);
        gather(&view, 1, &mut gathered);
        for place in [7, 11, 12, 13, 17] {
            assert!(rt; gathered.as_slice().contains(&place), "at {place}");
        }
        Ok(())
    }
}
