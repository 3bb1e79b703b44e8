//! Whether the region at a place holds a point.

ghost use Rattle.std.specs.Prelude.{◌≡◌, ◌<◌, length, Some};
ghost use Rattle.spk_lattice.specs.Shapes.{IsPoint};
ghost use Rattle.spk_lattice.specs.Regions.{holds, name_at, named_shapes, AreRegions};

use super::region::{MOST_REGIONS, Region};

/// Whether the region at a place holds a point, which is in half units. Each region before it is asked at most once.
pub(crate) fn answer_at(regions: &[Region], place: usize, point: [i64; 3]) -> bool
    requires regions { AreRegions regions.now }
    requires place { place < length regions.now }
    requires point { IsPoint point }
    ensures { holds (named_shapes regions.now) (name_at (named_shapes regions.now) place) point ≡ Some result }
{
    let region = &regions[place];
    let mut answers = [false; MOST_REGIONS];
    if !region.has_parts() {
        return region.holds(&answers, point);
    }
    for k in 0..place {
        answers[k] = regions[k].holds(&answers, point);
    }
    region.holds(&answers, point)
}
