//! Blocks.

ghost use Rattle.std.specs.Prelude.{◌≡◌};
ghost use Rattle.spk_lattice.specs.Shapes.{block_holds, is_above, is_block_empty, IsPoint, AreNearBounds};

use super::measure::is_between;
use spk_num::shape::Bound;

/// A box with these bounds in each dimension, in lattice units. What lies on a bound is inside.
#[derive(Clone, Copy, Debug)]
pub struct Block {
    pub lo: [Bound; 3],
    pub hi: [Bound; 3],
}

/// Whether a low bound is above a high one.
pub(crate) fn is_above(low: &Bound, high: &Bound) -> bool
    ensures { result ≡ is_above low.now high.now }
{
    match (low, high) {
        (Bound::At(low), Bound::At(high)) => low.millionths > high.millionths,
        _ => false,
    }
}

impl Block {
    /// Whether no point can lie in it: in some dimension the low bound is above the high one.
    pub(crate) fn is_empty(&self) -> bool
        ensures { result ≡ is_block_empty self.now.lo self.now.hi }
    {
        is_above(&self.lo[0], &self.hi[0])
            || is_above(&self.lo[1], &self.hi[1])
            || is_above(&self.lo[2], &self.hi[2])
    }

    /// Whether it holds a point, which is in half units.
    pub(crate) fn holds(&self, point: [i64; 3]) -> bool
        requires lo { AreNearBounds self.now.lo }
        requires hi { AreNearBounds self.now.hi }
        requires point { IsPoint point }
        ensures { result ≡ block_holds self.now.lo self.now.hi point }
    {
        is_between(&self.lo[0], &self.hi[0], point[0])
            && is_between(&self.lo[1], &self.hi[1], point[1])
            && is_between(&self.lo[2], &self.hi[2], point[2])
    }
}
