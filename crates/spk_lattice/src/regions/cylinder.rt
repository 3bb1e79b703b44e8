//! Cylinders along an axis.

ghost use Rattle.std.specs.Prelude.{◌≡◌, ◌≤◌, ◌∷◌, []};
ghost use Rattle.spk_lattice.specs.Shapes.{coordinate, first_across, second_across, decimal_at, cylinder_holds, IsNear, IsNearBound, IsPoint, IsRadius};

use super::measure::{is_between, square_from, square_of};
use spk_num::decimal::Dec;
use spk_num::shape::Bound;

/// A cylinder along x, y or z, which are 0, 1 and 2. The centre is that in the other two dimensions, in their order.
#[derive(Clone, Copy, Debug)]
pub(crate) struct Cylinder {
    pub(crate) axis: u32,
    pub(crate) centre: [Dec; 2],
    pub(crate) radius: Dec,
    pub(crate) lo: Bound,
    pub(crate) hi: Bound,
}

/// The coordinates of a point across an axis, in their order, and then that along it.
fn turned(axis: u32, point: [i64; 3]) -> [i64; 3]
    requires { axis ≤ 2 }
    ensures { result ≡ coordinate point (first_across axis) ∷ coordinate point (second_across axis) ∷ coordinate point axis ∷ [] }
{
    match axis {
        0 => [point[1], point[2], point[0]],
        1 => [point[0], point[2], point[1]],
        _ => [point[0], point[1], point[2]],
    }
}

impl Cylinder {
    /// Whether it holds a point, which is in half units.
    pub(crate) fn holds(&self, point: [i64; 3]) -> bool
        requires axis { self.now.axis ≤ 2 }
        requires first { IsNear (decimal_at self.now.centre 0) }
        requires second { IsNear (decimal_at self.now.centre 1) }
        requires radius { IsRadius self.now.radius }
        requires low { IsNearBound self.now.lo }
        requires high { IsNearBound self.now.hi }
        requires point { IsPoint point }
        ensures { result ≡ cylinder_holds self.now.axis self.now.centre self.now.radius self.now.lo self.now.hi point }
    {
        let [first, second, along] = turned(self.axis, point);
        let first = square_from(self.centre[0], first);
        let second = square_from(self.centre[1], second);
        first + second <= square_of(self.radius) && is_between(&self.lo, &self.hi, along)
    }
}
