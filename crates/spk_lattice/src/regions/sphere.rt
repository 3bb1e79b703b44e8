//! Spheres.

ghost use Rattle.std.specs.Prelude.{◌≡◌};
ghost use Rattle.spk_lattice.specs.Shapes.{decimal_at, sphere_holds, IsNear, IsPoint, IsRadius};

use super::measure::{square_from, square_of};
use spk_num::decimal::Dec;

/// A sphere, in lattice units. What lies on its surface is inside.
#[derive(Clone, Copy, Debug)]
pub(crate) struct Sphere {
    pub(crate) centre: [Dec; 3],
    pub(crate) radius: Dec,
}

impl Sphere {
    /// Whether it holds a point, which is in half units.
    pub(crate) fn holds(&self, point: [i64; 3]) -> bool
        requires x { IsNear (decimal_at self.now.centre 0) }
        requires y { IsNear (decimal_at self.now.centre 1) }
        requires z { IsNear (decimal_at self.now.centre 2) }
        requires radius { IsRadius self.now.radius }
        requires point { IsPoint point }
        ensures { result ≡ sphere_holds self.now.centre self.now.radius point }
    {
        let x = square_from(self.centre[0], point[0]);
        let y = square_from(self.centre[1], point[1]);
        let z = square_from(self.centre[2], point[2]);
        x + y + z <= square_of(self.radius)
    }
}
