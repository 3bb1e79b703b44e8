//! One region as it is stored.

ghost use Rattle.std.specs.Prelude.{◌≡◌, ◌<◌, false, not, ◌==◌, All, map, length, get_or};
ghost use Rattle.std.specs.List.{list_any, list_all};
ghost use Rattle.spk_lattice.specs.Shapes.{shape_holds, IsInRange, IsPoint};
ghost use Rattle.spk_lattice.specs.Regions.{block_in};

use super::block::Block;
use super::cylinder::Cylinder;
use super::sphere::Sphere;
use spk_num::shape::Shape;
use spk_num::text::Text;

/// The most regions.
pub(crate) const MOST_REGIONS: usize = 128;

/// A shape that has a name.
#[derive(Debug, Drop)]
pub struct NamedShape {
    pub name: Text,
    pub shape: Shape,
}

/// A region, with the places of its parts, which lie before it.
#[derive(Debug, Drop)]
pub struct Region {
    pub(crate) named: NamedShape,
    pub(crate) places: Vec<usize>,
}

impl Region {
    /// The block that it is.
    pub(crate) fn block(&self) -> Option<Block>
        ensures { result ≡ block_in self.now.named.shape }
    {
        match &self.named.shape {
            Shape::Block { lo, hi } => Some(Block { lo: *lo, hi: *hi }),
            _ => None,
        }
    }

    /// Whether it has parts.
    pub(crate) fn has_parts(&self) -> bool
        ensures { result ≡ not (length self.now.places.items == 0) }
    {
        !self.places.is_empty()
    }

    fn any_part(&self, answers: &[bool; MOST_REGIONS]) -> bool
        requires { All (λ place. place < 128) self.now.places.items }
        ensures { result ≡ list_any (λ place. get_or answers.now place false) self.now.places.items }
    {
        self.places.iter().any(|place| answers[*place])
    }

    fn all_parts(&self, answers: &[bool; MOST_REGIONS]) -> bool
        requires { All (λ place. place < 128) self.now.places.items }
        ensures { result ≡ list_all (λ place. get_or answers.now place false) self.now.places.items }
    {
        self.places.iter().all(|place| answers[*place])
    }

    /// Whether it holds a point, which is in half units. The answers are those of the regions before it, by their places.
    #[tactic(auto, using(crate::proofs::Answers::by_places))]
    pub(crate) fn holds(&self, answers: &[bool; MOST_REGIONS], point: [i64; 3]) -> bool
        requires places { All (λ place. place < 128) self.now.places.items }
        requires in_range { IsInRange self.now.named.shape }
        requires point { IsPoint point }
        ensures { result ≡ shape_holds (map (λ place. get_or answers.now place false) self.now.places.items) self.now.named.shape point }
    {
        match &self.named.shape {
            Shape::Block { lo, hi } => Block { lo: *lo, hi: *hi }.holds(point),
            Shape::Sphere { centre, radius } => Sphere {
                centre: *centre,
                radius: *radius,
            }
            .holds(point),
            Shape::Cylinder {
                axis,
                centre,
                radius,
                lo,
                hi,
            } => Cylinder {
                axis: *axis,
                centre: *centre,
                radius: *radius,
                lo: *lo,
                hi: *hi,
            }
            .holds(point),
            Shape::Union { .. } => self.any_part(answers),
            Shape::Intersect { .. } => self.all_parts(answers),
        }
    }
}
