//! The regions of a session: shapes by their names.

ghost use Rattle.std.specs.Prelude.{◌≡◌, ◌<◌, [], length, Some, None, IfOk, IfErr, IfSome, OnErr, false};
ghost use Rattle.std.specs.Option.{option_map};
ghost use Rattle.spk_num.specs.Results.{IsPlainOrMemory, result_with};
ghost use Rattle.spk_lattice.specs.Shapes.{parts_of, IsInRange, IsPoint};
ghost use Rattle.spk_lattice.specs.Regions.{place_of, name_at, block_named, IsNearBlock, holds, unknown_part, fault_of, added, is_memory, ArePlaces};

mod answer;
mod block;
mod cylinder;
mod fault;
mod lookup;
mod measure;
mod region;
mod shape;
mod sphere;

use answer::answer_at;
pub use block::Block;
pub use fault::RegionFault;
use lookup::{block_named, place_named};
use region::MOST_REGIONS;
pub use region::{NamedShape, Region};
use shape::{copy_shape, is_empty, parts_of};
use spk_num::shape::Shape;
use spk_num::text::Text;
use std::alloc::Global;
use std::marker::Model;

/// The most parts of a region.
const MOST_PARTS: usize = 16;

/// The regions in the order in which they were given, each with another name.
#[derive(Debug, Drop)]
pub struct Regions {
    regions: Vec<Region>,
}

impl Model for Regions {
    ghost use Rattle.std.specs.Prelude.{List};
    ghost use Rattle.spk_lattice.specs.declared.regions.region.NamedShape.{NamedShape};

    ghost Value = { List NamedShape };

    ghost use Rattle.spk_lattice.specs.Regions.{named_shapes, AreRegions};

    ghost view = { λ r. named_shapes r.regions.items };

    ghost invariant = { λ r. AreRegions r.regions.items };
}

impl Regions {
    /// No regions.
    pub fn new(alloc: Global) -> Regions
        ensures { result ≡ [] }
    {
        Regions {
            regions: Vec::new(alloc),
        }
    }

    /// How many regions there are.
    #[tactic(auto, using(crate::proofs::Stored::length_named))]
    pub fn len(&self) -> usize
        ensures { result ≡ length self.now }
    {
        self.regions.len()
    }

    /// The place of the region with this name, counted from 0.
    pub fn find(&self, name: &Text) -> Option<usize>
        ensures place { result ≡ place_of self.now name.now }
        ensures within { IfSome result (λ place. place < length self.now) }
        ensures named { IfSome result (λ place. name_at self.now place ≡ name.now) }
    {
        place_named(&self.regions, name)
    }

    /// The block with this name.
    pub fn block(&self, name: &Text) -> Option<Block>
        ensures block { result ≡ block_named self.now name.now }
        ensures near { IfSome result IsNearBlock }
    {
        block_named(&self.regions, name)
    }

    /// Whether the region at a place holds a point, which is in half units.
    pub fn holds_at(&self, place: usize, point: [i64; 3]) -> bool
        requires place { place < length self.now }
        requires point { IsPoint point }
        ensures { holds self.now (name_at self.now place) point ≡ Some result }
    {
        answer_at(&self.regions, place, point)
    }

    /// Whether the region with this name holds a point, which is in half units.
    pub fn holds(&self, name: &Text, point: [i64; 3]) -> Option<bool>
        requires { IsPoint point }
        ensures { result ≡ holds self.now name.now point }
    {
        let place = self.find(name)?;
        Some(self.holds_at(place, point))
    }

    /// The places of parts by their names.
    fn places_of(&self, alloc: Global, parts: &[Text]) -> Result<Vec<usize>, RegionFault>
        ensures known { IfOk result (λ places. unknown_part self.now parts.now ≡ None) }
        ensures places { IfOk result (λ places. ArePlaces self.now (length self.now) parts.now places.items) }
        ensures fault { IfErr result (λ fault. is_memory fault ≡ false → option_map RegionFault.Unknown (unknown_part self.now parts.now) ≡ Some fault) }
    {
        let mut places = Vec::new(alloc);
        for part in parts {
            let Some(place) = self.find(part) else {
                return Err(RegionFault::Unknown(Text::copy(alloc, part.as_str())?));
            };
            places.push(place)?;
        }
        Ok(places)
    }

    /// The places of the parts of a region that is to be added.
    fn places_for(
        &self,
        alloc: Global,
        name: &Text,
        shape: &Shape,
    ) -> Result<Vec<usize>, RegionFault>
        ensures known { IfOk result (λ places. fault_of self.now name.now shape.now ≡ None) }
        ensures places { IfOk result (λ places. ArePlaces self.now (length self.now) (parts_of shape.now) places.items) }
        ensures fault { IfErr result (λ fault. is_memory fault ≡ false → fault_of self.now name.now shape.now ≡ Some fault) }
    {
        if self.find(name).is_some() {
            return Err(RegionFault::Twice);
        }
        let parts = parts_of(shape);
        let places = self.places_of(alloc, parts)?;
        if is_empty(shape) {
            return Err(RegionFault::Empty);
        }
        if parts.len() > MOST_PARTS {
            return Err(RegionFault::TooManyParts);
        }
        if self.len() >= MOST_REGIONS {
            return Err(RegionFault::TooManyRegions);
        }
        Ok(places)
    }

    /// Why a region can't be added.
    pub fn judge(&self, alloc: Global, name: &Text, shape: &Shape) -> Result<(), RegionFault>
        ensures ok { IfOk result (λ _. fault_of self.now name.now shape.now ≡ None) }
        ensures fault { IfErr result (λ fault. is_memory fault ≡ false → fault_of self.now name.now shape.now ≡ Some fault) }
    {
        self.places_for(alloc, name, shape)?;
        Ok(())
    }

    /// Adds a region after the others. The regions stay as they were where it isn't added.
    pub fn add(&mut self, alloc: Global, name: &Text, shape: &Shape) -> Result<(), RegionFault>
        requires { IsInRange shape.now }
        ensures plain { IsPlainOrMemory is_memory (added self.old name.now shape.now) (result_with self.new result) }
        ensures kept { OnErr result (self.new ≡ self.old) }
    {
        let places = self.places_for(alloc, name, shape)?;
        let name = Text::copy(alloc, name.as_str())?;
        let shape = copy_shape(alloc, shape)?;
        let named = NamedShape { name, shape };
        self.regions.push(Region { named, places })?;
        Ok(())
    }
}

#[cfg(test)]
mod tests;
