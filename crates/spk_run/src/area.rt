//! Which sites a command speaks of.

ghost use Rattle.std.specs.Prelude.{◌≡◌, ◌<◌, ℕ, List, Option, length};
ghost use Rattle.spk_lattice.specs.Neighbours.{IsId};
ghost use Rattle.spk_run.specs.Areas.{IsArea, HasPlace};
ghost use Rattle.spk_run.specs.Commands.Set.{is_in};

use spk_lattice::{Lattice, Regions};
use spk_num::text::Text;

/// Which sites a command speaks of. A region is named by its place.
#[derive(Clone, Copy, Debug)]
pub enum Area {
    All,
    Region(usize),
    /// No region has the name that was given.
    None,
}

impl Area {
    /// The sites of the region with this name, or all where none is named.
    pub fn of(regions: &Regions, name: &Option<Text>) -> Area
        ensures area { IsArea regions.now name.now result }
        ensures place { HasPlace regions.now result }
    {
        let Some(name) = name else {
            return Area::All;
        };
        match regions.find(name) {
            Some(place) => Area::Region(place),
            None => Area::None,
        }
    }

    /// Whether the site with this id is one of them.
    pub fn holds(self, regions: &Regions, lattice: &Lattice, id: u32) -> bool
        requires place { HasPlace regions.now self }
        requires id { IsId lattice.now id }
        ensures { (name : Option (List ℕ)) → IsArea regions.now name self → result ≡ is_in regions.now lattice.now name id }
    {
        match self {
            Area::All => true,
            Area::Region(place) => regions.holds_at(place, lattice.point(id)),
            Area::None => false,
        }
    }
}
