//! The sites of a box of cells in a view, by their slots in a solver's list.

ghost use Rattle.std.specs.Prelude.{◌≡◌, ◌-◌, ◌<◌, ◌≤◌, IsTrue};
ghost use Rattle.spk_lattice.specs.Layout.{sites_of};
ghost use Rattle.spk_turn.specs.Slots.{AreSlots, IsSlotAt, interval_of, place_of, slot_count, slots_of};
ghost use Rattle.spk_lattice.specs.Boxes.{all_of};

use spk_lattice::{Style, basis_points};
use std::marker::Model;

/// Cells along a dimension of a view: how many there are, the box's first, and the one after the box's last.
#[derive(Clone, Copy, Debug)]
pub struct Along {
    pub cells: u32,
    pub from: u32,
    pub to: u32,
}

/// The sites of a box of cells in a view. A slot counts them, in the order of their places.
#[derive(Debug, Drop)]
pub struct Slots {
    style: Style,
    points: u32,
    x: Along,
    y: Along,
    z: Along,
    /// Whether the box has all cells. Then slots are places.
    all: bool,
}

impl Model for Slots {
    ghost use Rattle.std.specs.Prelude.{◌≡◌, IsTrue};
    ghost use Rattle.spk_lattice.specs.Boxes.{whole_box};
    ghost use Rattle.spk_lattice.specs.Layout.{basis_of};
    ghost use Rattle.spk_turn.specs.Slots.{BoxSlots, AreSlots, slots_of};

    ghost Value = { BoxSlots };

    ghost view = { λ s. slots_of s.style s.x s.y s.z };

    ghost invariant = { λ s. AreSlots (slots_of s.style s.x s.y s.z) × (basis_of s.style ≡ s.points)
        × (IsTrue s.all → (slots_of s.style s.x s.y s.z).cells ≡ whole_box (slots_of s.style s.x s.y s.z).view) };
}

impl Along {
    /// How many cells the box has.
    fn width(&self) -> u32
        requires { self.now.from ≤ self.now.to }
        ensures { result ≡ self.now.to - self.now.from }
    {
        self.to - self.from
    }

    /// Whether the box has all cells.
    fn has_all(&self) -> bool
        ensures { IsTrue result → interval_of self.now ≡ all_of self.now.cells }
    {
        self.from == 0 && self.to == self.cells
    }
}

impl Slots {
    /// The sites of a box of a view's cells.
    pub fn new(style: Style, x: Along, y: Along, z: Along) -> Slots
        requires { AreSlots (slots_of style x y z) }
        ensures { result ≡ slots_of style x y z }
    {
        let all = x.has_all() && y.has_all() && z.has_all();
        Slots {
            style,
            points: basis_points(style),
            x,
            y,
            z,
            all,
        }
    }

    /// What holds of all slots.
    pub fn known(&self)
        ensures { AreSlots self.now }
    {
        let _points = self.points;
    }

    /// How many sites there are.
    pub fn count(&self) -> usize
        ensures { result ≡ slot_count self.now }
    {
        let cells = u128::from(self.x.width())
            * u128::from(self.y.width())
            * u128::from(self.z.width());
        (u128::from(self.points) * cells) as usize
    }

    /// The place of the site with a slot.
    pub fn place(&self, slot: usize) -> usize
        requires { slot < slot_count self.now }
        ensures place { result ≡ place_of self.now slot }
        ensures inside { result < sites_of self.now.view }
    {
        if self.all {
            slot
        } else {
            self.place_in_box(slot)
        }
    }

    /// The slot of the site at a place, if the box has it.
    pub fn slot(&self, place: usize) -> Option<usize>
        requires { place < sites_of self.now.view }
        ensures { IsSlotAt self.now place result }
    {
        if self.all {
            Some(place)
        } else {
            self.slot_in_box(place)
        }
    }

    /// The place of the site with a slot, by its cell.
    fn place_in_box(&self, slot: usize) -> usize
        requires { slot < slot_count self.now }
        ensures place { result ≡ place_of self.now slot }
        ensures inside { result < sites_of self.now.view }
    {
        let points = self.points;
        let slot = slot as u32;
        let cell = slot / points;
        let wide = self.x.width();
        let high = self.y.width();
        let x = self.x.from + cell % wide;
        let y = self.y.from + cell / wide % high;
        let z = self.z.from + cell / wide / high;
        (slot % points + points * (x + self.x.cells * (y + self.y.cells * z))) as usize
    }

    /// The slot of the site at a place, by its cell.
    fn slot_in_box(&self, place: usize) -> Option<usize>
        requires { place < sites_of self.now.view }
        ensures { IsSlotAt self.now place result }
    {
        let points = self.points;
        let place = place as u32;
        let cell = place / points;
        let x = (cell % self.x.cells).checked_sub(self.x.from)?;
        let y = (cell / self.x.cells % self.y.cells).checked_sub(self.y.from)?;
        let z = (cell / self.x.cells / self.y.cells).checked_sub(self.z.from)?;
        let wide = self.x.width();
        let high = self.y.width();
        if x >= wide || y >= high || z >= self.z.width() {
            return None;
        }
        let slot = place % points + points * (x + wide * (y + high * z));
        Some(slot as usize)
    }
}
