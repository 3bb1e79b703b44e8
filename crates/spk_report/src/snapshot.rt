//! The text of a snapshot, piece by piece.

ghost use Rattle.std.specs.Prelude.{◌≡◌, ◌≤◌, ◌^◌, ◌<◌, length, flat_map, pos, vec_capacity};
ghost use Rattle.spk_num.specs.Decimal.{decimal_text};
ghost use Rattle.spk_lattice.specs.Neighbours.{IsId, point_of};
ghost use Rattle.spk_report.specs.Buffers.{Puts};
ghost use Rattle.spk_report.specs.Snapshots.{IsShown, bounds_text, box_text, coordinate, coordinate_text, count_text, field_name, field_text, fields_text, ids_of, name_text, next_text, row_text, scale_of, site_text, snapshot_text, step_text};

use crate::buffer::Buffer;
use crate::dump_head::DumpHead;
use crate::energy::site_energy;
use crate::item::Item;
use spk_lattice::Lattice;
use spk_num::decimal::Dec;
use spk_num::decimal_text::{DecText, print_ticks};
use spk_num::field::Field;
use spk_world::{Failed, World};

/// A snapshot that is put into a buffer before its file.
#[derive(Clone, Copy, Debug)]
pub struct Snapshot<'a> {
    pub head: DumpHead,
    pub lattice: Lattice,
    pub fields: &'a [Field],
    /// Those of all sites, in the order of ids.
    pub values: &'a [u32],
}

/// The word of a field.
fn name_of(field: Field) -> &'static [u8]
    ensures name { result.now ≡ field_name field }
    ensures short { length result.now ≤ 6 }
{
    match field {
        Field::Id => b"id",
        Field::Site => b"site",
        Field::I1 => b"i1",
        Field::X => b"x",
        Field::Y => b"y",
        Field::Z => b"z",
        Field::Energy => b"energy",
    }
}

/// So many millionths, with as many places as they need.
fn print_millionths(millionths: u64) -> DecText
    requires { millionths < 2 ^ 63 }
    ensures { result ≡ decimal_text (pos millionths) }
{
    let decimal = Dec {
        millionths: millionths as i64,
    };
    decimal.print()
}

/// Puts a blank and the name of a field.
fn put_name<W: World>(
    buffer: &mut Buffer,
    world: &mut W,
    file: &str,
    field: Field,
) -> Result<(), Failed>
    requires room { 4096 ≤ vec_capacity buffer.old.text }
    ensures puts { Puts file.now (name_text field) (W.state world.old) (W.state world.new) buffer.old.text.items buffer.new.text.items result }
    ensures room { 4096 ≤ vec_capacity buffer.new.text }
{
    buffer.put(world, file, b" ")?;
    buffer.put(world, file, name_of(field))
}

impl Snapshot<'_> {
    /// The millionths of a lattice unit.
    fn scale(&self) -> u64
        ensures { result ≡ scale_of self.now.head }
    {
        self.head.scale.millionths.unsigned_abs()
    }

    /// Puts all of the snapshot.
    #[tactic(auto, unfolding(crate::specs::Snapshots::snapshot_text))]
    pub fn put<W: World>(
        &self,
        buffer: &mut Buffer,
        world: &mut W,
        file: &str,
    ) -> Result<(), Failed>
        requires shown { IsShown self.now.head self.now.lattice self.now.values.now }
        requires room { 4096 ≤ vec_capacity buffer.old.text }
        ensures puts { Puts file.now (snapshot_text self.now.head self.now.lattice self.now.fields.now self.now.values.now) (W.state world.old) (W.state world.new) buffer.old.text.items buffer.new.text.items result }
        ensures room { 4096 ≤ vec_capacity buffer.new.text }
    {
        self.put_step(buffer, world, file)?;
        self.put_count(buffer, world, file)?;
        self.put_box(buffer, world, file)?;
        self.put_names(buffer, world, file)?;
        self.put_sites(buffer, world, file)
    }

    /// Puts which snapshot of its dump it is, and its time.
    #[tactic(auto, unfolding(crate::specs::Snapshots::step_text))]
    fn put_step<W: World>(
        &self,
        buffer: &mut Buffer,
        world: &mut W,
        file: &str,
    ) -> Result<(), Failed>
        requires room { 4096 ≤ vec_capacity buffer.old.text }
        ensures puts { Puts file.now (step_text self.now.head) (W.state world.old) (W.state world.new) buffer.old.text.items buffer.new.text.items result }
        ensures room { 4096 ≤ vec_capacity buffer.new.text }
    {
        buffer.put(world, file, Item::Timestep.text())?;
        buffer.put_number(world, file, self.head.number)?;
        buffer.put(world, file, b" ")?;
        buffer.put(world, file, print_ticks(self.head.time).as_bytes())?;
        buffer.put(world, file, b"\n")
    }

    /// Puts how many sites there are.
    #[tactic(auto, unfolding(crate::specs::Snapshots::count_text))]
    fn put_count<W: World>(
        &self,
        buffer: &mut Buffer,
        world: &mut W,
        file: &str,
    ) -> Result<(), Failed>
        requires room { 4096 ≤ vec_capacity buffer.old.text }
        ensures puts { Puts file.now (count_text self.now.lattice) (W.state world.old) (W.state world.new) buffer.old.text.items buffer.new.text.items result }
        ensures room { 4096 ≤ vec_capacity buffer.new.text }
    {
        buffer.put(world, file, Item::NumberOfAtoms.text())?;
        buffer.put_number(world, file, u64::from(self.lattice.sites()))?;
        buffer.put(world, file, b"\n")
    }

    /// Puts how far the box reaches.
    #[tactic(auto, unfolding(crate::specs::Snapshots::box_text))]
    fn put_box<W: World>(
        &self,
        buffer: &mut Buffer,
        world: &mut W,
        file: &str,
    ) -> Result<(), Failed>
        requires shown { IsShown self.now.head self.now.lattice self.now.values.now }
        requires room { 4096 ≤ vec_capacity buffer.old.text }
        ensures puts { Puts file.now (box_text self.now.head self.now.lattice) (W.state world.old) (W.state world.new) buffer.old.text.items buffer.new.text.items result }
        ensures room { 4096 ≤ vec_capacity buffer.new.text }
    {
        self.lattice.known();
        let [x, y, z] = self.lattice.extents();
        buffer.put(world, file, Item::BoxBounds.text())?;
        self.put_bounds(buffer, world, file, x)?;
        self.put_bounds(buffer, world, file, y)?;
        self.put_bounds(buffer, world, file, z)
    }

    /// Puts how far the box reaches along a dimension of so many cells.
    #[tactic(auto, unfolding(crate::specs::Snapshots::bounds_text))]
    fn put_bounds<W: World>(
        &self,
        buffer: &mut Buffer,
        world: &mut W,
        file: &str,
        cells: u32,
    ) -> Result<(), Failed>
        requires shown { IsShown self.now.head self.now.lattice self.now.values.now }
        requires cells { cells ≤ 4194304 }
        requires room { 4096 ≤ vec_capacity buffer.old.text }
        ensures puts { Puts file.now (bounds_text (scale_of self.now.head) cells) (W.state world.old) (W.state world.new) buffer.old.text.items buffer.new.text.items result }
        ensures room { 4096 ≤ vec_capacity buffer.new.text }
    {
        let bound = print_millionths(u64::from(cells) * self.scale());
        buffer.put(world, file, b"0 ")?;
        buffer.put(world, file, bound.as_bytes())?;
        buffer.put(world, file, b"\n")
    }

    /// Puts the names of the fields.
    #[tactic(auto, unfolding(crate::specs::Snapshots::fields_text))]
    fn put_names<W: World>(
        &self,
        buffer: &mut Buffer,
        world: &mut W,
        file: &str,
    ) -> Result<(), Failed>
        requires room { 4096 ≤ vec_capacity buffer.old.text }
        ensures puts { Puts file.now (fields_text self.now.fields.now) (W.state world.old) (W.state world.new) buffer.old.text.items buffer.new.text.items result }
        ensures room { 4096 ≤ vec_capacity buffer.new.text }
    {
        buffer.put(world, file, Item::Atoms.text())?;
        self.put_each_name(buffer, world, file)?;
        buffer.put(world, file, b"\n")
    }

    fn put_each_name<W: World>(
        &self,
        buffer: &mut Buffer,
        world: &mut W,
        file: &str,
    ) -> Result<(), Failed>
        requires room { 4096 ≤ vec_capacity buffer.old.text }
        ensures puts { Puts file.now (flat_map name_text self.now.fields.now) (W.state world.old) (W.state world.new) buffer.old.text.items buffer.new.text.items result }
        ensures room { 4096 ≤ vec_capacity buffer.new.text }
    {
        for field in self.fields {
            put_name(buffer, world, file, *field)?;
        }
        Ok(())
    }

    /// Puts the lines of all sites.
    fn put_sites<W: World>(
        &self,
        buffer: &mut Buffer,
        world: &mut W,
        file: &str,
    ) -> Result<(), Failed>
        requires shown { IsShown self.now.head self.now.lattice self.now.values.now }
        requires room { 4096 ≤ vec_capacity buffer.old.text }
        ensures puts { Puts file.now (flat_map (site_text self.now.head self.now.lattice self.now.fields.now self.now.values.now) (ids_of self.now.lattice)) (W.state world.old) (W.state world.new) buffer.old.text.items buffer.new.text.items result }
        ensures room { 4096 ≤ vec_capacity buffer.new.text }
    {
        for id in 1..=self.lattice.sites() {
            self.put_site(buffer, world, file, id)?;
        }
        Ok(())
    }

    /// Puts the line of a site.
    fn put_site<W: World>(
        &self,
        buffer: &mut Buffer,
        world: &mut W,
        file: &str,
        id: u32,
    ) -> Result<(), Failed>
        requires shown { IsShown self.now.head self.now.lattice self.now.values.now }
        requires id { IsId self.now.lattice id }
        requires room { 4096 ≤ vec_capacity buffer.old.text }
        ensures puts { Puts file.now (site_text self.now.head self.now.lattice self.now.fields.now self.now.values.now id) (W.state world.old) (W.state world.new) buffer.old.text.items buffer.new.text.items result }
        ensures room { 4096 ≤ vec_capacity buffer.new.text }
    {
        self.put_row(buffer, world, file, id)?;
        buffer.put(world, file, b"\n")
    }

    /// Puts the fields of a site.
    fn put_row<W: World>(
        &self,
        buffer: &mut Buffer,
        world: &mut W,
        file: &str,
        id: u32,
    ) -> Result<(), Failed>
        requires shown { IsShown self.now.head self.now.lattice self.now.values.now }
        requires id { IsId self.now.lattice id }
        requires room { 4096 ≤ vec_capacity buffer.old.text }
        ensures puts { Puts file.now (row_text self.now.head self.now.lattice self.now.values.now id self.now.fields.now) (W.state world.old) (W.state world.new) buffer.old.text.items buffer.new.text.items result }
        ensures room { 4096 ≤ vec_capacity buffer.new.text }
    {
        match self.fields {
            [] => Ok(()),
            [first, others @ ..] => {
                self.put_field(buffer, world, file, id, *first)?;
                self.put_others(buffer, world, file, id, others)
            }
        }
    }

    /// Puts the fields of a site after its first.
    fn put_others<W: World>(
        &self,
        buffer: &mut Buffer,
        world: &mut W,
        file: &str,
        id: u32,
        others: &[Field],
    ) -> Result<(), Failed>
        requires shown { IsShown self.now.head self.now.lattice self.now.values.now }
        requires id { IsId self.now.lattice id }
        requires room { 4096 ≤ vec_capacity buffer.old.text }
        ensures puts { Puts file.now (flat_map (next_text self.now.head self.now.lattice self.now.values.now id) others.now) (W.state world.old) (W.state world.new) buffer.old.text.items buffer.new.text.items result }
        ensures room { 4096 ≤ vec_capacity buffer.new.text }
    {
        for field in others {
            self.put_next(buffer, world, file, id, *field)?;
        }
        Ok(())
    }

    /// Puts a blank and a field of a site.
    fn put_next<W: World>(
        &self,
        buffer: &mut Buffer,
        world: &mut W,
        file: &str,
        id: u32,
        field: Field,
    ) -> Result<(), Failed>
        requires shown { IsShown self.now.head self.now.lattice self.now.values.now }
        requires id { IsId self.now.lattice id }
        requires room { 4096 ≤ vec_capacity buffer.old.text }
        ensures puts { Puts file.now (next_text self.now.head self.now.lattice self.now.values.now id field) (W.state world.old) (W.state world.new) buffer.old.text.items buffer.new.text.items result }
        ensures room { 4096 ≤ vec_capacity buffer.new.text }
    {
        buffer.put(world, file, b" ")?;
        self.put_field(buffer, world, file, id, field)
    }

    /// Puts a field of a site.
    fn put_field<W: World>(
        &self,
        buffer: &mut Buffer,
        world: &mut W,
        file: &str,
        id: u32,
        field: Field,
    ) -> Result<(), Failed>
        requires shown { IsShown self.now.head self.now.lattice self.now.values.now }
        requires id { IsId self.now.lattice id }
        requires room { 4096 ≤ vec_capacity buffer.old.text }
        ensures puts { Puts file.now (field_text self.now.head self.now.lattice self.now.values.now id field) (W.state world.old) (W.state world.new) buffer.old.text.items buffer.new.text.items result }
        ensures room { 4096 ≤ vec_capacity buffer.new.text }
    {
        match field {
            Field::X => self.put_coordinate(buffer, world, file, id, 0),
            Field::Y => self.put_coordinate(buffer, world, file, id, 1),
            Field::Z => self.put_coordinate(buffer, world, file, id, 2),
            Field::Id => buffer.put_number(world, file, u64::from(id)),
            Field::Site | Field::I1 => {
                buffer.put_number(world, file, u64::from(self.values[id as usize - 1]))
            }
            Field::Energy => {
                let energy = site_energy(self.head.energy, &self.lattice, self.values, id);
                buffer.put_number(world, file, energy)
            }
        }
    }

    /// Puts a coordinate of a site, rounded down to millionths.
    fn put_coordinate<W: World>(
        &self,
        buffer: &mut Buffer,
        world: &mut W,
        file: &str,
        id: u32,
        dimension: usize,
    ) -> Result<(), Failed>
        requires shown { IsShown self.now.head self.now.lattice self.now.values.now }
        requires id { IsId self.now.lattice id }
        requires dimension { dimension < 3 }
        requires room { 4096 ≤ vec_capacity buffer.old.text }
        ensures puts { Puts file.now (coordinate_text (scale_of self.now.head) (coordinate (point_of self.now.lattice id) dimension)) (W.state world.old) (W.state world.new) buffer.old.text.items buffer.new.text.items result }
        ensures room { 4096 ≤ vec_capacity buffer.new.text }
    {
        let half_units = self.lattice.point(id)[dimension].unsigned_abs();
        let coordinate = print_millionths(half_units * self.scale() / 2);
        buffer.put(world, file, coordinate.as_bytes())
    }
}
