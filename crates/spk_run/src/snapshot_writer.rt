//! Snapshots on their way to their files.

ghost use Rattle.std.specs.Prelude.{◌≡◌, ◌≤◌, ◌<◌, ◌+◌, ◌*◌, ◌^◌, ℕ, List, All, true, IfOk, string_bytes, vec_capacity};
ghost use Rattle.std.specs.String.{string_capacity};
ghost use Rattle.spk_world.specs.Outside.{adds};
ghost use Rattle.spk_world.specs.Effects.{Wrote, writes};
ghost use Rattle.spk_lattice.specs.Layout.{sites_of};
ghost use Rattle.spk_report.specs.Output.{failed_stop};
ghost use Rattle.spk_report.specs.Snapshots.{scale_of};
ghost use Rattle.spk_report.specs.Pieces.{ArePieces, AreValuesOf, one_rank};
ghost use Rattle.spk_run.specs.Dumps.{file_of, head_of, is_of_sites, snapshot_events, starts_if, text_by};
ghost use Rattle.spk_run.specs.Snapshots.{CanWrite, HasRoomForDumps, HasSitesRoom, scene_at};

use crate::dump::{Dump, NAME_ROOM};
use crate::dumps::Dumps;
use crate::scale::Scale;
use spk_cmds::DumpStyle;
use spk_lattice::Lattice;
use spk_num::text::Text;
use spk_report::{DumpHead, Report, sites_write};
use spk_sched::{EnergyKind, Grid, Letter, Sectors};
use spk_world::{Failed, World};
use std::alloc::{AllocError, Global};
use std::mem;

/// Room for a part of a text, in bytes.
const TEXT_ROOM: usize = 65536;

/// Room for a site file before its sites, and for the line of each site, in bytes.
const HEAD_ROOM: usize = 80;

const SITE_ROOM: usize = 19;

/// What all snapshots of a run show beside values, and the room in which their texts and the names of their files are made.
#[derive(Debug, Drop)]
pub struct SnapshotWriter {
    pub sectors: Sectors,
    pub scale: Scale,
    pub energy: EnergyKind,
    pub report: Report,
    /// The name of a snapshot's file.
    pub name: String,
    /// A site file, where a dump writes any.
    pub text: Vec<u8>,
    pub alloc: Global,
}

/// One rank with one sector on a lattice.
fn one_sector(lattice: &Lattice) -> Sectors
    ensures lattice { result.grid.lattice ≡ lattice.now }
    ensures ranks { result.grid.ranks ≡ one_rank }
{
    Grid::new(lattice, [1; 3]).unwrap().whole()
}

/// Starts a file where it is to be started.
fn start_file<W: World>(world: &mut W, name: &str, starting: bool) -> Result<(), Failed>
    ensures { Wrote (failed_stop name.now) (W.state world.old) (W.state world.new) (writes (starts_if starting name.now)) result }
{
    if !starting {
        return Ok(());
    }
    match world.start(name) {
        Ok(()) => Ok(()),
        Err(failed) => Err(failed),
    }
}

/// What holds of all values.
fn known_values(values: &[u32])
    ensures { All (λ value. value < 2 ^ 32) values.now }
{
    let _count = values.len();
}

impl SnapshotWriter {
    /// A writer for the snapshots of dumps on a lattice.
    pub fn new(
        alloc: Global,
        lattice: &Lattice,
        scale: Scale,
        energy: EnergyKind,
        dumps: &Dumps,
    ) -> Result<SnapshotWriter, AllocError>
        ensures can_write { IfOk result CanWrite }
        ensures lattice { IfOk result (λ writer. writer.sectors.grid.lattice ≡ lattice.now) }
        ensures scale { IfOk result (λ writer. writer.scale ≡ scale) }
        ensures energy { IfOk result (λ writer. writer.energy ≡ energy) }
        ensures room { IfOk result (λ writer. HasRoomForDumps writer dumps.now) }
    {
        lattice.known();
        let text_room = if dumps.has_sites_dump() {
            HEAD_ROOM + SITE_ROOM * lattice.sites() as usize
        } else {
            0
        };
        Ok(SnapshotWriter {
            sectors: one_sector(lattice),
            scale,
            energy,
            report: Report::new(alloc, lattice, TEXT_ROOM)?,
            name: String::with_capacity(alloc, NAME_ROOM)?,
            text: Vec::with_capacity(alloc, text_room)?,
            alloc,
        })
    }

    /// What a snapshot has before its sites.
    fn head(&self, dump: &Dump, time: u64) -> DumpHead
        ensures head { (values : List ℕ) → result ≡ head_of (scene_at self.now time values) dump.now }
        ensures some { 0 < scale_of result }
        ensures limit { scale_of result ≤ 1000000000000 }
    {
        DumpHead {
            number: dump.state().number,
            time,
            scale: self.scale.dec(),
            energy: self.energy,
        }
    }

    /// Adds the text of a snapshot to the file whose name is written.
    fn put_text<W: World>(
        &mut self,
        world: &mut W,
        dump: &Dump,
        time: u64,
        pieces: &[Letter],
    ) -> Result<(), Failed>
        requires can_write { CanWrite self.old }
        requires room { is_of_sites dump.now.style ≡ true → HasSitesRoom self.old }
        requires pieces { ArePieces self.old.sectors pieces.now }
        ensures wrote { (values : List ℕ) → AreValuesOf self.old.sectors pieces.now values →
            Wrote (failed_stop (string_bytes self.old.name)) (W.state world.old) (W.state world.new)
            (writes (adds (string_bytes self.old.name) (text_by dump.now.style (scene_at self.old time values) dump.now))) result }
        ensures same { self.new ≡ record self.old { report = self.new.report; text = self.new.text } }
        ensures report { self.new.report ≡ self.old.report }
        ensures room { vec_capacity self.old.text ≤ vec_capacity self.new.text }
    {
        let head = self.head(dump, time);
        match dump.state().style {
            DumpStyle::Text => {
                let fields = dump.state().fields.as_slice();
                match self
                    .report
                    .dump_text(world, &self.name, &head, fields, &self.sectors, pieces)
                {
                    Ok(()) => Ok(()),
                    Err(_) => Err(Failed),
                }
            }
            DumpStyle::Sites => {
                known_values(pieces[0].values.as_slice());
                sites_write(
                    world,
                    &self.name,
                    time,
                    &self.sectors,
                    pieces,
                    &mut self.text,
                )
            }
        }
    }

    /// Writes a snapshot of a dump to its file, whose name is there afterwards.
    pub fn write<W: World>(
        &mut self,
        world: &mut W,
        dump: &Dump,
        time: u64,
        pieces: &[Letter],
    ) -> Result<(), Failed>
        requires can_write { CanWrite self.old }
        requires room { is_of_sites dump.now.style ≡ true → HasSitesRoom self.old }
        requires pieces { ArePieces self.old.sectors pieces.now }
        ensures wrote { (values : List ℕ) → AreValuesOf self.old.sectors pieces.now values →
            Wrote (failed_stop (file_of dump.now)) (W.state world.old) (W.state world.new)
            (writes (snapshot_events (scene_at self.old time values) dump.now)) result }
        ensures name { string_bytes self.new.name ≡ file_of dump.now }
        ensures can_write { CanWrite self.new }
        ensures same { self.new ≡ record self.old { report = self.new.report; name = self.new.name; text = self.new.text } }
        ensures report { self.new.report ≡ self.old.report }
        ensures room { vec_capacity self.old.text ≤ vec_capacity self.new.text }
    {
        dump.write_name(&mut self.name);
        start_file(world, &self.name, dump.starts_file())?;
        self.put_text(world, dump, time, pieces)
    }

    /// The name that it has written. Afterwards it can't write snapshots.
    pub fn take_name(&mut self) -> Text
        ensures name { result ≡ string_bytes self.old.name }
        ensures same { self.new ≡ record self.old { name = self.new.name } }
    {
        Text::from_string(mem::replace(&mut self.name, String::new(self.alloc)))
    }
}
