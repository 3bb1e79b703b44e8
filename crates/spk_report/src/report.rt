//! The texts of a run, and the room in which they are made.

ghost use Rattle.std.specs.Prelude.{◌≡◌, ◌≤◌, ◌<◌, ℕ, [], List, IfErr, IfOk};
ghost use Rattle.spk_world.specs.Outside.{adds, says};
ghost use Rattle.spk_world.specs.Effects.{Wrote, writes};
ghost use Rattle.spk_report.specs.Output.{IsTroubleOf, failed_stop, log_name, logs, name_of, prints, trouble_stop};
ghost use Rattle.spk_report.specs.Pieces.{ArePieces, AreValuesOf, one_rank};
ghost use Rattle.spk_report.specs.Snapshots.{scale_of, snapshot_text};
ghost use Rattle.spk_report.specs.Statistics.{statistics_text};

use crate::buffer::Buffer;
use crate::dump_head::DumpHead;
use crate::snapshot::Snapshot;
use crate::stats_line::StatsLine;
use crate::write_trouble::WriteTrouble;
use spk_lattice::Lattice;
use spk_num::field::Field;
use spk_sched::{Letter, Sectors};
use spk_world::{Failed, World};
use std::alloc::{AllocError, Global};
use std::marker::Model;

/// The texts of runs on a lattice, with room for a part of one.
#[derive(Debug, Drop)]
pub struct Report {
    lattice: Lattice,
    buffer: Buffer,
}

impl Model for Report {
    ghost use Rattle.std.specs.Prelude.{◌≤◌, vec_capacity};
    ghost use Rattle.spk_lattice.specs.Layout.{Layout};

    ghost Value = { Layout };

    ghost view = { λ r. r.lattice };

    ghost invariant = { λ r. 4096 ≤ vec_capacity r.buffer.text };
}

/// Writes a text to the screen.
fn say<W: World>(world: &mut W, text: &[u8]) -> Result<(), WriteTrouble>
    ensures screen { IfErr result (λ trouble. trouble ≡ WriteTrouble.Screen) }
    ensures wrote { (name : List ℕ) → Wrote (trouble_stop name) (W.state world.old) (W.state world.new) (writes (says text.now)) result }
{
    if text.is_empty() {
        return Ok(());
    }
    match world.say(text) {
        Ok(()) => Ok(()),
        Err(_) => Err(WriteTrouble::Screen),
    }
}

/// Adds a text to a file.
fn add<W: World>(world: &mut W, file: &str, text: &[u8]) -> Result<(), WriteTrouble>
    ensures { Wrote (trouble_stop file.now) (W.state world.old) (W.state world.new) (writes (adds file.now text.now)) result }
{
    if text.is_empty() {
        return Ok(());
    }
    match world.add(file, text) {
        Ok(()) => Ok(()),
        Err(_) => Err(WriteTrouble::File),
    }
}

/// Adds a text to the log, where there is one.
fn add_to_log<W: World>(world: &mut W, log: Option<&str>, text: &[u8]) -> Result<(), WriteTrouble>
    ensures log { IfErr result (IsTroubleOf (name_of log.entry)) }
    ensures wrote { Wrote (trouble_stop (log_name (name_of log.entry))) (W.state world.old) (W.state world.new) (logs (name_of log.entry) text.now) result }
{
    match log {
        Some(name) => add(world, name, text),
        None => Ok(()),
    }
}

impl Report {
    /// The texts of runs on a lattice, with this room in bytes.
    pub fn new(alloc: Global, lattice: &Lattice, capacity: usize) -> Result<Report, AllocError>
        requires least { 4096 ≤ capacity }
        requires most { capacity ≤ 4294967296 }
        ensures { IfOk result (λ report. report ≡ lattice.now) }
    {
        Ok(Report {
            lattice: *lattice,
            buffer: Buffer::new(alloc, capacity)?,
        })
    }

    /// Writes a line of statistics to the screen, and then to the log.
    pub fn stats_line<W: World>(
        &mut self,
        world: &mut W,
        log: Option<&str>,
        line: &StatsLine,
    ) -> Result<(), WriteTrouble>
        ensures wrote { Wrote (trouble_stop (log_name (name_of log.entry))) (W.state world.old) (W.state world.new) (prints (name_of log.entry) (statistics_text line.now)) result }
        ensures log { IfErr result (IsTroubleOf (name_of log.entry)) }
        ensures same { self.new ≡ self.old }
    {
        line.write(&mut self.buffer.text);
        let text = self.buffer.text.as_slice();
        say(world, text)?;
        add_to_log(world, log, text)
    }

    /// Adds a snapshot to a file by its parts.
    fn write_snapshot<W: World>(
        &mut self,
        world: &mut W,
        file: &str,
        head: &DumpHead,
        fields: &[Field],
        sectors: &Sectors,
        pieces: &[Letter],
    ) -> Result<(), Failed>
        requires some { 0 < scale_of head.now }
        requires limit { scale_of head.now ≤ 1000000000000 }
        requires lattice { sectors.now.grid.lattice ≡ self.old }
        requires one_rank { sectors.now.grid.ranks ≡ one_rank }
        requires pieces { ArePieces sectors.now pieces.now }
        ensures wrote { (values : List ℕ) → AreValuesOf sectors.now pieces.now values →
            Wrote (failed_stop file.now) (W.state world.old) (W.state world.new) (writes (adds file.now (snapshot_text head.now self.old fields.now values))) result }
        ensures same { self.new ≡ self.old }
    {
        self.lattice.known();
        let snapshot = Snapshot {
            head: *head,
            lattice: self.lattice,
            fields,
            values: pieces[0].values.as_slice(),
        };
        self.buffer.text.clear();
        snapshot.put(&mut self.buffer, world, file)?;
        self.buffer.flush(world, file)
    }

    /// Adds a snapshot to a file.
    pub fn dump_text<W: World>(
        &mut self,
        world: &mut W,
        file: &str,
        head: &DumpHead,
        fields: &[Field],
        sectors: &Sectors,
        pieces: &[Letter],
    ) -> Result<(), WriteTrouble>
        requires some { 0 < scale_of head.now }
        requires limit { scale_of head.now ≤ 1000000000000 }
        requires lattice { sectors.now.grid.lattice ≡ self.old }
        requires one_rank { sectors.now.grid.ranks ≡ one_rank }
        requires pieces { ArePieces sectors.now pieces.now }
        ensures file { IfErr result (λ trouble. trouble ≡ WriteTrouble.File) }
        ensures wrote { (values : List ℕ) → AreValuesOf sectors.now pieces.now values →
            Wrote (trouble_stop file.now) (W.state world.old) (W.state world.new) (writes (adds file.now (snapshot_text head.now self.old fields.now values))) result }
        ensures same { self.new ≡ self.old }
    {
        self.write_snapshot(world, file, head, fields, sectors, pieces)?;
        Ok(())
    }
}
