//! What a run writes, one text after another.

ghost use Rattle.std.specs.Prelude.{◌≡◌, false, is_err, List, Ok, Option, ℕ};
ghost use Rattle.spk_world.specs.Effects.{Effect, writes};
ghost use Rattle.spk_world.specs.States.{WorldState};
ghost use Rattle.spk_report.specs.Output.{prints};
ghost use Rattle.spk_report.specs.Pieces.{ArePieces, AreValuesOf};
ghost use Rattle.spk_report.specs.Statistics.{statistics_text};
ghost use Rattle.spk_run.specs.Dumps.{dump_events, dumps_events, snapshot_events};
ghost use Rattle.spk_run.specs.Snapshots.{HasRoomForDumps, HasTextRoom, ShowsAs, scene_at};
ghost use Rattle.spk_run.specs.Telling.{CanTell, Tells};

use crate::answer::Target;
use crate::dump::Dump;
use crate::dumps::Dumps;
use crate::output::Output;
use crate::snapshot_writer::SnapshotWriter;
use spk_report::StatsLine;
use spk_sched::Letter;
use spk_world::World;

/// Writes the texts of a run to the screen, the log and the files of dumps. After the first write that failed it writes
/// no more.
#[derive(Debug, Drop)]
pub struct Teller {
    pub output: Output,
    pub writer: SnapshotWriter,
    /// Whether all writes so far were done, and else which failed first.
    pub written: Result<(), Target>,
}

impl Teller {
    /// A teller that has told nothing yet.
    pub fn new(output: Output, writer: SnapshotWriter) -> Teller
        ensures output { result.output ≡ output }
        ensures writer { result.writer ≡ writer }
        ensures written { result.written ≡ Ok tt }
    {
        Teller {
            output,
            writer,
            written: Ok(()),
        }
    }

    /// Writes one more text, where no write has failed.
    pub fn tell<W: World>(&mut self, world: &mut W, text: &[u8])
        ensures telling { (log : Option (List ℕ)) → Tells log (prints log text.now) (W.state world.old) (W.state world.new) self.old self.new }
        ensures writer { self.new.writer ≡ self.old.writer }
        ensures can_tell { CanTell self.old → CanTell self.new }
    {
        if self.written.is_err() {
            return;
        }
        self.written = self.output.print(world, text);
    }

    /// Writes a line of statistics, where no write has failed.
    pub fn tell_line<W: World>(&mut self, world: &mut W, line: &StatsLine)
        ensures telling { (log : Option (List ℕ)) → Tells log (prints log (statistics_text line.now)) (W.state world.old) (W.state world.new) self.old self.new }
        ensures writer { self.new.writer ≡ self.old.writer }
        ensures can_tell { CanTell self.old → CanTell self.new }
    {
        if self.written.is_err() {
            return;
        }
        self.written = self.output.print_line(world, &mut self.writer.report, line);
    }

    /// Writes a snapshot of a dump, where no write has failed.
    fn tell_snapshot<W: World>(&mut self, world: &mut W, dump: &Dump, time: u64, pieces: &[Letter])
        requires can_tell { CanTell self.old }
        requires room { HasTextRoom self.old.writer dump.now }
        requires pieces { ArePieces self.old.writer.sectors pieces.now }
        ensures telling { (log : Option (List ℕ)) (values : List ℕ) → AreValuesOf self.old.writer.sectors pieces.now values →
            Tells log (writes (snapshot_events (scene_at self.old.writer time values) dump.now)) (W.state world.old) (W.state world.new) self.old self.new }
        ensures can_tell { CanTell self.new }
        ensures same { ShowsAs self.old.writer self.new.writer }
    {
        if self.written.is_err() {
            return;
        }
        match self.writer.write(world, dump, time, pieces) {
            Ok(()) => {}
            Err(_) => self.written = Err(Target::File(self.writer.take_name())),
        }
    }

    /// Writes a snapshot of a dump where one is due and no write has failed.
    fn tell_dump<W: World>(&mut self, world: &mut W, dump: &Dump, time: u64, pieces: &[Letter])
        requires can_tell { CanTell self.old }
        requires room { HasTextRoom self.old.writer dump.now }
        requires pieces { ArePieces self.old.writer.sectors pieces.now }
        ensures telling { (log : Option (List ℕ)) (values : List ℕ) → AreValuesOf self.old.writer.sectors pieces.now values →
            Tells log (writes (dump_events (scene_at self.old.writer time values) dump.now)) (W.state world.old) (W.state world.new) self.old self.new }
        ensures can_tell { CanTell self.new }
        ensures same { ShowsAs self.old.writer self.new.writer }
    {
        if dump.is_due(time) {
            self.tell_snapshot(world, dump, time, pieces);
        }
    }

    /// Writes the snapshots that are due, in the order of the dumps, where no write has failed.
    pub fn tell_dumps<W: World>(
        &mut self,
        world: &mut W,
        dumps: &Dumps,
        time: u64,
        pieces: &[Letter],
    )
        requires can_tell { CanTell self.old }
        requires room { HasRoomForDumps self.old.writer dumps.now }
        requires pieces { ArePieces self.old.writer.sectors pieces.now }
        ensures telling { (log : Option (List ℕ)) (values : List ℕ) → AreValuesOf self.old.writer.sectors pieces.now values →
            Tells log (writes (dumps_events (scene_at self.old.writer time values) dumps.now)) (W.state world.old) (W.state world.new) self.old self.new }
        ensures can_tell { CanTell self.new }
        ensures same { ShowsAs self.old.writer self.new.writer }
    {
        for dump in dumps.as_slice() {
            self.tell_dump(world, dump, time, pieces);
        }
    }
}
