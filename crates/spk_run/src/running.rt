//! A run that goes on, cycle by cycle.

ghost use Rattle.std.specs.Prelude.{◌≡◌, ◌+◌, ◌-◌, ◌*◌, ◌^◌, ◌<◌, ◌≤◌, ℕ, All, List, map, Option, length, Ok, IfOk, IfSome, IsTrue, true};
ghost use Rattle.spk_world.specs.States.{WorldState};
ghost use Rattle.spk_world.specs.Effects.{writes};
ghost use Rattle.spk_app.specs.Applications.{Application};
ghost use Rattle.spk_solve.specs.Choice.{Rule};
ghost use Rattle.spk_run.specs.declared.domain.Domain.{Domain as Box};
ghost use Rattle.spk_sched.specs.declared.run_settings.RunSettings.{RunSettings as Settings};
ghost use Rattle.spk_sched.specs.Plans.{IsRun, is_whole, steps as run_steps, window};
ghost use Rattle.spk_num.specs.declared.sweep.Sweep.{Sweep as Style};
ghost use Rattle.spk_sched.specs.Globals.{Kinetics as RunKinetics, kinetics_of};
ghost use Rattle.spk_patch.specs.Patches.{place_count, sight_of};
ghost use Rattle.spk_run.specs.Energies.{energy_of_all};
ghost use Rattle.spk_run.specs.declared.dump.DumpState.{DumpState};
ghost use Rattle.spk_run.specs.Dumps.{dumps_events, passed, started};
ghost use Rattle.spk_run.specs.Runs.{Display, domain_after, domain_at, energy_if, line_of, tells_if, tells_line, tells_mark};
ghost use Rattle.spk_run.specs.Running.{CanShow, HasDone, HasRoomFor, IsReady, IsRunnable, IsShownBy, RunsOn, display_of};
ghost use Rattle.spk_run.specs.Snapshots.{ShowsAs, scene_at};
ghost use Rattle.spk_run.specs.Solvers.{rule_of, style_of};
ghost use Rattle.spk_run.specs.Telling.{Tells};

use crate::answer::Target;
use crate::domain::Domain;
use crate::dumps::Dumps;
use crate::energy::energy_of_all;
use crate::piece::Piece;
use crate::rank::{Rank, SWEEP, all_cells};
use crate::run_room::RunRoom;
use crate::streams::Streams;
use crate::teller::Teller;
use crate::values::Values;
use spk_app::{App, Steps};
use spk_lattice::Lattice;
use spk_num::sweep::Sweep;
use spk_patch::Patch;
use spk_report::StatsLine;
use spk_sched::{Counts, Plan};
use spk_world::World;
use std::sync::ledger::Ledger;

/// A run of a box with its state so far.
#[derive(Debug, Drop)]
pub struct Running {
    pub lattice: Lattice,
    /// In ticks.
    pub time: u64,
    /// The values before the run.
    pub values: Values,
    pub streams: Streams,
    /// The events before the run.
    pub counts: Counts,
    pub sweeps: u64,
    pub rank: Rank,
    /// The values of all sites, for snapshots.
    pub piece: Piece,
    /// Whether lines of statistics have the energy of all sites.
    pub with_energy: bool,
    pub dumps: Dumps,
    pub teller: Teller,
}

/// The box and the dumps after a run, and whether all its texts were written.
#[derive(Debug, Drop)]
pub struct Finished {
    pub domain: Domain,
    pub dumps: Dumps,
    pub written: Result<(), Target>,
}

impl Running {
    /// A run of a box before its first text. A dump that no run has met yet is due at its start.
    pub fn new<A: App>(
        app: &A,
        domain: Domain,
        mut dumps: Dumps,
        sweep: Option<Sweep>,
        room: RunRoom,
    ) -> Running
        requires { IsRunnable (A.rules app.now) sweep domain dumps room }
        ensures done { (settings : Settings) → settings.sweep ≡ sweep →
            HasDone (kinetics_of (A.rules app.now) (rule_of (style_of room.solver))) settings domain 0 result }
        ensures output { result.teller.output ≡ room.output }
        ensures written { result.teller.written ≡ Ok tt }
        ensures ready { IsReady (A.rules app.now) sweep result }
        ensures shown { (log : Option (List ℕ)) → IsShownBy (display_of log room.with_energy room.writer) result }
        ensures dumps { result.dumps ≡ map (started domain.time) dumps }
    {
        let sweeps = domain.sweep_count();
        let Domain {
            lattice,
            time,
            values,
            streams,
            counts,
            ..
        } = domain;
        let RunRoom {
            output,
            with_energy,
            writer,
            piece,
            mut patch,
            solver,
        } = room;
        lattice.known();
        dumps.start(time);
        patch.fill_from(values.as_slice());
        patch.known();
        let rank = Rank {
            patch,
            cells: all_cells(&lattice),
            solver,
            is_listed: false,
            stream: streams.first(),
            counts: Counts::none(),
        };
        Running {
            lattice,
            time,
            values,
            streams,
            counts,
            sweeps,
            rank,
            piece,
            with_energy,
            dumps,
            teller: Teller::new(output, writer),
        }
    }

    /// The turn of a step, with a window of so many ticks.
    fn turn<A: App, L: Ledger>(
        &mut self,
        app: &A,
        sweep: Option<Sweep>,
        ticks: u64,
        steps: &mut Steps<L>,
    )
        requires sweeps { IfSome sweep (λ _. IsTrue A.SWEEPS) }
        requires ready { IsReady (A.rules app.now) sweep self.old }
        requires fits { self.old.time + ticks < 2 ^ 64 }
        ensures ready { IsReady (A.rules app.now) sweep self.new }
        ensures done { (rule : Rule) (settings : Settings) (domain : Box) (done : ℕ) → settings.sectors ≡ 1 → is_whole settings ≡ true → settings.sweep ≡ sweep → ticks ≡ window settings done →
            HasDone (kinetics_of (A.rules app.now) rule) settings domain done self.old → HasDone (kinetics_of (A.rules app.now) rule) settings domain (done + 1) self.new }
        ensures time { self.new.time ≡ self.old.time + ticks }
        ensures teller { self.new.teller ≡ self.old.teller }
        ensures dumps { self.new.dumps ≡ self.old.dumps }
        ensures with_energy { self.new.with_energy ≡ self.old.with_energy }
    {
        self.rank.patch.known();
        self.rank.turn(app, sweep, ticks, steps);
        self.time += ticks;
        if let Some(_) = sweep {
            self.sweeps = self.sweeps.saturating_add(ticks / SWEEP);
        }
    }

    /// The energy of all sites, where lines of statistics have it.
    fn energy<A: App>(&self, app: &A) -> Option<u64>
        requires show { CanShow self.now }
        requires valid { All (λ v. IsTrue ((A.rules app.now).is_valid v)) self.now.rank.patch.values }
        ensures { result ≡ energy_if self.now.with_energy (energy_of_all (A.rules app.now) (sight_of self.now.rank.patch)) }
    {
        self.rank.patch.known();
        if self.with_energy {
            Some(energy_of_all(app, &self.rank.patch))
        } else {
            None
        }
    }

    /// The line of statistics at the time.
    fn line<A: App>(&self, app: &A) -> StatsLine
        requires show { CanShow self.now }
        requires valid { All (λ v. IsTrue ((A.rules app.now).is_valid v)) self.now.rank.patch.values }
        ensures { (rule : Rule) (settings : Settings) (domain : Box) (done : ℕ) → settings.sectors ≡ 1 →
            HasDone (kinetics_of (A.rules app.now) rule) settings domain done self.now →
            result ≡ line_of self.now.with_energy (A.rules app.now) (domain_at (kinetics_of (A.rules app.now) rule) settings domain done) }
    {
        self.rank.patch.known();
        StatsLine {
            time: self.time,
            counts: self.counts.plus(self.rank.counts),
            sweeps: self.sweeps,
            energy: self.energy(app),
        }
    }

    /// Writes the snapshots that are due at the time.
    fn tell_dumps<W: World>(&mut self, world: &mut W)
        requires show { CanShow self.old }
        ensures telling { (log : Option (List ℕ)) →
            Tells log (writes (dumps_events (scene_at self.old.teller.writer self.old.time self.old.rank.patch.values) self.old.dumps)) (W.state world.old) (W.state world.new) self.old.teller self.new.teller }
        ensures show { CanShow self.new }
        ensures same { self.new ≡ record self.old { piece = self.new.piece; teller = self.new.teller } }
        ensures shows { ShowsAs self.old.teller.writer self.new.teller.writer }
    {
        if !self.dumps.is_due(self.time) {
            return;
        }
        self.rank.patch.known();
        self.piece.fill(&self.rank.patch);
        self.teller
            .tell_dumps(world, &self.dumps, self.time, self.piece.as_slice());
    }

    /// Writes a line of statistics where one is asked for.
    fn tell_line<W: World, A: App>(&mut self, app: &A, lined: bool, world: &mut W)
        requires show { CanShow self.old }
        requires valid { All (λ v. IsTrue ((A.rules app.now).is_valid v)) self.old.rank.patch.values }
        ensures telling { (display : Display) (rule : Rule) (settings : Settings) (domain : Box) (done : ℕ) →
            settings.sectors ≡ 1 → HasDone (kinetics_of (A.rules app.now) rule) settings domain done self.old → IsShownBy display self.old →
            Tells display.log (tells_if lined (tells_line display (A.rules app.now) (domain_at (kinetics_of (A.rules app.now) rule) settings domain done)))
            (W.state world.old) (W.state world.new) self.old.teller self.new.teller }
        ensures show { CanShow self.new }
        ensures same { self.new ≡ record self.old { teller = self.new.teller } }
        ensures writer { self.new.teller.writer ≡ self.old.teller.writer }
    {
        if !lined {
            return;
        }
        let line = self.line(app);
        self.teller.tell_line(world, &line);
    }

    /// Writes what is due at the time: a line of statistics where one is asked for, and then snapshots.
    pub fn tell<W: World, A: App>(&mut self, app: &A, lined: bool, world: &mut W)
        requires show { CanShow self.old }
        requires valid { All (λ v. IsTrue ((A.rules app.now).is_valid v)) self.old.rank.patch.values }
        requires late { self.old.time ≤ 4000000000000000000 }
        ensures ready { (application : Application) (sweep : Option Style) → IsReady application sweep self.old → IsReady application sweep self.new }
        ensures done { (kinetics : RunKinetics) (settings : Settings) (domain : Box) (done : ℕ) →
            HasDone kinetics settings domain done self.old → HasDone kinetics settings domain done self.new }
        ensures shown { (display : Display) → IsShownBy display self.old → IsShownBy display self.new }
        ensures dumps { self.new.dumps ≡ map (passed self.old.time) self.old.dumps }
        ensures telling { (display : Display) (rule : Rule) (settings : Settings) (domain : Box) (done : ℕ) →
            settings.sectors ≡ 1 → HasDone (kinetics_of (A.rules app.now) rule) settings domain done self.old → IsShownBy display self.old →
            Tells display.log (tells_mark display (A.rules app.now) lined (domain_at (kinetics_of (A.rules app.now) rule) settings domain done) self.old.dumps)
            (W.state world.old) (W.state world.new) self.old.teller self.new.teller }
    {
        self.tell_line(app, lined, world);
        self.tell_dumps(world);
        self.dumps.pass(self.time);
    }

    /// Goes on with a step of its plan.
    pub fn step<W: World, A: App, L: Ledger>(
        &mut self,
        app: &A,
        plan: &Plan,
        step: u64,
        steps: &mut Steps<L>,
        world: &mut W,
    )
        requires one_sector { plan.now.sectors ≡ 1 }
        requires sweeps { IfSome plan.now.sweep (λ _. IsTrue A.SWEEPS) }
        requires ready { IsReady (A.rules app.now) plan.now.sweep self.old }
        requires step { step < run_steps plan.now }
        requires fits { self.old.time + window plan.now step ≤ 4000000000000000000 }
        ensures runs { (start : WorldState) (display : Display) (rule : Rule) (domain : Box) (dumps : List DumpState) →
            RunsOn start (W.state world.old) display (kinetics_of (A.rules app.now) rule) plan.now domain dumps step self.old →
            RunsOn start (W.state world.new) display (kinetics_of (A.rules app.now) rule) plan.now domain dumps (step + 1) self.new }
        ensures ready { IsReady (A.rules app.now) plan.now.sweep self.new }
    {
        plan.known();
        self.turn(app, plan.sweep(), plan.window(step), steps);
        if plan.mark_after(step) {
            self.tell(app, plan.line_after(step), world);
        }
    }

    /// The box after all steps of a run.
    pub fn finish(self) -> Finished
        requires { length self.values ≡ place_count self.rank.patch }
        ensures domain { (kinetics : RunKinetics) (settings : Settings) (domain : Box) → settings.sectors ≡ 1 → IsRun settings →
            HasDone kinetics settings domain (run_steps settings) self → result.domain ≡ domain_after kinetics settings domain }
        ensures dumps { result.dumps ≡ self.dumps }
        ensures written { result.written ≡ self.teller.written }
    {
        let Running {
            lattice,
            time,
            mut values,
            mut streams,
            counts,
            sweeps,
            rank,
            dumps,
            teller,
            ..
        } = self;
        rank.patch.known();
        values.copy_from(&rank.patch);
        streams.set_first(rank.stream);
        let domain = Domain {
            lattice,
            time,
            values,
            streams,
            counts: counts.plus(rank.counts),
            sweeps,
        };
        Finished {
            domain,
            dumps,
            written: teller.written,
        }
    }
}
