//! `run`: it is refused for the first cause that holds, and else runs the sites of the box.

ghost use Rattle.std.specs.Prelude.{◌≡◌, ◌≤◌, ◌+◌, ◌^◌, ◌<◌, All, None, IfOk, IfSome, IsTrue};
ghost use Rattle.spk_world.specs.Effects.{Wrote};
ghost use Rattle.spk_run.specs.Applications.{application_of, has_sweep, has_trials, rules_of};
ghost use Rattle.spk_run.specs.Causes.{IsOfState};
ghost use Rattle.spk_run.specs.Commands.Run.{display_in, settings_of, solver_of, bad_value, domain_cause, run_cause, runs_domain_by, performs_run};
ghost use Rattle.spk_run.specs.Prepared.{IsPrepared, display_for, kinetics_for};
ghost use Rattle.spk_sched.specs.Plans.{IsRun};
ghost use Rattle.spk_run.specs.Running.{HasRoomFor, IsRunnable, display_of};
ghost use Rattle.spk_run.specs.Solvers.{style_of};
ghost use Rattle.spk_run.specs.Faults.{fault_stop, done_to, LeavesDone, WritesAfterMemory};

use crate::application::{AnyApplication, has_sweep};
use crate::cause::Cause;
use crate::domain::Domain;
use crate::dumps::Dumps;
use crate::energy::energy_kind;
use crate::fault::Fault;
use crate::output::Output;
use crate::run_room::RunRoom;
use crate::running::Finished;
use crate::snapshot_writer::SnapshotWriter;
use crate::state::{LatticeStyle, SessionState};
use crate::values::Values;
use spk_cmds::{AppStyle, SolveStyle};
use spk_num::sweep::Sweep;
use spk_sched::{Cycle, Dues, Plan, RunSettings};
use spk_world::World;
use std::alloc::{AllocError, Global};
use std::mem;

/// What is made for a run before its first write.
#[derive(Debug, Drop)]
struct Prepared {
    application: AnyApplication,
    plan: Plan,
    room: RunRoom,
}

/// The first site whose value the application doesn't allow.
fn bad_value(application: &AnyApplication, values: &Values) -> Option<Cause>
    ensures cause { result ≡ bad_value (rules_of application.now) values.now }
    ensures of_state { IfSome result IsOfState }
{
    match values.first_invalid(application) {
        Some(place) if place < values.len() => Some(Cause::BadValueForApp(place as u32 + 1)),
        _ => None,
    }
}

impl SessionState {
    /// The application of a style on a box.
    fn application(&self, style: AppStyle, domain: &Domain) -> AnyApplication
        ensures rules { rules_of result ≡ application_of style domain.now.lattice.style self.now.temperature }
        ensures trials { has_trials result ≡ has_sweep style }
    {
        AnyApplication::of(style, &domain.lattice, self.temperature)
    }

    /// The settings of a run of a box for so many ticks, where snapshots are due at these times.
    fn settings(
        &self,
        length: u64,
        application: &AnyApplication,
        domain: &Domain,
        dumps: Dues,
    ) -> RunSettings
        requires short { length ≤ 4000000000000000000 }
        requires some { All (λ due. 1 ≤ due.delta) dumps }
        ensures settings { result ≡ record (settings_of self.now length (rules_of application.now) domain.now) { dumps = dumps } }
        ensures run { IsRun result }
    {
        RunSettings {
            start: domain.time,
            length,
            cycle: Cycle::Nstop(1_000_000),
            largest: application.largest(),
            sectors: 1,
            sweep: self.sweep,
            stats: self.stats,
            dumps,
        }
    }

    /// Why an application can't run on a box for so many ticks.
    #[tactic(auto, unfolding(crate::specs::Commands::Run::domain_cause))]
    fn domain_cause(
        &self,
        alloc: Global,
        length: u64,
        application: &AnyApplication,
        domain: &Domain,
    ) -> Option<Cause>
        requires { length ≤ 4000000000000000000 }
        ensures cause { result ≡ domain_cause self.now length (rules_of application.now) domain.now }
        ensures of_state { IfSome result IsOfState }
    {
        match bad_value(application, &domain.values) {
            Some(cause) => Some(cause),
            None => {
                // No run is refused for the times of its snapshots.
                let none = Dues::from_vec(Vec::new(alloc));
                let settings = self.settings(length, application, domain, none);
                Cause::of_plan(settings.fault()?)
            }
        }
    }

    /// The first cause for which a run is refused. It takes no memory.
    pub fn run_cause(&self, alloc: Global, length: u64) -> Option<Cause>
        requires { length ≤ 4000000000000000000 }
        ensures cause { result ≡ run_cause self.now length }
        ensures of_state { IfSome result IsOfState }
    {
        let Some(style) = self.app else {
            return Some(Cause::NoApp);
        };
        if self.lattice.is_none() {
            return Some(Cause::NoLattice);
        }
        let Some(domain) = &self.domain else {
            return Some(Cause::NoBox);
        };
        if !domain.has_sites() {
            return Some(Cause::NoSites);
        }
        if self.solver.is_none() && self.sweep.is_none() {
            return Some(Cause::NoSolver);
        }
        if self.solver.is_some() && self.sweep.is_some() {
            return Some(Cause::BothSolverAndSweep);
        }
        if self.sweep.is_some() && !has_sweep(style) {
            return Some(Cause::NoSweepForApp);
        }
        self.domain_cause(alloc, length, &self.application(style, domain), domain)
    }

    /// The plan of a run of a box for so many ticks. No run is refused for it here, so there is one or memory is out.
    fn plan(
        &self,
        alloc: Global,
        length: u64,
        application: &AnyApplication,
        domain: &Domain,
    ) -> Result<Plan, AllocError>
        requires { length ≤ 4000000000000000000 }
        ensures { IfOk result (λ plan. plan ≡ settings_of self.now length (rules_of application.now) domain.now) }
    {
        let dues = self.dumps.dues(alloc, domain.time)?;
        let settings = self.settings(length, application, domain, dues);
        Plan::new(alloc, &settings).map_err(|_| AllocError)
    }

    /// The room for a run of a box.
    fn room(
        &self,
        alloc: Global,
        style: AppStyle,
        lattice: &LatticeStyle,
        domain: &Domain,
        sweep: Option<Sweep>,
    ) -> Result<RunRoom, AllocError>
        ensures room { IfOk result (HasRoomFor domain.now self.now.dumps sweep) }
        ensures solver { IfOk result (λ room. style_of room.solver ≡ solver_of self.now) }
        ensures display { IfOk result (λ room. display_of room.output.log room.with_energy room.writer ≡ display_in self.now style lattice.now) }
    {
        let output = Output::new(alloc, &self.log)?;
        let writer = SnapshotWriter::new(
            alloc,
            &domain.lattice,
            lattice.scale,
            energy_kind(style),
            &self.dumps,
        )?;
        RunRoom::new(
            alloc,
            domain,
            self.solver.unwrap_or(SolveStyle::Linear),
            sweep,
            output,
            self.energy,
            writer,
        )
    }

    /// What a run of the box for so many ticks needs, where there is an application, a lattice and a box.
    fn prepared(&self, alloc: Global, length: u64) -> Result<Option<Prepared>, AllocError>
        requires { length ≤ 4000000000000000000 }
        ensures { IfOk result (IsPrepared self.now length) }
    {
        let Some(style) = self.app else {
            return Ok(None);
        };
        let Some(lattice) = &self.lattice else {
            return Ok(None);
        };
        let Some(domain) = &self.domain else {
            return Ok(None);
        };
        let application = self.application(style, domain);
        let plan = self.plan(alloc, length, &application, domain)?;
        let room = self.room(alloc, style, lattice, domain, plan.sweep())?;
        Ok(Some(Prepared {
            application,
            plan,
            room,
        }))
    }

    /// Runs the box with what is prepared. A write that fails ends the writing, and not the run.
    fn run_with<W: World>(
        &mut self,
        alloc: Global,
        prepared: Prepared,
        world: &mut W,
    ) -> Result<(), Fault>
        requires one_sector { prepared.plan.sectors ≡ 1 }
        requires sweeps { IfSome prepared.plan.sweep (λ _. IsTrue (has_trials prepared.application)) }
        requires runnable { IfSome self.old.domain (λ domain. IsRunnable (rules_of prepared.application) prepared.plan.sweep domain self.old.dumps prepared.room) }
        requires start { IfSome self.old.domain (λ domain. prepared.plan.start ≡ domain.time) }
        ensures wrote { Wrote fault_stop (W.state world.old) (W.state world.new) (runs_domain_by self.old (display_for prepared) (kinetics_for prepared) prepared.plan self.old.domain) (done_to self.new result) }
        ensures memory { WritesAfterMemory (W.state world.old).told (W.state world.new).told result }
        ensures session { LeavesDone (W.state world.old).told (runs_domain_by self.old (display_for prepared) (kinetics_for prepared) prepared.plan self.old.domain) self.old self.new result }
    {
        let Some(domain) = self.domain.take() else {
            return Ok(());
        };
        let Prepared {
            application,
            plan,
            room,
        } = prepared;
        let dumps = mem::replace(&mut self.dumps, Dumps::new(alloc));
        let Finished {
            domain,
            dumps,
            written,
        } = application.run(domain, dumps, &plan, room, world);
        self.domain = Some(domain);
        self.dumps = dumps;
        written?;
        Ok(())
    }

    /// Runs the box for so many ticks. Memory is taken before the first write.
    pub fn run<W: World>(&mut self, alloc: Global, length: u64, world: &mut W) -> Result<(), Fault>
        requires short { length ≤ 4000000000000000000 }
        requires free { run_cause self.old length ≡ None }
        ensures wrote { Wrote fault_stop (W.state world.old) (W.state world.new) (performs_run self.old length) (done_to self.new result) }
        ensures memory { WritesAfterMemory (W.state world.old).told (W.state world.new).told result }
        ensures session { LeavesDone (W.state world.old).told (performs_run self.old length) self.old self.new result }
    {
        let Some(prepared) = self.prepared(alloc, length)? else {
            return Ok(());
        };
        self.run_with(alloc, prepared, world)
    }
}
