//! A run of the sites of a box, whole.

ghost use Rattle.std.specs.Prelude.{◌≡◌, ◌<◌, IfSome, IsTrue};
ghost use Rattle.spk_world.specs.Effects.{Wrote};
ghost use Rattle.spk_run.specs.Output.{header_text};
ghost use Rattle.spk_run.specs.Runs.{domain_after, dumps_after, tells_run};
ghost use Rattle.spk_run.specs.Running.{IsRunnable, display_of};
ghost use Rattle.spk_sched.specs.Globals.{kinetics_of};
ghost use Rattle.spk_run.specs.Solvers.{rule_of, style_of};
ghost use Rattle.spk_run.specs.Endings.{target_stop};

use crate::domain::Domain;
use crate::dumps::Dumps;
use crate::run_room::RunRoom;
use crate::running::{Finished, Running};
use spk_app::{App, Steps};
use spk_sched::Plan;
use spk_world::World;
use std::sync::ledger::{Blank, Ledger};

/// The line above the statistics.
fn header(with_energy: bool) -> &'static [u8]
    ensures { result.now ≡ header_text with_energy }
{
    if with_energy {
        b"Time Naccept Nreject Nsweeps Energy\n"
    } else {
        b"Time Naccept Nreject Nsweeps\n"
    }
}

/// Runs the sites of a box by a plan: writes a header, a line at the run's start, and then the lines and snapshots at its marks.
///
/// A write that fails ends the writing, and not the run.
pub fn run<W: World, A: App, L: Ledger>(
    app: &A,
    domain: Domain,
    dumps: Dumps,
    plan: &Plan,
    room: RunRoom,
    blank: Blank,
    world: &mut W,
) -> Finished
    requires name { blank.name ≡ L.name }
    requires parts { blank.parts ≡ L.parts }
    requires some { 0 < blank.parts }
    requires one_sector { plan.now.sectors ≡ 1 }
    requires sweeps { IfSome plan.now.sweep (λ _. IsTrue A.SWEEPS) }
    requires runnable { IsRunnable (A.rules app.now) plan.now.sweep domain dumps room }
    requires start { plan.now.start ≡ domain.time }
    ensures domain { result.domain ≡ domain_after (kinetics_of (A.rules app.now) (rule_of (style_of room.solver))) plan.now domain }
    ensures dumps { result.dumps ≡ dumps_after plan.now domain dumps }
    ensures wrote { Wrote target_stop (W.state world.old) (W.state world.new)
        (tells_run (display_of room.output.log room.with_energy room.writer) (kinetics_of (A.rules app.now) (rule_of (style_of room.solver))) plan.now domain dumps) result.written }
{
    plan.known();
    let mut steps = Steps::<L>::new(blank);
    let mut running = Running::new(app, domain, dumps, plan.sweep(), room);
    running.teller.tell(world, header(running.with_energy));
    running.tell(app, true, world);
    for step in 0..plan.steps() {
        running.step(app, plan, step, &mut steps, world);
    }
    running.finish()
}
