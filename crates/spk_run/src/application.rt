//! The application of a session.

ghost use Rattle.std.specs.Prelude.{◌≡◌, ◌≤◌, IfSome, IsTrue};
ghost use Rattle.spk_world.specs.Effects.{Wrote};
ghost use Rattle.spk_run.specs.Applications.{application_of, has_sweep, has_trials, largest_value, rules_of, HasLargestValue};
ghost use Rattle.spk_run.specs.Runs.{domain_after, dumps_after, tells_run};
ghost use Rattle.spk_run.specs.Running.{IsRunnable, display_of};
ghost use Rattle.spk_sched.specs.Globals.{kinetics_of};
ghost use Rattle.spk_run.specs.Solvers.{rule_of, style_of};
ghost use Rattle.spk_run.specs.Endings.{target_stop};

use crate::domain::Domain;
use crate::dumps::Dumps;
use crate::run::run;
use crate::run_room::RunRoom;
use crate::running::Finished;
use spk_app::App;
use spk_cmds::AppStyle;
use spk_diffusion::Diffusion;
use spk_lattice::Lattice;
use spk_potts::{Ising, Potts};
use spk_sched::Plan;
use spk_world::World;
use std::marker::Brand;
use std::sync::ledger::Blank;

/// One of the applications. A further one is a variant more, and an arm in each function here.
#[derive(Clone, Copy, Debug)]
pub enum AnyApplication {
    Ising(Ising),
    Potts(Potts),
    Diffusion(Diffusion),
}

/// Whether the sites of an application can be tried in sweeps.
pub fn has_sweep(style: AppStyle) -> bool
    ensures { result ≡ has_sweep style }
{
    !matches!(style, AppStyle::DiffusionOff | AppStyle::DiffusionLinear)
}

/// The greatest value that a site may have, whatever the lattice and the temperature are. The least is 1.
pub fn largest_value(style: AppStyle) -> u32
    ensures largest { result ≡ largest_value style }
    ensures valid { HasLargestValue style result }
{
    match style {
        AppStyle::Potts(q) | AppStyle::PottsNeighonly(q) => q,
        AppStyle::Ising
        | AppStyle::IsingSingle
        | AppStyle::DiffusionOff
        | AppStyle::DiffusionLinear => 2,
    }
}

impl AnyApplication {
    /// The application of a style on a lattice, at a temperature in millionths.
    pub fn of(style: AppStyle, lattice: &Lattice, temperature: u64) -> AnyApplication
        ensures rules { rules_of result ≡ application_of style lattice.now.style temperature }
        ensures trials { has_trials result ≡ has_sweep style }
    {
        match style {
            AppStyle::Ising => AnyApplication::Ising(Ising::new(false, lattice, temperature)),
            AppStyle::IsingSingle => AnyApplication::Ising(Ising::new(true, lattice, temperature)),
            AppStyle::Potts(q) => AnyApplication::Potts(Potts::new(q, false, lattice, temperature)),
            AppStyle::PottsNeighonly(q) => {
                AnyApplication::Potts(Potts::new(q, true, lattice, temperature))
            }
            AppStyle::DiffusionOff => {
                AnyApplication::Diffusion(Diffusion::new(false, lattice, temperature))
            }
            AppStyle::DiffusionLinear => {
                AnyApplication::Diffusion(Diffusion::new(true, lattice, temperature))
            }
        }
    }

    /// The most that the weights of a site's events add up to, in units of 2^-30.
    pub fn largest(&self) -> u64
        ensures largest { result ≡ (rules_of self.now).largest }
        ensures above { 1 ≤ result }
    {
        match self {
            AnyApplication::Ising(app) => app.largest(),
            AnyApplication::Potts(app) => app.largest(),
            AnyApplication::Diffusion(app) => app.largest(),
        }
    }

    /// Whether a site may have this value.
    pub fn valid(&self, value: u32) -> bool
        ensures { result ≡ (rules_of self.now).is_valid value }
    {
        match self {
            AnyApplication::Ising(app) => app.valid(value),
            AnyApplication::Potts(app) => app.valid(value),
            AnyApplication::Diffusion(app) => app.valid(value),
        }
    }

    /// Runs the sites of a box by a plan.
    pub fn run<W: World>(
        self,
        domain: Domain,
        dumps: Dumps,
        plan: &Plan,
        room: RunRoom,
        world: &mut W,
    ) -> Finished
        requires one_sector { plan.now.sectors ≡ 1 }
        requires sweeps { IfSome plan.now.sweep (λ _. IsTrue (has_trials self)) }
        requires runnable { IsRunnable (rules_of self) plan.now.sweep domain dumps room }
        requires start { plan.now.start ≡ domain.time }
        ensures domain { result.domain ≡ domain_after (kinetics_of (rules_of self) (rule_of (style_of room.solver))) plan.now domain }
        ensures dumps { result.dumps ≡ dumps_after plan.now domain dumps }
        ensures wrote { Wrote target_stop (W.state world.old) (W.state world.new)
            (tells_run (display_of room.output.log room.with_energy room.writer) (kinetics_of (rules_of self) (rule_of (style_of room.solver))) plan.now domain dumps) result.written }
    {
        let blank = Blank::new(1);
        match self {
            AnyApplication::Ising(app) => run::<W, Ising, Brand>(
                &app, domain, dumps, plan, room, blank, world,
            ),
            AnyApplication::Potts(app) => run::<W, Potts, Brand>(
                &app, domain, dumps, plan, room, blank, world,
            ),
            AnyApplication::Diffusion(app) => {
                run::<W, Diffusion, Brand>(&app, domain, dumps, plan, room, blank, world)
            }
        }
    }
}
