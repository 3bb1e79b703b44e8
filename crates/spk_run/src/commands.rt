//! The commands of a session: for which cause each is refused, and what it does.

ghost use Rattle.std.specs.Prelude.{◌≡◌, None, IfNone, IfOk, IfSome};
ghost use Rattle.spk_cmds.specs.WellFormed.{IsWellFormed};
ghost use Rattle.spk_world.specs.Effects.{Wrote};
ghost use Rattle.spk_run.specs.Causes.{FileRefusalRose, IsOfFile, IsOfState};
ghost use Rattle.spk_run.specs.States.{if_so};
ghost use Rattle.spk_run.specs.Commands.{state_cause, cause, set_by, performs};
ghost use Rattle.spk_run.specs.Faults.{fault_stop, verdict, trouble_of, Leaves, OnRefusal, Unwritten};

use crate::cause::Cause;
use crate::fault::Fault;
use crate::scale::Scale;
use crate::seed::Seed;
use crate::state::{LatticeStyle, SessionState, ticks_of};
use spk_cmds::Command;
use spk_world::World;
use std::alloc::{AllocError, Global};

mod create_box;
mod create_sites;
mod dimension;
mod dump;
mod lattice;
mod not_built;
mod print;
mod read_sites;
mod region;
mod run;
mod seed;
mod set;
mod undump;

use not_built::unbuilt_word;

/// That something is made or given already.
fn already(made: bool) -> Option<Cause>
    ensures cause { result ≡ if_so made Cause.AlreadyMade }
    ensures of_state { IfSome result IsOfState }
{
    if made { Some(Cause::AlreadyMade) } else { None }
}

impl SessionState {
    /// The cause for which a command is refused in what was given and made before.
    fn state_cause(&self, alloc: Global, command: &Command) -> Result<Option<Cause>, AllocError>
        requires { IsWellFormed command.now }
        ensures cause { IfOk result (λ found. found ≡ state_cause self.now command.now) }
        ensures of_state { IfOk result (λ found. IfSome found IsOfState) }
    {
        match command {
            Command::App { .. } => Ok(already(self.app.is_some())),
            Command::Dimension { d } => Ok(self.dimension_cause(*d)),
            Command::Lattice { style, .. } => Ok(self.style_cause(*style)),
            Command::Boundary { .. } => Ok(already(self.domain.is_some())),
            Command::Region { name, shape } => self.region_cause(alloc, name, shape),
            Command::CreateBox { region } => self.box_cause(alloc, region),
            Command::CreateSites => Ok(self.sites_cause()),
            Command::Set { region, .. } => self.set_cause(alloc, region),
            Command::ReadSites { .. } => Ok(self.read_cause()),
            Command::Dump { name, .. } => self.dump_cause(alloc, name),
            Command::Undump { name } => self.undump_cause(alloc, name),
            Command::Run { length } => Ok(self.run_cause(alloc, ticks_of(*length))),
            _ => Ok(None),
        }
    }

    /// The cause for which a command is refused before it does anything: of several the one with the least number.
    #[tactic(auto, unfolding(crate::specs::Commands::cause))]
    pub fn cause(&self, alloc: Global, command: &Command) -> Result<Option<Cause>, AllocError>
        requires { IsWellFormed command.now }
        ensures cause { IfOk result (λ found. found ≡ cause self.now command.now) }
        ensures of_state { IfOk result (λ found. IfSome found IsOfState) }
    {
        match unbuilt_word(alloc, command)? {
            Some(word) => Ok(Some(Cause::NotBuilt(word))),
            None => self.state_cause(alloc, command),
        }
    }

    /// Does what a command does that writes nothing.
    #[tactic(auto, unfolding(crate::specs::Commands::set_by))]
    fn set(&mut self, alloc: Global, command: &Command) -> Result<(), AllocError>
        requires { IsWellFormed command.now }
        ensures { IfOk result (λ _. self.new ≡ set_by self.old command.now) }
    {
        match command {
            Command::Seed { seed } => self.set_seed(alloc, Seed::new(*seed))?,
            Command::App { style } => self.app = Some(*style),
            Command::Dimension { d } => self.dimension = Some(*d),
            Command::Lattice { style, scale } => {
                self.lattice = Some(LatticeStyle {
                    style: *style,
                    scale: Scale::new(*scale),
                });
            }
            Command::Region { name, shape } => self.add_region(alloc, name, shape)?,
            Command::CreateBox { region } => self.make_box(alloc, region)?,
            Command::CreateSites => self.make_sites(alloc)?,
            Command::Set {
                value,
                fraction,
                region,
            } => self.set_values(*value, *fraction, region),
            Command::Solve { style } => self.solver = Some(*style),
            Command::Sweep { style } => self.sweep = Some(*style),
            Command::Temperature { t } => self.temperature = t.millionths.unsigned_abs(),
            Command::Stats { delta } => self.stats = ticks_of(*delta),
            Command::DiagEnergy => self.energy = true,
            Command::Dump {
                name,
                style,
                delta,
                file,
                fields,
            } => self.add_dump(alloc, name, *style, *delta, file, fields)?,
            Command::Undump { name } => self.remove_dump(name),
            Command::SetEcho { echo } => self.echo = *echo,
            _ => {}
        }
        Ok(())
    }

    /// Obeys a command that has no cause in the state, or refuses it for a file that it loads.
    pub fn perform<W: World>(
        &mut self,
        alloc: Global,
        command: &Command,
        world: &mut W,
    ) -> Result<Result<(), Cause>, Fault>
        requires formed { IsWellFormed command.now }
        requires free { cause self.old command.now ≡ None }
        ensures wrote { Wrote fault_stop (W.state world.old) (W.state world.new) (performs self.old command.now) (verdict self.new result) }
        ensures refused { OnRefusal result IsOfFile }
        ensures untold { IfNone (W.state world.old).told (OnRefusal result (FileRefusalRose (W.state world.old).faults (W.state world.new).faults)) }
        ensures memory { Unwritten (W.state world.old).told (W.state world.new).told (trouble_of result) }
        ensures session { Leaves (W.state world.old).told (performs self.old command.now) self.old self.new (trouble_of result) }
    {
        match command {
            Command::ReadSites { file } => self.read_sites(alloc, file, world),
            Command::Run { length } => Ok(Ok(self.run(alloc, ticks_of(*length), world)?)),
            Command::Print { text } => Ok(Ok(self.print(alloc, text, world)?)),
            _ => Ok(Ok(self.set(alloc, command)?)),
        }
    }
}
