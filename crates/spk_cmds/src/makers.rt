//! The command that the values of its words make.

mod app;
mod dump;
mod region;
mod set;

ghost use Rattle.std.specs.Prelude.{◌≡◌, IfOk};
ghost use Rattle.spk_cmds.specs.Makers.{made};

use crate::command::{AppStyle, Command, SetValue};
use crate::form::Maker;
use crate::value::Reading;
use app::diffusion;
use dump::dump_of;
use region::{block, cylinder, intersect_of, region_of, sphere, union_of};
use set::{range_of, set_to};
use spk_num::text::Text;
use std::alloc::{AllocError, Global};

/// The command that values make.
pub fn made(alloc: Global, maker: Maker, reading: &Reading) -> Result<Command, AllocError>
    ensures { IfOk result (λ command. command ≡ made maker reading.now) }
{
    let Reading { values, more } = reading;
    let (number, decimal) = (values.number(0), values.decimal(0));
    let command = match maker {
        Maker::Seed => Command::Seed { seed: number },
        Maker::App(style) => Command::App { style },
        Maker::Potts => Command::App {
            style: AppStyle::Potts(values.number(1)),
        },
        Maker::PottsNeighonly => Command::App {
            style: AppStyle::PottsNeighonly(values.number(1)),
        },
        Maker::Diffusion => Command::App {
            style: diffusion(values),
        },
        Maker::Dimension => Command::Dimension { d: number },
        Maker::Lattice(style) => Command::Lattice {
            style,
            scale: values.decimal(1),
        },
        Maker::Boundary => Command::Boundary {
            faces: [false, false, false],
        },
        Maker::Block => region_of(alloc, values, block(values))?,
        Maker::Sphere => region_of(alloc, values, sphere(values))?,
        Maker::Cylinder => region_of(alloc, values, cylinder(values))?,
        Maker::Union => region_of(alloc, values, union_of(alloc, more)?)?,
        Maker::Intersect => region_of(alloc, values, intersect_of(alloc, more)?)?,
        Maker::CreateBox => Command::CreateBox {
            region: Text::copy(alloc, values.word(0))?,
        },
        Maker::CreateSites => Command::CreateSites,
        Maker::SetValue => set_to(alloc, SetValue::Value(values.number(2)), more)?,
        Maker::SetRange => set_to(alloc, range_of(values), more)?,
        Maker::SetUnique => set_to(alloc, SetValue::Unique, more)?,
        Maker::ReadSites => Command::ReadSites {
            file: Text::copy(alloc, values.word(0))?,
        },
        Maker::Solve(style) => Command::Solve { style },
        Maker::Sweep(style) => Command::Sweep { style },
        Maker::Temperature => Command::Temperature { t: decimal },
        Maker::Stats => Command::Stats { delta: decimal },
        Maker::DiagEnergy => Command::DiagEnergy,
        Maker::Dump(style) => dump_of(alloc, style, values, more)?,
        Maker::Undump => Command::Undump {
            name: Text::copy(alloc, values.word(0))?,
        },
        Maker::Run => Command::Run { length: decimal },
        Maker::Print => Command::Print {
            text: Text::copy(alloc, values.word(0))?,
        },
        Maker::SetEcho(echo) => Command::SetEcho { echo },
    };
    Ok(command)
}
