//! What the commands of a script have set.

ghost use Rattle.std.specs.Prelude.{◌≡◌, ◌≤◌, IfOk};
ghost use Rattle.spk_cmds.specs.WellFormed.{IsUpTo};
ghost use Rattle.spk_run.specs.States.{new_state, ticks_of, are_made, has_sites};

use crate::domain::Domain;
use crate::dumps::Dumps;
use crate::scale::Scale;
use crate::seed::Seed;
use spk_cmds::{AppStyle, Echo, Options, SolveStyle};
use spk_lattice::Regions;
use spk_num::decimal::Dec;
use spk_num::style::Style;
use spk_num::sweep::Sweep;
use spk_num::text::Text;
use std::alloc::{AllocError, Global};

/// How the sites lie, and how far: the scale is that of a lattice unit.
#[derive(Clone, Copy, Debug)]
pub struct LatticeStyle {
    pub style: Style,
    pub scale: Scale,
}

/// What the commands so far have set.
#[derive(Debug, Drop)]
pub struct SessionState {
    pub seed: Option<Seed>,
    /// How many `set` commands were obeyed since the last seed, modulo 2^32.
    pub sets: u32,
    pub app: Option<AppStyle>,
    /// How many dimensions the lattice is to use, where that was said.
    pub dimension: Option<u32>,
    pub lattice: Option<LatticeStyle>,
    pub regions: Regions,
    /// The box, once it is made.
    pub domain: Option<Domain>,
    pub solver: Option<SolveStyle>,
    pub sweep: Option<Sweep>,
    /// In millionths of a unit.
    pub temperature: u64,
    /// Ticks from one line of statistics to the next, and 0 where only the first and the last are written.
    pub stats: u64,
    /// Whether lines of statistics have the energy of all sites.
    pub energy: bool,
    pub dumps: Dumps,
    pub echo: Echo,
    /// The name of the log, where there is one.
    pub log: Option<Text>,
}

/// Ticks of a millionth of a unit of time.
const MILLIONTH: u64 = 1000;

/// A number of units of time in ticks.
pub fn ticks_of(dec: Dec) -> u64
    requires { IsUpTo 4000000000000000 dec }
    ensures ticks { result ≡ ticks_of dec }
    ensures at_most { result ≤ 4000000000000000000 }
{
    MILLIONTH * dec.millionths.unsigned_abs()
}

impl Domain {
    /// Whether its sites are made.
    pub fn has_sites(&self) -> bool
        ensures { result ≡ has_sites self.now }
    {
        self.values.len() == self.lattice.sites() as usize
    }
}

impl SessionState {
    /// What is set before the first line of a script.
    pub fn new(alloc: Global, options: &Options) -> Result<SessionState, AllocError>
        ensures { IfOk result (λ state. state ≡ new_state options.now) }
    {
        let log = match &options.log {
            Some(name) => Some(Text::copy(alloc, name.as_str())?),
            None => None,
        };
        Ok(SessionState {
            seed: None,
            sets: 0,
            app: None,
            dimension: None,
            lattice: None,
            regions: Regions::new(alloc),
            domain: None,
            solver: None,
            sweep: None,
            temperature: 0,
            stats: 0,
            energy: false,
            dumps: Dumps::new(alloc),
            echo: options.echo,
            log,
        })
    }

    /// Whether the sites of a box are made.
    pub fn are_made(&self) -> bool
        ensures { result ≡ are_made self.now.domain }
    {
        match &self.domain {
            Some(domain) => domain.has_sites(),
            None => false,
        }
    }
}
