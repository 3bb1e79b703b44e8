//! `create_box`: the box of a region that is a block, with its lattice and the streams of its rank.

ghost use Rattle.std.specs.Prelude.{◌≡◌, ◌<◌, ◌^◌, ◌≤◌, Some, IfOk, IfErr, IfSome};
ghost use Rattle.spk_lattice.specs.Layout.{dimensions_of};
ghost use Rattle.spk_lattice.specs.Regions.{IsNearBlock};
ghost use Rattle.spk_sched.specs.Globals.{streams_each};
ghost use Rattle.spk_run.specs.Causes.{IsOfState};
ghost use Rattle.spk_run.specs.Commands.CreateBox.{is_zero, is_whole, cells_between, lattice_made, cells_along, layout_in, box_of, box_cause, new_domain, with_box};

use crate::cause::Cause;
use crate::domain::Domain;
use crate::seed::Seed;
use crate::state::SessionState;
use crate::streams::Streams;
use crate::values::Values;
use spk_lattice::{Block, Lattice, LatticeFault, dimensions};
use spk_num::decimal::Dec;
use spk_num::shape::Bound;
use spk_num::style::Style;
use spk_num::text::Text;
use spk_sched::Counts;
use std::alloc::{AllocError, Global};

/// So many millionths are one unit.
const MILLION: u64 = 1_000_000;

/// The lattice of a box, or why there is none.
fn lattice_made(made: Result<Lattice, LatticeFault>) -> Result<Lattice, Cause>
    ensures made { result ≡ lattice_made made }
    ensures of_state { IfErr result IsOfState }
{
    match made {
        Ok(lattice) => Ok(lattice),
        Err(fault) => Err(Cause::of_lattice(fault)),
    }
}

fn is_zero(dec: &Dec) -> bool
    ensures { result ≡ is_zero dec.now }
{
    dec.millionths == 0
}

fn is_whole(dec: &Dec) -> bool
    ensures { result ≡ is_whole dec.now }
{
    dec.millionths >= 0 && dec.millionths.unsigned_abs() % MILLION == 0
}

/// How many cells lie between two bounds.
fn cells_between(low: &Bound, high: &Bound) -> Option<u64>
    ensures { result ≡ cells_between low.now high.now }
{
    match (low, high) {
        (Bound::At(low), Bound::At(high)) if is_zero(low) && is_whole(high) => {
            Some(high.millionths.unsigned_abs() / MILLION)
        }
        _ => None,
    }
}

/// How many cells a box of a style has along a dimension, 0 to 2 for x to z. Where the style doesn't use it, it has one.
fn cells_along(style: Style, block: &Block, dimension: u32) -> Option<u32>
    requires dimension { dimension < 3 }
    requires near { IsNearBlock block.now }
    ensures cells { result ≡ cells_along style block.now dimension }
    ensures unused { dimensions_of style ≤ dimension → result ≡ Some 1 }
{
    if dimension >= dimensions(style) {
        return Some(1);
    }
    let place = dimension as usize;
    let cells = cells_between(&block.lo[place], &block.hi[place])?;
    Some(cells as u32)
}

/// The lattice of a box, or the first dimension in which it doesn't reach from 0 to a whole number.
fn layout_in(style: Style, block: &Block) -> Result<Lattice, Cause>
    requires near { IsNearBlock block.now }
    ensures made { result ≡ layout_in style (Some block.now) }
    ensures of_state { IfErr result IsOfState }
{
    let Some(nx) = cells_along(style, block, 0) else {
        return Err(Cause::BoxNotWhole(0));
    };
    let Some(ny) = cells_along(style, block, 1) else {
        return Err(Cause::BoxNotWhole(1));
    };
    let Some(nz) = cells_along(style, block, 2) else {
        return Err(Cause::BoxNotWhole(2));
    };
    lattice_made(Lattice::new(style, nx, ny, nz))
}

/// How many sectors a rank has in a lattice that uses so many dimensions.
fn sector_count(dimensions: u32) -> u32
    requires { dimensions ≤ 3 }
    ensures count { result ≡ 2 ^ dimensions }
    ensures some { 1 ≤ result }
    ensures few { result ≤ 8 }
{
    match dimensions {
        0 => 1,
        1 => 2,
        2 => 4,
        _ => 8,
    }
}

impl Domain {
    /// How many sectors each rank has: 2, 4 or 8.
    pub fn sectors(&self) -> u32
        ensures count { result ≡ streams_each self.now.lattice }
        ensures some { 1 ≤ result }
        ensures few { result ≤ 8 }
    {
        sector_count(self.lattice.dimensions())
    }

    /// A new box with this lattice, without sites.
    fn new(alloc: Global, seed: Seed, lattice: Lattice) -> Result<Domain, AllocError>
        ensures { IfOk result (λ domain. domain ≡ new_domain seed lattice) }
    {
        let sectors = sector_count(lattice.dimensions());
        Ok(Domain {
            lattice,
            time: 0,
            values: Values::new(alloc),
            streams: Streams::new(alloc, seed, sectors, sectors as usize)?,
            counts: Counts::none(),
            sweeps: 0,
        })
    }
}

impl SessionState {
    /// The lattice of the box that a region is.
    #[tactic(auto, unfolding(crate::specs::Commands::CreateBox::box_of))]
    fn box_of(&self, alloc: Global, region: &Text) -> Result<Result<Lattice, Cause>, AllocError>
        ensures made { IfOk result (λ made. made ≡ box_of self.now region.now) }
        ensures of_state { IfOk result (λ made. IfErr made IsOfState) }
    {
        let Some(lattice) = &self.lattice else {
            return Ok(Err(Cause::NoLattice));
        };
        if self.regions.find(region).is_none() {
            let name = Text::copy(alloc, region.as_str())?;
            return Ok(Err(Cause::NoSuchRegion(name)));
        }
        match self.regions.block(region) {
            Some(block) => Ok(layout_in(lattice.style, &block)),
            None => Ok(Err(Cause::BoxNotBlock)),
        }
    }

    pub fn box_cause(&self, alloc: Global, region: &Text) -> Result<Option<Cause>, AllocError>
        ensures cause { IfOk result (λ found. found ≡ box_cause self.now region.now) }
        ensures of_state { IfOk result (λ found. IfSome found IsOfState) }
    {
        if self.seed.is_none() {
            return Ok(Some(Cause::NoSeed));
        }
        if self.app.is_none() {
            return Ok(Some(Cause::NoApp));
        }
        if self.lattice.is_none() {
            return Ok(Some(Cause::NoLattice));
        }
        if self.domain.is_some() {
            return Ok(Some(Cause::AlreadyMade));
        }
        Ok(self.box_of(alloc, region)?.err())
    }

    pub fn make_box(&mut self, alloc: Global, region: &Text) -> Result<(), AllocError>
        ensures { IfOk result (λ _. self.new ≡ with_box self.old self.old.seed (box_of self.old region.now)) }
    {
        if let (Some(seed), Ok(lattice)) = (self.seed, self.box_of(alloc, region)?) {
            self.domain = Some(Domain::new(alloc, seed, lattice)?);
        }
        Ok(())
    }
}
