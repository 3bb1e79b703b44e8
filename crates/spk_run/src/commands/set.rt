//! `set`: values for the sites, given or drawn. Each command draws from a stream of its own.

ghost use Rattle.std.specs.Prelude.{◌≡◌, ◌+◌, ◌<◌, ◌≤◌, ℕ, List, Option, length, IfOk, IfSome};
ghost use Rattle.spk_cmds.specs.WellFormed.{IsSetValue, IsAboveZero};
ghost use Rattle.spk_lattice.specs.Layout.{sites_of};
ghost use Rattle.spk_lattice.specs.Neighbours.{IsId};
ghost use Rattle.spk_run.specs.Causes.{IsOfState};
ghost use Rattle.spk_run.specs.Areas.{IsArea, HasPlace};
ghost use Rattle.spk_run.specs.Drawing.{given, given_or_kept, values_from, IsSetFrom};
ghost use Rattle.spk_run.specs.Commands.Set.{set_cause, is_in, values_set, with_set};

use crate::area::Area;
use crate::cause::Cause;
use crate::domain::Domain;
use crate::state::SessionState;
use crate::values::Values;
use spk_cmds::SetValue;
use spk_lattice::{Lattice, Regions};
use spk_num::decimal::Dec;
use spk_num::stream::Stream;
use spk_num::text::Text;
use std::alloc::{AllocError, Global};

/// The number before that of the stream of the first `set` after a seed.
const SET_STREAMS: u64 = 4096;

/// A draw below this number is compared with a fraction's millionths.
const MILLION: u64 = 1_000_000;

/// Which values `set` gives, to which sites, and to which fraction of these.
#[derive(Clone, Copy, Debug)]
struct Asked {
    area: Area,
    value: SetValue,
    fraction: Option<Dec>,
}

/// The value that the site with this id is given.
fn given(value: SetValue, id: u32, stream: &mut Stream) -> u32
    requires { IsSetValue value }
    ensures value { result ≡ (given value id stream.old).value }
    ensures stream { stream.new ≡ (given value id stream.old).stream }
{
    match value {
        SetValue::Value(value) => value,
        SetValue::Range(low, high) => low + stream.below(u64::from(high - low) + 1) as u32,
        SetValue::Unique => id,
    }
}

impl Asked {
    /// The value after `set` of the site with this id, which had another before.
    fn value_for(self, id: u32, before: u32, stream: &mut Stream) -> u32
        requires value { IsSetValue self.value }
        requires fraction { IfSome self.fraction (IsAboveZero 1000000) }
        ensures value { result ≡ (given_or_kept self.value self.fraction id before stream.old).value }
        ensures stream { stream.new ≡ (given_or_kept self.value self.fraction id before stream.old).stream }
    {
        let Some(fraction) = self.fraction else {
            return given(self.value, id, stream);
        };
        if stream.below(MILLION) < fraction.millionths.unsigned_abs() {
            given(self.value, id, stream)
        } else {
            before
        }
    }
}

impl Values {
    /// Gives the site at a place its value, if it is among those that are asked for.
    fn set_one(
        &mut self,
        place: usize,
        lattice: &Lattice,
        regions: &Regions,
        asked: Asked,
        stream: &mut Stream,
    )
        requires within { place < length self.old }
        requires fits { length self.old ≤ sites_of lattice.now }
        requires place { HasPlace regions.now asked.area }
        requires value { IsSetValue asked.value }
        requires fraction { IfSome asked.fraction (IsAboveZero 1000000) }
        ensures sites { length self.new ≡ length self.old }
        ensures step { (name : Option (List ℕ)) (whole : List ℕ) → IsArea regions.now name asked.area →
            IsSetFrom asked.value asked.fraction (is_in regions.now lattice.now name) whole place self.old stream.old →
            IsSetFrom asked.value asked.fraction (is_in regions.now lattice.now name) whole (place + 1) self.new stream.new }
    {
        lattice.known();
        let id = place as u32 + 1;
        if asked.area.holds(regions, lattice, id) {
            let value = asked.value_for(id, self.get(place), stream);
            self.set(place, value);
        }
    }

    /// Gives the sites that are asked for their values, in the order of their ids.
    fn set_each(&mut self, lattice: &Lattice, regions: &Regions, asked: Asked, mut stream: Stream)
        requires fits { length self.old ≤ sites_of lattice.now }
        requires place { HasPlace regions.now asked.area }
        requires value { IsSetValue asked.value }
        requires fraction { IfSome asked.fraction (IsAboveZero 1000000) }
        ensures { (name : Option (List ℕ)) → IsArea regions.now name asked.area →
            self.new ≡ values_from asked.value asked.fraction (is_in regions.now lattice.now name) 1 self.old stream }
    {
        for place in 0..self.len() {
            self.set_one(place, lattice, regions, asked, &mut stream);
        }
    }
}

impl Domain {
    /// Gives the sites that are asked for their values, where there are sites.
    fn set_sites(&mut self, regions: &Regions, asked: Asked, stream: Stream)
        requires place { HasPlace regions.now asked.area }
        requires value { IsSetValue asked.value }
        requires fraction { IfSome asked.fraction (IsAboveZero 1000000) }
        ensures { (name : Option (List ℕ)) → IsArea regions.now name asked.area →
            self.new ≡ record self.old { values = values_set regions.now self.old asked.value asked.fraction name stream } }
    {
        if self.has_sites() {
            self.values.set_each(&self.lattice, regions, asked, stream);
        }
    }
}

impl SessionState {
    pub fn set_cause(
        &self,
        alloc: Global,
        region: &Option<Text>,
    ) -> Result<Option<Cause>, AllocError>
        ensures cause { IfOk result (λ found. found ≡ set_cause self.now region.now) }
        ensures of_state { IfOk result (λ found. IfSome found IsOfState) }
    {
        if !self.are_made() {
            return Ok(Some(Cause::NoSites));
        }
        match region {
            Some(name) if self.regions.find(name).is_none() => {
                let name = Text::copy(alloc, name.as_str())?;
                Ok(Some(Cause::NoSuchRegion(name)))
            }
            _ => Ok(None),
        }
    }

    /// Gives values to sites, and counts that.
    pub fn set_values(&mut self, value: SetValue, fraction: Option<Dec>, region: &Option<Text>)
        requires value { IsSetValue value }
        requires fraction { IfSome fraction (IsAboveZero 1000000) }
        ensures { self.new ≡ with_set self.old value fraction region.now }
    {
        let Some(seed) = self.seed else {
            return;
        };
        self.sets = self.sets.wrapping_add(1);
        let area = Area::of(&self.regions, region);
        if let Some(domain) = &mut self.domain {
            let stream = seed.stream(SET_STREAMS + u64::from(self.sets));
            let asked = Asked {
                area,
                value,
                fraction,
            };
            domain.set_sites(&self.regions, asked, stream);
        }
    }
}
