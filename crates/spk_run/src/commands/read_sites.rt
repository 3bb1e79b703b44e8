//! `read_sites`: the sites have the values that a file has for them.

ghost use Rattle.std.specs.Prelude.{◌≡◌, ◌≤◌, length, Ok, IfErr, IfNone, IfOk, IfSome, MatchResult, OnErr, vec_len};
ghost use Rattle.spk_files.specs.SiteFiles.{site_file, IsReadOrMemory};
ghost use Rattle.spk_world.specs.Effects.{Wrote};
ghost use Rattle.spk_run.specs.Causes.{FileRefusalRose, IsOfContent, IsOfFile, IsOfState};
ghost use Rattle.spk_run.specs.Commands.ReadSites.{performs_read_sites, read_cause, site_count, values_or_cause, wanted_in, with_read, with_values};
ghost use Rattle.spk_run.specs.Faults.{fault_stop, verdict, trouble_of, Leaves, OnRefusal, Unwritten};

use crate::application::largest_value;
use crate::cause::Cause;
use crate::fault::Fault;
use crate::state::SessionState;
use crate::values::Values;
use spk_files::{SiteFault, sites_read};
use spk_num::text::Text;
use spk_world::{LoadFault, World};
use std::alloc::{AllocError, Global};

/// The longest site file, in bytes.
const LONGEST_FILE: u64 = 134_217_728;

impl SessionState {
    pub fn read_cause(&self) -> Option<Cause>
        ensures cause { result ≡ read_cause self.now }
        ensures of_state { IfSome result IsOfState }
    {
        if self.app.is_none() {
            return Some(Cause::NoApp);
        }
        if !self.are_made() {
            return Some(Cause::NoSites);
        }
        None
    }

    /// How many sites there are.
    fn site_count(&self) -> u32
        ensures count { result ≡ site_count self.now.domain }
        ensures few { result ≤ 4194304 }
    {
        match &self.domain {
            Some(domain) => domain.lattice.sites(),
            None => 0,
        }
    }

    /// The values in a site file, or its fault.
    fn values_read(&self, alloc: Global, bytes: &[u8]) -> Result<Vec<u32>, SiteFault>
        requires { length bytes.now ≤ 134217728 }
        ensures values { IsReadOrMemory (site_file (wanted_in self.now) bytes.now) result }
        ensures few { IfOk result (λ values. vec_len values ≤ 4194304) }
    {
        let largest = match self.app {
            Some(style) => largest_value(style),
            None => 0,
        };
        sites_read(alloc, bytes, self.site_count(), largest)
    }

    /// The values in a site file, or the cause for which it is refused.
    fn values_in(&self, alloc: Global, bytes: &[u8]) -> Result<Result<Values, Cause>, AllocError>
        requires { length bytes.now ≤ 134217728 }
        ensures read { IfOk result (λ read. read ≡ values_or_cause (site_file (wanted_in self.now) bytes.now)) }
        ensures of_content { IfOk result (λ read. IfErr read IsOfContent) }
    {
        match self.values_read(alloc, bytes) {
            Ok(values) => Ok(Ok(Values::from_vec(values))),
            Err(fault) => match Cause::of_site_file(fault) {
                Some(cause) => Ok(Err(cause)),
                None => Err(AllocError),
            },
        }
    }

    /// The sites have these values from now on.
    fn take_values(&mut self, values: Values)
        ensures { self.new ≡ with_values self.old values }
    {
        if let Some(domain) = &mut self.domain {
            domain.values = values;
        }
    }

    /// Takes the values in a site file, if it has no fault.
    fn read_bytes(&mut self, alloc: Global, bytes: &[u8]) -> Result<Result<(), Cause>, Fault>
        requires { length bytes.now ≤ 134217728 }
        ensures read { MatchResult result
            (λ done. verdict self.new (Ok done) ≡ Ok (with_read self.old (values_or_cause (site_file (wanted_in self.old) bytes.now))))
            (λ fault. fault ≡ Fault.Memory) }
        ensures refused { OnRefusal result IsOfContent }
        ensures kept { MatchResult result (λ done. OnErr done (self.new ≡ self.old)) (λ _. self.new ≡ self.old) }
    {
        match self.values_in(alloc, bytes)? {
            Ok(values) => {
                self.take_values(values);
                Ok(Ok(()))
            }
            Err(cause) => Ok(Err(cause)),
        }
    }

    /// Takes the values of the sites from the file with this name. Memory is taken before they change.
    pub fn read_sites<W: World>(
        &mut self,
        alloc: Global,
        file: &Text,
        world: &mut W,
    ) -> Result<Result<(), Cause>, Fault>
        ensures wrote { Wrote fault_stop (W.state world.old) (W.state world.new) (performs_read_sites self.old file.now) (verdict self.new result) }
        ensures refused { OnRefusal result IsOfFile }
        ensures untold { IfNone (W.state world.old).told (OnRefusal result (FileRefusalRose (W.state world.old).faults (W.state world.new).faults)) }
        ensures memory { Unwritten (W.state world.old).told (W.state world.new).told (trouble_of result) }
        ensures session { Leaves (W.state world.old).told (performs_read_sites self.old file.now) self.old self.new (trouble_of result) }
    {
        let name = Text::copy(alloc, file.as_str())?;
        match world.load(alloc, file.as_str(), LONGEST_FILE) {
            Ok(bytes) => self.read_bytes(alloc, &bytes),
            Err(LoadFault::Missing) => Ok(Err(Cause::FileMissing(name))),
            Err(LoadFault::TooLong) => Ok(Err(Cause::FileTooLong(name))),
            Err(LoadFault::Failed) => Err(Fault::Read(name)),
            Err(LoadFault::Memory) => Err(Fault::Memory),
        }
    }
}
