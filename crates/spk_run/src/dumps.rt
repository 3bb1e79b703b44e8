//! The dumps of a session.

ghost use Rattle.std.specs.Prelude.{◌≡◌, ◌≤◌, All, ◌<◌, ◌++◌, ◌∷◌, [], length, map, IfOk};
ghost use Rattle.std.specs.List.{remove};
ghost use Rattle.spk_run.specs.Dumps.{due_of, has_sites_dump, is_any_due, passed, place_of, started};

use crate::dump::Dump;
use spk_num::text::Text;
use spk_sched::{Due, Dues};
use std::alloc::{AllocError, Global};
use std::marker::Model;

/// The dumps in force, in the order in which they were given.
#[derive(Debug, Drop)]
pub struct Dumps {
    dumps: Vec<Dump>,
}

impl Model for Dumps {
    ghost use Rattle.std.specs.Prelude.{List};
    ghost use Rattle.spk_run.specs.declared.dump.DumpState.{DumpState};

    ghost Value = { List DumpState };

    ghost view = { λ d. d.dumps.items };
}

impl Dumps {
    /// No dumps.
    pub fn new(alloc: Global) -> Dumps
        ensures { result ≡ [] }
    {
        Dumps {
            dumps: Vec::new(alloc),
        }
    }

    /// How many dumps there are.
    pub fn len(&self) -> usize
        ensures { result ≡ length self.now }
    {
        self.dumps.len()
    }

    /// The place of the dump with this name, counted from 0.
    pub fn find(&self, name: &Text) -> Option<usize>
        ensures { result ≡ place_of self.now name.now }
    {
        self.dumps.iter().position(|dump| dump.has_name(name))
    }

    /// The dumps as a slice.
    pub fn as_slice(&self) -> &[Dump]
        ensures { result.now ≡ self.now }
    {
        &self.dumps
    }

    /// Adds a dump after the others.
    pub fn push(&mut self, dump: Dump) -> Result<(), AllocError>
        ensures { IfOk result (λ _. self.new ≡ self.old ++ dump ∷ []) }
    {
        self.dumps.push(dump)?;
        Ok(())
    }

    /// Takes the dump at a place away.
    pub fn remove(&mut self, place: usize)
        requires { place < length self.old }
        ensures { self.new ≡ remove self.old place }
    {
        self.dumps.remove(place);
    }

    /// When their snapshots are due in a run that starts at a time, in ticks.
    pub fn dues(&self, alloc: Global, start: u64) -> Result<Dues, AllocError>
        ensures dues { IfOk result (λ dues. dues ≡ map (due_of start) self.now) }
        ensures some { IfOk result (λ dues. All (λ due. 1 ≤ due.delta) dues) }
    {
        let mut dues = Vec::with_capacity(alloc, self.dumps.len())?;
        for dump in &self.dumps {
            dues.push(dump.due(start))?;
        }
        Ok(Dues::from_vec(dues))
    }

    /// Begins a run at a time, in ticks.
    pub fn start(&mut self, start: u64)
        ensures { self.new ≡ map (started start) self.old }
    {
        for place in 0..self.dumps.len() {
            self.dumps[place].start(start);
        }
    }

    /// Passes a moment, with the snapshots that are due.
    pub fn pass(&mut self, time: u64)
        requires { time ≤ 4000000000000000000 }
        ensures { self.new ≡ map (passed time) self.old }
    {
        for place in 0..self.dumps.len() {
            self.dumps[place].pass(time);
        }
    }

    /// Whether a snapshot is due at a time, in ticks.
    pub fn is_due(&self, time: u64) -> bool
        ensures { result ≡ is_any_due time self.now }
    {
        self.dumps.iter().any(|dump| dump.is_due(time))
    }

    /// Whether a dump is of style sites.
    pub fn has_sites_dump(&self) -> bool
        ensures { result ≡ has_sites_dump self.now }
    {
        self.dumps.iter().any(|dump| dump.is_of_sites())
    }
}
