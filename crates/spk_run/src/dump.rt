//! A dump in force.

ghost use Rattle.std.specs.Prelude.{◌≡◌, ◌≤◌, ◌<◌, ◌^◌, ◌==◌, true, [], ◌++◌, length, None, IfOk};
ghost use Rattle.std.specs.Str.{bytes_eq};
ghost use Rattle.std.specs.String.{string_bytes, string_capacity};
ghost use Rattle.spk_run.specs.Dumps.{IsDump, due_of, file_of, is_due, is_of_sites, passed, started, starts_file};

use itoa::Buffer;
use spk_cmds::{DumpStyle, Fields};
use spk_num::text::Text;
use spk_sched::Due;
use std::alloc::{AllocError, Global};
use std::marker::Model;

/// What a dump was given, and how far it has come.
#[derive(Debug, Drop)]
pub struct DumpState {
    pub name: Text,
    pub style: DumpStyle,
    /// Ticks from one snapshot to the next.
    pub delta: u64,
    pub file: Text,
    pub fields: Fields,
    /// When its next snapshot is due, once a run has begun after it.
    pub next: Option<u64>,
    /// How many snapshots it has had.
    pub number: u64,
}

/// A dump in force.
#[derive(Debug, Drop)]
pub struct Dump {
    state: DumpState,
}

impl Model for Dump {
    ghost use Rattle.spk_run.specs.declared.dump.DumpState.{DumpState};
    ghost use Rattle.spk_run.specs.Dumps.{IsDump};

    ghost Value = { DumpState };

    ghost view = { λ d. d.state };

    ghost invariant = { λ d. IsDump d.state };
}

/// Room for the name of the file of any snapshot, in bytes.
pub const NAME_ROOM: usize = 275;

impl Dump {
    /// The dump that has come so far.
    pub fn new(state: DumpState) -> Dump
        requires { IsDump state }
        ensures { result ≡ state }
    {
        Dump { state }
    }

    /// What holds of every dump.
    pub fn known(&self)
        ensures { IsDump self.now }
    {
        let _number = self.state.number;
    }

    /// Whether it has this name.
    pub fn has_name(&self, name: &Text) -> bool
        ensures { result ≡ bytes_eq self.now.name name.now }
    {
        self.state.name.as_bytes() == name.as_bytes()
    }

    /// When its snapshots are due in a run that starts at a time, in ticks.
    pub fn due(&self, start: u64) -> Due
        ensures due { result ≡ due_of start self.now }
        ensures some { 1 ≤ result.delta }
    {
        Due {
            next: self.state.next.unwrap_or(start),
            delta: self.state.delta,
        }
    }

    /// Begins a run at a time, in ticks.
    pub fn start(&mut self, start: u64)
        ensures { self.new ≡ started start self.old }
    {
        self.state.next = Some(self.state.next.unwrap_or(start));
    }

    /// Whether a snapshot is due at a time, in ticks.
    pub fn is_due(&self, time: u64) -> bool
        ensures { result ≡ is_due time self.now }
    {
        match self.state.next {
            Some(next) => next <= time,
            None => false,
        }
    }

    /// Passes a moment, with its snapshot where one is due.
    pub fn pass(&mut self, time: u64)
        requires { time ≤ 4000000000000000000 }
        ensures { self.new ≡ passed time self.old }
    {
        if self.is_due(time) {
            let due = self.due(time);
            self.state.next = Some(due.next_above(time));
            self.state.number += 1;
        }
    }

    /// Whether its next snapshot starts its file.
    pub fn starts_file(&self) -> bool
        ensures { result ≡ starts_file self.now }
    {
        self.state.file.as_bytes().contains(&b'*') || self.is_of_sites() || self.state.number == 0
    }

    /// Whether it is of style sites.
    pub fn is_of_sites(&self) -> bool
        ensures { result ≡ is_of_sites self.now.style }
    {
        match self.state.style {
            DumpStyle::Text => false,
            DumpStyle::Sites => true,
        }
    }

    /// Sets a text to the name of the file of its next snapshot. It takes no memory.
    pub fn write_name(&self, name: &mut String)
        requires { 275 ≤ string_capacity name.old }
        ensures name { string_bytes name.new ≡ file_of self.now }
        ensures room { 275 ≤ string_capacity name.new }
    {
        name.clear();
        match self.state.file.as_str().split_once('*') {
            Some((before, after)) => {
                name.push_str(before).unwrap();
                name.push_str(Buffer::new().format(self.state.number))
                    .unwrap();
                name.push_str(after).unwrap();
            }
            None => name.push_str(self.state.file.as_str()).unwrap(),
        }
    }

    /// What it was given, and how far it has come.
    pub fn state(&self) -> &DumpState
        ensures { result.now ≡ self.now }
    {
        &self.state
    }
}
