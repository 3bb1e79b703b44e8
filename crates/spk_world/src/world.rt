//! The trait by which the simulator reaches files and the screen.

ghost use Rattle.std.specs.Prelude.{◌≡◌, ◌≤◌, IfSome, IfOk, OnOk, OnErr, vec_len};
ghost use Rattle.std.specs.Option.{option_map};
ghost use Rattle.spk_world.specs.Outside.{added, started, spoken, says, adds, starts, WritesPrefix};
ghost use Rattle.spk_world.specs.States.{WorldState};
ghost use Rattle.spk_world.specs.Causes.{FileCause, ScreenCause, LoadCause, Loads};

use std::alloc::Global;

/// A write failed: the file, or the screen, took a prefix of it, or none.
#[derive(Clone, Copy, Debug, PartialEq, Eq)]
pub struct Failed;

/// Why a file was not loaded.
#[derive(Clone, Copy, Debug, PartialEq, Eq)]
pub enum LoadFault {
    /// No file has the name.
    Missing,
    /// The file has more bytes than the limit.
    TooLong,
    /// Reading failed.
    Failed,
    /// Out of memory.
    Memory,
}

/// Files and a screen. A world may tell what they hold, as one in memory does, or not, as the real one.
///
/// It counts how often loads, writes to files and writes to the screen have failed. No count falls. One that
/// has a last value stays there.
pub trait World {
    /// How things stand outside: files and screen, where the world tells them, and how often each kind of call has
    /// failed.
    ghost state: { Self → WorldState };

    /// All bytes of a file, where there are at most `limit`.
    fn load(&mut self, alloc: Global, name: &str, limit: u64) -> Result<Vec<u8>, LoadFault>
        ensures content { IfSome (state self.old).told (λ outside. Loads (outside.files name.now) limit result) }
        ensures bound { IfOk result (λ bytes. vec_len bytes ≤ limit) }
        ensures same { (state self.new).told ≡ (state self.old).told }
        ensures cause { LoadCause (state self.old) (state self.new) result };

    /// Makes a file empty, also one that isn't there.
    fn start(&mut self, name: &str) -> Result<(), Failed>
        ensures ok { OnOk result ((state self.new).told ≡ option_map (λ outside. started outside name.now) (state self.old).told) }
        ensures err { OnErr result (WritesPrefix (state self.old).told (state self.new).told (starts name.now)) }
        ensures cause { FileCause (state self.old) (state self.new) result };

    /// Adds bytes to a file, which is made where it isn't there.
    fn add(&mut self, name: &str, bytes: &[u8]) -> Result<(), Failed>
        ensures ok { OnOk result ((state self.new).told ≡ option_map (λ outside. added outside name.now bytes.now) (state self.old).told) }
        ensures err { OnErr result (WritesPrefix (state self.old).told (state self.new).told (adds name.now bytes.now)) }
        ensures cause { FileCause (state self.old) (state self.new) result };

    /// Writes bytes to the screen.
    fn say(&mut self, bytes: &[u8]) -> Result<(), Failed>
        ensures ok { OnOk result ((state self.new).told ≡ option_map (λ outside. spoken outside bytes.now) (state self.old).told) }
        ensures err { OnErr result (WritesPrefix (state self.old).told (state self.new).told (says bytes.now)) }
        ensures cause { ScreenCause (state self.old) (state self.new) result };
}
