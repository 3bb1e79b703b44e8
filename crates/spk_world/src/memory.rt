//! A world in memory, for tests.

ghost use Rattle.std.specs.Prelude.{◌≡◌, ◌≢◌, ◌≤◌, ◌⊎◌, [], ◌++◌, None, Some, IsSome, IfSome, unwrap_or, is_ok, IfOk, OnOk, OnErr, MatchResult, vec_len};
ghost use Rattle.std.specs.Option.{option_map};
ghost use Rattle.std.specs.Map.{update};
ghost use Rattle.std.specs.Str.{bytes_eq};
ghost use Rattle.spk_world.specs.Outside.{adds, after, added, started, spoken, says, starts, WritesPrefix};
ghost use Rattle.spk_world.specs.Causes.{FileCause, ScreenCause, LoadCause, Loads};
ghost use Rattle.spk_world.specs.Memory.{files_of, prefix_of, raised, LoadsExactly, StartEnds, AddEnds, SayEnds};

use crate::{Failed, LoadFault, OutOfMemory, World};
use std::alloc::Global;
use std::collections::BTreeMap;

/// A call that must fail.
///
/// The call with this number, counted from 1 over all four kinds (load, start, add, say), fails after so many bytes
/// of its piece. A shorter piece is written whole, and the call fails all the same.
#[derive(Clone, Copy, Debug, PartialEq, Eq)]
pub struct Fail {
    pub call: u64,
    pub bytes: u64,
}

/// Files and a screen in memory, which are told.
///
/// A load whose file is missing or too long answers that, whatever `fail_at` says. Otherwise a call fails exactly
/// where `fail_at` says so, or where it is out of memory for a name or piece that is written. The latter raises
/// `starved`, and nothing else does. The count of the call's kind rises at each `Failed` and nowhere else. A load
/// that is out of memory answers that, and the count stays. A start that fails leaves the file as before.
///
/// The five numbers stay at their last value once they are there.
#[derive(Drop)]
pub struct MemWorld {
    pub files: BTreeMap<String, Vec<u8>>,
    pub said: Vec<u8>,
    /// Of several with one number the first counts.
    pub fail_at: Vec<Fail>,
    pub calls: u64,
    pub load_faults: u64,
    pub file_faults: u64,
    pub screen_faults: u64,
    pub starved: u64,
}

/// Why a write fails.
#[derive(Clone, Copy)]
enum Reason {
    Planned,
    Memory,
}

impl From<OutOfMemory> for Reason {
    ghost use Rattle.spk_world.specs.declared.memory.Reason.{Reason};
    ghost use Rattle.spk_world.specs.declared.memory.Reason.TheVariants.{Memory};

    ghost from_gives = { λ _ reason. reason ≡ Memory };

    fn from(_: OutOfMemory) -> Reason {
        Reason::Memory
    }
}

impl MemWorld {
    ghost use Rattle.spk_world.specs.Memory.{outside_of, plan_of, with_failure_counted, with_load_counted, with_reason_counted, with_file, with_file_fault, with_screen_fault, IsNew};

    /// An empty world, whose allocator serves all that is written.
    pub fn new(alloc: Global) -> MemWorld
        ensures { IsNew result }
    {
        MemWorld {
            files: BTreeMap::new(alloc),
            said: Vec::new(alloc),
            fail_at: Vec::new(alloc),
            calls: 0,
            load_faults: 0,
            file_faults: 0,
            screen_faults: 0,
            starved: 0,
        }
    }

    /// Adds or replaces a file. It is no call of the world.
    pub fn put_file(&mut self, name: &str, bytes: &[u8]) -> Result<(), OutOfMemory>
        ensures ok { OnOk result (outside_of self.new ≡ with_file (outside_of self.old) name.now bytes.now) }
        ensures err { OnErr result (outside_of self.new ≡ outside_of self.old) }
        ensures rest { self.new ≡ record self.old { files = self.new.files } }
    {
        let alloc = *self.said.allocator();
        put(&mut self.files, alloc, name, bytes)
    }

    // After how many bytes the call that comes next must fail.
    fn next_call(&mut self) -> Option<u64>
        ensures plan { result ≡ plan_of self.old }
        ensures world { self.new ≡ record self.old { calls = raised self.old.calls } }
    {
        raise(&mut self.calls);
        let number = self.calls;
        self.fail_at
            .iter()
            .find(|fail| fail.call == number)
            .map(|fail| fail.bytes)
    }

    // Makes a file empty, if it isn't planned to fail.
    fn start_file(&mut self, name: &str, plan: Option<u64>) -> Result<(), Reason>
        ensures ends { StartEnds plan (outside_of self.old) (outside_of self.new) name.now result }
        ensures rest { self.new ≡ record self.old { files = self.new.files } }
    {
        as_planned(plan)?;
        let alloc = *self.said.allocator();
        empty(&mut self.files, alloc, name)?;
        Ok(())
    }

    // Adds a piece to a file, or the prefix of it that the plan leaves.
    fn add_piece(&mut self, name: &str, bytes: &[u8], plan: Option<u64>) -> Result<(), Reason>
        ensures ends { AddEnds plan (outside_of self.old) (outside_of self.new) name.now bytes.now result }
        ensures rest { self.new ≡ record self.old { files = self.new.files } }
    {
        if plan.is_none() {
            let alloc = *self.said.allocator();
            append(&mut self.files, alloc, name, bytes)?;
            return Ok(());
        }
        self.add_prefix(name, prefix_of_piece(bytes, plan))?;
        Err(Reason::Planned)
    }

    // Adds bytes to a file. None are added to a file that isn't there without making it.
    fn add_prefix(&mut self, name: &str, bytes: &[u8]) -> Result<(), OutOfMemory>
        ensures ok { OnOk result (outside_of self.new ≡ after (outside_of self.old) (adds name.now bytes.now)) }
        ensures err { OnErr result (outside_of self.new ≡ outside_of self.old) }
        ensures allocates { OnErr result (bytes.now ≢ []) }
        ensures rest { self.new ≡ record self.old { files = self.new.files } }
    {
        if bytes.is_empty() {
            return Ok(());
        }
        let alloc = *self.said.allocator();
        append(&mut self.files, alloc, name, bytes)
    }

    // Writes a piece to the screen, or the prefix of it that the plan leaves.
    fn say_piece(&mut self, bytes: &[u8], plan: Option<u64>) -> Result<(), Reason>
        ensures ends { SayEnds plan (outside_of self.old) (outside_of self.new) bytes.now result }
        ensures rest { self.new ≡ record self.old { said = self.new.said } }
    {
        self.said.extend_from_slice(prefix_of_piece(bytes, plan))?;
        as_planned(plan)
    }

    fn count_load(&mut self, answer: &Result<Vec<u8>, LoadFault>)
        ensures later { self.old.load_faults ≤ self.new.load_faults }
        ensures counted { self.new ≡ with_load_counted self.old answer.now }
    {
        if let Err(LoadFault::Failed) = answer {
            raise(&mut self.load_faults);
        }
    }

    fn count_file(&mut self, ended: Result<(), Reason>) -> Result<(), Failed>
        ensures same { is_ok result ≡ is_ok ended }
        ensures later { self.old.file_faults ≤ self.new.file_faults }
        ensures counted { self.new ≡ with_failure_counted with_file_fault self.old ended }
    {
        match ended {
            Ok(()) => Ok(()),
            Err(reason) => {
                raise(&mut self.file_faults);
                self.count_starved(reason);
                Err(Failed)
            }
        }
    }

    fn count_screen(&mut self, ended: Result<(), Reason>) -> Result<(), Failed>
        ensures same { is_ok result ≡ is_ok ended }
        ensures later { self.old.screen_faults ≤ self.new.screen_faults }
        ensures counted { self.new ≡ with_failure_counted with_screen_fault self.old ended }
    {
        match ended {
            Ok(()) => Ok(()),
            Err(reason) => {
                raise(&mut self.screen_faults);
                self.count_starved(reason);
                Err(Failed)
            }
        }
    }

    fn count_starved(&mut self, reason: Reason)
        ensures { self.new ≡ with_reason_counted self.old reason }
    {
        if let Reason::Memory = reason {
            raise(&mut self.starved);
        }
    }
}

impl World for MemWorld {
    ghost use Rattle.spk_world.specs.Memory.{outside_of, state_of, plan_of, after_load, StartsExactly, AddsExactly, SaysExactly};

    ghost state = { state_of };

    fn load(&mut self, alloc: Global, name: &str, limit: u64) -> Result<Vec<u8>, LoadFault>
        ensures content { IfSome (state_of self.old).told (λ outside. Loads (outside.files name.now) limit result) }
        ensures bound { IfOk result (λ bytes. vec_len bytes ≤ limit) }
        ensures same { (state_of self.new).told ≡ (state_of self.old).told }
        ensures cause { LoadCause (state_of self.old) (state_of self.new) result }

        ensures answer { LoadsExactly ((outside_of self.old).files name.now) limit (plan_of self.old) result }
        ensures world { self.new ≡ after_load self.old result }
    {
        let plan = self.next_call();
        let answer = copy_of(&self.files, alloc, name, limit, plan);
        self.count_load(&answer);
        answer
    }

    fn start(&mut self, name: &str) -> Result<(), Failed>
        ensures ok { OnOk result ((state_of self.new).told ≡ option_map (λ outside. started outside name.now) (state_of self.old).told) }
        ensures err { OnErr result (WritesPrefix (state_of self.old).told (state_of self.new).told (starts name.now)) }
        ensures cause { FileCause (state_of self.old) (state_of self.new) result }

        ensures exactly { StartsExactly self.old self.new name.now result }
    {
        let plan = self.next_call();
        let ended = self.start_file(name, plan);
        self.count_file(ended)
    }

    fn add(&mut self, name: &str, bytes: &[u8]) -> Result<(), Failed>
        ensures ok { OnOk result ((state_of self.new).told ≡ option_map (λ outside. added outside name.now bytes.now) (state_of self.old).told) }
        ensures err { OnErr result (WritesPrefix (state_of self.old).told (state_of self.new).told (adds name.now bytes.now)) }
        ensures cause { FileCause (state_of self.old) (state_of self.new) result }

        ensures exactly { AddsExactly self.old self.new name.now bytes.now result }
    {
        let plan = self.next_call();
        let ended = self.add_piece(name, bytes, plan);
        self.count_file(ended)
    }

    fn say(&mut self, bytes: &[u8]) -> Result<(), Failed>
        ensures ok { OnOk result ((state_of self.new).told ≡ option_map (λ outside. spoken outside bytes.now) (state_of self.old).told) }
        ensures err { OnErr result (WritesPrefix (state_of self.old).told (state_of self.new).told (says bytes.now)) }
        ensures cause { ScreenCause (state_of self.old) (state_of self.new) result }

        ensures exactly { SaysExactly self.old self.new bytes.now result }
    {
        let plan = self.next_call();
        let ended = self.say_piece(bytes, plan);
        self.count_screen(ended)
    }
}

// One more, up to the greatest value.
pub(crate) fn raise(count: &mut u64)
    ensures later { count.old ≤ count.new }
    ensures raised { count.new ≡ raised count.old }
{
    *count = count.saturating_add(1);
}

// Adds or replaces a file.
fn put(
    files: &mut BTreeMap<String, Vec<u8>>,
    alloc: Global,
    name: &str,
    bytes: &[u8],
) -> Result<(), OutOfMemory>
    ensures ok { OnOk result (files_of files.new ≡ update bytes_eq (files_of files.old) name.now (Some bytes.now)) }
    ensures err { OnErr result (files_of files.new ≡ files_of files.old) }
{
    let key = String::from_str(alloc, name)?;
    let file = Vec::from_slice(alloc, bytes)?;
    files.insert(key, file)?;
    Ok(())
}

// The bytes of a file that may be copied.
#[tactic(auto, unfolding(crate::specs::Memory::files_of))]
fn copy_of(
    files: &BTreeMap<String, Vec<u8>>,
    alloc: Global,
    name: &str,
    limit: u64,
    plan: Option<u64>,
) -> Result<Vec<u8>, LoadFault>
    ensures { LoadsExactly (files_of files.now name.now) limit plan result }
{
    let Some(file) = files.get(name) else {
        return Err(LoadFault::Missing);
    };
    if file.len() as u64 > limit {
        return Err(LoadFault::TooLong);
    }
    if plan.is_some() {
        return Err(LoadFault::Failed);
    }
    match Vec::from_slice(alloc, file) {
        Ok(bytes) => Ok(bytes),
        Err(_) => Err(LoadFault::Memory),
    }
}

// Makes a file empty.
fn empty(
    files: &mut BTreeMap<String, Vec<u8>>,
    alloc: Global,
    name: &str,
) -> Result<(), OutOfMemory>
    ensures ok { OnOk result (files_of files.new ≡ update bytes_eq (files_of files.old) name.now (Some [])) }
    ensures err { OnErr result (files_of files.new ≡ files_of files.old) }
    ensures allocates { OnErr result (files_of files.old name.now ≡ None) }
{
    if let Some(file) = files.get_mut(name) {
        file.clear();
        return Ok(());
    }
    put(files, alloc, name, &[])
}

// Adds bytes to a file, which is made where it isn't there.
fn append(
    files: &mut BTreeMap<String, Vec<u8>>,
    alloc: Global,
    name: &str,
    bytes: &[u8],
) -> Result<(), OutOfMemory>
    ensures ok { OnOk result (files_of files.new ≡ update bytes_eq (files_of files.old) name.now (Some (unwrap_or (files_of files.old name.now) [] ++ bytes.now))) }
    ensures err { OnErr result (files_of files.new ≡ files_of files.old) }
    ensures allocates { OnErr result ((bytes.now ≢ []) ⊎ (files_of files.old name.now ≡ None)) }
{
    if let Some(file) = files.get_mut(name) {
        return file.extend_from_slice(bytes);
    }
    put(files, alloc, name, bytes)
}

// The prefix of a piece that the plan leaves.
fn prefix_of_piece(bytes: &[u8], plan: Option<u64>) -> &[u8]
    ensures { result.now ≡ prefix_of plan bytes.now }
{
    match plan {
        Some(left) if left < bytes.len() as u64 => &bytes[..left as usize],
        _ => bytes,
    }
}

// Whether a call that wrote what is planned is done.
fn as_planned(plan: Option<u64>) -> Result<(), Reason>
    ensures { MatchResult result (λ _. plan ≡ None) (λ reason. IsSome plan × (reason ≡ Reason.Planned)) }
{
    match plan {
        None => Ok(()),
        Some(_) => Err(Reason::Planned),
    }
}

#[cfg(test)]
mod tests {
    use super::*;
    use std::test::Fail as TestFailed;

    // A world with one file, whose first call fails after so many bytes.
    fn failing(alloc: Global, bytes: u64) -> Result<MemWorld, OutOfMemory> {
        let mut world = MemWorld::new(alloc);
        world.put_file("log", b"ab")?;
        world.fail_at.push(Fail { call: 1, bytes })?;
        Ok(world)
    }

    fn text_of<'a>(world: &'a MemWorld, name: &str) -> &'a [u8] {
        match world.files.get(name) {
            Some(file) => file.as_slice(),
            None => b"none",
        }
    }

    // Calls, faults of loads, files and screen, and `starved`.
    fn counts(world: &MemWorld) -> [u64; 5] {
        [
            world.calls,
            world.load_faults,
            world.file_faults,
            world.screen_faults,
            world.starved,
        ]
    }

    #[test]
    fn say_fails_after_bytes(rt: HostRuntime) -> Result<(), TestFailed> {
        for (bytes, said) in [(0, ""), (1, "x"), (7, "xyz")] {
            let mut world = failing(rt.alloc(), bytes)?;
            assert_eq!(rt; world.say(b"xyz"), Err(Failed));
            assert_eq!(rt; world.said.as_slice(), said.as_bytes());
            world.say(b"!")?;
            assert_eq!(rt; counts(&world), [2, 0, 0, 1, 0]);
        }
        Ok(())
    }

    #[test]
    fn add_fails_after_bytes(rt: HostRuntime) -> Result<(), TestFailed> {
        for (bytes, log) in [(0, "ab"), (1, "abx"), (7, "abxyz")] {
            let mut world = failing(rt.alloc(), bytes)?;
            assert_eq!(rt; world.add("log", b"xyz"), Err(Failed));
            assert_eq!(rt; text_of(&world, "log"), log.as_bytes());
            world.add("new", b"")?;
            assert_eq!(rt; text_of(&world, "new"), b"".as_slice());
            assert_eq!(rt; counts(&world), [2, 0, 1, 0, 0]);
        }
        Ok(())
    }

    #[test]
    fn start_and_load_fail(rt: HostRuntime) -> Result<(), TestFailed> {
        for bytes in [0, 1, 7] {
            let mut world = failing(rt.alloc(), bytes)?;
            assert_eq!(rt; world.start("log"), Err(Failed));
            assert_eq!(rt; text_of(&world, "log"), b"ab".as_slice());
            world.start("log")?;
            assert_eq!(rt; text_of(&world, "log"), b"".as_slice());
            assert_eq!(rt; counts(&world), [2, 0, 1, 0, 0]);

            let mut world = failing(rt.alloc(), bytes)?;
            assert_eq!(rt;
                world.load(rt.alloc(), "log", 2).err(),
                Some(LoadFault::Failed)
            );
            assert_eq!(rt;
                world.load(rt.alloc(), "log", 2)?.as_slice(),
                b"ab".as_slice()
            );
            assert_eq!(rt; counts(&world), [2, 1, 0, 0, 0]);
        }
        Ok(())
    }

    #[test]
    fn answers_what_the_file_is_first(rt: HostRuntime) -> Result<(), TestFailed> {
        let mut world = failing(rt.alloc(), 0)?;
        assert_eq!(rt;
            world.load(rt.alloc(), "none", 9).err(),
            Some(LoadFault::Missing)
        );
        world.calls = 0;
        assert_eq!(rt;
            world.load(rt.alloc(), "log", 1).err(),
            Some(LoadFault::TooLong)
        );
        assert_eq!(rt; counts(&world), [1, 0, 0, 0, 0]);

        world.put_file("log", b"abc")?;
        assert_eq!(rt; text_of(&world, "log"), b"abc".as_slice());
        assert_eq!(rt; counts(&world), [1, 0, 0, 0, 0]);
        Ok(())
    }

    #[test]
    fn first_plan_counts(rt: HostRuntime) -> Result<(), TestFailed> {
        let mut world = failing(rt.alloc(), 2)?;
        world.fail_at.push(Fail { call: 1, bytes: 0 })?;
        assert_eq!(rt; world.add("new", b"xyz"), Err(Failed));
        assert_eq!(rt; text_of(&world, "new"), b"xy".as_slice());

        let mut world = failing(rt.alloc(), 0)?;
        assert_eq!(rt; world.add("new", b"xyz"), Err(Failed));
        assert_eq!(rt; text_of(&world, "new"), b"none".as_slice());
        Ok(())
    }
}
