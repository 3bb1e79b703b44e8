//! The real world: the machine's files and its standard output.

ghost use Rattle.std.specs.Prelude.{◌≡◌, ◌≢◌, ◌≤◌, IfSome, IfOk, IfErr, OnOk, OnErr, vec_len};
ghost use Rattle.std.specs.Option.{option_map};
ghost use Rattle.std.specs.IoError.{error_kind};
ghost use Rattle.spk_world.specs.Outside.{added, started, spoken, says, adds, starts, WritesPrefix};
ghost use Rattle.spk_world.specs.Causes.{FileCause, ScreenCause, LoadCause, Loads};
ghost use Rattle.spk_world.specs.Host.{fault_of_kind, Gives, Takes};

mod kept_file;

use crate::memory::raise;
use crate::{Failed, LoadFault, World};
use kept_file::KeptFile;
use std::alloc::Global;
use std::fs::{self, File, OpenOptions};
use std::io::{self, ErrorKind, Read, Write};
use std::rt::Files;

/// Real files and standard output, whose contents are not told.
///
/// Each of its three counts is raised by one, up to its last value (2^64 - 1, where it stays), at each call of its
/// kind that answers `Missing`, `TooLong` or `Failed`, and nowhere else. The other two counts stay.
///
/// A file that isn't there, also where its folder isn't, is missing; a folder can't be loaded. A load ends at its
/// limit. A write that takes nothing of a piece that isn't empty has failed. A write that is interrupted is made again.
///
/// The file that was added to last stays open, if its name has at most 255 bytes, so that the next add by this name need
/// not open it. It is closed by any start, by an add by another name, and by an add that fails.
#[derive(Drop)]
pub struct HostWorld<R> {
    rt: R,
    last_added: Option<KeptFile<File>>,
    load_faults: u64,
    file_faults: u64,
    screen_faults: u64,
}

impl<R> HostWorld<R> {
    ghost use Rattle.spk_world.specs.Host.{host_faults};

    /// The world that this runtime reaches, with no failure counted.
    pub fn new(rt: R) -> HostWorld<R>
        ensures { host_faults result ≡ record { loads = 0; files = 0; screen = 0 } }
    {
        HostWorld {
            rt,
            last_added: None,
            load_faults: 0,
            file_faults: 0,
            screen_faults: 0,
        }
    }
}

#[tactic(auto, using(crate::proofs::Untold::told_nothing), unfolding(crate::specs::Outside::after_told))]
impl<R: Files<File = File> + Print + Drop> World for HostWorld<R> {
    ghost use Rattle.spk_world.specs.Host.{host_state, host_faults, load_counted, file_counted, screen_counted};

    ghost state = { host_state };

    fn load(&mut self, alloc: Global, name: &str, limit: u64) -> Result<Vec<u8>, LoadFault>
        ensures content { IfSome (host_state self.old).told (λ outside. Loads (outside.files name.now) limit result) }
        ensures bound { IfOk result (λ bytes. vec_len bytes ≤ limit) }
        ensures same { (host_state self.new).told ≡ (host_state self.old).told }
        ensures cause { LoadCause (host_state self.old) (host_state self.new) result }

        ensures counts { host_faults self.new ≡ load_counted (host_faults self.old) result }
    {
        match load_file(&self.rt, alloc, name, limit) {
            Ok(bytes) => Ok(bytes),
            Err(LoadFault::Memory) => Err(LoadFault::Memory),
            Err(fault) => {
                raise(&mut self.load_faults);
                Err(fault)
            }
        }
    }

    fn start(&mut self, name: &str) -> Result<(), Failed>
        ensures ok { OnOk result ((host_state self.new).told ≡ option_map (λ outside. started outside name.now) (host_state self.old).told) }
        ensures err { OnErr result (WritesPrefix (host_state self.old).told (host_state self.new).told (starts name.now)) }
        ensures cause { FileCause (host_state self.old) (host_state self.new) result }

        ensures counts { host_faults self.new ≡ file_counted (host_faults self.old) result }
    {
        match start_file(&self.rt, &mut self.last_added, name) {
            Ok(_) => Ok(()),
            Err(_) => {
                raise(&mut self.file_faults);
                Err(Failed)
            }
        }
    }

    fn add(&mut self, name: &str, bytes: &[u8]) -> Result<(), Failed>
        ensures ok { OnOk result ((host_state self.new).told ≡ option_map (λ outside. added outside name.now bytes.now) (host_state self.old).told) }
        ensures err { OnErr result (WritesPrefix (host_state self.old).told (host_state self.new).told (adds name.now bytes.now)) }
        ensures cause { FileCause (host_state self.old) (host_state self.new) result }

        ensures counts { host_faults self.new ≡ file_counted (host_faults self.old) result }
    {
        match add_to_file(&self.rt, &mut self.last_added, name, bytes) {
            Ok(()) => Ok(()),
            Err(_) => {
                raise(&mut self.file_faults);
                Err(Failed)
            }
        }
    }

    fn say(&mut self, bytes: &[u8]) -> Result<(), Failed>
        ensures ok { OnOk result ((host_state self.new).told ≡ option_map (λ outside. spoken outside bytes.now) (host_state self.old).told) }
        ensures err { OnErr result (WritesPrefix (host_state self.old).told (host_state self.new).told (says bytes.now)) }
        ensures cause { ScreenCause (host_state self.old) (host_state self.new) result }

        ensures counts { host_faults self.new ≡ screen_counted (host_faults self.old) result }
    {
        match write_whole(&mut io::writer(&self.rt), bytes) {
            Ok(()) => Ok(()),
            Err(_) => {
                raise(&mut self.screen_faults);
                Err(Failed)
            }
        }
    }
}

fn load_file<R: Files>(rt: &R, alloc: Global, name: &str, limit: u64) -> Result<Vec<u8>, LoadFault>
    ensures { IfOk result (λ bytes. vec_len bytes ≤ limit) }
{
    match fs::open(rt, name) {
        Ok(file) => read_up_to(file, alloc, limit),
        Err(error) => Err(open_fault(error.kind())),
    }
}

// Closes the file that is open, and makes this one empty.
fn start_file<R: Files<File = File>>(
    rt: &R,
    last: &mut Option<KeptFile<File>>,
    name: &str,
) -> io::Result<()>
    ensures { last.new ≡ None }
{
    *last = None;
    fs::create(rt, name)?;
    Ok(())
}

// Adds to the file that is open, if it has this name. Otherwise closes it, and opens the one that has. It stays open where
// all was written.
fn add_to_file<R: Files<File = File>>(
    rt: &R,
    last: &mut Option<KeptFile<File>>,
    name: &str,
    bytes: &[u8],
) -> io::Result<()>
    ensures named { IfSome last.new (λ kept. kept.name ≡ name.now) }
    ensures err { OnErr result (last.new ≡ None) }
{
    if let Some(mut kept) = last.take()
        && kept.has_name(name)
    {
        write_whole(&mut kept.file, bytes)?;
        *last = Some(kept);
        return Ok(());
    }
    let mut how = OpenOptions::new();
    how.append(true).create(true);
    let mut file = how.open(rt, name)?;
    write_whole(&mut file, bytes)?;
    *last = KeptFile::new(name, file);
    Ok(())
}

// Reads to the end, and one byte past the limit where there are more.
fn read_up_to<R: Read + Drop>(from: R, alloc: Global, limit: u64) -> Result<Vec<u8>, LoadFault>
    ensures { Gives (R.remaining from) limit result }
{
    let mut bytes = Vec::new(alloc);
    match from.take(limit.saturating_add(1)).read_to_end(&mut bytes) {
        Ok(_) if bytes.len() as u64 > limit => Err(LoadFault::TooLong),
        Ok(_) => Ok(bytes),
        Err(error) if error.kind() == ErrorKind::OutOfMemory => Err(LoadFault::Memory),
        Err(_) => Err(LoadFault::Failed),
    }
}

// Why a file was not opened.
fn open_fault(kind: ErrorKind) -> LoadFault
    ensures { result ≡ fault_of_kind kind }
{
    match kind {
        ErrorKind::NotFound => LoadFault::Missing,
        ErrorKind::OutOfMemory => LoadFault::Memory,
        _ => LoadFault::Failed,
    }
}

// Writes all of the bytes. A write that is interrupted is made again: no such error is answered.
fn write_whole<W: Write>(to: &mut W, bytes: &[u8]) -> io::Result<()>
    ensures takes { Takes (W.contents to.old) (W.contents to.new) bytes.now result }
    ensures again { IfErr result (λ error. error_kind error ≢ ErrorKind.Interrupted) }
{
    let mut left = bytes;
    for _ in 0..u64::MAX {
        if left.is_empty() {
            return Ok(());
        }
        match to.write(left) {
            Ok(0) => return Err(io::Error::from(ErrorKind::WriteZero)),
            Ok(count) => left = &left[count..],
            Err(error) if error.kind() == ErrorKind::Interrupted => {}
            Err(error) => return Err(error),
        }
    }
    Err(io::Error::from(ErrorKind::Other))
}

#[cfg(test)]
mod tests {
    use super::*;
    use std::alloc::Allocator;
    use std::cell::Cell;
    use std::fmt::Display;
    use std::fs::Metadata;
    use std::test::Fail;

    // A writer that is interrupted at its first call and at each second one after it, and else takes one byte.
    #[derive(Drop)]
    struct Interrupted {
        calls: u32,
        taken: Vec<u8>,
    }

    impl Write for Interrupted {
        fn write(&mut self, bytes: &[u8]) -> io::Result<usize> {
            self.calls = self.calls.wrapping_add(1);
            if self.calls % 2 == 1 || bytes.is_empty() {
                return Err(io::Error::from(ErrorKind::Interrupted));
            }
            self.taken.push(bytes[0])?;
            Ok(1)
        }

        fn flush(&mut self) -> io::Result<()> {
            Ok(())
        }
    }

    #[test]
    fn writes_again_where_interrupted(rt: HostRuntime) -> Result<(), Fail> {
        let mut writer = Interrupted {
            calls: 0,
            taken: Vec::new(rt.alloc()),
        };
        write_whole(&mut writer, b"abc")?;
        assert_eq!(rt; writer.taken.as_slice(), b"abc".as_slice());
        assert_eq!(rt; writer.calls, 6);
        Ok(())
    }

    // The machine's files and standard output, with a count of the files that were opened.
    #[derive(Drop)]
    struct Counting {
        rt: HostRuntime,
        opened: Cell<u32>,
    }

    impl Files for Counting {
        type File = File;

        type Dir = File;

        fn open_file(&self, how: &OpenOptions, path: &str) -> io::Result<File> {
            self.opened.set(self.opened.get().wrapping_add(1));
            self.rt.open_file(how, path)
        }

        fn metadata(&self, path: &str) -> io::Result<Metadata> {
            self.rt.metadata(path)
        }

        fn open_dir(&self, _path: &str) -> io::Result<File> {
            Err(io::Error::from(ErrorKind::Unsupported))
        }

        fn symlink_metadata(&self, _path: &str) -> io::Result<Metadata> {
            Err(io::Error::from(ErrorKind::Unsupported))
        }

        fn copy(&self, _from: &str, _to: &str) -> io::Result<u64> {
            Err(io::Error::from(ErrorKind::Unsupported))
        }

        fn rename(&self, _from: &str, _to: &str) -> io::Result<()> {
            Err(io::Error::from(ErrorKind::Unsupported))
        }

        fn remove_file(&self, _path: &str) -> io::Result<()> {
            Err(io::Error::from(ErrorKind::Unsupported))
        }

        fn create_dir(&self, _path: &str) -> io::Result<()> {
            Err(io::Error::from(ErrorKind::Unsupported))
        }

        fn remove_dir(&self, _path: &str) -> io::Result<()> {
            Err(io::Error::from(ErrorKind::Unsupported))
        }

        fn remove_dir_all<A: Allocator>(&self, _alloc: A, _path: &str) -> io::Result<()> {
            Err(io::Error::from(ErrorKind::Unsupported))
        }
    }

    impl Print for Counting {
        fn print<D: Display + Drop>(&self, value: D) -> io::Result<()> {
            self.rt.print(value)
        }

        fn println<D: Display + Drop>(&self, value: D) -> io::Result<()> {
            self.rt.println(value)
        }

        fn write_all(&self, bytes: &[u8]) -> io::Result<()> {
            self.rt.write_all(bytes)
        }
    }

    #[test]
    fn keeps_the_last_file_open(rt: HostRuntime) -> Result<(), Fail> {
        let mut world = HostWorld::new(Counting {
            rt: rt.clone()?,
            opened: Cell::new(0),
        });
        fs::create_dir_all(&rt, "kept")?;
        for (name, opened) in [
            ("kept/log", 1),
            ("kept/log", 1),
            ("kept/dump", 2),
            ("kept/log", 3),
            ("kept/log", 3),
        ] {
            world.add(name, b"a")?;
            assert_eq!(rt; world.rt.opened.get(), opened, "at {name}");
        }
        assert_eq!(rt; fs::read_to_string(&rt, "kept/log")?.as_str(), "aaaa");
        assert_eq!(rt; fs::read_to_string(&rt, "kept/dump")?.as_str(), "a");

        world.start("kept/log")?;
        world.add("kept/log", b"bc")?;
        world.add("kept/log", b"d")?;
        assert_eq!(rt; fs::read_to_string(&rt, "kept/log")?.as_str(), "bcd");
        world.start("kept/dump")?;
        world.add("kept/log", b"e")?;
        assert_eq!(rt; world.rt.opened.get(), 7);
        assert_eq!(rt; fs::read_to_string(&rt, "kept/log")?.as_str(), "bcde");

        assert_eq!(rt; world.file_faults, 0);

        fs::remove_dir_all(&rt, "kept")?;
        Ok(())
    }

    #[test]
    fn real_files(rt: HostRuntime) -> Result<(), Fail> {
        let mut world = HostWorld::new(rt.clone()?);
        fs::create_dir_all(&rt, "folder")?;
        for (name, fault) in [
            ("folder/none", LoadFault::Missing),
            ("none/log", LoadFault::Missing),
            ("folder", LoadFault::Failed),
        ] {
            assert_eq!(rt;
                world.load(rt.alloc(), name, 9).err(),
                Some(fault),
                "at {name}"
            );
        }
        assert_eq!(rt; world.load_faults, 3);

        world.add("folder/log", b"gone")?;
        world.start("folder/log")?;
        world.add("folder/log", b"abc")?;
        world.add("folder/log", b"de")?;
        assert_eq!(rt;
            world.load(rt.alloc(), "folder/log", 5)?.as_slice(),
            b"abcde".as_slice()
        );
        assert_eq!(rt; world.load_faults, 3);
        assert_eq!(rt;
            world.load(rt.alloc(), "folder/log", 4).err(),
            Some(LoadFault::TooLong)
        );
        assert_eq!(rt;
            world.load(rt.alloc(), "folder/log/x", 4).err(),
            Some(LoadFault::Failed)
        );
        assert_eq!(rt; world.load_faults, 5);

        assert_eq!(rt; world.start("folder"), Err(Failed));
        assert_eq!(rt; world.add("none/log", b"a"), Err(Failed));
        assert_eq!(rt; world.file_faults, 2);

        world.say(b"said\n")?;
        assert_eq!(rt; world.screen_faults, 0);

        fs::remove_file(&rt, "folder/log")?;
        fs::remove_dir(&rt, "folder")?;
        Ok(())
    }
}
