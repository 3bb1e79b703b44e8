//! Commands that a session of `spk_run` obeys one by one, and the exit statuses: what no case can say.

use spk_cmds::{Command, Echo, Input, Options, Settings, command_of};
use spk_num::sweep::Sweep;
use spk_num::text::Text;
use spk_run::{Answer, Cause, Session, Target, Trouble, status};
use spk_world::{Fail, MemWorld};
use std::alloc::{AllocError, Global};
use std::process::Abort;
use std::test::Fail as TestFailed;

/// The name of the log.
const LOG: &str = "log.spparks";

/// A session with a log, and a world in which it is used.
#[derive(Drop)]
struct Bench {
    alloc: Global,
    session: Session,
    world: MemWorld,
}

/// What a command line asks for that names a log.
fn options(alloc: Global) -> Result<Options, AllocError> {
    Ok(Options {
        input: Input::File(Text::copy(alloc, "in")?),
        vars: Settings::new(alloc),
        log: Some(Text::copy(alloc, LOG)?),
        echo: Echo::Log,
        workers: 1,
        workers_word: 0,
    })
}

impl Bench {
    /// A new session.
    fn new(alloc: Global) -> Result<Bench, AllocError> {
        let options = options(alloc)?;
        Ok(Bench {
            alloc,
            session: Session::new(alloc, &options)?,
            world: MemWorld::new(alloc),
        })
    }

    /// Obeys a line.
    fn obey(&mut self, line: &str) -> Result<Result<(), Trouble>, TestFailed> {
        let mut words = Vec::new(self.alloc);
        for word in line.split(' ') {
            words.push(Text::copy(self.alloc, word)?)?;
        }
        match command_of(self.alloc, &words) {
            Ok(command) => Ok(self.session.obey(&command, &mut self.world)),
            Err(_) => Err("a command")?,
        }
    }

    /// Obeys lines, none of which is refused.
    fn obey_all(&mut self, rt: &impl Abort, lines: &[&str]) -> Result<(), TestFailed> {
        for line in lines {
            let obeyed = self.obey(line)?;
            assert!(rt; obeyed.is_ok(), "{line}");
        }
        Ok(())
    }

    /// The screen and the log hold this.
    fn expect(&self, rt: &impl Abort, text: &str) {
        assert!(rt;
            self.world.said.as_slice() == text.as_bytes(),
            "screen: {text}"
        );
        match self.world.files.get(LOG) {
            Some(log) => assert!(rt; log.as_slice() == text.as_bytes(), "log: {text}"),
            None => assert!(rt; text.is_empty(), "no log"),
        }
    }
}

/// What makes ten sites with the value 1.
const SITES: [&str; 7] = [
    "seed 12345",
    "app_style ising",
    "lattice line/2n 1.0",
    "region box block 0 10 0 1 0 1",
    "create_box box",
    "create_sites box",
    "solve_style linear",
];

/// What a run of so many units says, from 0.
const RUN: &str = "Time Naccept Nreject Nsweeps\n0.000000000 0 0 0\n2.000000000 0 0 0\n";

#[test]
fn obeys_commands(rt: HostRuntime) -> Result<(), TestFailed> {
    let mut bench = Bench::new(rt.alloc())?;
    bench.obey_all(&rt, &SITES)?;
    bench.expect(&rt, "");
    bench.obey_all(&rt, &["run 2"])?;
    bench.expect(&rt, RUN);
    Ok(())
}

/// A command that is refused writes nothing, and the session goes on as if it had not come.
#[test]
fn refuses_commands(rt: HostRuntime) -> Result<(), TestFailed> {
    let mut bench = Bench::new(rt.alloc())?;
    let refused = bench.obey("run 2")?;
    assert!(rt; matches!(refused, Err(Trouble::Refused(Cause::NoApp))));
    bench.obey_all(&rt, &SITES)?;
    let refused = bench.obey("create_sites box")?;
    assert!(rt; matches!(refused, Err(Trouble::Refused(Cause::AlreadyMade))));
    bench.expect(&rt, "");
    bench.obey_all(&rt, &["run 2"])?;
    bench.expect(&rt, RUN);
    Ok(())
}

/// The first call of the world fails after so many bytes.
fn fails_at(bench: &mut Bench, call: u64, bytes: u64) -> Result<(), AllocError> {
    bench.world.fail_at.push(Fail { call, bytes })?;
    Ok(())
}

/// The file whose write failed.
fn file_of(obeyed: Result<(), Trouble>) -> Option<Text> {
    match obeyed {
        Err(Trouble::WriteFault(Target::File(name))) => Some(name),
        _ => None,
    }
}

#[test]
fn names_the_log_that_failed(rt: HostRuntime) -> Result<(), TestFailed> {
    let mut bench = Bench::new(rt.alloc())?;
    fails_at(&mut bench, 2, 3)?;
    let failed = bench.obey("print hello")?;
    let name = file_of(failed).ok_or("a file")?;
    assert!(rt; name.as_str() == LOG);
    assert!(rt; bench.world.said.as_slice() == b"hello\n".as_slice());
    Ok(())
}

/// After a failed write the session is the one after the whole run.
#[test]
fn goes_on_after_a_failed_write(rt: HostRuntime) -> Result<(), TestFailed> {
    let mut bench = Bench::new(rt.alloc())?;
    bench.obey_all(&rt, &SITES)?;
    fails_at(&mut bench, 1, 0)?;
    let failed = bench.obey("run 2")?;
    assert!(rt; matches!(failed, Err(Trouble::WriteFault(Target::Screen))));
    bench.expect(&rt, "");
    bench.obey_all(&rt, &["run 2"])?;
    bench.expect(
        &rt,
        "Time Naccept Nreject Nsweeps\n2.000000000 0 0 0\n4.000000000 0 0 0\n",
    );
    Ok(())
}

/// A site file that has no value for the first site.
const BAD_FILE: &str = "by hand\n10 sites\nValues\n\n5 2\n";

/// A bad file leaves the values as they were.
#[test]
fn keeps_the_values_for_a_bad_site_file(rt: HostRuntime) -> Result<(), TestFailed> {
    let mut bench = Bench::new(rt.alloc())?;
    bench.obey_all(&rt, &SITES)?;
    bench.world.put_file("sites", BAD_FILE.as_bytes())?;
    let refused = bench.obey("read_sites sites")?;
    assert!(rt; matches!(refused, Err(Trouble::Refused(Cause::MissingId(1)))));
    bench.obey_all(&rt, &["run 2"])?;
    bench.expect(&rt, RUN);
    Ok(())
}

/// No words make this command, and it is refused all the same.
#[test]
fn refuses_sweeps_by_color(rt: HostRuntime) -> Result<(), TestFailed> {
    let mut bench = Bench::new(rt.alloc())?;
    let style = Sweep::Color;
    let refused = (bench.session).obey(&Command::Sweep { style }, &mut bench.world);
    assert!(rt; matches!(refused, Err(Trouble::Refused(Cause::NotBuilt(_)))));
    Ok(())
}

#[test]
fn gives_the_status_of_each_answer(rt: HostRuntime) {
    let cause = Cause::NoSeed;
    assert_eq!(rt; status(&Answer::Done), 0);
    assert_eq!(rt; status(&Answer::Refused { line: 1, cause }), 1);
    assert_eq!(rt; status(&Answer::Usage { word: 1 }), 2);
    let target = Target::Screen;
    assert_eq!(rt; status(&Answer::WriteFault { target }), 3);
    assert_eq!(rt; status(&Answer::OutOfMemory), 4);
}
