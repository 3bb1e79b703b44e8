//! `spk_serial`: the simulator in one thread.
#![tactic(auto)]

use spk_run::{Answer, simulate_alone, status};
use spk_world::HostWorld;
use std::process::ExitCode;
use std::rt::Env;
use std::{env, io};

/// The words after the program's name.
fn words<R: Env + AllocGlobal>(rt: &R) -> io::Result<Vec<String>> {
    let mut words = Vec::new(rt.alloc());
    for word in env::args(rt)?.skip(1) {
        words.push(word)?;
    }
    Ok(words)
}

fn main(rt: HostRuntime) -> ExitCode {
    let alloc = rt.alloc();
    let words = match words(&rt) {
        Ok(words) => words,
        Err(error) if error.kind() == io::ErrorKind::OutOfMemory => {
            return ExitCode::from(status(&Answer::OutOfMemory));
        }
        // A word that is no text is refused as a missing one is: which it was can't be told.
        Err(_) => Vec::new(alloc),
    };
    let mut world = HostWorld::new(rt);
    let answer = simulate_alone(alloc, &words, &mut world);
    ExitCode::from(status(&answer))
}
