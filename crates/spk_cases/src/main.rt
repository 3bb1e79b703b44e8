//! `spk_cases`: plays the cases of the files that its words name, and prints those that differ.
#![tactic(auto)]

mod case;
mod difference;
mod draft;
mod fault;
mod line;
mod number;
mod player;
mod reader;
mod report;
mod shown;
mod text;

use anyhow::{Context, Result, anyhow, ensure};
use player::play;
use reader::cases_of;
use report::{Tally, print_case};
use std::rt::{Env, Files};
use std::{env, fs};

/// Plays the cases of a file.
fn play_file<R: Files + Print + AllocGlobal>(rt: &R, tally: &mut Tally, name: &str) -> Result<()> {
    let alloc = rt.alloc();
    let bytes = fs::read(rt, name).context(format_args!("{name}"))?;
    let cases = match cases_of(alloc, &bytes) {
        Ok(cases) => cases,
        Err(fault) => return Err(anyhow!("{name}, {fault}")),
    };
    for case in &cases {
        let differences = play(alloc, case)?;
        let differs = !differences.found().is_empty();
        tally.count(differs);
        if differs {
            print_case(rt, name, case, &differences)?;
        }
    }
    Ok(())
}

/// Plays the cases of all files.
fn play_files<R: Env + Files + Print + AllocGlobal>(rt: &R) -> Result<Tally> {
    let mut tally = Tally::NONE;
    for name in env::args(rt)?.skip(1) {
        play_file(rt, &mut tally, name.as_str())?;
    }
    Ok(tally)
}

fn main(rt: HostRuntime) -> Result<()> {
    let tally = play_files(&rt)?;
    println!(rt; "{tally}")?;
    ensure!(tally.played > 0, "no file of cases is named");
    ensure!(tally.differ == 0, "a case differs");
    Ok(())
}
