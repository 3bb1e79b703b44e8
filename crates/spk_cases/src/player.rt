//! Playing a case over a world in memory, and comparing what it leaves.

use crate::case::{Case, File};
use crate::difference::Differences;
use spk_run::{Answer, Target, simulate_alone, status};
use spk_world::MemWorld;
use std::alloc::{AllocError, Global};

/// A world with the files and the planned failures of a case.
fn world_of(alloc: Global, case: &Case) -> Result<MemWorld, AllocError> {
    let mut world = MemWorld::new(alloc);
    for file in &case.before {
        world.put_file(file.name.as_str(), &file.bytes)?;
    }
    world.fail_at.extend_from_slice(&case.fails)?;
    Ok(world)
}

/// An answer in words.
fn answer_text(alloc: Global, answer: &Answer) -> Result<String, AllocError> {
    match answer {
        Answer::Done => String::from_str(alloc, "done"),
        Answer::Refused { line, .. } => format!(in alloc; "refused at line {line}"),
        Answer::Usage { word } => format!(in alloc; "usage at word {word}"),
        Answer::ReadFault { name } => named(alloc, "read fault", name.as_str()),
        Answer::WriteFault {
            target: Target::Screen,
        } => String::from_str(alloc, "write fault on the screen"),
        Answer::WriteFault {
            target: Target::File(name),
        } => named(alloc, "write fault", name.as_str()),
        Answer::OutOfMemory => String::from_str(alloc, "out of memory"),
    }
}

/// What happened, and to which file.
fn named(alloc: Global, what: &str, name: &str) -> Result<String, AllocError> {
    format!(in alloc; "{what} {name}")
}

/// Compares the answer with what the case says of it.
fn compare_answer(
    alloc: Global,
    differences: &mut Differences,
    case: &Case,
    answer: &Answer,
) -> Result<(), AllocError> {
    let expected = &case.expected;
    let came = u64::from(status(answer));
    differences.compare_numbers("status", u64::from(expected.status), came)?;
    if let Some(wanted) = &expected.answer {
        let came = answer_text(alloc, answer)?;
        differences.compare("answer", wanted.as_str(), came.as_str())?;
    }
    Ok(())
}

/// Compares these files, each of which must be there with its last bytes.
fn compare_files(
    differences: &mut Differences,
    case: &Case,
    files: &[File],
    world: &MemWorld,
) -> Result<(), AllocError> {
    for file in files {
        let name = file.name.as_str();
        if world.files.get(name).is_none() {
            differences.compare_bytes(name, case.wanted(name), None)?;
        }
    }
    Ok(())
}

/// Compares files, screen and number of calls with what the case says of them.
fn compare_world(
    differences: &mut Differences,
    case: &Case,
    world: &MemWorld,
) -> Result<(), AllocError> {
    if let Some(wanted) = case.expected.calls {
        differences.compare_numbers("calls", wanted, world.calls)?;
    }
    differences.compare_bytes("screen", Some(&case.expected.screen), Some(&world.said))?;
    for (name, bytes) in world.files.iter() {
        differences.compare_bytes(name.as_str(), case.wanted(name.as_str()), Some(bytes))?;
    }
    compare_files(differences, case, &case.before, world)?;
    compare_files(differences, case, &case.expected.after, world)
}

/// Plays a case: what differs from what it must leave.
pub fn play(alloc: Global, case: &Case) -> Result<Differences, AllocError> {
    let mut world = world_of(alloc, case)?;
    let answer = simulate_alone(alloc, &case.words, &mut world);
    let mut differences = Differences::new(alloc);
    compare_answer(alloc, &mut differences, case, &answer)?;
    compare_world(&mut differences, case, &world)?;
    Ok(differences)
}
