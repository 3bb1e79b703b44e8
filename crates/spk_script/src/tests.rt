//! Tests of whole scripts: what the machine makes of each line.

use crate::{Arrival, LineFault, Machine, Script, Setting, Step};
use spk_num::text::Text;
use std::alloc::{AllocError, Global};
use std::process::Abort;
use std::test::Fail;

/// The most arrivals of a test that says what comes of each.
const MOST_ARRIVALS: u32 = 60;

/// A fault by its name, and what it names.
fn fault_text(alloc: Global, fault: &LineFault) -> Result<String, AllocError> {
    match fault {
        LineFault::LineTooLong => String::from_str(alloc, "too long"),
        LineFault::TooManyCommands(line) => format!(in alloc; "too many at {line}"),
        LineFault::UnknownVariable(name) => format!(in alloc; "unknown <{}>", name.as_str()),
        LineFault::WrongWords => String::from_str(alloc, "wrong words"),
        LineFault::BadName(word) => format!(in alloc; "bad name <{}>", word.as_str()),
        LineFault::BadFormula(place) => format!(in alloc; "bad formula at {place}"),
        LineFault::Inexact => String::from_str(alloc, "inexact"),
        LineFault::NumberTooLarge => String::from_str(alloc, "too large"),
        LineFault::LoopValue => String::from_str(alloc, "loop value"),
        LineFault::NotStepped(name) => format!(in alloc; "not stepped <{}>", name.as_str()),
        LineFault::OtherFile => String::from_str(alloc, "other file"),
        LineFault::NoSuchLabel(label) => format!(in alloc; "no label <{}>", label.as_str()),
        LineFault::BadStyle(word) => format!(in alloc; "bad style <{}>", word.as_str()),
        LineFault::Memory => String::from_str(alloc, "memory"),
    }
}

/// What a line has come to: its words, each with a bar after it, or a star where the machine obeyed it, or its fault.
fn step_text(alloc: Global, step: &Result<Step, LineFault>) -> Result<String, AllocError> {
    match step {
        Ok(Step::Words(line, words)) => {
            let mut text = format!(in alloc; "{line}:")?;
            for word in words.as_slice() {
                text.push_str(word.as_str())?;
                text.push('|')?;
            }
            Ok(text)
        }
        Ok(Step::Own(line)) => format!(in alloc; "{line}*"),
        Err(fault) => {
            let fault = fault_text(alloc, fault)?;
            format!(in alloc; "({fault})")
        }
    }
}

/// Settings by their names and values.
fn settings_of(alloc: Global, pairs: &[(&str, &str)]) -> Result<Vec<Setting>, AllocError> {
    let mut settings = Vec::new(alloc);
    for (name, value) in pairs {
        let name = Text::copy(alloc, name)?;
        let value = Text::copy(alloc, value)?;
        settings.push(Setting { name, value })?;
    }
    Ok(settings)
}

/// What each line of a script comes to, with a semicolon after it. After a fault the machine goes on.
fn outcome_text(
    alloc: Global,
    script: &str,
    settings: &[(&str, &str)],
) -> Result<String, AllocError> {
    let Ok(script) = Script::read(alloc, script.as_bytes()) else {
        return String::from_str(alloc, "no script");
    };
    let mut machine = Machine::new(alloc, script, &settings_of(alloc, settings)?)?;
    let mut text = String::new(alloc);
    for _ in 0..MOST_ARRIVALS {
        match machine.next_line() {
            Ok(Arrival::End) => return Ok(text),
            Ok(Arrival::At(_)) => {
                let step = machine.next_command();
                text.push_str(step_text(alloc, &step)?.as_str())?;
            }
            Err(fault) => text.push_str(fault_text(alloc, &fault)?.as_str())?,
        }
        text.push(';')?;
    }
    text.push_str("..")?;
    Ok(text)
}

/// Holds each script against what its lines must come to.
fn expect_all(rt: &impl Abort, alloc: Global, cases: &[(&str, &str)]) -> Result<(), Fail> {
    for (script, wanted) in cases {
        let text = outcome_text(alloc, script, &[])?;
        assert_eq!(rt; text.as_str(), *wanted);
    }
    Ok(())
}

#[test]
fn goes_line_by_line(rt: HostRuntime) -> Result<(), Fail> {
    let cases = [
        ("seed 1\n\nrun \"2 3\" # c", "1:seed|1|;3:run|2 3|;"),
        ("variable e string \"\"\n$e\n\"$e\"", "1*;2*;3:|;"),
    ];
    expect_all(&rt, rt.alloc(), &cases)?;
    let settings = [("a", "größe"), ("b", "2"), ("a", "other")];
    let text = outcome_text(rt.alloc(), "$a $b\nnext a\n$a", &settings)?;
    assert_eq!(rt; text.as_str(), "1:größe|2|;2*;(unknown <a>);");
    Ok(())
}

#[test]
fn steps_variables_and_jumps(rt: HostRuntime) -> Result<(), Fail> {
    let cases = [
        (
            "variable i loop 2\nlabel a\n$i\nnext i\njump SELF a\n$i",
            "1*;2*;3:1|;4*;5*;3:2|;4*;5*;(unknown <i>);",
        ),
        (
            "variable l string a\njump SELF $l\nx\n\"label\" \"a\"\ny",
            "1*;2*;5:y|;",
        ),
    ];
    expect_all(&rt, rt.alloc(), &cases)
}

#[test]
fn names_the_first_fault_of_a_command(rt: HostRuntime) -> Result<(), Fail> {
    let cases = [
        ("variable a-b style x", "(bad name <a-b>);"),
        ("variable a loop 1000001", "(loop value);"),
        ("variable a string x\nnext a", "1*;(not stepped <a>);"),
    ];
    expect_all(&rt, rt.alloc(), &cases)
}

/// How many arrivals a script has before its end or the refusal, and the line of the refusal.
fn arrivals_of(alloc: Global, script: &[u8]) -> Result<(u32, Option<u32>), AllocError> {
    let Ok(script) = Script::read(alloc, script) else {
        return Ok((0, None));
    };
    let mut machine = Machine::new(alloc, script, &[])?;
    for arrivals in 0..2_000_000 {
        match machine.next_line() {
            Ok(Arrival::End) => return Ok((arrivals, None)),
            Ok(Arrival::At(_)) => {
                let _ = machine.next_command();
            }
            Err(LineFault::TooManyCommands(line)) => return Ok((arrivals, Some(line))),
            Err(_) => return Ok((0, None)),
        }
    }
    Ok((0, None))
}

#[test]
fn counts_arrivals(rt: HostRuntime) -> Result<(), Fail> {
    assert_eq!(rt;
        arrivals_of(rt.alloc(), b"label a\njump SELF a")?,
        (1_000_000, Some(2))
    );
    Ok(())
}

#[test]
fn lends_the_script(rt: HostRuntime) -> Result<(), Fail> {
    let Ok(script) = Script::read(rt.alloc(), b"a &\nb\nc".as_slice()) else {
        panic!(rt; "no script");
    };
    let mut machine = Machine::new(rt.alloc(), script, &[])?;
    let Ok(Arrival::At(first)) = machine.next_line() else {
        panic!(rt; "no first line");
    };
    assert_eq!(rt; machine.script().raw(first), b"a &\nb\n".as_slice());
    let Ok(Arrival::At(second)) = machine.next_line() else {
        panic!(rt; "no second line");
    };
    assert_eq!(rt; second, 3);
    assert_eq!(rt; machine.script().raw(second), b"c\n".as_slice());
    Ok(())
}
