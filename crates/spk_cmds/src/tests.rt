//! Tests: a command with each kind of value, and each kind and tail of a form with its refusals.

use crate::command::{Command, CommandFault};
use crate::commands::command_of;
use crate::form::{Form, Keyword, Kind, Maker, Tail};
use crate::reader::read_form;
use crate::value::{Value, Values};
use spk_num::shape::Bound;
use spk_num::text::Text;
use std::alloc::{AllocError, Global};
use std::test::Fail;

/// The words of a line, which is cut at blanks.
fn words_in(alloc: Global, line: &str) -> Result<Vec<Text>, AllocError> {
    let mut words = Vec::new(alloc);
    for word in line.split_whitespace() {
        words.push(Text::copy(alloc, word)?)?;
    }
    Ok(words)
}

/// A fault by its name, with the word that it names where it names one.
fn fault_text(alloc: Global, fault: &CommandFault) -> Result<String, AllocError> {
    let (name, word) = match fault {
        CommandFault::UnknownCommand(word) => ("UnknownCommand", word.as_str()),
        CommandFault::UnknownStyle(word) => ("UnknownStyle", word.as_str()),
        CommandFault::WrongCount => ("WrongCount", ""),
        CommandFault::BadNumber(word) => ("BadNumber", word.as_str()),
        CommandFault::OutOfRange(word) => ("OutOfRange", word.as_str()),
        CommandFault::NotBuilt(word) => ("NotBuilt", word.as_str()),
        CommandFault::BadName(word) => ("BadName", word.as_str()),
        CommandFault::Memory => ("Memory", ""),
    };
    format!(in alloc; "{name} {word}")
}

/// A value as a text, with decimal numbers in millionths.
fn value_text(alloc: Global, value: &Value) -> Result<String, AllocError> {
    match value {
        Value::Whole(number) => format!(in alloc; " {number}"),
        Value::Decimal(number) => format!(in alloc; " {}", number.millionths),
        Value::Bound(Bound::At(number)) => format!(in alloc; " at {}", number.millionths),
        Value::Bound(Bound::Open) => String::from_str(alloc, " open"),
        Value::Word(word) => format!(in alloc; " {}", word.as_str()),
    }
}

fn values_text(alloc: Global, values: &Values) -> Result<String, AllocError> {
    let mut text = String::new(alloc);
    for value in values.as_slice() {
        text.push_str(value_text(alloc, value)?.as_str())?;
    }
    Ok(text)
}

/// What a form reads: the values of the words that always stand, those of the tail after a bar, or the fault.
fn reading_text(alloc: Global, form: &Form, line: &str) -> Result<String, AllocError> {
    let words = words_in(alloc, line)?;
    match read_form(alloc, form, &words) {
        Ok(reading) => {
            let values = values_text(alloc, &reading.values)?;
            let more = values_text(alloc, &reading.more)?;
            format!(in alloc; "{values} |{more}")
        }
        Err(fault) => fault_text(alloc, &fault),
    }
}

/// A command by its fields.
fn command_text(alloc: Global, command: &Command) -> Result<String, AllocError> {
    match command {
        Command::Seed { seed } => format!(in alloc; "seed {seed}"),
        Command::App { style } => format!(in alloc; "app {style:?}"),
        Command::Lattice { style, scale } => {
            format!(in alloc; "lattice {style:?} {}", scale.millionths)
        }
        Command::Region { name, shape } => {
            format!(in alloc; "region {} {shape:?}", name.as_str())
        }
        Command::Set {
            value,
            fraction,
            region,
        } => format!(in alloc; "set {value:?} {fraction:?} {region:?}"),
        Command::ReadSites { file } => format!(in alloc; "read_sites {}", file.as_str()),
        Command::Sweep { style } => format!(in alloc; "sweep {style:?}"),
        Command::Temperature { t } => format!(in alloc; "temperature {}", t.millionths),
        Command::DiagEnergy => String::from_str(alloc, "diag energy"),
        Command::Dump {
            name,
            style,
            delta,
            file,
            fields,
        } => {
            format!(in alloc;
                "dump {} {style:?} {} {} {:?}",
                name.as_str(),
                delta.millionths,
                file.as_str(),
                fields.as_slice()
            )
        }
        Command::Undump { name } => format!(in alloc; "undump {}", name.as_str()),
        Command::Print { text } => format!(in alloc; "print {}", text.as_str()),
        Command::SetEcho { echo } => format!(in alloc; "echo {echo:?}"),
        _ => String::from_str(alloc, "another command"),
    }
}

/// What a line gives: its command or its fault.
fn outcome_text(alloc: Global, line: &str) -> Result<String, AllocError> {
    let words = words_in(alloc, line)?;
    match command_of(alloc, &words) {
        Ok(command) => command_text(alloc, &command),
        Err(fault) => fault_text(alloc, &fault),
    }
}

/// Two kinds of numbers, and pairs of which one keyword isn't built.
const PAIRS: Form = Form {
    maker: Maker::CreateSites,
    kinds: &[Kind::WholeUpToNext(1, 9), Kind::WholeNumber(1, 9)],
    tail: Tail::Pairs(
        &[
            Keyword {
                word: "tstop",
                kind: Kind::DecimalNumber(1, 5_000_000),
            },
            Keyword {
                word: "region",
                kind: Kind::NameWord,
            },
        ],
        &["later"],
    ),
};

#[test]
fn reads_pairs(rt: HostRuntime) -> Result<(), Fail> {
    for (line, wanted) in [
        ("2 3", " 2 3 |"),
        ("3 3 region r tstop 1.5", " 3 3 | region r tstop 1500000"),
        ("1", "WrongCount "),
        ("1 2 tstop", "WrongCount "),
        ("1 2 tstop 1 region r later 1 later 1", "WrongCount "),
        ("x 2 what 1", "BadNumber x"),
        ("1 2 what 1", "UnknownStyle what"),
        ("1 2 later 1", "NotBuilt later"),
        ("1 2 tstop 1 tstop x", "UnknownStyle tstop"),
        ("1 2 tstop x tstop 1", "BadNumber x"),
        ("1 2 region -", "BadName -"),
        ("1 10 tstop 0", "OutOfRange 10"),
        ("4 3 tstop 0", "OutOfRange 4"),
        ("1 3 tstop 0", "OutOfRange 0"),
    ] {
        let text = reading_text(rt.alloc(), &PAIRS, line)?;
        assert_eq!(rt; text.as_str(), wanted, "at {line}");
    }
    Ok(())
}

/// A list of names whose number is said.
const COUNTED: Form = Form {
    maker: Maker::CreateSites,
    kinds: &[Kind::WholeNumber(0, 99)],
    tail: Tail::Counted(Kind::NameWord),
};

/// Two bounds or none, after a file.
const OPTIONAL: Form = Form {
    maker: Maker::CreateSites,
    kinds: &[Kind::FileWord],
    tail: Tail::Optional(&[
        Kind::BoundNumber(-1_000_000, 1_000_000),
        Kind::DecimalNumber(0, 9_000_000),
    ]),
};

/// Two fields at most.
const FIELDS: Form = Form {
    maker: Maker::CreateSites,
    kinds: &[Kind::AnyWord],
    tail: Tail::UpTo(2, Kind::OneOf(&["id", "x"], &["energy"])),
};

#[test]
fn reads_other_tails(rt: HostRuntime) -> Result<(), Fail> {
    for (form, line, wanted) in [
        (&COUNTED, "0", " 0 |"),
        (&COUNTED, "2 a b", " 2 | a b"),
        (&COUNTED, "3 a b", "WrongCount "),
        (&COUNTED, "x a -", "BadNumber x"),
        (&COUNTED, "2 a -", "BadName -"),
        (&OPTIONAL, "f", " f |"),
        (&OPTIONAL, "f INF 1", " f | open 1000000"),
        (&OPTIONAL, "f -1 2", " f | at -1000000 2000000"),
        (&OPTIONAL, "f -2 x", "BadNumber x"),
        (&OPTIONAL, "f -2 10", "OutOfRange -2"),
        (&OPTIONAL, "f 1", "WrongCount "),
        (&FIELDS, "a", " a |"),
        (&FIELDS, "a x x", " a | x x"),
        (&FIELDS, "a x y", "UnknownStyle y"),
        (&FIELDS, "a energy x", "NotBuilt energy"),
        (&FIELDS, "a x x x", "WrongCount "),
    ] {
        let text = reading_text(rt.alloc(), form, line)?;
        assert_eq!(rt; text.as_str(), wanted, "at {line}");
    }
    Ok(())
}

#[test]
fn finds_values_after_keywords(rt: HostRuntime) -> Result<(), Fail> {
    let words = words_in(rt.alloc(), "1 2 region r tstop 1.5")?;
    let reading = read_form(rt.alloc(), &PAIRS, &words)?;
    assert_eq!(rt; reading.more.word_after("region"), Some("r"));
    assert_eq!(rt; reading.more.word_after("later"), None);
    assert_eq!(rt; reading.more.decimal_after("tstop").is_some(), true);
    assert_eq!(rt; reading.more.decimal_after("nstop").is_some(), false);
    Ok(())
}

#[test]
fn makes_commands(rt: HostRuntime) -> Result<(), Fail> {
    for (line, wanted) in [
        ("seed 007", "seed 7"),
        ("dimension 4", "OutOfRange 4"),
        ("lattice sc/26n 0.5", "lattice Sc26 500000"),
        ("set i1 range 2 3", "set Range(2, 3) None None"),
        (
            "set i1 value 7 region r fraction 0.5",
            "set Value(7) Some(Dec { millionths: 500000 }) Some(Text { string: \"r\" })",
        ),
        (
            "set i1 unique fraction 1 region r",
            "set Unique Some(Dec { millionths: 1000000 }) Some(Text { string: \"r\" })",
        ),
        ("set i1 value 1 fraction x", "BadNumber x"),
        ("temperature 0.5", "temperature 500000"),
        ("echo both", "echo Both"),
        ("", "UnknownCommand "),
        ("solve_style group 1 x", "BadNumber x"),
        ("sweep random", "sweep Random"),
        ("sweep raster", "sweep Raster"),
        ("sweep color", "NotBuilt color"),
        ("sweep random 2", "WrongCount "),
        ("sweep", "WrongCount "),
        ("sweep linear", "UnknownStyle linear"),
    ] {
        let text = outcome_text(rt.alloc(), line)?;
        assert_eq!(rt; text.as_str(), wanted, "at {line}");
    }
    Ok(())
}

#[test]
fn makes_applications(rt: HostRuntime) -> Result<(), Fail> {
    for (line, wanted) in [
        ("app_style ising", "app Ising"),
        ("app_style ising/single", "app IsingSingle"),
        ("app_style potts 1000000", "app Potts(1000000)"),
        ("app_style potts/neighonly 1", "app PottsNeighonly(1)"),
        ("app_style diffusion off hop", "app DiffusionOff"),
        ("app_style diffusion linear hop", "app DiffusionLinear"),
        ("app_style membrane", "UnknownStyle membrane"),
        ("app_style potts", "WrongCount "),
        ("app_style ising 3", "WrongCount "),
        ("app_style diffusion linear", "WrongCount "),
        (
            "app_style diffusion nonlinear hop",
            "UnknownStyle nonlinear",
        ),
        ("app_style diffusion off jump", "UnknownStyle jump"),
        ("app_style potts 1.5", "BadNumber 1.5"),
        ("app_style potts 0", "OutOfRange 0"),
        ("app_style potts 1000001", "OutOfRange 1000001"),
    ] {
        let text = outcome_text(rt.alloc(), line)?;
        assert_eq!(rt; text.as_str(), wanted, "at {line}");
    }
    Ok(())
}

#[test]
fn makes_regions(rt: HostRuntime) -> Result<(), Fail> {
    for (line, wanted) in [
        (
            "region b block 0 INF EDGE 1 -1 1",
            "region b Block { lo: [At(Dec { millionths: 0 }), Open, At(Dec { millionths: -1000000 })], hi: [Open, At(Dec { millionths: 1000000 }), At(Dec { millionths: 1000000 })] }",
        ),
        (
            "region s sphere 0 -1 2 0.5",
            "region s Sphere { centre: [Dec { millionths: 0 }, Dec { millionths: -1000000 }, Dec { millionths: 2000000 }], radius: Dec { millionths: 500000 } }",
        ),
        (
            "region c cylinder z 1 2 3 EDGE 4",
            "region c Cylinder { axis: 2, centre: [Dec { millionths: 1000000 }, Dec { millionths: 2000000 }], radius: Dec { millionths: 3000000 }, lo: Open, hi: At(Dec { millionths: 4000000 }) }",
        ),
        ("region c cylinder w x 2 3 4 5", "UnknownStyle w"),
        (
            "region u union 2 a b",
            "region u Union { parts: Texts { texts: [Text { string: \"a\" }, Text { string: \"b\" }] } }",
        ),
        (
            "region i intersect 0",
            "region i Intersect { parts: Texts { texts: [] } }",
        ),
    ] {
        let text = outcome_text(rt.alloc(), line)?;
        assert_eq!(rt; text.as_str(), wanted, "at {line}");
    }
    Ok(())
}

#[test]
fn makes_dumps(rt: HostRuntime) -> Result<(), Fail> {
    for (line, wanted) in [
        (
            "dump 007 text 001.50 d.txt",
            "dump 007 Text 1500000 d.txt [Id, Site, X, Y, Z]",
        ),
        (
            "dump 1 text 1000000000 f id site i1 x y z energy energy",
            "dump 1 Text 1000000000000000 f [Id, Site, I1, X, Y, Z, Energy, Energy]",
        ),
        (
            "dump 1 text 0.000001 f z z z z z z z z z z z z z z z i1",
            "dump 1 Text 1 f [Z, Z, Z, Z, Z, Z, Z, Z, Z, Z, Z, Z, Z, Z, Z, I1]",
        ),
        (
            "dump 1 text 1 f z z z z z z z z z z z z z z z z what",
            "WrongCount ",
        ),
        ("dump s sites 2 f", "dump s Sites 2000000 f []"),
        ("dump 1 sites 1 f id", "WrongCount "),
        ("dump 1 xyz 1.0 f", "UnknownStyle xyz"),
        ("dump 1", "WrongCount "),
        ("dump 1 text", "WrongCount "),
        ("dump a-b? text x f what", "BadName a-b?"),
        ("dump 1 text x f what", "BadNumber x"),
        ("dump 1 text 0 f id what who", "UnknownStyle what"),
        ("dump 1 text 0 f", "OutOfRange 0"),
        (
            "dump 1 text 1000000000.000001 f",
            "OutOfRange 1000000000.000001",
        ),
        ("undump 007", "undump 007"),
        ("undump", "WrongCount "),
        ("undump -", "BadName -"),
    ] {
        let text = outcome_text(rt.alloc(), line)?;
        assert_eq!(rt; text.as_str(), wanted, "at {line}");
    }
    Ok(())
}

#[test]
fn makes_diagnostics_and_files(rt: HostRuntime) -> Result<(), Fail> {
    for (line, wanted) in [
        ("diag_style energy", "diag energy"),
        ("diag_style energy 1", "WrongCount "),
        ("diag_style volume", "UnknownStyle volume"),
        ("diag_style", "WrongCount "),
        ("read_sites a/b-c?", "read_sites a/b-c?"),
        ("read_sites", "WrongCount "),
        ("write_restart f", "NotBuilt write_restart"),
    ] {
        let text = outcome_text(rt.alloc(), line)?;
        assert_eq!(rt; text.as_str(), wanted, "at {line}");
    }
    for (length, outcome) in [(255, "read_sites"), (256, "BadName")] {
        let file = "f".repeat(rt.alloc(), length)?;
        let line = format!(in rt.alloc(); "read_sites {file}")?;
        let wanted = format!(in rt.alloc(); "{outcome} {file}")?;
        let text = outcome_text(rt.alloc(), line.as_str())?;
        assert_eq!(rt; text.as_str(), wanted.as_str());
    }
    Ok(())
}
