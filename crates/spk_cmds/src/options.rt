//! The options of the command line.

ghost use Rattle.std.specs.Prelude.{◌≡◌, ℕ, map, Ok, Err, IfOk};
ghost use Rattle.std.specs.String.{string_bytes};
ghost use Rattle.spk_cmds.specs.CommandLine.{options_of};
ghost use Rattle.spk_cmds.specs.Inputs.{IsFile};

use crate::option_values::Line;
use crate::options_builder::{finished, word_read};
use crate::variables::Settings;
use spk_num::text::Text;
use std::alloc::{AllocError, Global};

/// Where the script comes from.
#[derive(Debug, Drop)]
pub enum Input {
    /// A file with this name.
    File(Text),
    /// It is generated from a seed and a size.
    Generate { seed: u32, n: u32 },
}

/// Where commands are echoed.
#[derive(Clone, Copy, Debug, PartialEq, Eq)]
pub enum Echo {
    None,
    Screen,
    Log,
    Both,
}

/// What a command line asks for.
#[derive(Debug, Drop)]
pub struct Options {
    pub input: Input,
    /// Variables that are there before the first line, in the order of the command line.
    pub vars: Settings,
    /// The name of the log, where there is to be one.
    pub log: Option<Text>,
    pub echo: Echo,
    /// How many threads share the work.
    pub workers: u32,
    /// The place of the number of workers among the words, counted from 1, and 0 where it isn't given.
    pub workers_word: u64,
}

/// Why a command line gives no options.
#[derive(Clone, Copy, Debug, PartialEq, Eq)]
pub enum Usage {
    /// This word, counted from 1, is the first that can't stand there.
    Word(u64),
    /// There is no memory left.
    Memory,
}

impl From<AllocError> for Usage {
    ghost use Rattle.spk_cmds.specs.declared.options.Usage.TheVariants.{Memory};

    ghost from_gives = { λ _ e. e ≡ Memory };

    fn from(_: AllocError) -> Usage {
        Usage::Memory
    }
}

/// The options that the words after the program's name ask for.
pub fn words_of(alloc: Global, args: &[String]) -> Result<Options, Usage>
    ensures ok { IfOk result (λ options. options_of (map string_bytes args.now) ≡ Ok options) }
    ensures file { IfOk result (λ options. IsFile options.input) }
    ensures word { (place : ℕ) → result ≡ Err (Usage.Word place) → options_of (map string_bytes args.now) ≡ Err place }
{
    let mut line = Line::new(alloc);
    let mut place = 1;
    let mut left = args;
    while let [word, words @ ..] = left {
        let Some(next) = word_read(alloc, line, place, word.as_str())? else {
            return Err(Usage::Word(place));
        };
        line = next;
        place += 1;
        left = words;
    }
    finished(alloc, line, place)
}

#[cfg(test)]
mod tests {
    use super::*;
    use std::test::Fail;

    /// The name of the script.
    fn script_name(options: &Options) -> &str {
        match &options.input {
            Input::File(name) => name.as_str(),
            Input::Generate { .. } => "(generated)",
        }
    }

    /// The name of the log, or that there is none.
    fn log_name(options: &Options) -> &str {
        match &options.log {
            Some(name) => name.as_str(),
            None => "(no log)",
        }
    }

    /// Options by their values, with the number of variables.
    fn options_text(alloc: Global, options: &Options) -> Result<String, AllocError> {
        let script = script_name(options);
        let log = log_name(options);
        let echo = options.echo;
        let workers = options.workers;
        let place = options.workers_word;
        let vars = options.vars.as_slice().len();
        format!(in alloc; "{script} {log} {echo:?} {workers} {place} {vars}")
    }

    /// What a command line comes to, as a text.
    fn outcome_text(alloc: Global, line: &str) -> Result<String, AllocError> {
        let mut words = Vec::new(alloc);
        for word in line.split_whitespace() {
            words.push(String::from_str(alloc, word)?)?;
        }
        match words_of(alloc, &words) {
            Ok(options) => options_text(alloc, &options),
            Err(usage) => format!(in alloc; "{usage:?}"),
        }
    }

    #[test]
    fn reads_command_lines(rt: HostRuntime) -> Result<(), Fail> {
        for (line, wanted) in [
            ("-in a", "a log.spparks Log 1 0 0"),
            (
                "-var x -in -e both -v x 2 -workers 64 -i -in -l none",
                "-in (no log) Both 64 10 2",
            ),
            ("", "Word(1)"),
            ("-in a -log b -l c", "Word(5)"),
            ("-in a -workers 65", "Word(4)"),
        ] {
            let text = outcome_text(rt.alloc(), line)?;
            assert_eq!(rt; text.as_str(), wanted, "at {line}");
        }
        Ok(())
    }
}
