//! The screen and the log.

ghost use Rattle.std.specs.Prelude.{◌≡◌, OnOk, IfOk, IfErr};
ghost use Rattle.spk_world.specs.Outside.{says};
ghost use Rattle.spk_world.specs.Effects.{writes, Wrote};
ghost use Rattle.spk_report.specs.Output.{logs, prints};
ghost use Rattle.spk_report.specs.Output.{IsTroubleOf, log_name, name_of, trouble_stop};
ghost use Rattle.spk_report.specs.Statistics.{statistics_text};
ghost use Rattle.spk_run.specs.Output.{log_target, echoes, starts_log};
ghost use Rattle.spk_run.specs.Endings.{target_stop};

use crate::answer::Target;
use spk_cmds::Echo;
use spk_num::text::Text;
use spk_report::{Report, StatsLine, WriteTrouble};
use spk_world::World;
use std::alloc::{AllocError, Global};

/// The screen, and the log where there is one.
///
/// Each output has a copy of the log's name, made before its first write, and hands it out with a write to the log that
/// failed. After a write that failed it is of no more use.
#[derive(Debug, Drop)]
pub struct Output {
    pub log: Option<Text>,
}

/// Writes a text to the screen.
pub fn say<W: World>(world: &mut W, text: &[u8]) -> Result<(), Target>
    ensures wrote { Wrote target_stop (W.state world.old) (W.state world.new) (writes (says text.now)) result }
    ensures screen { IfErr result (λ target. target ≡ Target.Screen) }
{
    if text.is_empty() {
        return Ok(());
    }
    match world.say(text) {
        Ok(()) => Ok(()),
        Err(_) => Err(Target::Screen),
    }
}

impl Output {
    /// The screen, and the log with this name.
    pub fn new(alloc: Global, log: &Option<Text>) -> Result<Output, AllocError>
        ensures { IfOk result (λ output. output.log ≡ log.now) }
    {
        let log = match log {
            Some(name) => Some(Text::copy(alloc, name.as_str())?),
            None => None,
        };
        Ok(Output { log })
    }

    /// Where the log is. Without one there is nothing but the screen.
    fn log_target(&mut self) -> Target
        ensures { result ≡ log_target self.old.log }
    {
        match self.log.take() {
            Some(name) => Target::File(name),
            None => Target::Screen,
        }
    }

    /// Writes a text to the log, where there is one.
    fn log<W: World>(&mut self, world: &mut W, text: &[u8]) -> Result<(), Target>
        ensures wrote { Wrote target_stop (W.state world.old) (W.state world.new) (logs self.old.log text.now) result }
        ensures kept { OnOk result (self.new.log ≡ self.old.log) }
    {
        let Some(name) = &self.log else {
            return Ok(());
        };
        if text.is_empty() {
            return Ok(());
        }
        match world.add(name.as_str(), text) {
            Ok(()) => Ok(()),
            Err(_) => Err(self.log_target()),
        }
    }

    /// Writes a text to the screen, and then to the log.
    pub fn print<W: World>(&mut self, world: &mut W, text: &[u8]) -> Result<(), Target>
        ensures wrote { Wrote target_stop (W.state world.old) (W.state world.new) (prints self.old.log text.now) result }
        ensures kept { OnOk result (self.new.log ≡ self.old.log) }
    {
        say(world, text)?;
        self.log(world, text)
    }

    /// The name of the log, where there is one.
    fn log_name(&self) -> Option<&str>
        ensures { name_of result ≡ self.now.log }
    {
        match &self.log {
            Some(name) => Some(name.as_str()),
            None => None,
        }
    }

    /// Where a line of statistics was not written.
    fn target_of(&mut self, trouble: WriteTrouble) -> Target
        requires { IsTroubleOf self.old.log trouble }
        ensures { target_stop result ≡ trouble_stop (log_name self.old.log) trouble }
    {
        match trouble {
            WriteTrouble::Screen => Target::Screen,
            WriteTrouble::File => self.log_target(),
        }
    }

    /// Writes a line of statistics to the screen, and then to the log.
    pub fn print_line<W: World>(
        &mut self,
        world: &mut W,
        report: &mut Report,
        line: &StatsLine,
    ) -> Result<(), Target>
        ensures wrote { Wrote target_stop (W.state world.old) (W.state world.new) (prints self.old.log (statistics_text line.now)) result }
        ensures kept { OnOk result (self.new.log ≡ self.old.log) }
        ensures report { report.new ≡ report.old }
    {
        match report.stats_line(world, self.log_name(), line) {
            Ok(()) => Ok(()),
            Err(trouble) => Err(self.target_of(trouble)),
        }
    }

    /// Echoes the lines of a command in this style.
    pub fn echo<W: World>(&mut self, world: &mut W, style: Echo, text: &[u8]) -> Result<(), Target>
        ensures { Wrote target_stop (W.state world.old) (W.state world.new) (echoes style self.old.log text.now) result }
    {
        match style {
            Echo::None => Ok(()),
            Echo::Screen => say(world, text),
            Echo::Log => self.log(world, text),
            Echo::Both => self.print(world, text),
        }
    }

    /// Starts the log, where there is one.
    pub fn start_log<W: World>(&mut self, world: &mut W) -> Result<(), Target>
        ensures { Wrote target_stop (W.state world.old) (W.state world.new) (starts_log self.old.log) result }
    {
        let Some(name) = &self.log else {
            return Ok(());
        };
        match world.start(name.as_str()) {
            Ok(()) => Ok(()),
            Err(_) => Err(self.log_target()),
        }
    }
}
