//! A case that is being read.

ghost use Rattle.std.specs.Prelude.{◌≡◌, ◌↔◌, Some, IsSome, IsErr, OnOk, OnErr};

use crate::case::{Case, Expected, File, file_named};
use crate::fault::Cause;
use crate::line::{Mark, TextLine};
use spk_world::Fail;
use std::alloc::{AllocError, Global};

/// The script of a session, and of a case without words.
const SCRIPT: &str = "in.line";

/// The log of a session.
const LOG: &str = "log.spparks";

/// The part of a case to which lines of text belong.
#[derive(Clone, Copy, Debug, PartialEq, Eq)]
pub enum Section {
    None,
    Before,
    Screen,
    After,
    Session,
}

/// A script, what it says, and its log.
#[derive(Debug, Drop)]
struct Session {
    script: Vec<u8>,
    screen: Vec<u8>,
    log: Vec<u8>,
}

/// What has been read of a case.
#[derive(Debug, Drop)]
pub struct Draft {
    alloc: Global,
    section: Section,
    name: String,
    line: u64,
    source: Option<String>,
    words: Option<Vec<String>>,
    before: Vec<File>,
    fails: Vec<Fail>,
    status: Option<u8>,
    answer: Option<String>,
    calls: Option<u64>,
    screen: Option<Vec<u8>>,
    after: Vec<File>,
    session: Option<Session>,
}

/// Puts a value where there is none yet.
fn put<T: Drop>(place: &mut Option<T>, value: T) -> Result<(), Cause>
    ensures put { OnOk result (place.new ≡ Some value) }
    ensures kept { OnErr result (place.new ≡ place.old) }
    ensures once { IsSome place.old ↔ IsErr result }
{
    if place.is_some() {
        return Err(Cause::Twice);
    }
    *place = Some(value);
    Ok(())
}

/// Appends a file. No other of these has its name.
fn put_file(files: &mut Vec<File>, name: String, bytes: Vec<u8>) -> Result<(), Cause> {
    if file_named(files, name.as_str()).is_some() {
        return Err(Cause::Twice);
    }
    files.push(File { name, bytes }).map_err(AllocError::from)?;
    Ok(())
}

/// Appends a line once, and a line feed where it is to end with one.
fn put_once(bytes: &mut Vec<u8>, line: &[u8], has_line_feed: bool) -> Result<(), AllocError> {
    bytes.extend_from_slice(line)?;
    if has_line_feed {
        bytes.push(b'\n')?;
    }
    Ok(())
}

/// Appends a line as often as it stands there.
fn put_line(bytes: &mut Vec<u8>, line: &TextLine) -> Result<(), AllocError> {
    for _ in 0..line.count {
        put_once(bytes, &line.text.bytes, line.text.has_line_feed)?;
    }
    Ok(())
}

/// Appends a line that is echoed, which has a line feed there also where the script ends without one.
fn put_echo(log: &mut Vec<u8>, line: &TextLine) -> Result<(), AllocError> {
    for _ in 0..line.count {
        put_once(log, &line.text.bytes, true)?;
    }
    Ok(())
}

/// Appends a line to the last file.
fn put_in_last(files: &mut Vec<File>, line: &TextLine) -> Result<(), Cause> {
    match files.last_mut() {
        Some(file) => Ok(put_line(&mut file.bytes, line)?),
        None => Err(Cause::OutsideText),
    }
}

/// Appends a line to what is said.
fn put_in_screen(screen: &mut Option<Vec<u8>>, line: &TextLine) -> Result<(), Cause> {
    match screen {
        Some(screen) => Ok(put_line(screen, line)?),
        None => Err(Cause::OutsideText),
    }
}

/// Where the bytes of a case come from: what it says itself, or else its file.
fn source_of(own: Option<String>, common: &Option<String>) -> Result<String, Cause> {
    match (own, common) {
        (Some(source), _) => Ok(source),
        (None, Some(source)) => Ok(source.clone()?),
        (None, None) => Err(Cause::NoSource),
    }
}

/// The command line that names the script alone.
fn script_words(alloc: Global) -> Result<Vec<String>, AllocError> {
    let mut words = Vec::new(alloc);
    words.push(String::from_str(alloc, "-in")?)?;
    words.push(String::from_str(alloc, SCRIPT)?)?;
    Ok(words)
}

/// The words of a case, which names the script alone where it has none.
fn words_or_script(alloc: Global, words: Option<Vec<String>>) -> Result<Vec<String>, AllocError> {
    match words {
        Some(words) => Ok(words),
        None => script_words(alloc),
    }
}

impl Session {
    /// Takes a line.
    fn take(&mut self, line: &TextLine) -> Result<(), Cause> {
        match line.mark {
            Mark::Echoed => {
                put_line(&mut self.script, line)?;
                put_echo(&mut self.log, line)?;
            }
            Mark::Unechoed => put_line(&mut self.script, line)?,
            Mark::Told => {
                put_line(&mut self.screen, line)?;
                put_line(&mut self.log, line)?;
            }
            Mark::Plain => return Err(Cause::WrongMark),
        }
        Ok(())
    }
}

impl Draft {
    /// A case with this name, which begins at this line.
    pub fn new(alloc: Global, name: String, line: u64) -> Draft {
        Draft {
            alloc,
            section: Section::None,
            name,
            line,
            source: None,
            words: None,
            before: Vec::new(alloc),
            fails: Vec::new(alloc),
            status: None,
            answer: None,
            calls: None,
            screen: None,
            after: Vec::new(alloc),
            session: None,
        }
    }

    /// The line at which it begins.
    pub fn line(&self) -> u64 {
        self.line
    }

    pub fn put_source(&mut self, source: String) -> Result<(), Cause> {
        put(&mut self.source, source)
    }

    pub fn put_words(&mut self, words: Vec<String>) -> Result<(), Cause> {
        put(&mut self.words, words)
    }

    pub fn put_status(&mut self, status: u8) -> Result<(), Cause> {
        put(&mut self.status, status)
    }

    pub fn put_answer(&mut self, answer: String) -> Result<(), Cause> {
        put(&mut self.answer, answer)
    }

    pub fn put_calls(&mut self, calls: u64) -> Result<(), Cause> {
        put(&mut self.calls, calls)
    }

    pub fn put_fail(&mut self, fail: Fail) -> Result<(), Cause> {
        self.fails.push(fail).map_err(AllocError::from)?;
        Ok(())
    }

    /// Begins a file that is there before the call.
    pub fn begin_before(&mut self, name: String) -> Result<(), Cause> {
        self.section = Section::Before;
        put_file(&mut self.before, name, Vec::new(self.alloc))
    }

    /// Begins a file that is new after the call, or differs.
    pub fn begin_after(&mut self, name: String) -> Result<(), Cause> {
        self.section = Section::After;
        put_file(&mut self.after, name, Vec::new(self.alloc))
    }

    /// Begins what is said.
    pub fn begin_screen(&mut self) -> Result<(), Cause> {
        self.section = Section::Screen;
        put(&mut self.screen, Vec::new(self.alloc))
    }

    /// Begins a script with its screen and its log.
    pub fn begin_session(&mut self) -> Result<(), Cause> {
        self.section = Section::Session;
        let session = Session {
            script: Vec::new(self.alloc),
            screen: Vec::new(self.alloc),
            log: Vec::new(self.alloc),
        };
        put(&mut self.session, session)
    }

    /// Takes a line of a section that is no session.
    fn take_plain(&mut self, line: &TextLine) -> Result<(), Cause> {
        if line.mark != Mark::Plain {
            return Err(Cause::WrongMark);
        }
        match self.section {
            Section::Before => put_in_last(&mut self.before, line),
            Section::After => put_in_last(&mut self.after, line),
            Section::Screen => put_in_screen(&mut self.screen, line),
            Section::None | Section::Session => Err(Cause::OutsideText),
        }
    }

    /// Takes a line of text.
    pub fn take(&mut self, line: &TextLine) -> Result<(), Cause> {
        match (self.section, &mut self.session) {
            (Section::Session, Some(session)) => session.take(line),
            _ => self.take_plain(line),
        }
    }

    /// Puts the files of the session among the others, and what it says where nothing else does.
    fn close_session(&mut self) -> Result<(), Cause> {
        if let Some(
            Session {
                script,
                screen,
                log,
            },
        ) = self.session.take()
        {
            put(&mut self.screen, screen)?;
            put_file(
                &mut self.before,
                String::from_str(self.alloc, SCRIPT)?,
                script,
            )?;
            put_file(&mut self.after, String::from_str(self.alloc, LOG)?, log)?;
        }
        Ok(())
    }

    /// The case, where it says where its bytes come from, or its file does.
    pub fn close(mut self, source: &Option<String>) -> Result<Case, Cause> {
        self.close_session()?;
        let source = source_of(self.source, source)?;
        let words = words_or_script(self.alloc, self.words)?;
        Ok(Case {
            name: self.name,
            line: self.line,
            source,
            words,
            before: self.before,
            fails: self.fails,
            expected: Expected {
                status: self.status.unwrap_or(0),
                answer: self.answer,
                calls: self.calls,
                screen: self.screen.unwrap_or(Vec::new(self.alloc)),
                after: self.after,
            },
        })
    }
}
