//! A case: a call of the program, what it finds, and what it must leave.

use spk_world::Fail;

/// A file: its name and its bytes.
#[derive(Debug, Drop)]
pub struct File {
    pub name: String,
    pub bytes: Vec<u8>,
}

/// What a call must leave.
#[derive(Debug, Drop)]
pub struct Expected {
    pub status: u8,
    /// The answer in words, where the case has one.
    pub answer: Option<String>,
    /// How many calls of the world there were, where the case says so.
    pub calls: Option<u64>,
    pub screen: Vec<u8>,
    /// The files that are new after the call, or differ. The others are as they were.
    pub after: Vec<File>,
}

/// A call of the program.
#[derive(Debug, Drop)]
pub struct Case {
    pub name: String,
    /// Where it begins in its file, in lines from 1.
    pub line: u64,
    /// Where the expected bytes come from.
    pub source: String,
    /// The words of the command line.
    pub words: Vec<String>,
    /// The files that are there before the call.
    pub before: Vec<File>,
    /// The calls of the world that are to fail.
    pub fails: Vec<Fail>,
    pub expected: Expected,
}

/// The first file with this name.
pub fn file_named<'a>(files: &'a [File], name: &str) -> Option<&'a File> {
    files.iter().find(|file| file.name.as_str() == name)
}

impl Case {
    /// The bytes that a file must hold after the call, where it must be there.
    pub fn wanted(&self, name: &str) -> Option<&[u8]> {
        let file = match file_named(&self.expected.after, name) {
            Some(file) => Some(file),
            None => file_named(&self.before, name),
        };
        file.map(|file| file.bytes.as_slice())
    }
}
