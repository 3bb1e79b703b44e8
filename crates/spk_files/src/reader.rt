//! Reading a site file line by line.

ghost use Rattle.std.specs.Prelude.{◌≡◌, ◌<◌, ◌+◌, ◌^◌, ℕ, [], ◌∷◌, length, codes, true, false, List, Some, IfOk, vec_len};
ghost use Rattle.std.specs.Str.{bytes_eq};
ghost use Rattle.spk_files.specs.Lines.{Line as Words, HasWords, words_of};
ghost use Rattle.spk_files.specs.SiteFiles.{Wanted, row_of, row_on};
ghost use Rattle.spk_files.specs.Readers.{Ends, HasRead, Reads, next};

use crate::line::{Line, line_of};
use crate::site_fault::SiteFault;
use spk_num::whole::whole_of_bytes;
use std::alloc::{AllocError, Global};

/// What was read of a site file, with a value for each site, and 0 where it had none yet.
#[derive(Debug, Drop)]
pub struct Reader {
    pub sites: u32,
    pub largest: u32,
    /// How many lines were read.
    pub lines: u64,
    /// Whether a line gave the number of sites.
    pub counted: bool,
    /// Whether the values have begun.
    pub begun: bool,
    pub values: Vec<u32>,
}

/// Whether a word is this one.
fn is(word: &[u8], name: &str) -> bool
    ensures { result ≡ bytes_eq word.now name.now }
{
    word == name.as_bytes()
}

impl Reader {
    /// A reader of the values of so many sites, before the first line.
    pub fn new(alloc: Global, sites: u32, largest: u32) -> Result<Reader, AllocError>
        ensures { IfOk result (HasRead (record { sites = sites; largest = largest }) []) }
    {
        Ok(Reader {
            sites,
            largest,
            lines: 0,
            counted: false,
            begun: false,
            values: vec![in alloc; 0; sites as usize]?,
        })
    }

    /// The number of the line that comes next.
    fn number(&self) -> u32
        requires { self.now.lines + 1 < 2 ^ 32 }
        ensures { result ≡ self.now.lines + 1 }
    {
        (self.lines + 1) as u32
    }

    /// Reads a line.
    pub fn read(&mut self, text: &[u8]) -> Result<(), SiteFault>
        requires { self.old.lines + length text.now < 2 ^ 32 }
        ensures { (wanted : Wanted) (before : List Words) → HasRead wanted before self.old → Reads wanted before (words_of text.now) self.new result }
    {
        match line_of(text) {
            Line::Empty => {}
            _ if self.lines == 0 => {}
            line if self.begun => self.read_values(line)?,
            line => self.read_heading(line)?,
        }
        self.lines += 1;
        Ok(())
    }

    /// A line before the values.
    fn read_heading(&mut self, line: Line) -> Result<(), SiteFault>
        requires { self.old.lines + 1 < 2 ^ 32 }
        ensures lines { self.new.lines ≡ self.old.lines }
        ensures reads { (wanted : Wanted) (first words : Words) (before : List Words) → HasWords line.entry words → HasRead wanted (first ∷ before) self.old → self.old.begun ≡ false →
            Reads wanted (first ∷ before) words (next self.new) result }
    {
        match line {
            Line::One(word) => self.read_title(word),
            Line::Two(count, word) => {
                if is(word, "sites") {
                    self.count(count)
                } else {
                    Ok(())
                }
            }
            Line::Empty | Line::More => Ok(()),
        }
    }

    /// A line of one word before the values.
    fn read_title(&mut self, word: &[u8]) -> Result<(), SiteFault>
        requires { self.old.lines + 1 < 2 ^ 32 }
        ensures lines { self.new.lines ≡ self.old.lines }
        ensures reads { (wanted : Wanted) (first : Words) (before : List Words) → HasRead wanted (first ∷ before) self.old → self.old.begun ≡ false →
            Reads wanted (first ∷ before) (word.now ∷ []) (next self.new) result }
    {
        if is(word, "Sites") || is(word, "Neighbors") {
            return Err(SiteFault::OtherSection(self.number()));
        }
        if !is(word, "Values") {
            return Ok(());
        }
        if !self.counted {
            return Err(SiteFault::NoHeader);
        }
        self.begun = true;
        Ok(())
    }

    /// A line with this word before `sites`.
    fn count(&mut self, word: &[u8]) -> Result<(), SiteFault>
        ensures lines { self.new.lines ≡ self.old.lines }
        ensures reads { (wanted : Wanted) (first : Words) (before : List Words) → HasRead wanted (first ∷ before) self.old → self.old.begun ≡ false →
            Reads wanted (first ∷ before) (word.now ∷ codes "sites" ∷ []) (next self.new) result }
    {
        let Some(count) = whole_of_bytes(word) else {
            return Ok(());
        };
        if count != u64::from(self.sites) {
            return Err(SiteFault::SitesCount(count));
        }
        self.counted = true;
        Ok(())
    }

    /// A line of the values that has a word.
    fn read_values(&mut self, line: Line) -> Result<(), SiteFault>
        requires { self.old.lines + 1 < 2 ^ 32 }
        ensures lines { self.new.lines ≡ self.old.lines }
        ensures reads { (wanted : Wanted) (first words : Words) (word : List ℕ) (before : List Words) → HasWords line.entry (word ∷ words) → HasRead wanted (first ∷ before) self.old → self.old.begun ≡ true →
            Reads wanted (first ∷ before) (word ∷ words) (next self.new) result }
    {
        let Line::Two(id, value) = line else {
            return Err(SiteFault::BadLine(self.number()));
        };
        match (whole_of_bytes(id), whole_of_bytes(value)) {
            (Some(id), Some(value)) => self.set(id, value),
            _ => Err(SiteFault::BadLine(self.number())),
        }
    }

    /// A line with an id and a value.
    fn set(&mut self, id: u64, value: u64) -> Result<(), SiteFault>
        requires { self.old.lines + 1 < 2 ^ 32 }
        ensures lines { self.new.lines ≡ self.old.lines }
        ensures reads { (wanted : Wanted) (first words : Words) (before : List Words) → row_on words ≡ Some (row_of id value) → HasRead wanted (first ∷ before) self.old → self.old.begun ≡ true →
            Reads wanted (first ∷ before) words (next self.new) result }
    {
        if id == 0 || id > self.values.len() as u64 {
            return Err(SiteFault::BadId(self.number()));
        }
        let place = id as usize - 1;
        if self.values[place] != 0 {
            return Err(SiteFault::TwiceId(self.number()));
        }
        if value == 0 || value > u64::from(self.largest) {
            return Err(SiteFault::BadValue(self.number()));
        }
        self.values[place] = value as u32;
        Ok(())
    }

    /// The values, where each site has one.
    pub fn finish(self) -> Result<Vec<u32>, SiteFault>
        requires { vec_len self.values ≡ self.sites }
        ensures { (wanted : Wanted) (lines : List Words) → HasRead wanted lines self → Ends wanted lines result }
    {
        if !self.begun {
            return Err(SiteFault::NoHeader);
        }
        match self.values.iter().position(|value| *value == 0) {
            Some(place) => Err(SiteFault::MissingId(place as u32 + 1)),
            None => Ok(self.values),
        }
    }
}
