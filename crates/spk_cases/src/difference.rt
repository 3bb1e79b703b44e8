//! What a call has left otherwise than it must.

use crate::shown::{common, shown};
use std::alloc::{AllocError, Global};
use std::fmt;

/// Something that a call has left otherwise than it must.
#[derive(Debug, Drop)]
pub struct Difference {
    place: String,
    wanted: String,
    came: String,
}

impl fmt::Display for Difference {
    fn fmt<W: fmt::Write>(&self, f: &mut fmt::Formatter<W>) -> fmt::Result {
        let place = self.place.as_str();
        let wanted = self.wanted.as_str();
        let came = self.came.as_str();
        write!(f, "  {place}\n    wanted: {wanted}\n    came:   {came}")
    }
}

/// All differences of a call.
#[derive(Debug, Drop)]
pub struct Differences {
    alloc: Global,
    found: Vec<Difference>,
}

/// The bytes of a file round a place, or that there is no such file.
fn shown_file(alloc: Global, bytes: Option<&[u8]>, place: usize) -> Result<String, AllocError> {
    match bytes {
        Some(bytes) => shown(alloc, bytes, place),
        None => String::from_str(alloc, "no file"),
    }
}

impl Differences {
    pub fn new(alloc: Global) -> Differences {
        Differences {
            alloc,
            found: Vec::new(alloc),
        }
    }

    pub fn found(&self) -> &[Difference] {
        self.found.as_slice()
    }

    fn push(&mut self, place: String, wanted: String, came: String) -> Result<(), AllocError> {
        let difference = Difference {
            place,
            wanted,
            came,
        };
        self.found.push(difference)?;
        Ok(())
    }

    /// Compares words.
    pub fn compare(&mut self, place: &str, wanted: &str, came: &str) -> Result<(), AllocError> {
        if wanted == came {
            return Ok(());
        }
        let place = String::from_str(self.alloc, place)?;
        let wanted = String::from_str(self.alloc, wanted)?;
        let came = String::from_str(self.alloc, came)?;
        self.push(place, wanted, came)
    }

    /// Compares numbers.
    pub fn compare_numbers(
        &mut self,
        place: &str,
        wanted: u64,
        came: u64,
    ) -> Result<(), AllocError> {
        let wanted = wanted.to_string(self.alloc)?;
        let came = came.to_string(self.alloc)?;
        self.compare(place, wanted.as_str(), came.as_str())
    }

    /// Compares the bytes of files, which may be missing.
    pub fn compare_bytes(
        &mut self,
        name: &str,
        wanted: Option<&[u8]>,
        came: Option<&[u8]>,
    ) -> Result<(), AllocError> {
        if wanted == came {
            return Ok(());
        }
        let place = common(wanted.unwrap_or(&[]), came.unwrap_or(&[]));
        let wanted = shown_file(self.alloc, wanted, place)?;
        let came = shown_file(self.alloc, came, place)?;
        let place = format!(in self.alloc; "{name}, from byte {place} on")?;
        self.push(place, wanted, came)
    }
}
