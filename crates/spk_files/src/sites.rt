//! Site files: reading and writing.

ghost use Rattle.std.specs.Prelude.{◌≡◌, ◌<◌, ◌≤◌, ◌+◌, ◌^◌, ℕ, ◌∷◌, ◌++◌, All, IfOk, length, List, Ok};
ghost use Rattle.spk_files.specs.Lines.{lines_of};
ghost use Rattle.spk_files.specs.SiteFiles.{IsReadOrMemory, site_file};
ghost use Rattle.spk_files.specs.SiteRows.{HasHeading, HasSites};
ghost use Rattle.spk_sched.specs.SiteTexts.{rows_text, sites_text};

use crate::line::first_line;
use crate::reader::Reader;
use crate::site_fault::SiteFault;
use itoa::Buffer;
use spk_num::decimal_text::print_ticks;
use std::alloc::{AllocError, Global};

/// The values of so many sites, in the order of their ids, from the bytes of a site file.
pub fn sites_read(
    alloc: Global,
    bytes: &[u8],
    sites: u32,
    largest_value: u32,
) -> Result<Vec<u32>, SiteFault>
    requires { length bytes.now < 2 ^ 32 }
    ensures file { IsReadOrMemory (site_file (record { sites = sites; largest = largest_value }) bytes.now) result }
    ensures sites { IfOk result (λ values. HasSites (record { sites = sites; largest = largest_value }) (lines_of bytes.now) values.items) }
    ensures heading { IfOk result (λ _. HasHeading (record { sites = sites; largest = largest_value }) (lines_of bytes.now)) }
    ensures reads { (values : List ℕ) → HasHeading (record { sites = sites; largest = largest_value }) (lines_of bytes.now) → HasSites (record { sites = sites; largest = largest_value }) (lines_of bytes.now) values →
        IsReadOrMemory (Ok values) result }
{
    let mut reader = Reader::new(alloc, sites, largest_value).map_err(|_| SiteFault::Memory)?;
    let mut left = Some(bytes);
    while let Some(text) = left {
        let (line, rest) = first_line(text);
        reader.read(line)?;
        left = rest;
    }
    reader.finish()
}

/// The text of a site file with these values at a time, which is in ticks.
pub fn sites_text(alloc: Global, time: u64, values: &[u32]) -> Result<Vec<u8>, AllocError>
    requires some { 1 ≤ length values.now }
    requires few { length values.now ≤ 4194304 }
    requires positive { All (λ value. 1 ≤ value) values.now }
    ensures text { IfOk result (λ bytes. bytes.items ≡ sites_text time values.now) }
    ensures reads { IfOk result (λ bytes. (largest : ℕ) → All (λ value. value ≤ largest) values.now →
        site_file (record { sites = length values.now; largest = largest }) bytes.items ≡ Ok values.now) }
{
    let mut text = Vec::new(alloc);
    text.extend_from_slice(b"spk sites at time ")?;
    text.extend_from_slice(print_ticks(time).as_bytes())?;
    text.extend_from_slice(b"\n\n")?;
    text.extend_from_slice(Buffer::new().format(values.len()).as_bytes())?;
    text.extend_from_slice(b" sites\n\nValues\n\n")?;
    for (place, value) in values.iter().enumerate() {
        push_row(&mut text, place + 1, *value)?;
    }
    Ok(text)
}

/// Appends the line of a site.
fn push_row(text: &mut Vec<u8>, id: usize, value: u32) -> Result<(), AllocError>
    ensures { IfOk result (λ _. (values : List ℕ) → text.new.items ++ rows_text (id + 1) values ≡ text.old.items ++ rows_text id (value ∷ values)) }
{
    text.extend_from_slice(Buffer::new().format(id).as_bytes())?;
    text.extend_from_slice(b" ")?;
    text.extend_from_slice(Buffer::new().format(value).as_bytes())?;
    text.extend_from_slice(b"\n")?;
    Ok(())
}

#[cfg(test)]
mod tests {
    use super::*;
    use std::ops::Range;
    use std::process::Abort;
    use std::test::Fail;

    const BY_HAND: &[u8] = b"made by hand\n\n3 sites\n\nValues\n\n1 1\n2 2\n3 1\n";

    /// Whether a site file of three sites with values of at most 2 is read as these, or has this fault.
    fn compare(alloc: Global, rt: &impl Abort, text: &[u8], wanted: Result<[u32; 3], SiteFault>)
        requires { length text.now < 2 ^ 32 }
    {
        let read = sites_read(alloc, text, 3, 2);
        match (&read, &wanted) {
            (Ok(values), Ok(wanted)) => assert!(rt; values.as_slice() == wanted.as_slice()),
            (Err(fault), Err(wanted)) => assert_eq!(rt; fault, wanted),
            _ => panic!(rt; "values in one, and a fault in the other"),
        }
    }

    #[test]
    fn reads_each_length_of_a_file(rt: HostRuntime) {
        let faults: [(Range<usize>, SiteFault); 7] = [
            (0..29, SiteFault::NoHeader),
            (29..32, SiteFault::MissingId(1)),
            (32..34, SiteFault::BadLine(7)),
            (34..36, SiteFault::MissingId(2)),
            (36..38, SiteFault::BadLine(8)),
            (38..40, SiteFault::MissingId(3)),
            (40..42, SiteFault::BadLine(9)),
        ];
        for (lengths, fault) in faults {
            for length in lengths {
                if let Some(text) = BY_HAND.get(..length) {
                    compare(rt.alloc(), &rt, text, Err(fault));
                }
            }
        }
        compare(rt.alloc(), &rt, BY_HAND, Ok([1, 2, 1]));
    }

    #[test]
    fn names_the_first_fault(rt: HostRuntime) {
        for (text, fault) in [
            (
                b"\n\n3 sites\n\nValues\n\n1 1\n2 2\n2 1\n".as_slice(),
                SiteFault::TwiceId(9),
            ),
            (
                b"\n\n4 sites\n\nValues\n\n1 1\n2 2\n3 1\n".as_slice(),
                SiteFault::SitesCount(4),
            ),
            (
                b"\n\n3 sites\n\nValues\n\n1 1\n2 2\n3 9\n".as_slice(),
                SiteFault::BadValue(9),
            ),
            (
                b"\n\n3 sites\n\nValues\n\n1 1\n2 2\n3 0\n".as_slice(),
                SiteFault::BadValue(9),
            ),
            (
                b"\n\n3 sites\n\nSites\n\n1 1\n2 2\n3 1\n".as_slice(),
                SiteFault::OtherSection(5),
            ),
            (
                b"\n\n3 sites\n\nValues\n\n4 1\n".as_slice(),
                SiteFault::BadId(7),
            ),
            (b"\n\nValues\n3 sites\n".as_slice(), SiteFault::NoHeader),
        ] {
            compare(rt.alloc(), &rt, text, Err(fault));
        }
    }

    #[test]
    fn takes_other_spellings(rt: HostRuntime) {
        compare(
            rt.alloc(),
            &rt,
            b"Sites\nany\r\n 003\tsites \nValues\r\n\n03 1\n1 1 \n\t2 2",
            Ok([1, 2, 1]),
        );
    }

    #[test]
    fn writes_the_values(rt: HostRuntime) -> Result<(), Fail> {
        let text = sites_text(rt.alloc(), 1_500_000_000, &[1, 2, 1])?;
        let wanted = b"spk sites at time 1.500000000\n\n3 sites\n\nValues\n\n1 1\n2 2\n3 1\n";
        assert!(rt; text.as_slice() == wanted.as_slice());
        Ok(())
    }
}
