//! Physical lines that continue in the next one.

ghost use Rattle.std.specs.Prelude.{◌≡◌, true, false, reverse, MatchOption};
ghost use Rattle.spk_script.specs.Lines.{from_end, continues, given};

use crate::bytes::is_blank;

/// A line without the blanks at its end.
#[tactic(auto, using(crate::proofs::Joins::blank_at_end, crate::proofs::Joins::none_at_end))]
fn without_blanks(line: &[u8]) -> &[u8]
    ensures { reverse result.now ≡ from_end line.now }
{
    let mut rest = line;
    while let [prefix @ .., last] = rest {
        if !is_blank(*last) {
            break;
        }
        rest = prefix;
    }
    rest
}

/// What stands before the ampersand of a line that continues.
#[tactic(auto, using(crate::proofs::Joins::ampersand_at_end, crate::proofs::Joins::other_at_end))]
fn before_ampersand(line: &[u8]) -> Option<&[u8]>
    ensures { MatchOption result ((continues line.now ≡ false) × (given line.now ≡ line.now))
        (λ prefix. (continues line.now ≡ true) × (given line.now ≡ prefix.now)) }
{
    match without_blanks(line) {
        [prefix @ .., b'&'] => Some(prefix),
        _ => None,
    }
}

/// Whether a line continues in the next one.
pub fn continues(line: &[u8]) -> bool
    ensures { result ≡ continues line.now }
{
    before_ampersand(line).is_some()
}

/// What a line gives to its logical line.
pub fn given(line: &[u8]) -> &[u8]
    ensures { result.now ≡ given line.now }
{
    before_ampersand(line).unwrap_or(line)
}
