//! Lines and their words.

ghost use Rattle.std.specs.Prelude.{◌≡◌, ◌==◌, ◌+◌, ◌∷◌, [], length, MatchOption};
ghost use Rattle.std.specs.List.{slice_split};
ghost use Rattle.spk_files.specs.Lines.{is_blank, words_of, HasWords};

/// The words of a line, where there are no more than two.
#[derive(Clone, Copy, Debug)]
pub enum Line<'a> {
    Empty,
    One(&'a [u8]),
    Two(&'a [u8], &'a [u8]),
    More,
}

fn is_blank(byte: u8) -> bool
    ensures { result ≡ is_blank byte }
{
    matches!(byte, b' ' | b'\t' | b'\r')
}

/// What stands before the first line feed, and what after it.
pub fn first_line(text: &[u8]) -> (&[u8], Option<&[u8]>)
    ensures cut { MatchOption result.1 (slice_split (λ b. b == 10) text.now ≡ result.0.now ∷ [])
        (λ rest. slice_split (λ b. b == 10) text.now ≡ result.0.now ∷ slice_split (λ b. b == 10) rest.now) }
    ensures lengths { MatchOption result.1 (length result.0.now ≡ length text.now)
        (λ rest. length result.0.now + 1 + length rest.now ≡ length text.now) }
{
    match text.iter().position(|byte| *byte == b'\n') {
        Some(end) => (&text[..end], Some(&text[end + 1..])),
        None => (text, None),
    }
}

/// The first word, and what stands after it.
fn first_word(text: &[u8]) -> Option<(&[u8], &[u8])>
    ensures { MatchOption result (words_of text.now ≡ []) (λ parts. words_of text.now ≡ parts.0.now ∷ words_of parts.1.now) }
{
    let start = text.iter().position(|byte| !is_blank(*byte))?;
    let text = &text[start..];
    let end = text
        .iter()
        .position(|byte| is_blank(*byte))
        .unwrap_or(text.len());
    Some(text.split_at(end))
}

/// The words of a line.
pub fn line_of(text: &[u8]) -> Line
    ensures { HasWords result (words_of text.now) }
{
    let Some((first, rest)) = first_word(text) else {
        return Line::Empty;
    };
    let Some((second, rest)) = first_word(rest) else {
        return Line::One(first);
    };
    match first_word(rest) {
        Some(_) => Line::More,
        None => Line::Two(first, second),
    }
}
