//! Names of variables, regions and dumps, and of files. The rules are our own.

ghost use Rattle.std.specs.Prelude.{◌≡◌};
ghost use Rattle.std.specs.List.{list_all};
ghost use Rattle.spk_num.specs.Names.{is_name_byte, is_name, is_file_name};

/// The longest name, in bytes.
pub const LONGEST_NAME: usize = 32;

/// The longest name of a file, in bytes.
const LONGEST_FILE_NAME: usize = 255;

/// Whether a name may have this byte: it is a letter, a digit or `_`.
pub fn is_name_byte(byte: u8) -> bool
    ensures { result ≡ is_name_byte byte }
{
    byte.is_ascii_alphanumeric() || byte == b'_'
}

fn are_name_bytes(word: &[u8]) -> bool
    ensures { result ≡ list_all is_name_byte word.now }
{
    word.iter().all(|byte| is_name_byte(*byte))
}

/// Whether a word is a name of 1 to 32 letters, digits or `_`.
pub fn is_name(word: &[u8]) -> bool
    ensures { result ≡ is_name word.now }
{
    !word.is_empty() && word.len() <= LONGEST_NAME && are_name_bytes(word)
}

/// Whether a word may name a file: it has 1 to 255 bytes.
pub fn is_file_name(word: &[u8]) -> bool
    ensures { result ≡ is_file_name word.now }
{
    !word.is_empty() && word.len() <= LONGEST_FILE_NAME
}

#[cfg(test)]
mod tests {
    use super::*;

    #[test]
    fn tells_names(rt: HostRuntime) {
        for (word, wanted) in [
            (b"box".as_slice(), true),
            (b"_1".as_slice(), true),
            (b"Az09_".as_slice(), true),
            (b"".as_slice(), false),
            (b"a-b".as_slice(), false),
            (b"a b".as_slice(), false),
            (b"a.".as_slice(), false),
            (b"\xc3\xa4".as_slice(), false),
        ] {
            assert_eq!(rt; is_name(word), wanted, "at {word:?}");
        }
        assert_eq!(rt; is_name(&[b'n'; 32]), true);
        assert_eq!(rt; is_name(&[b'n'; 33]), false);
    }

    #[test]
    fn tells_file_names(rt: HostRuntime) {
        assert_eq!(rt; is_file_name(b"a b/c".as_slice()), true);
        assert_eq!(rt; is_file_name(b"".as_slice()), false);
        assert_eq!(rt; is_file_name(&[b'f'; 255]), true);
        assert_eq!(rt; is_file_name(&[b'f'; 256]), false);
    }
}
