//! The bytes of a script.

ghost use Rattle.std.specs.Prelude.{◌≡◌, not, position};
ghost use Rattle.spk_script.specs.Words.{is_allowed, is_blank};

/// Whether a script may have this byte.
pub fn is_allowed(byte: u8) -> bool
    ensures { result ≡ is_allowed byte }
{
    matches!(byte, b'\t' | b'\n' | b'\r' | b' '..=b'~')
}

/// The place of the first byte that no script may have.
pub fn first_not_allowed(bytes: &[u8]) -> Option<usize>
    ensures { result ≡ position (λ b. not (is_allowed b)) bytes.now }
{
    bytes.iter().position(|byte| !is_allowed(*byte))
}

/// Whether this byte stands between words.
pub fn is_blank(byte: u8) -> bool
    ensures { result ≡ is_blank byte }
{
    matches!(byte, b' ' | b'\t' | b'\r')
}

#[cfg(test)]
mod tests {
    use super::*;

    #[test]
    fn knows_bytes(rt: HostRuntime) {
        assert_eq!(rt; first_not_allowed(b"run 10\t# ~\r\n".as_slice()), None);
        for byte in [0, 8, 11, 12, 14, 31, 127, 128, 255] {
            assert_eq!(rt; first_not_allowed(&[b'a', byte]), Some(1));
        }
        assert!(rt; is_blank(b' ') && is_blank(b'\t') && is_blank(b'\r') && !is_blank(b'\n'));
    }
}
