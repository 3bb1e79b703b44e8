//! Owned text that contracts see as its bytes.

ghost use Rattle.std.specs.Prelude.{◌≡◌, IfOk, string_bytes};
ghost use Rattle.std.specs.Str.{IsAscii};

use std::alloc::{AllocError, Global};
use std::marker::Model;

/// Text of a name, a word or a message: bytes of UTF-8 that contracts see as a list.
#[derive(Debug, Drop)]
pub struct Text {
    string: String,
}

impl Model for Text {
    ghost use Rattle.std.specs.Prelude.{ℕ, List};
    ghost use Rattle.std.specs.String.{string_bytes};

    ghost Value = { List ℕ };

    ghost view = { λ t. string_bytes t.string };
}

impl Text {
    /// A copy of a text.
    pub fn copy(alloc: Global, text: &str) -> Result<Text, AllocError>
        ensures { IfOk result (λ t. t ≡ text.now) }
    {
        let string = String::from_str(alloc, text)?;
        Ok(Text { string })
    }

    /// The text that a `String` is. It takes no memory.
    pub fn from_string(string: String) -> Text
        ensures { result ≡ string_bytes string }
    {
        Text { string }
    }

    /// The text of these bytes, which are all ASCII.
    #[tactic(auto, using(crate::proofs::Words::ascii_is_text))]
    pub fn from_ascii(alloc: Global, bytes: &[u8]) -> Result<Text, AllocError>
        requires { IsAscii bytes.now }
        ensures { IfOk result (λ t. t ≡ bytes.now) }
    {
        match std::str::from_utf8(bytes) {
            Ok(text) => Text::copy(alloc, text),
            Err(_) => unreachable!(),
        }
    }

    /// The text as a `&str`.
    pub fn as_str(&self) -> &str
        ensures { result.now ≡ self.now }
    {
        self.string.as_str()
    }

    /// The bytes of the text.
    pub fn as_bytes(&self) -> &[u8]
        ensures { result.now ≡ self.now }
    {
        self.string.as_bytes()
    }
}

impl PartialEq for Text {
    ghost use Rattle.std.specs.Prelude.{◌==◌};
    ghost use Rattle.std.specs.Cmp.Lexicographic.{pointwise};
    ghost use Rattle.std.proofs.Common.{rules};
    ghost use Rattle.std.specs.Cmp.Rules.{comparing};

    ghost eq = { pointwise ◌==◌ };

    ghost laws = { Prim.search (comparing, rules) };

    fn eq(&self, other: &Text) -> bool {
        self.as_bytes() == other.as_bytes()
    }
}

impl Eq for Text {
    ghost use Rattle.std.proofs.Common.{rules};
    ghost use Rattle.std.specs.Cmp.Rules.{comparing};

    ghost laws = { Prim.search (comparing, rules) };
}

#[cfg(test)]
mod tests {
    use super::*;
    use std::test::Fail;

    #[test]
    fn keeps_the_bytes(rt: HostRuntime) -> Result<(), Fail> {
        let copied = Text::copy(rt.alloc(), "größe")?;
        assert_eq!(rt; copied.as_str(), "größe");
        assert_eq!(rt; copied.as_bytes(), "größe".as_bytes());
        let ascii = Text::from_ascii(rt.alloc(), b"log.spparks".as_slice())?;
        assert_eq!(rt; ascii.as_str(), "log.spparks");
        assert_eq!(rt; ascii == Text::copy(rt.alloc(), "log.spparks")?, true);
        assert_eq!(rt; ascii == copied, false);
        let made = Text::from_string(String::from_str(rt.alloc(), "größe")?);
        assert_eq!(rt; made == copied, true);
        Ok(())
    }
}
