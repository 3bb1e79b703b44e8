//! A list of texts that contracts see as a list.

ghost use Rattle.std.specs.Prelude.{◌≡◌};

use crate::text::Text;
use std::marker::Model;

/// Texts in their order, as the words of a command.
#[derive(Debug, Drop)]
pub struct Texts {
    texts: Vec<Text>,
}

impl Model for Texts {
    ghost use Rattle.std.specs.Prelude.{ℕ, List};

    ghost Value = { List (List ℕ) };

    ghost view = { λ t. t.texts.items };
}

impl Texts {
    /// The list that a `Vec` is.
    pub fn from_vec(texts: Vec<Text>) -> Texts
        ensures { result ≡ texts.items }
    {
        Texts { texts }
    }

    /// The list as a `Vec` again.
    pub fn into_vec(self) -> Vec<Text>
        ensures { result.items ≡ self }
    {
        self.texts
    }

    /// The list as a slice.
    pub fn as_slice(&self) -> &[Text]
        ensures { result.now ≡ self.now }
    {
        &self.texts
    }
}

#[cfg(test)]
mod tests {
    use super::*;
    use std::test::Fail;

    #[test]
    fn keeps_the_texts(rt: HostRuntime) -> Result<(), Fail> {
        let mut texts = Vec::new(rt.alloc());
        texts.push(Text::copy(rt.alloc(), "set")?)?;
        texts.push(Text::copy(rt.alloc(), "site")?)?;
        let list = Texts::from_vec(texts);
        assert_eq!(rt; list.as_slice().len(), 2);
        assert_eq!(rt; list.as_slice()[1].as_str(), "site");
        let texts = list.into_vec();
        assert_eq!(rt; texts.len(), 2);
        assert_eq!(rt; texts[0].as_str(), "set");
        Ok(())
    }
}
