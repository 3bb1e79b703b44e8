//! The fields of a text dump, as a list.

ghost use Rattle.std.specs.Prelude.{◌≡◌};

use spk_num::field::Field;
use std::marker::Model;

/// Fields in the order of a dump's columns.
#[derive(Debug, Drop)]
pub struct Fields {
    fields: Vec<Field>,
}

impl Model for Fields {
    ghost use Rattle.std.specs.Prelude.{List};
    ghost use Rattle.spk_num.specs.declared.field.Field.{Field};

    ghost Value = { List Field };

    ghost view = { λ f. f.fields.items };
}

impl Fields {
    /// The list that a `Vec` is.
    pub fn from_vec(fields: Vec<Field>) -> Fields
        ensures { result ≡ fields.items }
    {
        Fields { fields }
    }

    /// The list as a slice.
    pub fn as_slice(&self) -> &[Field]
        ensures { result.now ≡ self.now }
    {
        &self.fields
    }
}

#[cfg(test)]
mod tests {
    use super::*;
    use std::test::Fail;

    #[test]
    fn keeps_the_fields(rt: HostRuntime) -> Result<(), Fail> {
        let mut list = Vec::new(rt.alloc());
        list.push(Field::Id)?;
        list.push(Field::Energy)?;
        let fields = Fields::from_vec(list);
        assert_eq!(rt; fields.as_slice(), [Field::Id, Field::Energy].as_slice());
        Ok(())
    }
}
