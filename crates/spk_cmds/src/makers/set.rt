//! `set` by the values of its words.

ghost use Rattle.std.specs.Prelude.{◌≡◌, IfOk, codes};
ghost use Rattle.spk_cmds.specs.Values.{word_after};
ghost use Rattle.spk_cmds.specs.Makers.Set.{range_of, set_to};

use crate::command::{Command, SetValue};
use crate::value::Values;
use spk_num::text::Text;
use std::alloc::{AllocError, Global};

/// `range W W`.
pub fn range_of(values: &Values) -> SetValue
    ensures { result ≡ range_of values.now }
{
    SetValue::Range(values.number(2), values.number(3))
}

/// The name after `region`, where that stands.
fn region_named(alloc: Global, pairs: &Values) -> Result<Option<Text>, AllocError>
    ensures { IfOk result (λ name. name ≡ word_after pairs.now (codes "region")) }
{
    match pairs.word_after("region") {
        Some(name) => Ok(Some(Text::copy(alloc, name)?)),
        None => Ok(None),
    }
}

/// `set L` with its values, and then the pairs.
pub fn set_to(alloc: Global, value: SetValue, pairs: &Values) -> Result<Command, AllocError>
    ensures { IfOk result (λ command. command ≡ set_to value pairs.now) }
{
    let region = region_named(alloc, pairs)?;
    Ok(Command::Set {
        value,
        fraction: pairs.decimal_after("fraction"),
        region,
    })
}
