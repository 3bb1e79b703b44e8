//! Dumps by the values of their words.

ghost use Rattle.std.specs.Prelude.{◌≡◌, IfOk, map};
ghost use Rattle.spk_cmds.specs.Values.{words_of};
ghost use Rattle.spk_cmds.specs.Makers.Dump.{field_of, text_fields, fields_of, dump_of};

use crate::command::{Command, DumpStyle};
use crate::fields::Fields;
use crate::value::{Values, word_of};
use spk_num::field::Field;
use spk_num::text::Text;
use std::alloc::{AllocError, Global};

/// The field that a word names.
fn field_of(word: &str) -> Field
    ensures { result ≡ field_of word.now }
{
    match word {
        "id" => Field::Id,
        "site" => Field::Site,
        "i1" => Field::I1,
        "x" => Field::X,
        "y" => Field::Y,
        "z" => Field::Z,
        _ => Field::Energy,
    }
}

/// The fields that words name.
fn fields_named(alloc: Global, words: &Values) -> Result<Fields, AllocError>
    ensures { IfOk result (λ fields. fields ≡ map field_of (words_of words.now)) }
{
    let mut fields = Vec::new(alloc);
    for value in words.as_slice() {
        fields.push(field_of(word_of(value)))?;
    }
    Ok(Fields::from_vec(fields))
}

/// The fields that words name, or `id site x y z` where there are none.
fn text_fields(alloc: Global, words: &Values) -> Result<Fields, AllocError>
    ensures { IfOk result (λ fields. fields ≡ text_fields words.now) }
{
    if words.as_slice().is_empty() {
        let fields = vec![in alloc; Field::Id, Field::Site, Field::X, Field::Y, Field::Z]?;
        return Ok(Fields::from_vec(fields));
    }
    fields_named(alloc, words)
}

/// The fields of a dump of this style.
fn fields_of(alloc: Global, style: DumpStyle, words: &Values) -> Result<Fields, AllocError>
    ensures { IfOk result (λ fields. fields ≡ fields_of style words.now) }
{
    match style {
        DumpStyle::Text => text_fields(alloc, words),
        DumpStyle::Sites => Ok(Fields::from_vec(Vec::new(alloc))),
    }
}

/// `dump ID STYLE D FILE`, and then the fields.
pub fn dump_of(
    alloc: Global,
    style: DumpStyle,
    values: &Values,
    words: &Values,
) -> Result<Command, AllocError>
    ensures { IfOk result (λ command. command ≡ dump_of style values.now words.now) }
{
    let name = Text::copy(alloc, values.word(0))?;
    let file = Text::copy(alloc, values.word(3))?;
    let fields = fields_of(alloc, style, words)?;
    Ok(Command::Dump {
        name,
        style,
        delta: values.decimal(2),
        file,
        fields,
    })
}
