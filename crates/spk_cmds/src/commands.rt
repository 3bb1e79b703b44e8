//! The command that the words of a line make.

ghost use Rattle.std.specs.Prelude.{◌≡◌, IfOk, option_map};
ghost use Rattle.spk_num.specs.Results.{IsPlainOrMemory};
ghost use Rattle.spk_cmds.specs.Faults.{is_memory};
ghost use Rattle.spk_cmds.specs.Table.{styled_found, decided_by, decided, form_of, row_found, form_found_by, form_found, read_by, named_command, command_read};
ghost use Rattle.spk_cmds.specs.TableViews.{styles_seen, forms_seen, rows_seen, found_seen};
ghost use Rattle.spk_cmds.specs.Views.{words_seen, form_seen};
ghost use Rattle.spk_cmds.specs.WellFormed.{IsWellFormed};

use crate::command::{Command, CommandFault};
use crate::form::{Form, Forms, Row, Styled};
use crate::makers::made;
use crate::reader::read_form;
use crate::table::rows;
use crate::words::is_among;
use spk_num::text::Text;
use std::alloc::Global;

/// The form of a deciding word.
fn styled_found(styles: &[Styled], word: &str) -> Option<Form>
    ensures { option_map form_seen result ≡ styled_found (styles_seen styles.now) word.now }
{
    match styles {
        [styled, styles @ ..] => {
            if word == styled.word {
                Some(styled.form)
            } else {
                styled_found(styles, word)
            }
        }
        [] => None,
    }
}

/// The forms of the command with this name.
fn row_found(rows: &[Row], name: &str) -> Option<Forms>
    ensures { option_map forms_seen result ≡ row_found (rows_seen rows.now) name.now }
{
    match rows {
        [row, rows @ ..] => {
            if name == row.name {
                Some(row.forms)
            } else {
                row_found(rows, name)
            }
        }
        [] => None,
    }
}

/// The form of a deciding word, or that the word is unknown or isn't built yet.
#[tactic(auto, using(crate::proofs::Refusals::plain_or_memory))]
fn decided_by(
    alloc: Global,
    form: Option<Form>,
    unbuilt: &[&str],
    word: &Text,
) -> Result<Form, CommandFault>
    ensures { IsPlainOrMemory is_memory (decided_by (option_map form_seen form) (words_seen unbuilt.now) word.now) (found_seen result) }
{
    if let Some(form) = form {
        return Ok(form);
    }
    if is_among(unbuilt, word.as_str()) {
        return Err(CommandFault::NotBuilt(Text::copy(alloc, word.as_str())?));
    }
    Err(CommandFault::UnknownStyle(Text::copy(alloc, word.as_str())?))
}

/// The form of a deciding word, or that the word is missing, unknown or not built yet.
#[tactic(auto, using(crate::proofs::Refusals::plain_or_memory))]
fn decided(
    alloc: Global,
    styles: &[Styled],
    unbuilt: &[&str],
    word: Option<&Text>,
) -> Result<Form, CommandFault>
    ensures { IsPlainOrMemory is_memory (decided (styles_seen styles.now) (words_seen unbuilt.now) (option_map (λ w. w.now) word.entry)) (found_seen result) }
{
    match word {
        Some(word) => decided_by(alloc, styled_found(styles, word.as_str()), unbuilt, word),
        None => Err(CommandFault::WrongCount),
    }
}

/// The form of the words after a command's name.
#[tactic(auto, using(crate::proofs::Refusals::plain_or_memory))]
fn form_of(alloc: Global, forms: Forms, name: &Text, words: &[Text]) -> Result<Form, CommandFault>
    ensures { IsPlainOrMemory is_memory (form_of (forms_seen forms) name.now words.now) (found_seen result) }
{
    match forms {
        Forms::Unbuilt => Err(CommandFault::NotBuilt(Text::copy(alloc, name.as_str())?)),
        Forms::One(form) => Ok(form),
        Forms::Several(place, styles, unbuilt) => decided(alloc, styles, unbuilt, words.get(place)),
    }
}

/// The form of the words after a command's name, where the table has that.
#[tactic(auto, using(crate::proofs::Refusals::plain_or_memory))]
fn form_found_by(
    alloc: Global,
    forms: Option<Forms>,
    name: &Text,
    words: &[Text],
) -> Result<Form, CommandFault>
    ensures { IsPlainOrMemory is_memory (form_found_by (option_map forms_seen forms) name.now words.now) (found_seen result) }
{
    match forms {
        Some(forms) => form_of(alloc, forms, name, words),
        None => Err(CommandFault::UnknownCommand(Text::copy(alloc, name.as_str())?)),
    }
}

/// The form of a command's words.
fn form_found(alloc: Global, name: &Text, words: &[Text]) -> Result<Form, CommandFault>
    ensures { IsPlainOrMemory is_memory (form_found name.now words.now) (found_seen result) }
{
    let forms = row_found(rows(), name.as_str());
    form_found_by(alloc, forms, name, words)
}

/// The command that words of a form make.
#[tactic(auto, using(crate::proofs::Refusals::plain_or_memory))]
fn read_by(alloc: Global, form: &Form, words: &[Text]) -> Result<Command, CommandFault>
    ensures { IsPlainOrMemory is_memory (read_by words.now (form_seen form.now)) result }
{
    let reading = read_form(alloc, form, words)?;
    let command = made(alloc, form.maker, &reading)?;
    Ok(command)
}

/// The command that a name and the words after it make.
#[tactic(auto, using(crate::proofs::Refusals::plain_or_memory))]
fn named_command(alloc: Global, name: &Text, words: &[Text]) -> Result<Command, CommandFault>
    ensures { IsPlainOrMemory is_memory (named_command name.now words.now) result }
{
    let form = form_found(alloc, name, words)?;
    read_by(alloc, &form, words)
}

/// The command that words make, or the first fault: an unknown command, an unknown deciding word, the number of words,
/// the form of a word from the left, and the range of a number from the left.
#[tactic(auto, using(crate::proofs::Refusals::plain_or_memory))]
pub fn command_of(alloc: Global, words: &[Text]) -> Result<Command, CommandFault>
    ensures read { IsPlainOrMemory is_memory (command_read words.now) result }
    ensures formed { IfOk result IsWellFormed }
{
    let [name, rest @ ..] = words else {
        return Err(CommandFault::UnknownCommand(Text::copy(alloc, "")?));
    };
    named_command(alloc, name, rest)
}
