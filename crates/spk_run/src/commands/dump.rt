//! `dump`: snapshots are written to files from the next run on.

ghost use Rattle.std.specs.Prelude.{◌≡◌, ◌≤◌, length, IfOk, IfSome};
ghost use Rattle.spk_cmds.specs.WellFormed.{IsAboveZero};
ghost use Rattle.spk_run.specs.Causes.{IsOfState};
ghost use Rattle.spk_run.specs.Commands.Dump.{dump_cause, new_dump, with_dump};

use crate::cause::Cause;
use crate::dump::{Dump, DumpState};
use crate::state::{SessionState, ticks_of};
use spk_cmds::{DumpStyle, Fields};
use spk_num::decimal::Dec;
use spk_num::text::Text;
use std::alloc::{AllocError, Global};

/// The most dumps of a session.
const MOST_DUMPS: usize = 32;

/// The same fields again.
fn fields_again(alloc: Global, fields: &Fields) -> Result<Fields, AllocError>
    ensures { IfOk result (λ again. again ≡ fields.now) }
{
    let fields = fields.as_slice();
    let mut again = Vec::with_capacity(alloc, fields.len())?;
    again.extend_from_slice(fields)?;
    Ok(Fields::from_vec(again))
}

impl SessionState {
    pub fn dump_cause(&self, alloc: Global, name: &Text) -> Result<Option<Cause>, AllocError>
        ensures cause { IfOk result (λ found. found ≡ dump_cause self.now name.now) }
        ensures of_state { IfOk result (λ found. IfSome found IsOfState) }
    {
        if self.dumps.find(name).is_some() {
            return Ok(Some(Cause::DumpTwice(Text::copy(alloc, name.as_str())?)));
        }
        if self.dumps.len() >= MOST_DUMPS {
            return Ok(Some(Cause::TooManyDumps));
        }
        Ok(None)
    }

    /// Adds a dump after the others. It is due first at the start of the next run.
    pub fn add_dump(
        &mut self,
        alloc: Global,
        name: &Text,
        style: DumpStyle,
        delta: Dec,
        file: &Text,
        fields: &Fields,
    ) -> Result<(), AllocError>
        requires delta { IsAboveZero 1000000000000000 delta }
        requires file { length file.now ≤ 255 }
        ensures { IfOk result (λ _. self.new ≡ with_dump self.old (new_dump name.now style delta file.now fields.now)) }
    {
        self.dumps.push(Dump::new(DumpState {
            name: Text::copy(alloc, name.as_str())?,
            style,
            delta: ticks_of(delta),
            file: Text::copy(alloc, file.as_str())?,
            fields: fields_again(alloc, fields)?,
            next: None,
            number: 0,
        }))
    }
}
