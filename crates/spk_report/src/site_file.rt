//! Site files, written without memory.

ghost use Rattle.std.specs.Prelude.{◌≡◌, ◌++◌, ◌+◌, ◌≤◌, ◌∷◌, [], ℕ, List, length, vec_len, vec_capacity};
ghost use Rattle.spk_world.specs.Outside.{adds};
ghost use Rattle.spk_world.specs.Effects.{Wrote, writes};
ghost use Rattle.spk_sched.specs.SiteTexts.{rows_text, sites_text};
ghost use Rattle.spk_report.specs.Output.{failed_stop};
ghost use Rattle.spk_report.specs.Pieces.{ArePieces, AreValuesOf, one_rank};

use crate::append::{append, append_number};
use spk_num::decimal_text::print_ticks;
use spk_sched::{Letter, Sectors};
use spk_world::{Failed, World};

/// Adds a site file with these values at a time, which is in ticks, to a file. The text is made in the buffer.
pub fn sites_write<W: World>(
    world: &mut W,
    file: &str,
    time: u64,
    sectors: &Sectors,
    pieces: &[Letter],
    buffer: &mut Vec<u8>,
) -> Result<(), Failed>
    requires one_rank { sectors.now.grid.ranks ≡ one_rank }
    requires pieces { ArePieces sectors.now pieces.now }
    requires room { (values : List ℕ) → AreValuesOf sectors.now pieces.now values → length (sites_text time values) ≤ vec_capacity buffer.old }
    ensures wrote { (values : List ℕ) → AreValuesOf sectors.now pieces.now values →
        Wrote (failed_stop file.now) (W.state world.old) (W.state world.new) (writes (adds file.now (sites_text time values))) result }
    ensures room { vec_capacity buffer.old ≤ vec_capacity buffer.new }
{
    sectors.lattice().known();
    make_text(buffer, time, &pieces[0].values);
    let text = buffer.as_slice();
    match world.add(file, text) {
        Ok(()) => Ok(()),
        Err(failed) => Err(failed),
    }
}

/// Sets a text to a site file.
#[tactic(auto, using(spk_sched::proofs::SiteLengths::text_length))]
fn make_text(text: &mut Vec<u8>, time: u64, values: &[u32])
    requires { length (sites_text time values.now) ≤ vec_capacity text.old }
    ensures text { text.new.items ≡ sites_text time values.now }
    ensures room { vec_capacity text.old ≤ vec_capacity text.new }
{
    text.clear();
    append(text, b"spk sites at time ");
    append(text, print_ticks(time).as_bytes());
    append(text, b"\n\n");
    append_number(text, values.len() as u64);
    append(text, b" sites\n\nValues\n\n");
    for (place, value) in values.iter().enumerate() {
        append_row(text, place as u64 + 1, *value);
    }
}

/// Appends the line of a site.
fn append_row(text: &mut Vec<u8>, id: u64, value: u32)
    requires { vec_len text.old + length (rows_text id (value ∷ [])) ≤ vec_capacity text.old }
    ensures items { (values : List ℕ) → text.new.items ++ rows_text (id + 1) values ≡ text.old.items ++ rows_text id (value ∷ values) }
    ensures len { vec_len text.new ≡ vec_len text.old + length (rows_text id (value ∷ [])) }
    ensures room { vec_capacity text.old ≤ vec_capacity text.new }
{
    append_number(text, id);
    append(text, b" ");
    append_number(text, u64::from(value));
    append(text, b"\n");
}
