//! The physical lines of a script.

ghost use Rattle.std.specs.Prelude.{◌≡◌, ◌==◌, map, IfOk};
ghost use Rattle.std.specs.List.{slice_split};
ghost use Rattle.spk_script.specs.Lines.{is_empty_at_end, without_empty_end, physical_lines};

use std::alloc::{AllocError, Global};

/// What stands between line feeds.
fn parts_of(alloc: Global, script: &[u8]) -> Result<Vec<&[u8]>, AllocError>
    ensures { IfOk result (λ parts. map (λ part. part.now) parts.items ≡ slice_split (λ b. b == 10) script.now) }
{
    script.split(|byte| *byte == b'\n').collect(alloc)
}

/// Whether the last part is empty.
fn is_empty_at_end(parts: &[&[u8]]) -> bool
    ensures { result ≡ is_empty_at_end (map (λ part. part.now) parts.now) }
{
    match parts.last() {
        Some(part) => part.is_empty(),
        None => true,
    }
}

/// The physical lines of a script, without their line feeds.
pub fn physical_lines(alloc: Global, script: &[u8]) -> Result<Vec<&[u8]>, AllocError>
    ensures { IfOk result (λ lines. map (λ line. line.now) lines.items ≡ physical_lines script.now) }
{
    let mut parts = parts_of(alloc, script)?;
    if is_empty_at_end(&parts) {
        parts.pop();
    }
    Ok(parts)
}
