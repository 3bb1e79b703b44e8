//! A buffer before a file.

ghost use Rattle.std.specs.Prelude.{◌≡◌, ◌≤◌, ◌+◌, [], length, vec_len, vec_capacity, decimal, IfOk, OnOk};
ghost use Rattle.spk_world.specs.Outside.{adds};
ghost use Rattle.spk_world.specs.Effects.{Wrote, writes};
ghost use Rattle.spk_report.specs.Buffers.{Puts};
ghost use Rattle.spk_report.specs.Output.{failed_stop};

use itoa::Buffer as Number;
use spk_world::{Failed, World};
use std::alloc::{AllocError, Global};

/// The least room of a buffer, in bytes.
pub const LEAST_ROOM: usize = 4096;

/// Text that isn't in its file yet. It keeps its room.
#[derive(Debug, Drop)]
pub struct Buffer {
    pub text: Vec<u8>,
}

impl Buffer {
    /// An empty buffer with this room.
    pub fn new(alloc: Global, room: usize) -> Result<Buffer, AllocError>
        requires { room ≤ 4294967296 }
        ensures text { IfOk result (λ buffer. buffer.text.items ≡ []) }
        ensures room { IfOk result (λ buffer. room ≤ vec_capacity buffer.text) }
    {
        Ok(Buffer {
            text: Vec::with_capacity(alloc, room)?,
        })
    }

    /// Adds all text to a file.
    pub fn flush<W: World>(&mut self, world: &mut W, file: &str) -> Result<(), Failed>
        ensures wrote { Wrote (failed_stop file.now) (W.state world.old) (W.state world.new) (writes (adds file.now self.old.text.items)) result }
        ensures puts { Puts file.now [] (W.state world.old) (W.state world.new) self.old.text.items self.new.text.items result }
        ensures empty { OnOk result (self.new.text.items ≡ []) }
        ensures room { vec_capacity self.old.text ≤ vec_capacity self.new.text }
    {
        if self.text.is_empty() {
            return Ok(());
        }
        let text = self.text.as_slice();
        match world.add(file, text) {
            Ok(()) => {
                self.text.clear();
                Ok(())
            }
            Err(failed) => Err(failed),
        }
    }

    /// Makes room for so many bytes more: where there isn't enough, the text goes to the file.
    fn make_room<W: World>(&mut self, world: &mut W, file: &str, count: usize) -> Result<(), Failed>
        requires count { count ≤ 4096 }
        requires room { 4096 ≤ vec_capacity self.old.text }
        ensures puts { Puts file.now [] (W.state world.old) (W.state world.new) self.old.text.items self.new.text.items result }
        ensures room { 4096 ≤ vec_capacity self.new.text }
        ensures made { OnOk result (vec_len self.new.text + count ≤ vec_capacity self.new.text) }
    {
        if self.text.capacity() - self.text.len() >= count {
            return Ok(());
        }
        self.flush(world, file)
    }

    /// Puts a short piece after the text. Where there is no room for it, the text goes to the file first.
    pub fn put<W: World>(&mut self, world: &mut W, file: &str, piece: &[u8]) -> Result<(), Failed>
        requires piece { length piece.now ≤ 4096 }
        requires room { 4096 ≤ vec_capacity self.old.text }
        ensures puts { Puts file.now piece.now (W.state world.old) (W.state world.new) self.old.text.items self.new.text.items result }
        ensures room { 4096 ≤ vec_capacity self.new.text }
    {
        self.make_room(world, file, piece.len())?;
        self.text.extend_from_slice(piece).unwrap();
        Ok(())
    }

    /// Puts a number.
    pub fn put_number<W: World>(
        &mut self,
        world: &mut W,
        file: &str,
        number: u64,
    ) -> Result<(), Failed>
        requires room { 4096 ≤ vec_capacity self.old.text }
        ensures puts { Puts file.now (decimal number) (W.state world.old) (W.state world.new) self.old.text.items self.new.text.items result }
        ensures room { 4096 ≤ vec_capacity self.new.text }
    {
        self.put(world, file, Number::new().format(number).as_bytes())
    }
}
