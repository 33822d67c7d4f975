//! The bytes of a text that wait to be written.

ghost use Rattle.std.specs.{Prelude.{◌≡◌, ◌++◌, ◌<◌, ◌∷◌, [], length, OnErr, OnOk}, Io.KnownBytes.Appends};
ghost use Rattle.marple_base.specs.{Faults.HasCause, Sink.TakesFront, Pieces.TakesAllBut};

use crate::{Failed, Sink, write_all};
use std::alloc::{AllocError, Global};
use std::marker::Model;

// Where this many bytes wait, they are written.
const PIECE: usize = 65_536;

/// The bytes of a text that wait to be written, which contracts see as a list. They are written in pieces of at least 64 KiB,
/// and the memory of one piece serves the next.
#[derive(Drop)]
pub struct TextBuffer {
    bytes: Vec<u8>,
}

impl Model for TextBuffer {
    ghost use Rattle.std.specs.Prelude.{List, ℕ};

    ghost Value = { List ℕ };

    ghost view = { λ t. t.bytes.items };
}

impl TextBuffer {
    /// No bytes wait. It takes no memory.
    pub fn new(alloc: Global) -> TextBuffer
        ensures { result ≡ [] }
    {
        TextBuffer {
            bytes: Vec::new(alloc),
        }
    }

    /// All bytes that wait, lent.
    pub fn as_slice(&self) -> &[u8]
        ensures { result.now ≡ self.now }
    {
        self.bytes.as_slice()
    }

    /// Takes memory for so many bytes more.
    pub fn reserve(&mut self, bytes: usize) -> Result<(), AllocError>
        ensures { self.new ≡ self.old }
    {
        self.bytes.reserve(bytes)
    }

    /// Adds a byte to those that wait. When out of memory, they are unchanged.
    pub fn push(&mut self, byte: u8) -> Result<(), AllocError>
        ensures ok { OnOk result (self.new ≡ self.old ++ byte ∷ []) }
        ensures err { OnErr result (self.new ≡ self.old) }
    {
        self.bytes.push(byte)?;
        Ok(())
    }

    /// Adds a copy of these bytes to those that wait. When out of memory, they are unchanged.
    pub fn push_slice(&mut self, bytes: &[u8]) -> Result<(), AllocError>
        ensures ok { OnOk result (self.new ≡ self.old ++ bytes.now) }
        ensures err { OnErr result (self.new ≡ self.old) }
    {
        self.bytes.extend_from_slice(bytes)
    }

    /// Writes all bytes that wait, where they are 64 KiB or more. Fewer go on waiting.
    pub fn write_when_full<O: Sink>(&mut self, out: &mut O) -> Result<(), Failed>
        ensures ok { OnOk result (TakesAllBut (O.taken out.old) (O.taken out.new) self.new self.old) }
        ensures few_wait { OnOk result (length self.new < 65536) }
        ensures held { length self.old < 65536 → (self.new ≡ self.old) × (out.new ≡ out.old) }
        ensures front { TakesFront (O.taken out.old) (O.taken out.new) self.old }
        ensures cause { HasCause (O.faults out.old) (O.faults out.new) result }
    {
        if self.bytes.len() >= PIECE {
            self.write_rest(out)?;
        }
        Ok(())
    }

    /// Writes all bytes that wait, however few they are: the text ends.
    pub fn write_rest<O: Sink>(&mut self, out: &mut O) -> Result<(), Failed>
        ensures ok { OnOk result (Appends (O.taken out.old) (O.taken out.new) self.old) }
        ensures emptied { OnOk result (self.new ≡ []) }
        ensures front { TakesFront (O.taken out.old) (O.taken out.new) self.old }
        ensures cause { HasCause (O.faults out.old) (O.faults out.new) result }
    {
        write_all(out, self.bytes.as_slice())?;
        self.bytes.clear();
        Ok(())
    }
}
