//! The bytes of a part that wait to be written.

ghost use Rattle.std.specs.Prelude.{◌≡◌, ◌++◌, [], IfOk, OnErr, OnOk, length};

use std::alloc::{AllocError, Global};
use std::marker::Model;

/// The most bytes that wait before they are written.
pub(crate) const PIECE: usize = 65_536;

/// The bytes of a part that wait to be written, which contracts see as a list.
#[derive(Drop)]
pub(crate) struct Waiting {
    bytes: Vec<u8>,
}

impl Model for Waiting {
    ghost use Rattle.std.specs.Prelude.{List, ℕ};

    ghost Value = { List ℕ };

    ghost view = { λ w. w.bytes.items };
}

impl Waiting {
    /// Room for a piece, with these bytes.
    pub(crate) fn new(alloc: Global, first: &[u8]) -> Result<Waiting, AllocError>
        ensures { IfOk result (λ waiting. waiting ≡ first.now) }
    {
        let mut bytes = Vec::with_capacity(alloc, PIECE)?;
        bytes.extend_from_slice(first)?;
        Ok(Waiting { bytes })
    }

    /// The number of bytes.
    pub(crate) fn len(&self) -> usize
        ensures { result ≡ length self.now }
    {
        self.bytes.len()
    }

    /// All bytes, lent.
    pub(crate) fn as_slice(&self) -> &[u8]
        ensures { result.now ≡ self.now }
    {
        self.bytes.as_slice()
    }

    /// Copies these bytes to the end.
    pub(crate) fn push_slice(&mut self, bytes: &[u8]) -> Result<(), AllocError>
        ensures ok { OnOk result (self.new ≡ self.old ++ bytes.now) }
        ensures err { OnErr result (self.new ≡ self.old) }
    {
        self.bytes.extend_from_slice(bytes)
    }

    /// No bytes wait. The room stays.
    pub(crate) fn clear(&mut self)
        ensures { self.new ≡ [] }
    {
        self.bytes.clear();
    }
}
