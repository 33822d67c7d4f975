//! Rows of state of one width, each with the number of its key.

ghost use Rattle.std.specs.Prelude.{◌≡◌, ◌<◌, ◌-◌, ◌++◌, ◌∷◌, [], length, option_map, slice_get, take, Some, IfOk, OnOk, OnErr};

use crate::slices::row;
use std::alloc::{AllocError, Global};
use std::marker::Model;
use table_rows::push_few;

/// Rows with their words in one array.
pub struct States {
    alloc: Global,
    width: usize,
    of: Vec<usize>,
    words: Vec<u64>,
}

impl Drop for States {
    fn drop(self) {
        let States {
            alloc: _,
            width: _,
            of: _,
            words: _,
        } = self;
    }
}

impl Model for States {
    ghost use Rattle.std.specs.Prelude.{◌≡◌, ◌*◌, length};
    ghost use Rattle.backing_store.specs.States.{StateList, states_in};

    ghost Value = { StateList };

    ghost view = { λ a. record { width = a.width; rows = states_in a.width a.of.items a.words.items } };

    ghost invariant = { λ a. length a.words.items ≡ length a.of.items * a.width };
}

impl States {
    /// No rows yet, of `width` words each.
    pub fn new(alloc: Global, width: usize) -> States
        ensures { result ≡ record { width = width; rows = [] } }
    {
        States {
            alloc,
            width,
            of: Vec::new(alloc),
            words: Vec::new(alloc),
        }
    }

    /// The number of words of each row.
    pub fn width(&self) -> usize
        ensures { result ≡ self.now.width }
    {
        self.width
    }

    /// The number of rows.
    pub fn len(&self) -> usize
        ensures { result ≡ length self.now.rows }
    {
        self.of.len()
    }

    /// Adds a row at the end, for the key with this number. On an error the rows are unchanged.
    pub fn push(&mut self, of: usize, words: &[u64]) -> Result<(), AllocError>
        requires { length words.now ≡ self.old.width }
        ensures ok { OnOk result (self.new ≡ record { width = self.old.width; rows = self.old.rows ++ record { key = of; words = words.now } ∷ [] }) }
        ensures err { OnErr result (self.new ≡ self.old) }
    {
        self.of.reserve(1)?;
        self.words.reserve(words.len())?;
        push_few(&mut self.words, words);
        self.of.push_reserved(of);
        Ok(())
    }

    /// Removes the last row.
    pub fn pop(&mut self)
        requires { 0 < length self.old.rows }
        ensures { self.new ≡ record { width = self.old.width; rows = take (length self.old.rows - 1) self.old.rows } }
    {
        let rows = self.of.len() - 1;
        self.of.truncate(rows);
        self.words.truncate(rows * self.width);
    }

    /// The number of the key of the row at a place.
    pub fn of(&self, at: usize) -> usize
        requires { at < length self.now.rows }
        ensures { option_map (λ row. row.key) (slice_get self.now.rows at) ≡ Some result }
    {
        self.of[at]
    }

    /// The words of the row at a place.
    pub fn row(&self, at: usize) -> &[u64]
        requires { at < length self.now.rows }
        ensures { option_map (λ row. row.words) (slice_get self.now.rows at) ≡ Some result.now }
    {
        row(self.words.as_slice(), self.width, at)
    }

    ghost use Rattle.std.specs.Borrow.{sem};
    ghost use Rattle.backing_store.specs.LendingStates.{LendsState};

    /// Lends the words of the row at a place.
    pub fn row_mut(&mut self, at: usize) -> &mut [u64]
        requires { at < length self.old.rows }
        ensures* writes_back { sem 𝓛 (LendsState self.entry at result) }
        ensures value { option_map (λ row. row.words) (slice_get self.old.rows at) ≡ Some result.now }
    {
        let start = at * self.width;
        let end = start + self.width;
        self.words.slice_mut(start..end)
    }

    /// A copy of the rows, in separate memory.
    pub fn copy(&self) -> Result<States, AllocError>
        ensures { IfOk result (λ copy. copy ≡ self.now) }
    {
        Ok(States {
            alloc: self.alloc,
            width: self.width,
            of: Vec::from_slice(self.alloc, self.of.as_slice())?,
            words: Vec::from_slice(self.alloc, self.words.as_slice())?,
        })
    }
}
