//! Words, of which the first take half the memory where they are small.

ghost use Rattle.std.specs.Prelude.{◌≡◌, ◌<◌, ◌++◌, ◌∷◌, [], OnErr, OnOk, length, slice_index_or, take};

use std::alloc::{AllocError, Global};
use std::marker::Model;

// The greatest small word.
const MOST_SMALL: u64 = 4_294_967_295;

/// Words in order. As far as they are small, they take 32 bits each.
#[derive(Drop)]
pub struct WordList {
    small: Vec<u32>,
    /// The first word that isn't small, and all after it.
    rest: Vec<u64>,
}

impl Model for WordList {
    ghost use Rattle.std.specs.Prelude.{ℕ, List, ◌++◌};

    ghost Value = { List ℕ };

    ghost view = { λ a. a.small.items ++ a.rest.items };
}

impl WordList {
    /// No words yet.
    pub fn new(alloc: Global) -> WordList
        ensures { result ≡ [] }
    {
        WordList {
            small: Vec::new(alloc),
            rest: Vec::new(alloc),
        }
    }

    /// The number of words.
    pub fn len(&self) -> usize
        ensures { result ≡ length self.now }
    {
        self.small.len() + self.rest.len()
    }

    /// Adds a word at the end. When out of memory, the words are unchanged.
    #[inline(always)]
    pub fn push(&mut self, word: u64) -> Result<(), AllocError>
        ensures ok { OnOk result (self.new ≡ self.old ++ word ∷ []) }
        ensures err { OnErr result (self.new ≡ self.old) }
    {
        if word <= MOST_SMALL {
            if self.rest.is_empty() {
                self.small.reserve(1)?;
                self.small.push_reserved(word as u32);
                return Ok(());
            }
        }
        self.rest.reserve(1)?;
        self.rest.push_reserved(word);
        Ok(())
    }

    /// Keeps so many of the words, the first.
    pub fn truncate(&mut self, len: usize)
        ensures { self.new ≡ take len self.old }
    {
        let small = self.small.len();
        if len <= small {
            self.small.truncate(len);
            self.rest.clear();
        } else {
            self.rest.truncate(len - small);
        }
    }

    /// The word at a place.
    #[inline(always)]
    pub fn get(&self, at: usize) -> u64
        requires { at < length self.now }
        ensures { result ≡ slice_index_or self.now at 0 }
    {
        let small = self.small.len();
        if at < small {
            u64::from(self.small[at])
        } else {
            self.rest[at - small]
        }
    }
}
