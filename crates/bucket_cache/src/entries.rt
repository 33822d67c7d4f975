//! The words of an entry at each place.

ghost use Rattle.std.specs.{Prelude.{◌≡◌, ℕ, ◌+◌, ◌<◌, ◌≤◌, List, [], length, slice_index_or, replicate, IfOk}, Borrow.sem};
ghost use Rattle.bucket_cache.specs.LendingRows.{LendsEntry};

use crate::slices::row;
use std::alloc::{AllocError, Global};
use std::marker::Model;

/// A fixed number of words at each place, stored one entry after another.
#[derive(Drop)]
pub struct Entries {
    width: usize,
    places: usize,
    words: Vec<u64>,
}

impl Model for Entries {
    ghost use Rattle.std.specs.Prelude.{◌≡◌, ℕ, ◌*◌, List, length};
    ghost use Rattle.bucket_cache.specs.Slices.{rows_of};

    ghost Value = { List (List ℕ) };

    ghost view = { λ e. rows_of e.width e.places e.words.items };

    ghost invariant = { λ e. length e.words.items ≡ e.places * e.width };
}

impl Entries {
    /// Entries of zeros: how many, and of how many words.
    pub fn new(alloc: Global, places: usize, entry_words: usize) -> Result<Entries, AllocError>
        requires places { places ≤ 65536 }
        requires words { entry_words ≤ 512 }
        ensures { IfOk result (λ entries. entries ≡ replicate places (replicate entry_words 0)) }
    {
        Ok(Entries {
            width: entry_words,
            places,
            words: vec![in alloc; 0; places * entry_words]?,
        })
    }

    /// The words at a place.
    pub fn entry(&self, at: usize) -> &[u64]
        requires { at < length self.now }
        ensures { result.now ≡ slice_index_or self.now at [] }
    {
        row(self.words.as_slice(), self.width, at)
    }

    /// Lends the words at a place.
    pub fn entry_mut(&mut self, at: usize) -> &mut [u64]
        requires { at < length self.old }
        ensures* writes_back { sem 𝓛 (LendsEntry self.entry at result) }
        ensures value { result.now ≡ slice_index_or self.old at [] }
    {
        let start = at * self.width;
        let end = start + self.width;
        self.words.slice_mut(start..end)
    }
}
