//! Keys of one width, in the order in which they were added.

ghost use Rattle.std.specs.Prelude.{◌≡◌, ◌<◌, ◌++◌, ◌∷◌, [], length, slice_get, Some, IfOk, OnOk, OnErr};
ghost use Rattle.backing_store.specs.{Prints.fingerprint, Searches.FindsKey};

use crate::chains::{Home, Link, Search, add_key, find_key, first_found};
use crate::slices::row;
use std::alloc::{AllocError, Global};
use std::marker::Model;

/// Keys with their words in one array, and their links in the same order. Each home has the end of its chain.
pub struct Keys {
    alloc: Global,
    width: usize,
    words: Vec<u64>,
    links: Vec<Link>,
    homes: Vec<Home>,
}

impl Drop for Keys {
    fn drop(self) {
        let Keys {
            alloc: _,
            width: _,
            words: _,
            links: _,
            homes: _,
        } = self;
    }
}

impl Model for Keys {
    ghost use Rattle.std.specs.Prelude.{length};
    ghost use Rattle.bucket_cache.specs.Slices.{rows_of};
    ghost use Rattle.backing_store.specs.{KeyList.KeyList, Prints.AreKeys};

    ghost Value = { KeyList };

    ghost view = { λ a. record { width = a.width; keys = rows_of a.width (length a.links.items) a.words.items } };

    ghost invariant = { λ a. AreKeys a.width a.words.items a.links.items a.homes.items };
}

impl Keys {
    /// No keys yet, of `width` words each.
    pub fn new(alloc: Global, width: usize) -> Keys
        ensures { result ≡ record { width = width; keys = [] } }
    {
        Keys {
            alloc,
            width,
            words: Vec::new(alloc),
            links: Vec::new(alloc),
            homes: Vec::new(alloc),
        }
    }

    /// The number of words of each key.
    pub fn width(&self) -> usize
        ensures { result ≡ self.now.width }
    {
        self.width
    }

    /// The number of keys.
    pub fn len(&self) -> usize
        ensures { result ≡ length self.now.keys }
    {
        self.links.len()
    }

    /// The key at a place.
    pub fn key(&self, at: usize) -> &[u64]
        requires { at < length self.now.keys }
        ensures { slice_get self.now.keys at ≡ Some result.now }
    {
        row(self.words.as_slice(), self.width, at)
    }

    /// The place of a key, or its fingerprint.
    pub fn find(&self, key: &[u64]) -> Search
        ensures { FindsKey self.now.keys key.now result }
    {
        find_key(
            self.width,
            self.words.as_slice(),
            self.links.as_slice(),
            self.homes.as_slice(),
            key,
        )
    }

    /// One more than the number of the last key with the home of the key, which is read, or 0.
    pub fn first_found(&self, key: &[u64]) -> usize {
        first_found(self.homes.as_slice(), key)
    }

    /// Adds a key at the end, with the fingerprint that a search gave for it. On an error the keys are unchanged.
    pub fn add(&mut self, key: &[u64], print: u64) -> Result<(), AllocError>
        requires width { length key.now ≡ self.old.width }
        requires print { print ≡ fingerprint key.now }
        ensures ok { OnOk result (self.new ≡ record {
          width = self.old.width;
          keys = self.old.keys ++ key.now ∷ [];
        }) }
        ensures err { OnErr result (self.new ≡ self.old) }
    {
        add_key(
            self.alloc,
            self.width,
            &mut self.words,
            &mut self.links,
            &mut self.homes,
            key,
            print,
        )
    }

    /// A copy of the keys, in separate memory.
    pub fn copy(&self) -> Result<Keys, AllocError>
        ensures { IfOk result (λ copy. copy ≡ self.now) }
    {
        Ok(Keys {
            alloc: self.alloc,
            width: self.width,
            words: Vec::from_slice(self.alloc, self.words.as_slice())?,
            links: Vec::from_slice(self.alloc, self.links.as_slice())?,
            homes: Vec::from_slice(self.alloc, self.homes.as_slice())?,
        })
    }
}
