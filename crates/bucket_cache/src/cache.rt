//! The buckets of a cache.

ghost use Rattle.std.specs.Prelude.{◌≡◌, ℕ, List, ◌+◌, ◌-◌, ◌*◌, ◌<◌, ◌≤◌, length, take, false, IfErr, IfOk, OnErr, Some, slice_get};
ghost use Rattle.std.specs.{Prelude.{slice_set, sum_by}, Borrow.sem};
ghost use Rattle.bucket_cache.specs.Buckets.{Pair, has_key, places_of};
ghost use Rattle.bucket_cache.specs.Touches.{Touches, IsLeast, IsNotFirst, least_place, with_pair_first, touch_cost, replace_cost};
ghost use Rattle.bucket_cache.specs.{LendingRows.with_entry, Caches.{Cache, list_at, entry_at, with_list, empty_cache, IsSoundCache}};

use crate::bucket::Touch;
use crate::buckets::{replace_in_bucket, touch_bucket};
use crate::entries::Entries;
use crate::hash::bucket_at;
use crate::slices;
use marple_base::Steps;
use std::alloc::{AllocError, Global};
use std::marker::Model;
use std::sync::ledger::Ledger;

/// Buckets of keys by recent use, at most `WAYS` in each, with the words of an entry at each key's place.
/// Only `new` allocates memory.
pub struct BucketCache<const WAYS: usize> {
    key_words: usize,
    entry_words: usize,
    /// For each bucket, how many of its ways are in use.
    used: Vec<u32>,
    /// For each bucket its ways, the most recently used first and the free ones last.
    order: Vec<u16>,
    /// For each place the words of its key.
    words: Vec<u64>,
    entries: Entries,
}

impl<const WAYS: usize> Drop for BucketCache<WAYS> {
    fn drop(self) {
        let BucketCache {
            key_words: _,
            entry_words: _,
            used: _,
            order: _,
            words: _,
            entries: _,
        } = self;
    }
}

impl<const WAYS: usize> Model for BucketCache<WAYS> {
    ghost use Rattle.bucket_cache.specs.{Caches.Cache, FlatBuckets.{lists_in, IsFlatCache}};

    ghost Value = { Cache };

    ghost view = { λ c. record {
      key_words = c.key_words;
      entry_words = c.entry_words;
      lists = lists_in WAYS c.key_words c.used.items c.order.items c.words.items;
      entries = c.entries;
    } };

    ghost invariant = { λ c. IsFlatCache WAYS c.key_words c.entry_words c.used.items c.order.items c.words.items c.entries };
}

impl<const WAYS: usize> BucketCache<WAYS> {
    ghost use Rattle.bucket_cache.specs.LendingCaches.{LendsCacheEntry};

    /// A cache with no pair, for keys and entries of these numbers of words.
    pub fn new(
        alloc: Global,
        buckets: u32,
        key_words: usize,
        entry_words: usize,
    ) -> Result<BucketCache<WAYS>, AllocError>
        requires ways { 0 < WAYS }
        requires buckets { 0 < buckets }
        requires places { buckets * WAYS ≤ 65536 }
        requires key { (0 < key_words) × (key_words ≤ 8) }
        requires entry { entry_words ≤ 512 }
        ensures { IfOk result (λ cache. cache ≡ empty_cache buckets WAYS key_words entry_words) }
    {
        let count = buckets as usize;
        let places = count * WAYS;
        let mut order = Vec::new(alloc);
        for place in 0..places {
            order.push((place % WAYS) as u16)?;
        }
        let used = vec![in alloc; 0u32; count]?;
        let words = vec![in alloc; 0; places * key_words]?;
        let entries = Entries::new(alloc, places, entry_words)?;
        Ok(BucketCache {
            key_words,
            entry_words,
            used,
            order,
            words,
            entries,
        })
    }

    /// The number of words of each key.
    pub fn key_words(&self) -> usize
        ensures { result ≡ self.now.key_words }
    {
        self.key_words
    }

    /// The number of buckets.
    pub fn buckets(&self) -> u32
        ensures number { result ≡ length self.now.lists }
        ensures sound { IsSoundCache WAYS self.now }
    {
        self.used.len() as u32
    }

    /// A sum of the words that a touch of this key and the use of its entry begin with: at the ends of the key at the front of
    /// its bucket, and of the entry there. It means nothing, but who asks for it has the words read, before they are needed.
    pub fn read_ahead(&self, key: &[u64]) -> u64 {
        self.invariant();
        let buckets = self.buckets();
        if buckets == 0 {
            return 0;
        }
        match self.place(bucket_at(key, buckets), 0) {
            Some(place) => slices::sum_of_ends(self.key(place)).wrapping_add(slices::sum_of_ends(
                self.entry(place),
            )),
            None => 0,
        }
    }

    /// Brings the key to the front of its bucket where it is there or where a place is free. A key that is at the front
    /// already, as it mostly is, needs one comparison.
    #[inline(always)]
    pub fn touch<L: Ledger>(&mut self, bucket: u32, key: &[u64], steps: &mut Steps<L>) -> Touch
        requires range { bucket < length self.old.lists }
        requires words { length key.now ≡ self.old.key_words }
        ensures touched { Touches WAYS key.now (list_at self.old bucket) result (list_at self.new bucket) }
        ensures rest { self.new ≡ with_list self.old bucket (list_at self.new bucket) }
        ensures sound { IsSoundCache WAYS self.new }
        ensures steps { steps.old ≤ steps.new }
        ensures cost { steps.new ≤ steps.old + touch_cost WAYS self.old.key_words result }
    {
        self.invariant();
        match self.front(bucket, key) {
            Ok(place) => {
                steps.tick_many(key.len() as u64 + 1);
                Touch::Hit(place)
            }
            Err(compared) => self.touch_by_search(bucket, key, compared, steps),
        }
    }

    fn invariant(&self)
        ensures { IsSoundCache WAYS self.now }
    {
        let _words = &self.words;
    }

    // The place of the key, where it is the most recently used one of its bucket, or else how many words were compared.
    #[inline(always)]
    fn front(&self, bucket: u32, key: &[u64]) -> Result<usize, usize>
        requires range { bucket < length self.now.lists }
        requires words { length key.now ≡ self.now.key_words }
        ensures first { IfOk result (λ place. slice_get (list_at self.now bucket) 0
            ≡ Some (record { key = key.now; place = place })) }
        ensures other { OnErr result (IsNotFirst key.now (list_at self.now bucket)) }
        ensures compared { IfErr result (λ compared. compared ≤ length key.now) }
    {
        self.invariant();
        let Some(place) = self.place(bucket, 0) else {
            return Err(0);
        };
        let (same, compared) = slices::compare(self.key(place), key);
        if same { Ok(place) } else { Err(compared) }
    }

    // Brings the key to the front by a search through the ways of the bucket after the first one, which has another key:
    // so many words were compared to see it.
    fn touch_by_search<L: Ledger>(
        &mut self,
        bucket: u32,
        key: &[u64],
        compared: usize,
        steps: &mut Steps<L>,
    ) -> Touch
        requires range { bucket < length self.old.lists }
        requires words { length key.now ≡ self.old.key_words }
        requires other { IsNotFirst key.now (list_at self.old bucket) }
        requires compared { compared ≤ length key.now }
        ensures touched { Touches WAYS key.now (list_at self.old bucket) result (list_at self.new bucket) }
        ensures rest { self.new ≡ with_list self.old bucket (list_at self.new bucket) }
        ensures sound { IsSoundCache WAYS self.new }
        ensures steps { steps.old ≤ steps.new }
        ensures cost { steps.new ≤ steps.old + touch_cost WAYS self.old.key_words result }
    {
        touch_bucket(
            bucket as usize,
            WAYS,
            &mut self.used,
            &mut self.order,
            &mut self.words,
            key,
            compared,
            steps,
        )
    }

    /// Gives the least recently used place of a full bucket to the key. Not inlined, since few uses replace a key.
    #[inline(never)]
    pub fn replace<L: Ledger>(&mut self, bucket: u32, key: &[u64], steps: &mut Steps<L>) -> usize
        requires range { bucket < length self.old.lists }
        requires words { length key.now ≡ self.old.key_words }
        requires full { length (list_at self.old bucket) ≡ WAYS }
        requires absent { has_key key.now (list_at self.old bucket) ≡ false }
        ensures place { IsLeast (list_at self.old bucket) result }
        ensures pairs { let old = list_at self.old bucket in self.new
            ≡ with_list self.old bucket (with_pair_first key.now result (take (length old - 1) old)) }
        ensures sound { IsSoundCache WAYS self.new }
        ensures cost { steps.new ≡ steps.old + replace_cost WAYS self.old.key_words }
    {
        replace_in_bucket(
            bucket as usize,
            WAYS,
            &self.used,
            &mut self.order,
            &mut self.words,
            key,
            steps,
        )
    }

    /// The place of a pair of a bucket, the most recently used one being 0. None where the bucket has no such pair.
    pub fn place(&self, bucket: u32, i: usize) -> Option<usize>
        requires { bucket < length self.now.lists }
        ensures { result ≡ slice_get (places_of (list_at self.now bucket)) i }
    {
        let bucket = bucket as usize;
        if i < self.used[bucket] as usize {
            let first = bucket * WAYS;
            Some(first + slices::way_at(WAYS, &self.order, first + i))
        } else {
            None
        }
    }

    /// The least recently used place of a bucket. None where the bucket is empty.
    pub fn least(&self, bucket: u32) -> Option<usize>
        requires { bucket < length self.now.lists }
        ensures place { result ≡ least_place (list_at self.now bucket) }
        ensures sound { IsSoundCache WAYS self.now }
    {
        let used = self.used[bucket as usize];
        if used == 0 {
            None
        } else {
            self.place(bucket, used as usize - 1)
        }
    }

    /// Removes the least recently used pair of a bucket.
    pub fn drop_entry<L: Ledger>(&mut self, bucket: u32, steps: &mut Steps<L>)
        requires range { bucket < length self.old.lists }
        requires some { 0 < length (list_at self.old bucket) }
        ensures pairs { let old = list_at self.old bucket in self.new ≡ with_list self.old bucket (take (length old - 1) old) }
        ensures sound { IsSoundCache WAYS self.new }
        ensures cost { steps.new ≡ steps.old + 1 }
    {
        self.used[bucket as usize] -= 1;
        steps.tick();
    }

    /// The key of the pair that has this place.
    pub fn key(&self, at: usize) -> &[u64]
        requires { at < length self.now.entries }
        ensures length { length result.now ≡ self.now.key_words }
        ensures key { (bucket i : ℕ) (pair : Pair) → slice_get (list_at self.now bucket) i ≡ Some pair → pair.place ≡ at
            → result.now ≡ pair.key }
    {
        slices::row(&self.words, self.key_words, at)
    }

    /// The words of the entry at a place.
    pub fn entry(&self, at: usize) -> &[u64]
        requires { at < length self.now.entries }
        ensures words { result.now ≡ entry_at self.now at }
        ensures length { length result.now ≡ self.now.entry_words }
    {
        self.entries.entry(at)
    }

    /// Lends the words of the entry at a place.
    pub fn entry_mut(&mut self, at: usize) -> &mut [u64]
        requires { at < length self.old.entries }
        ensures* writes_back { sem 𝓛 (LendsCacheEntry WAYS.row self.entry at result) }
        ensures value { result.now ≡ entry_at self.old at }
        ensures length { length result.now ≡ self.old.entry_words }
        ensures whole { (words : List ℕ) → length words ≡ self.old.entry_words
            → with_entry self.old.entries at words ≡ slice_set self.old.entries at words }
    {
        self.entries.entry_mut(at)
    }

    /// The number of pairs over all buckets.
    pub fn held(&self) -> usize
        ensures number { result ≡ sum_by (λ pairs. length pairs) self.now.lists }
        ensures bound { result ≤ length self.now.lists * WAYS }
    {
        let mut held = 0;
        for used in &self.used {
            held += *used as usize;
        }
        held
    }
}
