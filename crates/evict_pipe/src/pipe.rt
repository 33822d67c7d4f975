//! The pipe of evicted records.

ghost use Rattle.std.specs.Prelude.{◌≡◌, ◌+◌, ◌<◌, ◌≤◌, ◌==◌, ◌++◌, ◌∷◌, [], Bool, not, nat_lt, length, drop, slice_index_or};
ghost use Rattle.std.specs.Prelude.{if◌then◌else◌, IfOk};
ghost use Rattle.evict_pipe.specs.Pipes.{Pipe, with_records, IsSoundPipe};

use crate::copying::write_record;
use crate::places::start_of;
use marple_base::{Steps, copy_words};
use std::alloc::{AllocError, Global};
use std::marker::Model;
use std::sync::ledger::Ledger;

/// Records of a fixed number of words, first in, first out. Only `new` allocates memory.
pub struct EvictPipe {
    record_words: usize,
    places: u32,
    /// The place of the oldest record.
    first: u32,
    len: u32,
    /// The words of all places, one after another. The first place comes after the last one.
    words: Vec<u64>,
}

impl Drop for EvictPipe {
    fn drop(self) {
        let EvictPipe {
            record_words: _,
            places: _,
            first: _,
            len: _,
            words: _,
        } = self;
    }
}

impl Model for EvictPipe {
    ghost use Rattle.evict_pipe.specs.{Pipes.Pipe, Rings.{IsRing, records_in}};

    ghost Value = { Pipe };

    ghost view = { λ p. record {
      record_words = p.record_words;
      places = p.places;
      records = records_in p.record_words p.places p.words.items p.first p.len;
    } };

    ghost invariant = { λ p. IsRing p.record_words p.places p.words.items p.first p.len };
}

impl EvictPipe {
    /// An empty pipe: how many records it has room for, and how many words each has.
    pub fn new(alloc: Global, records: u32, record_words: usize) -> Result<EvictPipe, AllocError>
        requires places { (0 < records) × (records ≤ 65536) }
        requires words { (0 < record_words) × (record_words ≤ 512) }
        ensures { IfOk result (λ pipe. pipe ≡ record { record_words = record_words; places = records; records = [] }) }
    {
        Ok(EvictPipe {
            record_words,
            places: records,
            first: 0,
            len: 0,
            words: vec![in alloc; 0; records as usize * record_words]?,
        })
    }

    /// The number of records.
    pub fn len(&self) -> u32
        ensures number { result ≡ length self.now.records }
        ensures sound { IsSoundPipe self.now }
    {
        self.len
    }

    /// Is a place free?
    pub fn has_room(&self) -> bool
        ensures { result ≡ nat_lt (length self.now.records) self.now.places }
    {
        self.len() < self.places
    }

    /// The words of a key and of its entry become the newest record.
    pub fn push<L: Ledger>(&mut self, key: &[u64], entry: &[u64], steps: &mut Steps<L>)
        requires room { length self.old.records < self.old.places }
        requires words { length key.now + length entry.now ≡ self.old.record_words }
        ensures records { self.new ≡ with_records self.old (self.old.records ++ (key.now ++ entry.now) ∷ []) }
        ensures cost { steps.new ≡ steps.old + self.old.record_words }
    {
        let start = start_of(self.record_words, self.places, self.first, self.len);
        let end = start + self.record_words;
        write_record(&mut self.words[start..end], key, entry, steps);
        self.len += 1;
    }

    /// The words of the oldest record.
    pub fn front(&self) -> &[u64]
        requires { 0 < length self.now.records }
        ensures words { result.now ≡ slice_index_or self.now.records 0 [] }
        ensures length { length result.now ≡ self.now.record_words }
    {
        self.record(0)
    }

    /// Copies the oldest record, if there is one.
    pub fn front_into<L: Ledger>(&self, into: &mut [u64], steps: &mut Steps<L>) -> bool
        requires { length into.old ≡ self.now.record_words }
        ensures some { result ≡ not (length self.now.records == 0) }
        ensures copied { into.new ≡ (if result then slice_index_or self.now.records 0 [] else into.old) }
        ensures cost { steps.new ≡ steps.old + (if result then self.now.record_words else 0) }
    {
        if self.len() == 0 {
            return false;
        }
        copy_words(self.front(), into, steps);
        true
    }

    /// Copies a record, the oldest being 0.
    pub fn nth_into(&self, i: u32, into: &mut [u64])
        requires range { i < length self.now.records }
        requires words { length into.old ≡ self.now.record_words }
        ensures { into.new ≡ slice_index_or self.now.records i [] }
    {
        into.copy_from_slice(self.record(i));
    }

    // The words of a record, the oldest being 0.
    fn record(&self, i: u32) -> &[u64]
        requires { i < length self.now.records }
        ensures words { result.now ≡ slice_index_or self.now.records i [] }
        ensures length { length result.now ≡ self.now.record_words }
    {
        let start = start_of(self.record_words, self.places, self.first, i);
        &self.words[start..start + self.record_words]
    }

    /// Removes the oldest record.
    pub fn drop_front(&mut self)
        requires { 0 < length self.old.records }
        ensures { self.new ≡ with_records self.old (drop 1 self.old.records) }
    {
        let next = self.first + 1;
        self.first = if next < self.places { next } else { 0 };
        self.len -= 1;
    }
}
