//! A front: the cache of open epochs and the pipe of closed ones, before the store that they are merged into.

ghost use Rattle.std.specs.Prelude.{◌≡◌, ◌+◌, ◌-◌, ◌*◌, ◌<◌, ◌≤◌, ◌==◌, ◌↔◌, take, drop, not, true, false, length, nat_lt, if◌then◌else◌};
ghost use Rattle.std.specs.Prelude.{IfOk, OnOk, OnErr};
ghost use Rattle.epoch_model.specs.{Machine.{Machine, Packet, Evict, Merge, empty_machine}, Timeline.IsSwept};
ghost use Rattle.bucket_cache.specs.Caches.{list_at, with_list};
ghost use Rattle.switch_core.specs.{Closing.{held_in, is_drained}, Costs.{evict_cost, merge_cost}, FrontEvents.{Carries, with_store}};
ghost use Rattle.switch_core.specs.{FrontParts.{AreSizes, IsFront, FitsStore}, Lanes.{FrontStands, geometry}};
ghost use Rattle.backing_store.specs.Store.{Store};

use crate::merging::merge_record;
use crate::places::{begin_at, push_pair};
use backing_store::BackingStore;
use bucket_cache::{BucketCache, Touch, bucket_of, uses_are_bounded};
use epoch_entry::EpochKind;
use evict_pipe::EvictPipe;
use marple_base::Steps;
use query_lang::MAX_KEYS;
use std::alloc::{AllocError, Global};
use std::marker::Model;
use std::sync::ledger::Ledger;

/// What a merge found.
#[derive(Clone, Copy, Debug, PartialEq, Eq)]
pub enum Merged {
    /// The oldest record, which is in the store now.
    Done,
    /// An empty pipe.
    Empty,
}

/// The cache and the pipe of one groupby, for entries of one kind. They belong to no store: each merge is given the store
/// that it merges into, so several fronts may share one. Once a front is made, only a merge takes memory.
#[derive(Drop)]
pub struct Front<K: EpochKind, const WAYS: usize> {
    kind: K,
    cache: BucketCache<WAYS>,
    pipe: EvictPipe,
    scratch: Vec<u64>,
    initial: Vec<u64>,
}

impl<K: EpochKind, const WAYS: usize> Model for Front<K, WAYS> {
    ghost use Rattle.switch_core.specs.FrontParts.{FrontOf, AreFrontParts};

    ghost Value = { FrontOf K };

    ghost view = { λ f. record { kind = f.kind; cache = f.cache; pipe = f.pipe } };

    ghost invariant = { λ f. AreFrontParts WAYS (K.sizes f.kind) (K.folding f.kind) f.cache f.pipe
        f.scratch.items f.initial.items };
}

impl<K: EpochKind, const WAYS: usize> Front<K, WAYS> {
    /// A front with empty cache and pipe.
    pub fn new(
        alloc: Global,
        kind: K,
        buckets: u32,
        key_words: usize,
        pipe_records: u32,
    ) -> Result<Front<K, WAYS>, AllocError>
        requires sizes { AreSizes WAYS buckets pipe_records }
        requires key { (0 < key_words) × (key_words ≤ MAX_KEYS) }
        requires entry { key_words + (K.sizes kind).entry ≤ 512 }
        ensures stands { IfOk result (λ front.
            FrontStands (K.stands front.kind) front.cache front.pipe (empty_machine (geometry WAYS front.cache))) }
        ensures kind { IfOk result (λ front. front.kind ≡ kind) }
        ensures buckets { IfOk result (λ front. length front.cache.lists ≡ buckets) }
        ensures places { IfOk result (λ front. front.pipe.places ≡ pipe_records) }
        ensures key { IfOk result (λ front. front.cache.key_words ≡ key_words) }
    {
        let entry_words = kind.entry_words();
        let cache = BucketCache::new(alloc, buckets, key_words, entry_words)?;
        let pipe = EvictPipe::new(alloc, pipe_records, key_words + entry_words)?;
        let scratch = vec![in alloc; 0; kind.scratch_words()]?;
        let mut initial = vec![in alloc; 0; kind.state_words()]?;
        kind.initial(&mut initial);
        Ok(Front {
            kind,
            cache,
            pipe,
            scratch,
            initial,
        })
    }

    /// What holds of every front: the words of keys, entries and records are as many as the kind says.
    pub fn invariant(&self)
        ensures { IsFront WAYS (K.sizes self.now.kind) self.now.cache self.now.pipe }
    {
        let _kind = &self.kind;
    }

    /// Whether the pipe has room for a record.
    pub fn ready(&self) -> bool
        ensures { result ≡ nat_lt (length self.now.pipe.records) self.now.pipe.places }
    {
        self.pipe.has_room()
    }

    /// Takes a packet with this key and argument row: into the entry of its key, which is begun first if its bucket has none, and
    /// then the least recently used entry of a full bucket goes into the pipe.
    #[inline(always)]
    pub fn packet<L: Ledger>(&mut self, key: &[u64], args: &[u64], steps: &mut Steps<L>)
        requires ready { length self.old.pipe.records < self.old.pipe.places }
        requires key { length key.now ≡ self.old.cache.key_words }
        requires args { length args.now ≡ (K.sizes self.old.kind).args }
        ensures carries { (store : Store) → Carries K.stands K.folding WAYS (Packet key.now args.now)
            (with_store self.old store) (with_store self.new store) }
        ensures steps { steps.old ≤ steps.new }
        ensures cost { let key_words = self.old.cache.key_words in
            steps.new ≤ steps.old + (key_words + 2 * WAYS * (key_words + 1) + (key_words + (K.sizes self.old.kind).entry)
            + K.open_bound self.old.kind + K.absorb_bound self.old.kind) }
    {
        uses_are_bounded();
        let scratch: &mut [u64] = &mut self.scratch;
        let bucket = bucket_of(key, self.cache.buckets(), steps);
        match self.cache.touch(bucket, key, steps) {
            Touch::Hit(place) => {
                let entry = self.cache.entry_mut(place);
                self.kind.absorb(entry, args, scratch, steps);
            }
            Touch::Free(place) => {
                begin_at(&self.kind, &mut self.cache, place, args, scratch, steps);
            }
            Touch::Full(place) => {
                push_pair(&self.cache, &mut self.pipe, place, steps);
                let freed = self.cache.replace(bucket, key, steps);
                begin_at(&self.kind, &mut self.cache, freed, args, scratch, steps);
            }
        }
    }

    /// Closes the least recently used epoch of a bucket: its entry goes into the pipe. False exactly where the bucket
    /// is empty, and then nothing changes.
    pub fn evict<L: Ledger>(&mut self, bucket: u32, steps: &mut Steps<L>) -> bool
        requires ready { length self.old.pipe.records < self.old.pipe.places }
        requires range { bucket < length self.old.cache.lists }
        ensures carries { (store : Store) → Carries K.stands K.folding WAYS (Evict bucket)
            (with_store self.old store) (with_store self.new store) }
        ensures some { result ≡ not (length (list_at self.old.cache bucket) == 0) }
        ensures cache { let list = list_at self.old.cache bucket in
            self.new.cache ≡ with_list self.old.cache bucket (take (length list - 1) list) }
        ensures records { length self.new.pipe.records ≡ length self.old.pipe.records + (if result then 1 else 0) }
        ensures same { result ≡ false → self.new ≡ self.old }
        ensures cost { let cache = self.old.cache in
            steps.new ≡ steps.old + (if result then evict_cost cache.key_words cache.entry_words else 0) }
    {
        match self.cache.least(bucket) {
            Some(place) => {
                push_pair(&self.cache, &mut self.pipe, place, steps);
                self.cache.drop_entry(bucket, steps);
                true
            }
            None => false,
        }
    }

    /// Merges the oldest record of the pipe into a store, after what the store holds. Empty exactly where the pipe is
    /// empty, and then nothing changes; where memory runs out, front and store are unchanged.
    #[inline(always)]
    pub fn merge_into<L: Ledger>(
        &mut self,
        store: &mut BackingStore,
        steps: &mut Steps<L>,
    ) -> Result<Merged, AllocError>
        requires { FitsStore (K.sizes self.old.kind) self.old.cache store.old }
        ensures carries { OnOk result (Carries K.stands K.folding WAYS Merge
            (with_store self.old store.old) (with_store self.new store.new)) }
        ensures fits { FitsStore (K.sizes self.new.kind) self.new.cache store.new }
        ensures empty { (result ≡ Ok Merged.Empty) ↔ (length self.old.pipe.records ≡ 0) }
        ensures same { result ≡ Ok Merged.Empty → (self.new ≡ self.old) × (store.new ≡ store.old) }
        ensures err { OnErr result ((self.new ≡ self.old) × (store.new ≡ store.old)) }
        ensures records { OnOk result (self.new.pipe.records ≡ drop 1 self.old.pipe.records) }
        ensures ready { OnOk result (length self.new.pipe.records < self.new.pipe.places) }
        ensures kind { self.new.kind ≡ self.old.kind }
        ensures cache { self.new.cache ≡ self.old.cache }
        ensures steps { steps.old ≤ steps.new }
        ensures cost { let cache = self.old.cache in
            steps.new ≤ steps.old + merge_cost cache.key_words cache.entry_words (K.merge_bound self.old.kind) }
    {
        if self.pipe.len() == 0 {
            return Ok(Merged::Empty);
        }
        self.merge_oldest(store, steps)?;
        Ok(Merged::Done)
    }

    // Merges the oldest record, where there is one. Not inlined, since most merges find an empty pipe.
    #[inline(never)]
    fn merge_oldest<L: Ledger>(
        &mut self,
        store: &mut BackingStore,
        steps: &mut Steps<L>,
    ) -> Result<(), AllocError>
        requires fits { FitsStore (K.sizes self.old.kind) self.old.cache store.old }
        requires some { 0 < length self.old.pipe.records }
        ensures carries { OnOk result (Carries K.stands K.folding WAYS Merge
            (with_store self.old store.old) (with_store self.new store.new)) }
        ensures fits { FitsStore (K.sizes self.new.kind) self.new.cache store.new }
        ensures err { OnErr result ((self.new ≡ self.old) × (store.new ≡ store.old)) }
        ensures records { OnOk result (self.new.pipe.records ≡ drop 1 self.old.pipe.records) }
        ensures kind { self.new.kind ≡ self.old.kind }
        ensures cache { self.new.cache ≡ self.old.cache }
        ensures steps { steps.old ≤ steps.new }
        ensures cost { let cache = self.old.cache in
            steps.new ≤ steps.old + merge_cost cache.key_words cache.entry_words (K.merge_bound self.old.kind) }
    {
        merge_record(
            &self.kind,
            store,
            self.pipe.front(),
            &self.initial,
            &mut self.scratch,
            steps,
        )?;
        self.pipe.drop_front();
        Ok(())
    }

    /// The number of open epochs in the cache.
    pub fn held(&self) -> usize
        ensures number { result ≡ held_in self.now.cache }
        ensures bound { result ≤ length self.now.cache.lists * WAYS }
    {
        self.cache.held()
    }

    /// The number of records in the pipe.
    pub fn piped(&self) -> u32
        ensures number { result ≡ length self.now.pipe.records }
        ensures bound { result ≤ self.now.pipe.places }
    {
        self.pipe.len()
    }

    /// Whether cache and pipe are empty. Then no epoch is open, and all closed ones are merged.
    pub fn drained(&self) -> bool
        ensures value { result ≡ is_drained self.now.cache self.now.pipe }
        ensures done { result ≡ true → (m : Machine) → FrontStands (K.stands self.now.kind) self.now.cache self.now.pipe m
            → IsSwept m × (m.merged ≡ length m.closed) }
    {
        self.held() == 0 && self.piped() == 0
    }

    /// The kind of its entries.
    pub fn kind(&self) -> &K
        ensures { result.now ≡ self.now.kind }
    {
        &self.kind
    }

    /// The cache of open epochs.
    pub fn cache(&self) -> &BucketCache<WAYS>
        ensures { result.now ≡ self.now.cache }
    {
        &self.cache
    }

    /// The pipe of closed epochs that aren't merged.
    pub fn pipe(&self) -> &EvictPipe
        ensures { result.now ≡ self.now.pipe }
    {
        &self.pipe
    }
}
