//! A lane: what is kept for one groupby.

ghost use Rattle.std.specs.Prelude.{◌≡◌, ◌+◌, ◌-◌, ◌*◌, ◌<◌, ◌≤◌, ◌==◌, ◌↔◌, take, drop, not, true, false, length, nat_lt, if◌then◌else◌};
ghost use Rattle.std.specs.Prelude.{IfOk, OnOk, OnErr};
ghost use Rattle.epoch_model.specs.{Machine.{Machine, Packet, Evict, Merge, empty_machine}, Timeline.IsSwept};
ghost use Rattle.bucket_cache.specs.Caches.{list_at, with_list};
ghost use Rattle.switch_core.specs.{Lanes.{LaneStands, geometry}, FrontParts.{IsFront, FitsStore}};
ghost use Rattle.switch_core.specs.{LaneEvents.{EventsAreFollowed, Makes, parts}, Closing.{held_in, is_drained}};
ghost use Rattle.switch_core.specs.{Costs.{evict_cost, merge_cost}, FrontEvents.{CarriesAll, CarriesFirst}};
ghost use Rattle.switch_core.specs.Upkeeps.{IsKept, upkeep_cost, upkeep_events};
ghost use Rattle.final_queries.specs.GroupTable.{closed_table};

use crate::closing::columns;
use crate::front::{Front, Merged};
use crate::upkeep::{Upkeep, keep_up};
use backing_store::{BackingStore, rows_held};
use bucket_cache::BucketCache;
use epoch_entry::{AnyEpochs, EpochKind};
use evict_pipe::EvictPipe;
use final_queries::{Table, TableKind};
use marple_base::{Seq, Steps, Text};
use query_lang::{Class, MAX_KEYS};
use stage_plan::Plan;
use std::alloc::{AllocError, Global};
use std::marker::Model;
use std::sync::ledger::Ledger;

/// The cache, the pipe and the store of one groupby, for entries of one kind. Once a lane is made, only `merge`,
/// `keep_up` and `close` take memory.
#[derive(Drop)]
pub struct Lane<K: EpochKind, const WAYS: usize> {
    front: Front<K, WAYS>,
    store: BackingStore,
}

impl<K: EpochKind, const WAYS: usize> Model for Lane<K, WAYS> {
    ghost use Rattle.switch_core.specs.FrontParts.{LaneOf, FitsStore};

    ghost Value = { LaneOf K };

    ghost view = { λ l. record { kind = l.front.kind; cache = l.front.cache; pipe = l.front.pipe; store = l.store } };

    ghost invariant = { λ l. FitsStore (K.sizes l.front.kind) l.front.cache l.store };
}

impl<const WAYS: usize> Lane<AnyEpochs, WAYS> {
    ghost use Rattle.epoch_model.specs.Driving.{event_of};
    ghost use Rattle.stage_plan.specs.{Planned.{registers_of, wiring_at}, Registers.taken_at};
    ghost use Rattle.switch_core.specs.PlanLanes.{LaneMakes, lane_cost, lane_is_ready};

    /// The packet event of what a groupby takes of these registers, if it takes anything.
    #[inline(always)]
    pub(crate) fn take<L: Ledger>(
        &mut self,
        plan: &Plan,
        group: u32,
        registers: &[u64],
        key: &mut [u64],
        args: &mut [u64],
        steps: &mut Steps<L>,
    )
        requires group { group < length plan.now.groups }
        requires registers { length registers.now ≡ registers_of plan.now }
        requires ready { lane_is_ready self.old ≡ true }
        requires key { self.old.cache.key_words ≡ length (wiring_at plan.now group).keys }
        requires args { (⟦<AnyEpochs as EpochKind>⟧.sizes self.old.kind).args ≡ length (wiring_at plan.now group).args }
        requires key_room { length (wiring_at plan.now group).keys ≤ length key.old }
        requires args_room { length (wiring_at plan.now group).args ≤ length args.old }
        ensures makes { LaneMakes WAYS (event_of (taken_at (wiring_at plan.now group) registers.now)) self.old self.new }
        ensures steps { steps.old ≤ steps.new }
        ensures cost { steps.new ≤ steps.old + lane_cost WAYS self.old }
    {
        if !plan.present(group, registers) {
            return;
        }
        let wiring = plan.wiring(group);
        let key = &mut key[..wiring.keys.len()];
        let args = &mut args[..wiring.args.len()];
        plan.key_into(group, registers, key, steps);
        plan.args_into(group, registers, args, steps);
        self.front.packet(key, args, steps);
    }
}

impl<K: EpochKind, const WAYS: usize> Lane<K, WAYS> {
    /// A lane with empty cache, pipe and store.
    pub fn new(
        alloc: Global,
        kind: K,
        buckets: u32,
        key_words: usize,
        pipe_records: u32,
    ) -> Result<Lane<K, WAYS>, AllocError>
        requires ways { 0 < WAYS }
        requires buckets { 0 < buckets }
        requires places { buckets * WAYS ≤ 65536 }
        requires key { (0 < key_words) × (key_words ≤ MAX_KEYS) }
        requires entry { key_words + (K.sizes kind).entry ≤ 512 }
        requires pipe { (0 < pipe_records) × (pipe_records ≤ 65536) }
        ensures stands { IfOk result (λ lane. LaneStands (K.stands lane.kind)
            (K.folding lane.kind) lane.cache lane.pipe lane.store (empty_machine (geometry WAYS lane.cache))) }
        ensures kind { IfOk result (λ lane. lane.kind ≡ kind) }
        ensures buckets { IfOk result (λ lane. length lane.cache.lists ≡ buckets) }
        ensures places { IfOk result (λ lane. lane.pipe.places ≡ pipe_records) }
        ensures key { IfOk result (λ lane. lane.cache.key_words ≡ key_words) }
    {
        let store = BackingStore::new(alloc, key_words, kind.state_words());
        let front = Front::new(alloc, kind, buckets, key_words, pipe_records)?;
        Ok(Lane { front, store })
    }

    /// What holds of every lane: its words are as many as the kind says.
    pub fn invariant(&self)
        ensures front { IsFront WAYS (K.sizes self.now.kind) self.now.cache self.now.pipe }
        ensures store { FitsStore (K.sizes self.now.kind) self.now.cache self.now.store }
    {
        self.front.invariant();
    }

    /// Whether the pipe has room for a record.
    pub fn ready(&self) -> bool
        ensures { result ≡ nat_lt (length self.now.pipe.records) self.now.pipe.places }
    {
        self.front.ready()
    }

    /// Takes a packet with this key and argument row at the front. The store is unchanged.
    #[inline(always)]
    pub fn packet<L: Ledger>(&mut self, key: &[u64], args: &[u64], steps: &mut Steps<L>)
        requires ready { length self.old.pipe.records < self.old.pipe.places }
        requires key { length key.now ≡ self.old.cache.key_words }
        requires args { length args.now ≡ (K.sizes self.old.kind).args }
        ensures stands { Makes (K.stands self.old.kind) (K.folding self.old.kind) WAYS (Packet key.now args.now)
            (parts self.old.cache self.old.pipe self.old.store) (parts self.new.cache self.new.pipe self.new.store) }
        ensures kind { self.new.kind ≡ self.old.kind }
        ensures steps { steps.old ≤ steps.new }
        ensures cost { let key_words = self.old.cache.key_words in
            steps.new ≤ steps.old + (key_words + 2 * WAYS * (key_words + 1) + (key_words + (K.sizes self.old.kind).entry)
            + K.open_bound self.old.kind + K.absorb_bound self.old.kind) }
    {
        self.front.packet(key, args, steps);
    }

    /// Closes the least recently used epoch of a bucket: its entry goes into the pipe. False exactly where the bucket
    /// is empty, and then nothing changes.
    pub fn evict<L: Ledger>(&mut self, bucket: u32, steps: &mut Steps<L>) -> bool
        requires ready { length self.old.pipe.records < self.old.pipe.places }
        requires range { bucket < length self.old.cache.lists }
        ensures stands { Makes (K.stands self.old.kind) (K.folding self.old.kind) WAYS (Evict bucket)
            (parts self.old.cache self.old.pipe self.old.store) (parts self.new.cache self.new.pipe self.new.store) }
        ensures some { result ≡ not (length (list_at self.old.cache bucket) == 0) }
        ensures cache { let list = list_at self.old.cache bucket in self.new.cache
            ≡ with_list self.old.cache bucket (take (length list - 1) list) }
        ensures same { result ≡ false → (self.new.cache ≡ self.old.cache) × (self.new.pipe ≡ self.old.pipe) }
        ensures kind { self.new.kind ≡ self.old.kind }
        ensures store { self.new.store ≡ self.old.store }
        ensures steps { steps.old ≤ steps.new }
        ensures cost { let cache = self.old.cache in
            steps.new ≡ steps.old + (if result then evict_cost cache.key_words cache.entry_words else 0) }
    {
        self.front.evict(bucket, steps)
    }

    /// Merges the oldest record of the pipe into the store. Empty exactly where the pipe is empty, and then nothing
    /// changes; where memory runs out, the lane is unchanged.
    #[inline(always)]
    pub fn merge<L: Ledger>(&mut self, steps: &mut Steps<L>) -> Result<Merged, AllocError>
        ensures stands { OnOk result (Makes (K.stands self.old.kind) (K.folding self.old.kind) WAYS Merge
            (parts self.old.cache self.old.pipe self.old.store) (parts self.new.cache self.new.pipe self.new.store)) }
        ensures empty { (result ≡ Ok Merged.Empty) ↔ (length self.old.pipe.records ≡ 0) }
        ensures same { result ≡ Ok Merged.Empty → (self.new.pipe ≡ self.old.pipe) × (self.new.store ≡ self.old.store) }
        ensures err { OnErr result ((self.new.pipe ≡ self.old.pipe) × (self.new.store ≡ self.old.store)) }
        ensures records { OnOk result (self.new.pipe.records ≡ drop 1 self.old.pipe.records) }
        ensures ready { OnOk result (length self.new.pipe.records < self.new.pipe.places) }
        ensures kind { self.new.kind ≡ self.old.kind }
        ensures cache { self.new.cache ≡ self.old.cache }
        ensures steps { steps.old ≤ steps.new }
        ensures cost { let cache = self.old.cache in
            steps.new ≤ steps.old + merge_cost cache.key_words cache.entry_words (K.merge_bound self.old.kind) }
    {
        self.front.merge_into(&mut self.store, steps)
    }

    /// Does what is due beside packets. When out of memory, it made only the first of the events.
    #[inline(always)]
    pub fn keep_up<L: Ledger>(
        &mut self,
        upkeep: Upkeep,
        steps: &mut Steps<L>,
    ) -> Result<(), AllocError>
        ensures carries { OnOk result (CarriesAll K.stands K.folding WAYS (upkeep_events upkeep self.old.cache self.old.pipe)
            self.old self.new) }
        ensures breaks_off { OnErr result (CarriesFirst K.stands K.folding WAYS (upkeep_events upkeep self.old.cache self.old.pipe)
            self.old self.new) }
        ensures left { OnOk result (IsKept upkeep self.new.cache self.new.pipe) }
        ensures steps { steps.old ≤ steps.new }
        ensures cost { steps.new ≤ steps.old
            + upkeep_cost upkeep self.old.cache self.old.pipe (K.merge_bound self.old.kind) }
    {
        keep_up(&mut self.front, &mut self.store, upkeep, steps)
    }

    /// The number of open epochs in the cache.
    pub fn held(&self) -> usize
        ensures number { result ≡ held_in self.now.cache }
        ensures bound { result ≤ length self.now.cache.lists * WAYS }
    {
        self.front.held()
    }

    /// The number of records in the pipe.
    pub fn piped(&self) -> u32
        ensures number { result ≡ length self.now.pipe.records }
        ensures bound { result ≤ self.now.pipe.places }
    {
        self.front.piped()
    }

    /// Whether cache and pipe are empty. Then no epoch is open, and all closed ones are merged.
    pub fn drained(&self) -> bool
        ensures value { result ≡ is_drained self.now.cache self.now.pipe }
        ensures done { result ≡ true → (m : Machine)
            → LaneStands (K.stands self.now.kind) (K.folding self.now.kind) self.now.cache self.now.pipe self.now.store m
            → IsSwept m × (m.merged ≡ length m.closed) }
    {
        self.front.drained()
    }

    /// The table of the closed epochs, under these names. The lane doesn't change.
    pub fn close(
        &self,
        name: Text,
        key_names: Seq<Text>,
        state_names: Seq<Text>,
        class: Class,
        depth: u8,
    ) -> Result<Table, AllocError>
        requires drained { is_drained self.now.cache self.now.pipe ≡ true }
        requires keys { length key_names ≡ self.now.cache.key_words }
        requires class { (class ≡ Class.Linear) ↔ ((K.folding self.now.kind).row_per_epoch ≡ false) }
        ensures { IfOk result (λ table. (m : Machine)
            → LaneStands (K.stands self.now.kind) (K.folding self.now.kind) self.now.cache self.now.pipe self.now.store m
            → table ≡ closed_table (record {
              name = name;
              key_names = key_names;
              state_names = state_names;
              class = class;
              depth = depth;
            }) (K.folding self.now.kind) m.closed) }
    {
        self.invariant();
        let keys = key_names.len() as u8;
        let columns = columns(key_names, state_names)?;
        let shown = rows_held(&self.store, self.front.kind().row_per_epoch())?;
        Ok(Table {
            name,
            columns,
            keys,
            kind: TableKind::Group(class, depth, shown.epochs),
            rows: shown.rows,
        })
    }

    /// What holds of every lane: after any events, in whatever order packets, evictions and merges come, it represents the
    /// machine after them.
    pub fn follows_events(&self)
        ensures { EventsAreFollowed (K.stands self.now.kind) (K.folding self.now.kind) WAYS }
    {
        let _front = &self.front;
    }

    /// The kind of its entries.
    pub fn kind(&self) -> &K
        ensures { result.now ≡ self.now.kind }
    {
        self.front.kind()
    }

    /// The cache of open epochs.
    pub fn cache(&self) -> &BucketCache<WAYS>
        ensures { result.now ≡ self.now.cache }
    {
        self.front.cache()
    }

    /// The pipe of closed epochs that aren't merged.
    pub fn pipe(&self) -> &EvictPipe
        ensures { result.now ≡ self.now.pipe }
    {
        self.front.pipe()
    }

    /// The store of merged epochs.
    pub fn store(&self) -> &BackingStore
        ensures { result.now ≡ self.now.store }
    {
        &self.store
    }
}
