//! What keeps a front in order beside its packets, with the store that it is handed: room in its pipe, merges, and sweeps.

ghost use Rattle.std.specs.Prelude.{◌≡◌, ◌≢◌, ◌+◌, ◌*◌, ◌<◌, ◌≤◌, ℕ, suc, [], ◌∷◌, OnOk, OnErr, drop, length, replicate};
ghost use Rattle.epoch_model.specs.Machine.{Merge};
ghost use Rattle.bucket_cache.specs.Caches.{list_at};
ghost use Rattle.switch_core.specs.{Closing.held_in, Costs.{evict_cost, merge_cost, sweep_cost}};
ghost use Rattle.switch_core.specs.{FrontEvents.{CarriesAll, CarriesFirst, CarriesUpTo, KeepsSizes, with_store}, FrontParts.FitsStore};
ghost use Rattle.switch_core.specs.Upkeeps.{IsKept, left_waiting, room_events, sweep_from, upkeep_cost, upkeep_events};

use crate::front::{Front, Merged};
use backing_store::BackingStore;
use epoch_entry::EpochKind;
use marple_base::Steps;
use std::alloc::AllocError;
use std::sync::ledger::Ledger;

/// What is due at a front beside its packets.
#[derive(Clone, Copy)]
pub enum Upkeep {
    /// Room for a record: one merge where the pipe is full.
    Room,
    /// One merge, since the lag is over.
    Lag,
    /// All buckets are emptied in ascending order, with one merge before each eviction where the pipe is full.
    Sweep,
    /// Merges until the pipe is empty.
    Rest,
}

// Merges once.
#[inline(always)]
fn merge_once<K: EpochKind, const WAYS: usize, L: Ledger>(
    front: &mut Front<K, WAYS>,
    store: &mut BackingStore,
    steps: &mut Steps<L>,
) -> Result<(), AllocError>
    requires { FitsStore (K.sizes front.old.kind) front.old.cache store.old }
    ensures carries { OnOk result (CarriesAll K.stands K.folding WAYS (Merge ∷ [])
        (with_store front.old store.old) (with_store front.new store.new)) }
    ensures err { OnErr result ((front.new ≡ front.old) × (store.new ≡ store.old)) }
    ensures ready { OnOk result (length front.new.pipe.records < front.new.pipe.places) }
    ensures records { OnOk result (front.new.pipe.records ≡ drop 1 front.old.pipe.records) }
    ensures cache { front.new.cache ≡ front.old.cache }
    ensures sizes { KeepsSizes (with_store front.old store.old) (with_store front.new store.new) }
    ensures steps { steps.old ≤ steps.new }
    ensures cost { let cache = front.old.cache in
        steps.new ≤ steps.old + merge_cost cache.key_words cache.entry_words (K.merge_bound front.old.kind) }
{
    let _merged = front.merge_into(store, steps)?;
    Ok(())
}

// Merges once, so that the pipe has room. Not inlined, since few packets find a full pipe: inlined, it takes nine instructions of each
// packet that finds none.
#[inline(never)]
fn make_room<K: EpochKind, const WAYS: usize, L: Ledger>(
    front: &mut Front<K, WAYS>,
    store: &mut BackingStore,
    steps: &mut Steps<L>,
) -> Result<(), AllocError>
    requires { FitsStore (K.sizes front.old.kind) front.old.cache store.old }
    ensures carries { OnOk result (CarriesAll K.stands K.folding WAYS (Merge ∷ [])
        (with_store front.old store.old) (with_store front.new store.new)) }
    ensures err { OnErr result ((front.new ≡ front.old) × (store.new ≡ store.old)) }
    ensures ready { OnOk result (length front.new.pipe.records < front.new.pipe.places) }
    ensures records { OnOk result (front.new.pipe.records ≡ drop 1 front.old.pipe.records) }
    ensures cache { front.new.cache ≡ front.old.cache }
    ensures sizes { KeepsSizes (with_store front.old store.old) (with_store front.new store.new) }
    ensures steps { steps.old ≤ steps.new }
    ensures cost { let cache = front.old.cache in
        steps.new ≤ steps.old + merge_cost cache.key_words cache.entry_words (K.merge_bound front.old.kind) }
{
    merge_once(front, store, steps)
}

// Merges once where the pipe is full.
#[inline(always)]
fn make_ready<K: EpochKind, const WAYS: usize, L: Ledger>(
    front: &mut Front<K, WAYS>,
    store: &mut BackingStore,
    steps: &mut Steps<L>,
) -> Result<(), AllocError>
    requires { FitsStore (K.sizes front.old.kind) front.old.cache store.old }
    ensures carries { OnOk result (CarriesAll K.stands K.folding WAYS
        (room_events front.old.pipe.places (length front.old.pipe.records))
        (with_store front.old store.old) (with_store front.new store.new)) }
    ensures err { OnErr result ((front.new ≡ front.old) × (store.new ≡ store.old)) }
    ensures ready { OnOk result (length front.new.pipe.records < front.new.pipe.places) }
    ensures waiting { OnOk result (length front.new.pipe.records ≡ left_waiting front.old.pipe.places (length front.old.pipe.records)) }
    ensures cache { front.new.cache ≡ front.old.cache }
    ensures sizes { KeepsSizes (with_store front.old store.old) (with_store front.new store.new) }
    ensures steps { steps.old ≤ steps.new }
    ensures cost { let cache = front.old.cache in
        steps.new ≤ steps.old + merge_cost cache.key_words cache.entry_words (K.merge_bound front.old.kind) }
{
    if front.ready() {
        return Ok(());
    }
    make_room(front, store, steps)?;
    Ok(())
}

// Evicts until a bucket is empty, and merges once before an eviction where the pipe is full.
fn empty_bucket<K: EpochKind, const WAYS: usize, L: Ledger>(
    front: &mut Front<K, WAYS>,
    store: &mut BackingStore,
    bucket: u32,
    steps: &mut Steps<L>,
) -> Result<(), AllocError>
    requires fits { FitsStore (K.sizes front.old.kind) front.old.cache store.old }
    requires range { bucket < length front.old.cache.lists }
    ensures carries { OnOk result (CarriesUpTo K.stands K.folding WAYS (sweep_from bucket front.old.cache front.old.pipe)
        (sweep_from (suc bucket) front.new.cache front.new.pipe) (with_store front.old store.old) (with_store front.new store.new)) }
    ensures breaks_off { OnErr result (CarriesFirst K.stands K.folding WAYS (sweep_from bucket front.old.cache front.old.pipe)
        (with_store front.old store.old) (with_store front.new store.new)) }
    ensures empty { OnOk result (length (list_at front.new.cache bucket) ≡ 0) }
    ensures others { (other : ℕ) → other ≢ bucket → list_at front.new.cache other ≡ list_at front.old.cache other }
    ensures sizes { KeepsSizes (with_store front.old store.old) (with_store front.new store.new) }
    ensures steps { steps.old ≤ steps.new }
    ensures cost { let cache = front.old.cache in
        let evicting = evict_cost cache.key_words cache.entry_words in
        let merging = merge_cost cache.key_words cache.entry_words (K.merge_bound front.old.kind) in
        steps.new + held_in front.new.cache * (evicting + merging) ≤ steps.old + (held_in cache * (evicting + merging) + merging) }
{
    'epochs: loop {
        make_ready(front, store, steps)?;
        if !front.evict(bucket, steps) {
            return Ok(());
        }
    }
}

// Empties all buckets in ascending order. Not inlined, since few packets are followed by a sweep.
#[inline(never)]
fn empty_cache<K: EpochKind, const WAYS: usize, L: Ledger>(
    front: &mut Front<K, WAYS>,
    store: &mut BackingStore,
    steps: &mut Steps<L>,
) -> Result<(), AllocError>
    requires { FitsStore (K.sizes front.old.kind) front.old.cache store.old }
    ensures carries { OnOk result (CarriesAll K.stands K.folding WAYS (sweep_from 0 front.old.cache front.old.pipe)
        (with_store front.old store.old) (with_store front.new store.new)) }
    ensures breaks_off { OnErr result (CarriesFirst K.stands K.folding WAYS (sweep_from 0 front.old.cache front.old.pipe)
        (with_store front.old store.old) (with_store front.new store.new)) }
    ensures held { OnOk result (held_in front.new.cache ≡ 0) }
    ensures sizes { KeepsSizes (with_store front.old store.old) (with_store front.new store.new) }
    ensures steps { steps.old ≤ steps.new }
    ensures cost { let cache = front.old.cache in
        steps.new ≤ steps.old + sweep_cost (held_in cache) (length cache.lists) (evict_cost cache.key_words cache.entry_words)
        (merge_cost cache.key_words cache.entry_words (K.merge_bound front.old.kind)) }
{
    for bucket in 0..front.cache().buckets() {
        empty_bucket(front, store, bucket, steps)?;
    }
    Ok(())
}

// Merges until the pipe is empty. Not inlined, since only the end of a trace asks for it.
#[inline(never)]
fn empty_pipe<K: EpochKind, const WAYS: usize, L: Ledger>(
    front: &mut Front<K, WAYS>,
    store: &mut BackingStore,
    steps: &mut Steps<L>,
) -> Result<(), AllocError>
    requires { FitsStore (K.sizes front.old.kind) front.old.cache store.old }
    ensures carries { OnOk result (CarriesAll K.stands K.folding WAYS (replicate (suc (length front.old.pipe.records)) Merge)
        (with_store front.old store.old) (with_store front.new store.new)) }
    ensures breaks_off { OnErr result (CarriesFirst K.stands K.folding WAYS (replicate (suc (length front.old.pipe.records)) Merge)
        (with_store front.old store.old) (with_store front.new store.new)) }
    ensures empty { OnOk result (length front.new.pipe.records ≡ 0) }
    ensures sizes { KeepsSizes (with_store front.old store.old) (with_store front.new store.new) }
    ensures steps { steps.old ≤ steps.new }
    ensures cost { let cache = front.old.cache in steps.new ≤ steps.old
        + suc (length front.old.pipe.records) * merge_cost cache.key_words cache.entry_words (K.merge_bound front.old.kind) }
{
    'records: while let Merged::Done = front.merge_into(store, steps)? {}
    Ok(())
}

/// Does what is due at a front, with the store that it is handed. When out of memory, it made only the first of the events.
#[inline(always)]
pub fn keep_up<K: EpochKind, const WAYS: usize, L: Ledger>(
    front: &mut Front<K, WAYS>,
    store: &mut BackingStore,
    upkeep: Upkeep,
    steps: &mut Steps<L>,
) -> Result<(), AllocError>
    requires { FitsStore (K.sizes front.old.kind) front.old.cache store.old }
    ensures carries { OnOk result (CarriesAll K.stands K.folding WAYS (upkeep_events upkeep front.old.cache front.old.pipe)
        (with_store front.old store.old) (with_store front.new store.new)) }
    ensures breaks_off { OnErr result (CarriesFirst K.stands K.folding WAYS (upkeep_events upkeep front.old.cache front.old.pipe)
        (with_store front.old store.old) (with_store front.new store.new)) }
    ensures left { OnOk result (IsKept upkeep front.new.cache front.new.pipe) }
    ensures sizes { KeepsSizes (with_store front.old store.old) (with_store front.new store.new) }
    ensures steps { steps.old ≤ steps.new }
    ensures cost { steps.new ≤ steps.old
        + upkeep_cost upkeep front.old.cache front.old.pipe (K.merge_bound front.old.kind) }
{
    match upkeep {
        Upkeep::Room => make_ready(front, store, steps),
        Upkeep::Lag => merge_once(front, store, steps),
        Upkeep::Sweep => empty_cache(front, store, steps),
        Upkeep::Rest => empty_pipe(front, store, steps),
    }
}
