//! The entries of a lane's epochs that aren't merged yet, kept by key.

ghost use Rattle.std.specs.Prelude.{◌≡◌, ◌+◌, ◌<◌, ◌≤◌, List, [], ◌∷◌, ◌++◌, length, reverse, IfOk, OnOk};
ghost use Rattle.epoch_model.specs.{Keys.ArgRow, Machine.{Epoch, Machine}};
ghost use Rattle.bucket_cache.specs.Caches.{IsSoundCache, list_at};
ghost use Rattle.switch_core.specs.Lanes.{CacheStands, FrontStands, PairStands, PairsStand, RecordsStand};
ghost use Rattle.live_view.specs.{Views.open_epochs, Waiting.{EntriesStand, unmerged}};

use backing_store::{BackingStore, epochs_are_counted, rows_are_added};
use bucket_cache::BucketCache;
use epoch_entry::EpochKind;
use evict_pipe::EvictPipe;
use std::alloc::{AllocError, Global};
use switch_core::Lane;

// Keeps the entry of one more epoch of a key.
fn keep_entry<K: EpochKind>(
    kind: &K,
    store: &mut BackingStore,
    key: &[u64],
    entry: &[u64],
) -> Result<(), AllocError>
    requires key { length key.now ≡ store.old.key_words }
    requires entry { length entry.now ≡ store.old.state_words }
    ensures held { OnOk result ((rows : List ArgRow) (epochs : List Epoch) → K.stands kind.now entry.now rows
        → EntriesStand (K.stands kind.now) store.old epochs
        → EntriesStand (K.stands kind.now) store.new (epochs ++ record { key = key.now; rows = rows } ∷ [])) }
    ensures key_words { store.new.key_words ≡ store.old.key_words }
    ensures state_words { store.new.state_words ≡ store.old.state_words }
{
    epochs_are_counted();
    rows_are_added();
    store.invariant();
    store.row_for(key, entry, true)?;
    Ok(())
}

// Keeps the entries of a pipe, the oldest first. The pipe is unchanged.
fn keep_pipe<K: EpochKind>(
    kind: &K,
    store: &mut BackingStore,
    pipe: &EvictPipe,
    room: &mut [u64],
) -> Result<(), AllocError>
    requires entry { store.old.state_words ≡ (K.sizes kind.now).entry }
    requires records { pipe.now.record_words ≡ store.old.key_words + (K.sizes kind.now).entry }
    requires room { length room.old ≡ pipe.now.record_words }
    ensures held { OnOk result ((waiting epochs : List Epoch)
        → RecordsStand (K.stands kind.now) store.old.key_words pipe.now.records waiting
        → EntriesStand (K.stands kind.now) store.old epochs → EntriesStand (K.stands kind.now) store.new (epochs ++ waiting)) }
    ensures key_words { store.new.key_words ≡ store.old.key_words }
    ensures state_words { store.new.state_words ≡ store.old.state_words }
{
    for i in 0..pipe.len() {
        pipe.nth_into(i, room);
        let (key, entry) = room.split_at(room.len() - kind.entry_words());
        keep_entry(kind, store, key, entry)?;
    }
    Ok(())
}

// Keeps the entries of a bucket, the least recently used one first.
fn keep_bucket<K: EpochKind, const WAYS: usize>(
    kind: &K,
    store: &mut BackingStore,
    cache: &BucketCache<WAYS>,
    bucket: u32,
) -> Result<(), AllocError>
    requires key { cache.now.key_words ≡ store.old.key_words }
    requires entry { cache.now.entry_words ≡ store.old.state_words }
    requires sound { IsSoundCache WAYS cache.now }
    requires range { bucket < length cache.now.lists }
    ensures held { OnOk result ((opened epochs : List Epoch)
        → PairsStand (PairStands (K.stands kind.now) cache.now) (list_at cache.now bucket) opened
        → EntriesStand (K.stands kind.now) store.old epochs → EntriesStand (K.stands kind.now) store.new (epochs ++ reverse opened)) }
    ensures key_words { store.new.key_words ≡ store.old.key_words }
    ensures state_words { store.new.state_words ≡ store.old.state_words }
{
    for i in (0..WAYS).rev() {
        let Some(place) = cache.place(bucket, i) else {
            continue;
        };
        keep_entry(kind, store, cache.key(place), cache.entry(place))?;
    }
    Ok(())
}

// Keeps the entries of a cache. The cache is unchanged.
fn keep_cache<K: EpochKind, const WAYS: usize>(
    kind: &K,
    store: &mut BackingStore,
    cache: &BucketCache<WAYS>,
) -> Result<(), AllocError>
    requires key { cache.now.key_words ≡ store.old.key_words }
    requires entry { cache.now.entry_words ≡ store.old.state_words }
    ensures held { OnOk result ((m : Machine) (epochs : List Epoch) → CacheStands (K.stands kind.now) cache.now m
        → EntriesStand (K.stands kind.now) store.old epochs → EntriesStand (K.stands kind.now) store.new (epochs ++ open_epochs m)) }
    ensures key_words { store.new.key_words ≡ store.old.key_words }
    ensures state_words { store.new.state_words ≡ store.old.state_words }
{
    for bucket in 0..cache.buckets() {
        keep_bucket(kind, store, cache, bucket)?;
    }
    Ok(())
}

/// The entries of the epochs of a lane that aren't merged, as the rows of a store with one for each: those that wait in its pipe, and
/// then the open ones. The lane is unchanged.
pub(crate) fn waiting_entries<K: EpochKind, const WAYS: usize>(
    alloc: Global,
    lane: &Lane<K, WAYS>,
    key_words: usize,
) -> Result<BackingStore, AllocError>
    requires key_words { key_words ≡ lane.now.cache.key_words }
    requires entry { key_words + (K.sizes lane.now.kind).entry ≤ 512 }
    ensures held { IfOk result (λ store. (m : Machine) → FrontStands (K.stands lane.now.kind) lane.now.cache lane.now.pipe m
        → EntriesStand (K.stands lane.now.kind) store (unmerged m)) }
    ensures key_words { IfOk result (λ store. store.key_words ≡ key_words) }
    ensures state_words { IfOk result (λ store. store.state_words ≡ (K.sizes lane.now.kind).entry) }
{
    lane.invariant();
    let kind = lane.kind();
    let mut room = vec![in alloc; 0; key_words + kind.entry_words()]?;
    let mut store = BackingStore::new(alloc, key_words, kind.entry_words());
    keep_pipe(kind, &mut store, lane.pipe(), &mut room)?;
    keep_cache(kind, &mut store, lane.cache())?;
    Ok(store)
}
