//! What is done at a place of a cache, besides taking one row more into its entry.

ghost use Rattle.std.specs.Prelude.{◌≡◌, ℕ, ◌+◌, ◌<◌, ◌≤◌, [], ◌∷◌, ◌++◌, Some, length, slice_get};
ghost use Rattle.bucket_cache.specs.{Buckets.Pair, Caches.{entry_at, list_at}};
ghost use Rattle.evict_pipe.specs.Pipes.{with_records};
ghost use Rattle.switch_core.specs.Places.{with_words};

use bucket_cache::BucketCache;
use epoch_entry::EpochKind;
use evict_pipe::EvictPipe;
use marple_base::Steps;
use std::sync::ledger::Ledger;

/// The entry at the place represents only this row. Not inlined, since most packets find the epoch of their key open.
#[inline(never)]
pub fn begin_at<K: EpochKind, const WAYS: usize, L: Ledger>(
    kind: &K,
    cache: &mut BucketCache<WAYS>,
    place: usize,
    args: &[u64],
    scratch: &mut [u64],
    steps: &mut Steps<L>,
)
    requires place { place < length cache.old.entries }
    requires entry { cache.old.entry_words ≡ (K.sizes kind.now).entry }
    requires args { length args.now ≡ (K.sizes kind.now).args }
    requires scratch { length scratch.old ≡ (K.sizes kind.now).scratch }
    ensures rest { cache.new ≡ with_words cache.old place (entry_at cache.new place) }
    ensures begun { K.stands kind.now (entry_at cache.new place) (args.now ∷ []) }
    ensures steps { steps.old ≤ steps.new }
    ensures cost { steps.new ≤ steps.old + (K.open_bound kind.now + K.absorb_bound kind.now) }
{
    let entry = cache.entry_mut(place);
    kind.open(entry, steps);
    kind.absorb(entry, args, scratch, steps);
}

/// The pair at the place goes into the pipe as its newest record. Not inlined, since few packets evict.
#[inline(never)]
pub fn push_pair<const WAYS: usize, L: Ledger>(
    cache: &BucketCache<WAYS>,
    pipe: &mut EvictPipe,
    place: usize,
    steps: &mut Steps<L>,
)
    requires place { place < length cache.now.entries }
    requires room { length pipe.old.records < pipe.old.places }
    requires words { pipe.old.record_words ≡ cache.now.key_words + cache.now.entry_words }
    ensures pushed { (bucket i : ℕ) (pair : Pair) → slice_get (list_at cache.now bucket) i ≡ Some pair → pair.place ≡ place
        → pipe.new.records ≡ pipe.old.records ++ (pair.key ++ entry_at cache.now place) ∷ [] }
    ensures rest { pipe.new ≡ with_records pipe.old pipe.new.records }
    ensures cost { steps.new ≡ steps.old + pipe.old.record_words }
{
    pipe.push(cache.key(place), cache.entry(place), steps);
}
