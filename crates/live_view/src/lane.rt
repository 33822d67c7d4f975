//! All epochs of a lane in one store.

ghost use Rattle.std.specs.Prelude.{◌≡◌, ◌≤◌, IfOk};
ghost use Rattle.epoch_model.specs.Machine.{Machine};
ghost use Rattle.backing_store.specs.Merged.{StoreHolds};
ghost use Rattle.switch_core.specs.Lanes.{LaneStands};
ghost use Rattle.live_view.specs.{Views.all_epochs, Waiting.{EntriesStand, unmerged}};

use crate::merging::merge_entries;
use backing_store::BackingStore;
use epoch_entry::EpochKind;
use marple_base::Steps;
use std::alloc::{AllocError, Global};
use std::sync::ledger::Ledger;
use switch_core::Lane;

/// A separate store with all epochs of a lane: those that its store holds, then those of which a store has the entries. The lane is
/// unchanged.
pub(crate) fn full_store<K: EpochKind, const WAYS: usize, L: Ledger>(
    alloc: Global,
    lane: &Lane<K, WAYS>,
    waiting: &BackingStore,
    steps: &mut Steps<L>,
) -> Result<BackingStore, AllocError>
    requires key_words { waiting.now.key_words ≡ lane.now.cache.key_words }
    requires entry { waiting.now.state_words ≡ (K.sizes lane.now.kind).entry }
    ensures holds { IfOk result (λ store. (m : Machine)
        → LaneStands (K.stands lane.now.kind) (K.folding lane.now.kind) lane.now.cache lane.now.pipe lane.now.store m
        → EntriesStand (K.stands lane.now.kind) waiting.now (unmerged m) → StoreHolds (K.folding lane.now.kind) store (all_epochs m)) }
    ensures steps { steps.old ≤ steps.new }
{
    lane.invariant();
    waiting.invariant();
    let kind = lane.kind();
    let mut initial = vec![in alloc; 0; kind.state_words()]?;
    kind.initial(&mut initial);
    let mut scratch = vec![in alloc; 0; kind.scratch_words()]?;
    let mut store = lane.store().copy()?;
    let entries = waiting.sorted()?;
    merge_entries(kind, &mut store, &entries, &initial, &mut scratch, steps)?;
    Ok(store)
}
