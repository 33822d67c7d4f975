//! Entries by key, merged into a store after the epochs that it holds.

ghost use Rattle.std.specs.Prelude.{◌≡◌, ◌≤◌, List, ◌++◌, All, length, OnOk};
ghost use Rattle.epoch_model.specs.Machine.{Epoch};
ghost use Rattle.backing_store.specs.Merged.{StoreHolds};
ghost use Rattle.live_view.specs.{Merging.{FitsKind, IsEntryOf}, Waiting.RowsStand};

use backing_store::BackingStore;
use epoch_entry::EpochKind;
use marple_base::Steps;
use std::alloc::AllocError;
use std::sync::ledger::Ledger;
use switch_core::merge_entry;
use table_rows::Rows;

/// Merges entries, each of which is the values of a row with its key, in the order of the rows.
pub(crate) fn merge_entries<K: EpochKind, L: Ledger>(
    kind: &K,
    store: &mut BackingStore,
    entries: &Rows,
    initial: &[u64],
    scratch: &mut [u64],
    steps: &mut Steps<L>,
) -> Result<(), AllocError>
    requires fits { FitsKind (K.sizes kind.now) (K.folding kind.now) store.old initial.now scratch.old }
    requires rows { All (IsEntryOf store.old.key_words (K.sizes kind.now).entry) entries.now }
    ensures held { OnOk result ((unmerged epochs : List Epoch) → RowsStand (K.stands kind.now) entries.now unmerged
        → StoreHolds (K.folding kind.now) store.old epochs → StoreHolds (K.folding kind.now) store.new (epochs ++ unmerged)) }
    ensures steps { steps.old ≤ steps.new }
{
    for at in 0..entries.len() {
        let entry = entries.get(at);
        merge_entry(
            kind,
            store,
            entry.key,
            entry.values,
            initial,
            scratch,
            steps,
        )?;
    }
    Ok(())
}
