//! A closed epoch's entry at the store.

ghost use Rattle.std.specs.Prelude.{◌≡◌, ◌+◌, ◌≤◌, List, [], ◌∷◌, ◌++◌, length, OnOk, OnErr};
ghost use Rattle.epoch_model.specs.{Keys.ArgRow, Machine.Epoch};
ghost use Rattle.backing_store.specs.Merged.{StoreHolds};
ghost use Rattle.switch_core.specs.Lanes.{RecordStands};

use backing_store::{BackingStore, merged_epochs_are_held};
use epoch_entry::EpochKind;
use marple_base::Steps;
use std::alloc::AllocError;
use std::sync::ledger::Ledger;

/// Merges an entry into the store: into its key's state, or into a new one where each epoch has a row. Where memory runs
/// out, the store is unchanged.
pub fn merge_entry<K: EpochKind, L: Ledger>(
    kind: &K,
    store: &mut BackingStore,
    key: &[u64],
    entry: &[u64],
    initial: &[u64],
    scratch: &mut [u64],
    steps: &mut Steps<L>,
) -> Result<(), AllocError>
    requires key { length key.now ≡ store.old.key_words }
    requires entry { length entry.now ≡ (K.sizes kind.now).entry }
    requires state { store.old.state_words ≡ (K.sizes kind.now).state }
    requires initial { initial.now ≡ (K.folding kind.now).initial }
    requires initial_words { length initial.now ≡ store.old.state_words }
    requires scratch { length scratch.old ≡ (K.sizes kind.now).scratch }
    ensures ok { OnOk result ((rows : List ArgRow) (epochs : List Epoch) → K.stands kind.now entry.now rows
        → StoreHolds (K.folding kind.now) store.old epochs
        → StoreHolds (K.folding kind.now) store.new (epochs ++ record { key = key.now; rows = rows } ∷ [])) }
    ensures err { OnErr result (store.new ≡ store.old) }
    ensures key_words { store.new.key_words ≡ store.old.key_words }
    ensures state_words { store.new.state_words ≡ store.old.state_words }
    ensures steps { steps.old ≤ steps.new }
    ensures cost { steps.new ≤ steps.old + K.merge_bound kind.now }
{
    merged_epochs_are_held();
    store.invariant();
    let place = store.row_for(key, initial, kind.row_per_epoch())?;
    store.invariant();
    let state = store.row_mut(place);
    kind.merge(entry, state, scratch, steps);
    Ok(())
}

/// Merges a record, which has the words of a key and then those of its entry, into the store.
pub fn merge_record<K: EpochKind, L: Ledger>(
    kind: &K,
    store: &mut BackingStore,
    words: &[u64],
    initial: &[u64],
    scratch: &mut [u64],
    steps: &mut Steps<L>,
) -> Result<(), AllocError>
    requires words { length words.now ≡ store.old.key_words + (K.sizes kind.now).entry }
    requires state { store.old.state_words ≡ (K.sizes kind.now).state }
    requires initial { initial.now ≡ (K.folding kind.now).initial }
    requires initial_words { length initial.now ≡ store.old.state_words }
    requires scratch { length scratch.old ≡ (K.sizes kind.now).scratch }
    ensures ok { OnOk result ((epoch : Epoch) (epochs : List Epoch) → RecordStands (K.stands kind.now) store.old.key_words words.now epoch
        → StoreHolds (K.folding kind.now) store.old epochs → StoreHolds (K.folding kind.now) store.new (epochs ++ epoch ∷ [])) }
    ensures err { OnErr result (store.new ≡ store.old) }
    ensures key_words { store.new.key_words ≡ store.old.key_words }
    ensures state_words { store.new.state_words ≡ store.old.state_words }
    ensures steps { steps.old ≤ steps.new }
    ensures cost { steps.new ≤ steps.old + K.merge_bound kind.now }
{
    let (key, entry) = words.split_at(words.len() - kind.entry_words());
    merge_entry(kind, store, key, entry, initial, scratch, steps)
}
