//! The rows of a view, where each key has one: those of a store by ascending key, with the entries of each key merged.

ghost use Rattle.std.specs.Prelude.{◌≡◌, ◌+◌, ◌<◌, ◌≤◌, false, List, [], ◌∷◌, ◌++◌, All, drop, flat_map, fold, length, map, option_map};
ghost use Rattle.std.specs.Prelude.{slice_get, Some, IfOk, OnOk};
ghost use Rattle.epoch_model.specs.{declared.tables.Mark.TheVariants.Exact, Keys.{AreAbove, ArgRow, Key, ascending}};
ghost use Rattle.epoch_model.specs.{Machine.{Epoch, lists_of}, Tables.{closed_epochs, closed_rows, epochs_shown, folded}};
ghost use Rattle.backing_store.specs.{Merged.StoreHolds, Ordered.{IsPlaceOf, row_placed}, SortedRows.sorted_rows};
ghost use Rattle.backing_store.specs.{Store.{Store, states_of}, StoreLaws.keys_of};
ghost use Rattle.live_view.specs.{Seen.{AreLeft, AreSeen, BeginsAt, IsWalk, first_compared}, Waiting.{EachStands, EntriesStand}};

use backing_store::{BackingStore, Place, ShownRows};
use epoch_entry::EpochKind;
use epoch_model::Mark;
use marple_base::Steps;
use std::alloc::{AllocError, Global};
use std::cmp::Ordering;
use std::sync::ledger::Ledger;
use table_rows::Rows;

// Adds the row of a key that has one for all of its epochs.
#[inline(always)]
fn push_row(
    shown: &mut ShownRows,
    key: &[u64],
    epochs: u64,
    state: &[u64],
) -> Result<(), AllocError>
    ensures rows { OnOk result (shown.new.rows ≡ shown.old.rows ++ record {
      key = key.now;
      mark = Exact;
      epoch = 0;
      epochs = epochs;
      values = state.now;
    } ∷ []) }
    ensures epochs { OnOk result (shown.new.epochs ≡ epochs_shown (shown.old.epochs + epochs)) }
{
    shown.rows.push(key, Mark::Exact, 0, epochs, state)?;
    shown.epochs = shown.epochs.saturating_add(epochs);
    Ok(())
}

// The entry that comes next: its place, and the first word of its key. That is 0 where the key has none, and the greatest word where no
// entry is left.
#[derive(Clone, Copy)]
struct Next {
    at: usize,
    word: u64,
}

// The entry at a place as the next one.
fn next_at(entries: &Rows, at: usize) -> Next
    ensures at { result.at ≡ at }
    ensures least { (store : Store) (keys : List Key) → AreLeft store keys (drop at entries.now) → BeginsAt keys result.word }
{
    if at >= entries.len() {
        return Next { at, word: u64::MAX };
    }
    let word = match entries.key(at).first() {
        Some(word) => *word,
        None => 0,
    };
    Next { at, word }
}

// Merges the entries of a key, from a place on, into a state, and returns the place after them.
fn merge_key<K: EpochKind, L: Ledger>(
    kind: &K,
    entries: &Rows,
    from: usize,
    key: &[u64],
    state: &mut [u64],
    scratch: &mut [u64],
    steps: &mut Steps<L>,
) -> usize
    requires per_key { (K.folding kind.now).row_per_epoch ≡ false }
    requires from { from ≤ length entries.now }
    requires entries { All (λ row. length row.values ≡ (K.sizes kind.now).entry) entries.now }
    requires state { length state.old ≡ (K.sizes kind.now).state }
    requires scratch { length scratch.old ≡ (K.sizes kind.now).scratch }
    ensures within { (from ≤ result) × (result ≤ length entries.now) }
    ensures forward { option_map (λ row. row.key) (slice_get entries.now from) ≡ Some key.now → from < result }
    ensures left { (store : Store) (keys : List Key) → AreLeft store (key.now ∷ keys) (drop from entries.now)
        → AreLeft store keys (drop result entries.now) × (result ≡ from + length (states_of store key.now)) }
    ensures state { (store : Store) (keys : List Key) (lists : List (List ArgRow)) → AreLeft store (key.now ∷ keys) (drop from entries.now)
        → EachStands (K.stands kind.now) (states_of store key.now) lists
        → state.new ≡ fold (K.folding kind.now).step state.old (flat_map (λ rows. rows) lists) }
    ensures words { length state.new ≡ length state.old }
    ensures scratch { length scratch.new ≡ length scratch.old }
    ensures steps { steps.old ≤ steps.new }
{
    let mut next = from;
    while next < entries.len() {
        let entry = entries.get(next);
        if entry.key != key {
            return next;
        }
        kind.merge(entry.values, state, scratch, steps);
        next += 1;
    }
    next
}

// Adds the row of the key whose entries begin at a place, with these merged into the key's state before, which is that of so many
// epochs, and returns the entry after them.
fn push_merged<K: EpochKind, L: Ledger>(
    kind: &K,
    shown: &mut ShownRows,
    entries: &Rows,
    from: usize,
    epochs: u64,
    before: &[u64],
    state: &mut [u64],
    scratch: &mut [u64],
    steps: &mut Steps<L>,
) -> Result<Next, AllocError>
    requires per_key { (K.folding kind.now).row_per_epoch ≡ false }
    requires from { from < length entries.now }
    requires entries { All (λ row. length row.values ≡ (K.sizes kind.now).entry) entries.now }
    requires before { length before.now ≡ (K.sizes kind.now).state }
    requires state { length state.old ≡ (K.sizes kind.now).state }
    requires scratch { length scratch.old ≡ (K.sizes kind.now).scratch }
    ensures within { IfOk result (λ next. (from < next.at) × (next.at ≤ length entries.now)) }
    ensures least { IfOk result (λ next. (store : Store) (keys : List Key) → AreLeft store keys (drop next.at entries.now)
        → BeginsAt keys next.word) }
    ensures seen { IfOk result (λ next. (closed unmerged : List Epoch) (store : Store) (key : Key) (mains keys : List Key)
        → EntriesStand (K.stands kind.now) store unmerged → AreLeft store (key ∷ keys) (drop from entries.now)
        → epochs ≡ epochs_shown (length (lists_of key closed))
        → before.now ≡ folded (K.folding kind.now) (flat_map (λ rows. rows) (lists_of key closed))
        → AreAbove key mains
        → AreSeen (K.folding kind.now) (closed ++ unmerged) (key ∷ mains ++ keys) shown.old.rows shown.old.epochs
        → AreSeen (K.folding kind.now) (closed ++ unmerged) (mains ++ keys) shown.new.rows shown.new.epochs
        × AreLeft store keys (drop next.at entries.now)) }
    ensures words { length state.new ≡ length state.old }
    ensures scratch { length scratch.new ≡ length scratch.old }
    ensures steps { steps.old ≤ steps.new }
{
    let key = entries.key(from);
    state.copy_from_slice(before);
    let next = merge_key(kind, entries, from, key, state, scratch, steps);
    push_row(
        shown,
        key,
        epochs.saturating_add((next - from) as u64),
        state,
    )?;
    Ok(next_at(entries, next))
}

// How the key of the next entry compares with a key: it is greater where no entry is left. Mostly its first word decides.
#[inline(always)]
fn compare(entries: &Rows, next: Next, key: &[u64]) -> Ordering
    requires least { (store : Store) (keys : List Key) → AreLeft store keys (drop next.at entries.now) → BeginsAt keys next.word }
    ensures order { (store : Store) (keys : List Key)
        → AreLeft store keys (drop next.at entries.now) → result ≡ first_compared keys key.now }
    ensures past { length entries.now ≤ next.at → result ≡ Ordering.Greater }
{
    match key.first() {
        Some(word) if *word < next.word => Ordering::Greater,
        _ if next.at < entries.len() => entries.key(next.at).cmp(key),
        _ => Ordering::Greater,
    }
}

// Adds the rows of the places of a store, and of the entries that are merged into them or are of other keys, by ascending key.
fn push_all<K: EpochKind, L: Ledger>(
    kind: &K,
    shown: &mut ShownRows,
    store: &BackingStore,
    places: &[Place],
    entries: &Rows,
    initial: &[u64],
    state: &mut [u64],
    scratch: &mut [u64],
    steps: &mut Steps<L>,
) -> Result<(), AllocError>
    requires per_key { (K.folding kind.now).row_per_epoch ≡ false }
    requires places { All (IsPlaceOf store.now) places.now }
    requires entries { All (λ row. length row.values ≡ (K.sizes kind.now).entry) entries.now }
    requires states { store.now.state_words ≡ (K.sizes kind.now).state }
    requires initial { (initial.now ≡ (K.folding kind.now).initial) × (length initial.now ≡ (K.sizes kind.now).state) }
    requires state { length state.old ≡ (K.sizes kind.now).state }
    requires scratch { length scratch.old ≡ (K.sizes kind.now).scratch }
    ensures seen { OnOk result ((closed unmerged : List Epoch) (waiting : Store) (keys : List Key)
        → StoreHolds (K.folding kind.now) store.now closed → map (row_placed store.now) places.now ≡ sorted_rows store.now
        → EntriesStand (K.stands kind.now) waiting unmerged
        → IsWalk (K.folding kind.now) closed unmerged waiting (ascending (keys_of store.now.keys)) keys entries.now
        shown.old.rows shown.old.epochs
        → AreSeen (K.folding kind.now) (closed ++ unmerged) [] shown.new.rows shown.new.epochs) }
    ensures steps { steps.old ≤ steps.new }
{
    store.invariant();
    let mut at = 0;
    let mut next = next_at(entries, 0);
    while at < places.len() || next.at < entries.len() {
        store.read_rows_ahead(&mut shown.rows, places, at)?;
        if at == places.len() {
            next = push_merged(
                kind, shown, entries, next.at, 0, initial, state, scratch, steps,
            )?;
            continue;
        }
        let held = store.row_at(&places[at]);
        match compare(entries, next, held.key) {
            Ordering::Less => {
                next = push_merged(
                    kind, shown, entries, next.at, 0, initial, state, scratch, steps,
                )?;
            }
            Ordering::Equal => {
                next = push_merged(
                    kind,
                    shown,
                    entries,
                    next.at,
                    held.epochs,
                    held.state,
                    state,
                    scratch,
                    steps,
                )?;
                at += 1;
            }
            Ordering::Greater => {
                push_row(shown, held.key, held.epochs, held.state)?;
                at += 1;
            }
        }
    }
    Ok(())
}

/// The rows of the table of the epochs that a store holds, and of those after them of which a store has the entries.
pub(crate) fn seen_rows<K: EpochKind, L: Ledger>(
    alloc: Global,
    kind: &K,
    store: &BackingStore,
    waiting: &BackingStore,
    steps: &mut Steps<L>,
) -> Result<ShownRows, AllocError>
    requires per_key { (K.folding kind.now).row_per_epoch ≡ false }
    requires state { store.now.state_words ≡ (K.sizes kind.now).state }
    requires entry { waiting.now.state_words ≡ (K.sizes kind.now).entry }
    ensures table { IfOk result (λ shown. (closed unmerged : List Epoch) → StoreHolds (K.folding kind.now) store.now closed
        → EntriesStand (K.stands kind.now) waiting.now unmerged
        → (shown.rows ≡ closed_rows (K.folding kind.now) (closed ++ unmerged)) × (shown.epochs ≡ closed_epochs (closed ++ unmerged))) }
    ensures steps { steps.old ≤ steps.new }
{
    store.invariant();
    waiting.invariant();
    let mut initial = vec![in alloc; 0; kind.state_words()]?;
    kind.initial(&mut initial);
    let mut state = vec![in alloc; 0; kind.state_words()]?;
    let mut scratch = vec![in alloc; 0; kind.scratch_words()]?;
    let entries = waiting.sorted()?;
    let places = store.order()?;
    let mut shown = ShownRows {
        rows: Rows::new(alloc),
        epochs: 0,
    };
    let most = places.len().saturating_add(entries.len());
    let words = kind.state_words().saturating_add(1);
    shown.rows.reserve(most, most.saturating_mul(words))?;
    push_all(
        kind,
        &mut shown,
        store,
        &places,
        &entries,
        &initial,
        &mut state,
        &mut scratch,
        steps,
    )?;
    Ok(shown)
}
