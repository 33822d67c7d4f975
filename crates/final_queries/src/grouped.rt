// A table grouped by columns, with the fold over the rows of each key.

ghost use Rattle.std.specs.Prelude.{◌≡◌, ◌≤◌, ◌++◌, ◌∷◌, [], List, All, Some, length, map, IfOk, OnOk};
ghost use Rattle.epoch_model.specs.Machine.{Epoch};
ghost use Rattle.fold_code.specs.Meaning.{IsCodeOf, code_scratch};
ghost use Rattle.table_rows.specs.LentRows.{row_of};
ghost use Rattle.backing_store.specs.Merged.{StoreHolds};
ghost use Rattle.query_lang.specs.{declared.fold.TypedFold.{TypedFold as AnyFold}, Folds.{IsValidFold, fold_args, initial_state}};
ghost use Rattle.query_lang.specs.TypedQueries.{AreSlots};
ghost use Rattle.final_queries.specs.{Finals.{columns_of, grouped_rows}, Grouped.{whole_folding, row_epochs, plain_of}, Joining.reads};

use crate::rows::is_read;
use crate::value::values_into;
use backing_store::{BackingStore, held_rows_are_the_tables, merged_epochs_are_held};
use fold_code::{FoldCode, compile};
use marple_base::Steps;
use query_lang::TypedFold;
use std::alloc::{AllocError, Global};
use std::sync::ledger::Ledger;
use table_rows::{RowRef, Rows};

// Folds one row of arguments into the state of its key.
fn fold_args_in<L: Ledger>(
    code: &FoldCode,
    initial: &[u64],
    store: &mut BackingStore,
    key: &[u64],
    args: &[u64],
    scratch: &mut [u64],
    steps: &mut Steps<L>,
) -> Result<(), AllocError>
    requires key { length key.now ≡ store.old.key_words }
    requires initial { length initial.now ≡ store.old.state_words }
    requires states { code.now.states ≡ store.old.state_words }
    requires args { length args.now ≡ code.now.args }
    requires scratch { length scratch.old ≡ code_scratch code.now }
    ensures ok { OnOk result ((f : AnyFold) (epochs : List Epoch) → IsCodeOf f code.now → initial_state f ≡ initial.now
        → StoreHolds (whole_folding f) store.old epochs
        → StoreHolds (whole_folding f) store.new (epochs ++ record { key = key.now; rows = args.now ∷ [] } ∷ [])) }
    ensures key_words { store.new.key_words ≡ store.old.key_words }
    ensures state_words { store.new.state_words ≡ store.old.state_words }
    ensures steps { steps.old ≤ steps.new }
{
    merged_epochs_are_held();
    store.invariant();
    let place = store.row_for(key, initial, false)?;
    store.invariant();
    let state = store.row_mut(place);
    code.exec(state, args, scratch, steps);
    Ok(())
}

// Folds a row into the state of its key, where finals read it. `key` and `taken` are working memory.
fn fold_row<L: Ledger>(
    code: &FoldCode,
    start: &[u64],
    keys: &[u16],
    args: &[u16],
    row: &RowRef,
    key: &mut Vec<u64>,
    taken: &mut Vec<u64>,
    store: &mut BackingStore,
    scratch: &mut [u64],
    steps: &mut Steps<L>,
) -> Result<(), AllocError>
    requires keys { AreSlots (length row.now.columns.now) keys.now }
    requires args { AreSlots (length row.now.columns.now) args.now }
    requires key_words { length keys.now ≡ store.old.key_words }
    requires start { length start.now ≡ store.old.state_words }
    requires states { code.now.states ≡ store.old.state_words }
    requires all_args { length args.now ≡ code.now.args }
    requires scratch { length scratch.old ≡ code_scratch code.now }
    ensures ok { OnOk result ((f : AnyFold) (epochs : List Epoch) → IsCodeOf f code.now → initial_state f ≡ start.now
        → StoreHolds (whole_folding f) store.old epochs
        → StoreHolds (whole_folding f) store.new (epochs ++ row_epochs keys.now args.now (reads (row_of row.now ∷ [])))) }
    ensures key_words { store.new.key_words ≡ store.old.key_words }
    ensures state_words { store.new.state_words ≡ store.old.state_words }
    ensures steps { steps.old ≤ steps.new }
{
    if !is_read(row.mark) {
        return Ok(());
    }
    values_into(key, row.columns, keys, steps)?;
    values_into(taken, row.columns, args, steps)?;
    fold_args_in(
        code,
        start,
        store,
        key.as_slice(),
        taken.as_slice(),
        scratch,
        steps,
    )
}

// Folds the rows that are read into the states of their keys.
fn fold_rows<L: Ledger>(
    alloc: Global,
    code: &FoldCode,
    start: &[u64],
    keys: &[u16],
    args: &[u16],
    rows: &Rows,
    width: usize,
    steps: &mut Steps<L>,
) -> Result<BackingStore, AllocError>
    requires keys { AreSlots width keys.now }
    requires args { AreSlots width args.now }
    requires states { code.now.states ≡ length start.now }
    requires all_args { length args.now ≡ code.now.args }
    requires rows { All (λ row. length (columns_of row) ≡ width) rows.now }
    ensures holds { IfOk result (λ store. (f : AnyFold) → IsCodeOf f code.now → initial_state f ≡ start.now
        → StoreHolds (whole_folding f) store (row_epochs keys.now args.now (reads rows.now))) }
    ensures steps { steps.old ≤ steps.new }
{
    let mut scratch = vec![in alloc; 0; code.scratch_words()]?;
    let mut store = BackingStore::new(alloc, keys.len(), start.len());
    let mut key = Vec::new(alloc);
    let mut taken = Vec::new(alloc);
    for at in 0..rows.len() {
        let row = rows.get(at);
        fold_row(
            code,
            start,
            keys,
            args,
            &row,
            &mut key,
            &mut taken,
            &mut store,
            &mut scratch,
            steps,
        )?;
    }
    Ok(store)
}

// The rows of a store as those of a final, in their place.
fn plain_rows(stored: Rows) -> Rows
    ensures { result ≡ map plain_of stored }
{
    let mut rows = stored;
    for at in 0..rows.len() {
        rows.set_plain(at);
    }
    rows
}

/// A row for each key among the rows that are read, in ascending order of the keys, with the fold over the arguments of
/// its rows in their order.
pub fn grouped<L: Ledger>(
    alloc: Global,
    keys: &[u16],
    f: &TypedFold,
    args: &[u16],
    rows: &Rows,
    width: usize,
    steps: &mut Steps<L>,
) -> Result<Rows, AllocError>
    requires valid { IsValidFold f.now }
    requires keys { AreSlots width keys.now }
    requires args { AreSlots width args.now }
    requires all_args { fold_args f.now ≡ length args.now }
    requires rows { All (λ row. length (columns_of row) ≡ width) rows.now }
    ensures rows { IfOk result (λ made. made ≡ grouped_rows keys.now (Some f.now) args.now (reads rows.now)) }
    ensures steps { steps.old ≤ steps.new }
{
    held_rows_are_the_tables();
    let code = compile(alloc, f)?;
    let initial = f.initial.as_slice();
    let store = fold_rows(alloc, &code, initial, keys, args, rows, width, steps)?;
    store.invariant();
    let stored = store.sorted()?;
    Ok(plain_rows(stored))
}
