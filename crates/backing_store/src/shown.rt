//! Table rows, from the rows of a store.

ghost use Rattle.std.specs.Prelude.{◌≡◌, ◌<◌, List, length, map, slice_get, slice_set, sum_by, Some, IfOk};
ghost use Rattle.epoch_model.specs.{declared.tables.Row.Row, Machine.Epoch};
ghost use Rattle.epoch_model.specs.Tables.{Folding, closed_epochs, closed_rows, epochs_shown, mark_of};
ghost use Rattle.backing_store.specs.{Merged.{StoreHolds, epochs_in, shown_row}, SortedRows.sorted_rows};

use crate::BackingStore;
use crate::held::held_rows_are_the_tables;
use epoch_model::Mark;
use std::alloc::AllocError;
use table_rows::Rows;

/// The rows of a table, and how many epochs they are for, or the greatest `u64` where that is more.
#[derive(Drop)]
pub struct ShownRows {
    pub rows: Rows,
    pub epochs: u64,
}

// The mark of a row for one epoch, by how many epochs its key has.
fn mark_of(epochs: u64) -> Mark
    ensures { result ≡ mark_of epochs }
{
    match epochs {
        1 => Mark::Valid,
        _ => Mark::Invalid,
    }
}

// Makes a row of the store the table's row, and gives the number of epochs that it is for.
fn show_row(rows: &mut Rows, at: usize, row_per_epoch: bool) -> u64
    requires { at < length rows.old }
    ensures row { (row : Row) → slice_get rows.old at ≡ Some row → rows.new ≡ slice_set rows.old at (shown_row row_per_epoch row) }
    ensures epochs { (row : Row) → slice_get rows.old at ≡ Some row → result ≡ epochs_in row_per_epoch row }
{
    let epochs = rows.epochs(at);
    if row_per_epoch {
        let epoch = rows.epoch(at);
        rows.set_mark(at, mark_of(epochs), epoch);
        1
    } else {
        rows.set_mark(at, Mark::Exact, 0);
        epochs
    }
}

// The table's rows for the rows of the store.
fn shown_rows(stored: Rows, row_per_epoch: bool) -> ShownRows
    ensures rows { result.rows ≡ map (shown_row row_per_epoch) stored }
    ensures epochs { result.epochs ≡ epochs_shown (sum_by (epochs_in row_per_epoch) stored) }
{
    let mut rows = stored;
    let mut epochs = 0u64;
    for at in 0..rows.len() {
        epochs = epochs.saturating_add(show_row(&mut rows, at, row_per_epoch));
    }
    ShownRows { rows, epochs }
}

/// The rows of the table of the epochs that a store holds. The store stays unchanged.
pub fn rows_held(store: &BackingStore, row_per_epoch: bool) -> Result<ShownRows, AllocError>
    ensures stored { IfOk result (λ shown. (shown.rows ≡ map (shown_row row_per_epoch) (sorted_rows store.now))
        × (shown.epochs ≡ epochs_shown (sum_by (epochs_in row_per_epoch) (sorted_rows store.now)))) }
    ensures held { IfOk result (λ shown. (f : Folding) (epochs : List Epoch) → f.row_per_epoch ≡ row_per_epoch → StoreHolds f store.now epochs
        → (shown.rows ≡ closed_rows f epochs) × (shown.epochs ≡ closed_epochs epochs)) }
{
    held_rows_are_the_tables();
    store.invariant();
    Ok(shown_rows(store.sorted()?, row_per_epoch))
}
