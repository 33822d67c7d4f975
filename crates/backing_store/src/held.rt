//! What holds of stores that hold epochs.

ghost use Rattle.backing_store.specs.HeldRows.{MergedEpochsAreHeld, HeldRowsAreTheTables};

use crate::{epochs_are_counted, last_rows_are_written, rows_are_added};

/// A store that counted an epoch of a key, and has its rows folded into the key's last row, holds that epoch after
/// those that it held.
pub fn merged_epochs_are_held()
    ensures { MergedEpochsAreHeld }
{
    epochs_are_counted();
    rows_are_added();
    last_rows_are_written();
}

/// The rows of a store are those of the table of the epochs that it holds.
pub fn held_rows_are_the_tables()
    ensures { HeldRowsAreTheTables }
{}
