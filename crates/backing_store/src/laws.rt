//! What a store's words mean for each key. Each law is the contract of a function without a body.

ghost use Rattle.backing_store.specs.StoreLaws.{EpochsAreCounted, KeysAreKept, LastRowsAreWritten, RowsAreAdded};

/// An epoch of a key brings no other key into the store.
pub fn keys_are_kept()
    ensures { KeysAreKept }
{}

/// An epoch of a key counts for that key alone.
pub fn epochs_are_counted()
    ensures { EpochsAreCounted }
{}

/// A new row is the last of its key's rows, and no other key's.
pub fn rows_are_added()
    ensures { RowsAreAdded }
{}

/// What is written into the last row of a key is its last state, and no other key's.
pub fn last_rows_are_written()
    ensures { LastRowsAreWritten }
{}
