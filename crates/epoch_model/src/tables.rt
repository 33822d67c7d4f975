//! The rows of printed tables.

use marple_base::Seq;

/// What a row of a table says about its key.
#[derive(Clone, Copy, Debug, PartialEq, Eq)]
pub enum Mark {
    /// The fold over all packets of the key.
    Exact,
    /// The fold over the packets of the key's only epoch.
    Valid,
    /// The fold over the packets of one of several epochs.
    Invalid,
    /// A row of a table that was made of tables.
    Plain,
}

/// A row of a table: the key's words and the values beside them.
pub struct Row {
    pub key: Seq<u64>,
    pub mark: Mark,
    /// The number of the epoch, from 1, or 0 where the row is for all epochs of its key.
    pub epoch: u64,
    /// How many epochs the key has, or the greatest `u64` where that is more.
    pub epochs: u64,
    pub values: Seq<u64>,
}

impl Drop for Row {
    fn drop(self) {
        let Row {
            key: _,
            mark: _,
            epoch: _,
            epochs: _,
            values: _,
        } = self;
    }
}
