//! Tables of bounds.

use final_queries::Table;
use marple_base::{Seq, Text};

/// What is shown of a groupby where bounds are asked for: the table of a linear fold is exact already.
#[derive(Drop)]
pub enum Enclosed {
    Linear(Table),
    Bounds(BoundsTable),
}

/// A groupby's table of bounds, with a row for each key.
pub struct BoundsTable {
    pub name: Text,
    pub key_names: Seq<Text>,
    pub state_names: Seq<Text>,
    /// The depth of the fold.
    pub depth: u8,
    /// The number of epochs over all keys, which is 2^64-1 where it would be greater.
    pub epochs: u64,
    pub rows: Seq<BoundsRow>,
}

impl Drop for BoundsTable {
    fn drop(self) {
        let BoundsTable {
            name: _,
            key_names: _,
            state_names: _,
            depth: _,
            epochs: _,
            rows: _,
        } = self;
    }
}

/// A key, and the bounds of its fold over all packets, word by word.
pub struct BoundsRow {
    pub key: Seq<u64>,
    /// How many epochs the key has, or the greatest `u64` where that is more.
    pub epochs: u64,
    pub low: Seq<u64>,
    pub high: Seq<u64>,
}

impl Drop for BoundsRow {
    fn drop(self) {
        let BoundsRow {
            key: _,
            epochs: _,
            low: _,
            high: _,
        } = self;
    }
}
