//! A row of a table, lent.

ghost use Rattle.std.specs.Prelude.{◌≡◌, ◌++◌};

use epoch_model::Mark;

/// A row whose words stay where they are. Its columns are the words of its key, and then its values.
#[derive(Clone, Copy)]
pub struct RowRef<'a> {
    pub key: &'a [u64],
    pub mark: Mark,
    pub epoch: u64,
    pub epochs: u64,
    pub values: &'a [u64],
    pub columns: &'a [u64],
    ghost joined: { columns.now ≡ key.now ++ values.now },
}
