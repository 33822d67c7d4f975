use marple_base::{Seq, Text};
use query_lang::Class;
use table_rows::Rows;

/// A table of a query. Each row has `keys` key words and one value for each other column.
pub struct Table {
    pub name: Text,
    /// The names of the keys, and then those of the other columns.
    pub columns: Seq<Text>,
    pub keys: u8,
    pub kind: TableKind,
    pub rows: Rows,
}

impl Drop for Table {
    fn drop(self) {
        let Table {
            name: _,
            columns: _,
            keys: _,
            kind: _,
            rows: _,
        } = self;
    }
}

#[derive(Clone, Copy, Debug, PartialEq, Eq)]
pub enum TableKind {
    /// The table of a groupby: the class and the depth of its fold, and the number of epochs over all keys, which is
    /// 2^64-1 where it would be greater.
    Group(Class, u8, u64),
    /// A table made of other tables.
    Final,
}
