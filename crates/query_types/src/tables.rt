//! The numbers, keys and columns of tables.

ghost use Rattle.std.specs.{Prelude.{◌≡◌, ◌≤◌, drop, take, length}, List.list_any};
ghost use Rattle.query_lang.specs.{Checks.is_among, TypedFinals.{table_number, same_names, key_columns, other_columns}};
ghost use Rattle.query_types.specs.Fitting.{IsEarly};

use crate::exprs::has_common;
use query_lang::typing::TableView;
use query_lang::{MAX_GROUPBYS, PrintOf};

/// The number of a table, where the query has that many groupbys.
pub fn number_of_table(groups: u16, place: PrintOf) -> u16
    requires groups { groups ≤ MAX_GROUPBYS }
    requires place { IsEarly place }
    ensures { result ≡ table_number groups place }
{
    match place {
        PrintOf::Group(number) => number,
        PrintOf::Final(number) => groups + number,
    }
}

// The columns of a table that are its keys.
fn keys_of(table: &TableView) -> &[u32]
    ensures { result.now ≡ key_columns table.now }
{
    let all = table.columns.as_slice();
    let keys = usize::from(table.keys);
    if keys <= all.len() { &all[..keys] } else { all }
}

/// The columns of a table after its keys.
pub fn others_of(table: &TableView) -> &[u32]
    ensures { result.now ≡ other_columns table.now }
{
    let all = table.columns.as_slice();
    let keys = usize::from(table.keys);
    if keys <= all.len() { &all[keys..] } else { &[] }
}

/// Have two tables keys of the same names in the same order?
pub fn same_keys(left: &TableView, right: &TableView) -> bool
    ensures { result ≡ same_names (key_columns left.now) (key_columns right.now) }
{
    keys_of(left) == keys_of(right)
}

/// Has the left a column of the right that isn't a key there?
pub fn others_clash(left: &TableView, right: &TableView) -> bool
    ensures { result ≡ list_any (λ name. is_among name left.now.columns) (other_columns right.now) }
{
    has_common(others_of(right), left.columns.as_slice())
}
