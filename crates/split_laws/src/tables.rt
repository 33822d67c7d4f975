//! Laws of split traces. Each is the contract of a function whose body only calls laws.

ghost use Rattle.split_laws.specs.SplitTables.{SplitTablesAreInOrder};

use part_laws::exact_tables_are_in_order;
use split_fields::by_hash_keeps_keys;

/// Where each key has one row, the table of the whole is the rows of the parts' tables in the order of keys, but for numbers of
/// epochs; and these rows are in the parts of their keys, so finals compose.
pub fn split_tables_are_in_order()
    ensures { SplitTablesAreInOrder }
{
    by_hash_keeps_keys();
    exact_tables_are_in_order();
}
