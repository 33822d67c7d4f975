//! Laws of parts for accepted texts, with no premise but what a user can check.

ghost use Rattle.part_laws.specs.AcceptedParts.{AcceptedFieldsKeepKeys, AcceptedTablesJoin, AcceptedTablesInOrder};

use crate::finals::exact_tables_are_in_order;
use crate::laws::{exact_rows_are_the_parts, fields_keep_keys};

/// In each accepted text a partition by fields keeps the keys of a groupby that has these fields as keys, where no `map` makes
/// a column of their names.
pub fn accepted_fields_keep_keys()
    ensures { AcceptedFieldsKeepKeys }
{
    fields_keep_keys();
}

/// So where each key has one row, the groupby's table over the whole trace has the rows of the parts' tables, in the order of
/// their keys.
pub fn accepted_tables_join()
    ensures { AcceptedTablesJoin }
{
    accepted_fields_keep_keys();
    exact_rows_are_the_parts();
}

/// The part of a key there is that of its words of the fields, whatever the groupby: so tables of two groupbys whose keys have
/// the same names join part by part.
pub fn accepted_tables_are_in_order()
    ensures { AcceptedTablesInOrder }
{
    fields_keep_keys();
    exact_tables_are_in_order();
}
