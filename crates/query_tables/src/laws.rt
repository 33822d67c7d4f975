//! What holds of the tables of a query's groupbys.

ghost use Rattle.query_tables.specs.TableLaws.{QueryTablesAreRead};

use final_queries::group_tables_are_read;

/// The tables of a valid query's groupbys may be read by its finals, and have the shapes of what the groupbys take.
pub fn query_tables_are_read()
    ensures { QueryTablesAreRead }
{
    group_tables_are_read();
}
