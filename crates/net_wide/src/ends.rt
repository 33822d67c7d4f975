//! What the merged epochs of several switches give.

ghost use Rattle.net_wide.specs.NetEnds.{MergedMakeTheTable, NetTablesAreRead, PiecesAreTheEpochs};

use fold_class::additive_is_linear;
use query_tables::query_tables_are_read;

/// In a query whose groupbys all combine, the merged epochs of all switches make each groupby's table, wherever evictions
/// and merges came: where a key has one row, it is of all the key's rows; otherwise its rows are those that the machines
/// closed, which for a key that gives the switch are those of one switch.
pub fn merged_make_the_table()
    ensures { MergedMakeTheTable }
{
    additive_is_linear();
}

/// Where no eviction comes before the end of a trace, the pieces of each key are the epochs of the definition.
pub fn pieces_are_the_epochs()
    ensures { PiecesAreTheEpochs }
{}

/// Finals can read the tables of the definition, which have the shapes of what the groupbys take.
pub fn net_tables_are_read()
    ensures { NetTablesAreRead }
{
    query_tables_are_read();
}
