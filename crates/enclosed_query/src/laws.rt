//! What the machines at the end of a trace give where bounds are asked for.

ghost use Rattle.enclosed_query.specs.{EnclosedTables.EndsGiveEnclosedTables, Holding.ShownTablesHold, Reading.EnclosedTablesAreRead};

use enclosure_folds::{
    exact_tables_are_read, key_bounds_enclose, no_fault_means_bounds, tables_give_bounds,
};
use epoch_model::taken_uses_are_in_trace;
use final_queries::closed_give_the_group_table;
use query_tables::query_tables_are_read;

/// The machines of a query's plan at the end of a trace, with entries for bounds, give what is shown of its groupbys.
pub fn ends_give_enclosed_tables()
    ensures { EndsGiveEnclosedTables }
{
    taken_uses_are_in_trace();
    closed_give_the_group_table();
    tables_give_bounds();
}

/// Finals may read the tables of a valid query's linear groupbys, and of its other groupbys the rows whose bounds are equal.
pub fn enclosed_tables_are_read()
    ensures { EnclosedTablesAreRead }
{
    query_tables_are_read();
    exact_tables_are_read();
}

/// What is shown of each groupby holds over all packets, where its fold is linear or monotone: values are the fold over all
/// packets of their key, and bounds contain it, word by word, and are it where they are marked exact.
pub fn shown_tables_hold()
    ensures { ShownTablesHold }
{
    key_bounds_enclose();
    no_fault_means_bounds();
}
