//! What holds of the tables of lanes.

ghost use Rattle.switch_core.specs.KindTables.{TablesAreOfFolds};

use final_queries::alike_foldings_make_one_table;

/// Where entries are of a fold's kind, the table of closed epochs by what the entries are folded to is the table by the
/// fold.
pub fn tables_are_of_folds()
    ensures { TablesAreOfFolds }
{
    alike_foldings_make_one_table();
}
