//! The law of runs over split traces.

ghost use Rattle.split_laws.specs.WholeRuns.{PartsAreTheRun, SplitFieldsAreKeys, SumsAreOfPieces, ValidRowsAreOfTheWhole};

use part_laws::{accepted_fields_keep_keys, accepted_tables_are_in_order};
use query_laws::{accepted_are_valid, accepted_start_as_words};

/// What is merged of the tables that runs over the texts of parts give is the table of a run over the whole, but for numbers of
/// epochs: rows in the order of keys, and of a `top` its best rows again. Where each epoch has a row, the valid rows of parts are of
/// all packets of their keys. The fields by which the packets are split have to be keys of the groupby, or of those that a final is
/// made from; those by which `marple-tools` splits are keys of each. Where a fold only adds, the states of any pieces add up.
pub fn parts_are_the_run()
    ensures tables { PartsAreTheRun }
    ensures valid_rows { ValidRowsAreOfTheWhole }
    ensures keys { SplitFieldsAreKeys }
    ensures sums { SumsAreOfPieces }
{
    accepted_fields_keep_keys();
    accepted_tables_are_in_order();
    accepted_are_valid();
    accepted_start_as_words();
}
