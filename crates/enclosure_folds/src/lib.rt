//! Which folds keep the order of states, the bounds of their keys by the rows of their epochs, and tables of such bounds.
#![tactic(auto)]

mod bounds;
mod check;
mod copies;
mod enclosed;
mod laws;
mod monotone;
mod monotone_laws;
mod printer;
mod rows;
mod table;

pub use bounds::bounds_of;
pub use check::enclose_check;
pub use enclosed::enclosed_of;
pub use laws::{
    closed_bounds_enclose, closed_tables_give_bounds, closed_tables_hold, epoch_rows_give_bounds,
    epochs_enclose, exact_bounds_are_equal, exact_tables_are_read, key_bounds_enclose,
    no_fault_means_bounds, rows_enclose, small_bounds, table_rows_enclose, tables_give_bounds,
    triples_give_whole_tables,
};
pub use monotone::{StateOrder, is_monotone};
pub use monotone_laws::{
    equal_bounds_are_exact, last_rows_enclose, rows_keep_order, small_folds, step_keeps_order,
};
pub use printer::write_bounds;
pub use rows::exact_rows;
pub use table::{BoundsRow, BoundsTable, Enclosed};
