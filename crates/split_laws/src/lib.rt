//! Laws of the tables of traces that are split for a query.
#![tactic(auto)]

mod lines;
mod runs;
mod tables;

pub use lines::lines_may_be_cut;
pub use runs::parts_are_the_run;
pub use tables::split_tables_are_in_order;
