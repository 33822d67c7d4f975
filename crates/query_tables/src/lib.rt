//! The tables of a query over a trace, and their text.
#![tactic(auto)]

ghost use Rattle.query_tables.specs.Tables.{query_text};

mod laws;
mod print;

pub use laws::query_tables_are_read;
pub use print::{add_finals, table_number, write_tables};
