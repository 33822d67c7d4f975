//! The text of tables.
#![tactic(auto)]

mod backwards;
mod parts;
mod printer;
mod words;

pub use printer::write_table;
