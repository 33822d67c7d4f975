//! The rows of a table, in two arrays: the words of all rows, and for each row where its words are.
#![tactic(auto)]

mod lent;
mod rows;
mod span;

pub use lent::RowRef;
pub use rows::{Rows, push_few};
