//! What is shown of a query where bounds are asked for, and what it prints.
#![tactic(auto)]

mod laws;
mod printing;
mod starts;
mod tables;

pub use laws::{enclosed_tables_are_read, ends_give_enclosed_tables, shown_tables_hold};
pub use printing::write_enclosed;
pub use starts::starts_known;
pub use tables::{enclosed, shown_of};
