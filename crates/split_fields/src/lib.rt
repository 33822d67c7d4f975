//! The fields by which a trace may be split for a query: so that the tables of the parts are those of the whole.
#![tactic(auto)]

mod choice;
mod laws;

pub use choice::split_fields;
pub use laws::{by_hash_keeps_keys, splits_are_of_packets};
