//! Traces of any length, split into parts by a hash of some fields of their packets.
#![tactic(auto)]

mod fault;
mod parts;
mod piece;
mod split;
mod splitting;
mod texts;
mod traces;
mod waiting;

pub use fault::SplitError;
pub use parts::Parts;
pub use splitting::Splitting;
pub use traces::{split_held, split_traces};
