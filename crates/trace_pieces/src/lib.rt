//! A trace of any length, read in pieces that are cut between two records.
#![tactic(auto)]

mod cuts;
mod fault;
mod laws;
mod read;
mod scan;

pub use cuts::{head_end, last_cut};
pub use fault::{WholeFault, fault_after};
pub use laws::{pieces_have_the_records, runs_read_the_whole};
pub use read::fill;
pub use scan::Place;
