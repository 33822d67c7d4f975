//! The pipe between cache and store: evicted records in the order of their eviction, in memory that is taken once.
#![tactic(auto)]

mod copying;
mod pipe;
mod places;

pub use pipe::EvictPipe;
