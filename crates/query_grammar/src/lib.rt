//! The grammar of queries: which tokens are a query and what they mean, which fault is the first, and parsers that go by the next
//! token and give the one or the other.
#![tactic(auto)]

pub mod laws;
mod stop;

pub use stop::{Counts, Stop};
