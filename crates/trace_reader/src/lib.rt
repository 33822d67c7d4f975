//! Packets from the text of a trace, one record at a time.
#![tactic(auto)]

mod blocks;
mod columns;
mod fault;
mod number;
mod plain;
mod record;
mod records;
mod trace;

pub use fault::{MAX_RECORDS, MAX_TRACE, TraceAnswer, TraceFault};
pub use trace::{Trace, open_trace};
