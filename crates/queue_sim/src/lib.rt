//! A trace made by a generator: packets of 64 flows come to four switches, wait in the switches' queues or are dropped.
#![tactic(auto)]

mod draws;
mod generator;
mod queue;
mod text;
mod writing;

pub use generator::simulate;
pub use text::{LineBuffer, texts_read_back, trace_text};
pub use writing::write_trace;
