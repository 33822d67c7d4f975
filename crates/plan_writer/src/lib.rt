//! The text of a query's plan, which another run can read.
#![tactic(auto)]

mod bodies;
mod faults;
mod groups;
mod lines;
mod operations;
mod words;
mod writer;

pub use faults::final_in_plan;
pub use writer::plan_file_text;
