//! The program as one call over any inputs and sinks: the commands, how each ends, and what it writes.
#![tactic(auto)]

mod compile;
mod generate;
mod perform;
mod reporting;
mod staging;
mod switches;
mod top;
mod trial;

pub use command_answers::Status;
pub use query_run::Driven;
pub use top::marple;
