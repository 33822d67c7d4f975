//! Runs over packets: a plan's pipeline is driven with the setting of a command line, a report of its tables is written, and
//! the drained pipeline is returned in the variant of its ways. There is a report of a query, one of its bounds, and one of a
//! plan that was read.
#![tactic(auto)]

mod acceptance;
mod driven;
mod laws;
mod numbered;
mod report;
mod run;
mod runs;
mod showing;
mod views;
mod ways;

pub use driven::Driven;
pub use laws::{
    ends_are_the_querys, ends_are_the_texts, made_packets_are_whole, no_views_without_number,
};
pub use report::Report;
pub use runs::{run_over_made, run_over_trace};
