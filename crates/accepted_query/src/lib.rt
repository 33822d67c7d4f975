//! From a query's text to its typed form and its plan, or its first fault.
#![tactic(auto)]

mod steps;
mod trial;

pub use steps::{AcceptedQuery, accept};
pub use trial::{trial_is_accepted, trial_query};
