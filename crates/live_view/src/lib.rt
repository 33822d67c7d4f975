//! Views of a running trace: the tables that the lanes would give if the trace ended here. Caches and pipes stay
//! unchanged.
#![tactic(auto)]

mod keeping;
mod lane;
mod laws;
mod merging;
mod rows;
mod tables;
mod waiting;

pub use laws::{row_lists_are_seen, views_end_the_trace};
pub use tables::{view, view_lane};
