//! What a switch and its stores do for the groupbys of a plan: for each a lane, of the cache of open epochs, the pipe of
//! evicted ones and the store that they are merged into.
#![tactic(auto)]

mod closing;
mod fetching;
mod front;
mod lane;
mod lanes;
mod laws;
mod making;
mod merging;
mod pipeline;
mod places;
mod registers;
mod tables;
mod upkeep;

pub use front::{Front, Merged};
pub use lane::Lane;
pub use laws::tables_are_of_folds;
pub use merging::merge_entry;
pub use pipeline::Pipeline;
pub use tables::{held_table, shown_table};
pub use upkeep::{Upkeep, keep_up};
