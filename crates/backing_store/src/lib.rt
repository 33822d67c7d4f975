//! The rows of each key, into which epochs are merged, and what they show: the rows of a table.
#![tactic(auto)]

mod chains;
mod digits;
mod fetching;
mod held;
mod keys;
mod laws;
mod order;
mod shown;
mod sip;
mod slices;
mod states;
mod store;

pub use held::{held_rows_are_the_tables, merged_epochs_are_held};
pub use laws::{epochs_are_counted, keys_are_kept, last_rows_are_written, rows_are_added};
pub use order::Place;
pub use shown::{ShownRows, rows_held};
pub use store::{BackingStore, HeldRow};
