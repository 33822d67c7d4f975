//! The facts of a query: of an accepted one its folds, where its columns come from, what the commands refuse of it and how a
//! trace may be split for it; of a refused one the fault, the tokens that may stand there, and the names in reach.
#![tactic(auto)]

mod answer;
mod columns;
mod commands;
mod earlier;
mod expected;
mod folds;
mod needs;
mod parts;
mod tokens;

pub use answer::{AcceptedFacts, Facts, RefusedFacts, facts_of};
pub use commands::Commands;
pub use earlier::{Reach, items_before};
pub use folds::FoldFacts;
pub use parts::{Parts, Unsplit};
pub use tokens::spelling;
