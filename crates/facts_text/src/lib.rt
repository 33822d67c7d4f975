//! The facts of a query as one JSON object.
#![tactic(auto)]

mod fault;
mod folds;
mod items;
mod reach;
mod read;
mod streams;
mod tables;
mod text;
mod values;
mod words;

pub use text::facts_text;
