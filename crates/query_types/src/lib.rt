//! The typing of queries: names get numbers and slots, and the first fault is given. And what the groupbys of a typed query take
//! from the packets.
#![tactic(auto)]

mod answer;
mod bodies;
mod columns;
mod copies;
mod exprs;
mod finals;
mod folds;
mod groupbys;
mod items;
mod names;
mod streams;
mod tables;
mod typing;
mod views;

pub use typing::check;
