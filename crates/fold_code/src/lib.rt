//! A fold's statements as straight-line code, with no jumps, and the test for folds that only add.
#![tactic(auto)]

mod additive;
mod checks;
mod code;
mod emit;
mod finding;
mod instr;
mod moves;

pub use additive::is_additive;
pub use checks::{Checks, body_passes, contains, is_known};
pub use code::{FoldCode, compile};
pub use instr::Instr;
