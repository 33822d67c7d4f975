//! How the program answers: the operands of commands, read and accepted or refused, and statuses with their complaints.
#![tactic(auto)]

mod checked;
mod complaint;
mod operands;
pub mod pieces;
mod status;

pub use checked::{Check, query_for};
pub use complaint::complain;
pub use operands::{accept_trial, read_plan_text, read_query, read_trace};
pub use status::Status;
