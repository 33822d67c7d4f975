//! The texts of the parts that a trace is split into, and that they read back.
#![tactic(auto)]

mod laws;
mod line;

pub use laws::field_texts_read_back;
pub use line::header_line;
