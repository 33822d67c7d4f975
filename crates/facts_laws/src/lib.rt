//! A law about how the facts say that a trace may be split.
#![tactic(auto)]

mod laws;

pub use laws::needed_keys_are_kept;
