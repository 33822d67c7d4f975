//! A trace of which only the records are given that begin in a range of its bytes, after its header.
#![tactic(auto)]

mod laws;
mod places;
mod ranged;
mod spot;
mod window;

pub use laws::ranges_are_the_trace;
pub use ranged::{Range, Ranged, begin_all};
pub use spot::Spot;
pub use window::Window;
