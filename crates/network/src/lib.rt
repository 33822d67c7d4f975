//! Several switches, each with separate caches and pipes, and for each groupby one store that all of them merge into.
#![tactic(auto)]

mod group;
mod groups;
mod laws;
mod network;
mod taking;
mod turns;

pub use group::Group;
pub use laws::runs_follow_events;
pub use network::Network;
