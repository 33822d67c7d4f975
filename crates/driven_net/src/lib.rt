//! A query driven over the packets of several switches, with the setting of a command line.
#![tactic(auto)]

ghost use Rattle.driven_net.specs.NetTraces.{net_packets, net_trace_fault};

mod ending;
mod runs;
mod taking;
mod ways;

pub use runs::net_over_trace;
