//! The events of a whole trace on the pipeline of a plan: its packets in order, merges and sweeps between them
//! as a schedule says, and at the end a sweep and the merges of all that is left. And what is known of the packets that
//! are read from a trace, and why a run over packets breaks off.
#![tactic(auto)]

mod answer;
mod clock;
mod kept;
mod laws;
mod packets;
mod replay;
mod schedule;
mod turn;
mod word_list;

pub use answer::RunError;
pub use clock::Clock;
pub use kept::KeptPackets;
pub use laws::{
    read_packets_are_few, read_packets_are_kept, read_packets_are_whole, read_packets_are_words,
};
pub use packets::Packets;
pub use replay::{Replay, drive};
pub use schedule::Schedule;
