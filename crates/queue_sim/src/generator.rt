//! The generator.

ghost use Rattle.std.specs.{Prelude.{◌≡◌, ◌≤◌, ◌<◌, ◌+◌, ◌^◌, IfOk, OnOk, length}, List.{slice_index_or, slice_set}};
ghost use Rattle.queue_sim.specs.{Generator.{generated_packet, simulated}, Following.{AreEmpty, Follows, nth_packet}};

use crate::draws::{Drawn, Draws};
use crate::queue::{Place, Queue};
use marple_base::{Packet, Seq};
use std::alloc::{AllocError, Global};

/// The generator between two packets.
pub(crate) struct Generator {
    start: u32,
    capacity: u32,
    draws: Draws,
    number: u64,
    time: u64,
    flows: [u64; 64],
    queues: Vec<Queue>,
}

impl Drop for Generator {
    fn drop(self) {
        let Generator {
            start: _,
            capacity: _,
            draws: _,
            number: _,
            time: _,
            flows: _,
            queues: _,
        } = self;
    }
}

// The words of a packet.
fn packet_of(number: u64, time: u64, seq: u64, drawn: Drawn, place: Place) -> Packet
    requires small { (number < 2 ^ 32) × (time < 2 ^ 32) × (seq < 2 ^ 32) × (drawn.flow < 64) × (drawn.payload < 1461) }
    ensures { result ≡ generated_packet number (record {
      time = time;
      flow = drawn.flow;
      payload = drawn.payload;
      seq = seq;
      qsize = place.qsize;
      tout = place.tout;
    }) }
{
    Packet {
        words: [
            1 + drawn.flow % 4,
            0,
            number,
            167772160 + drawn.flow,
            167837696 + drawn.flow % 8,
            1024 + drawn.flow,
            80,
            6,
            drawn.payload + 40,
            drawn.payload,
            seq,
            time,
            place.tout.unwrap_or(u64::MAX),
            place.qsize as u64,
        ],
    }
}

// The number at which a packet of a flow begins. The flow goes on after its payload.
fn next_seq(flows: &mut [u64; 64], drawn: Drawn) -> u64
    requires flow { drawn.flow < 64 }
    requires fits { slice_index_or flows.old drawn.flow 0 + drawn.skipped + drawn.payload < 2 ^ 64 }
    ensures seq { result ≡ slice_index_or flows.old drawn.flow 0 + drawn.skipped }
    ensures flows { flows.new ≡ slice_set flows.old drawn.flow (result + drawn.payload) }
{
    let flow = drawn.flow as usize;
    let seq = flows[flow] + drawn.skipped;
    flows[flow] = seq + drawn.payload;
    seq
}

// The queues of the four switches.
fn empty_queues(alloc: Global) -> Result<Vec<Queue>, AllocError>
    ensures len { IfOk result (λ queues. length queues.items ≡ 4) }
    ensures empty { IfOk result (λ queues. AreEmpty queues.items) }
{
    let mut queues = Vec::with_capacity(alloc, 4)?;
    for _switch in 0..4u32 {
        queues.push(Queue::new(alloc))?;
    }
    Ok(queues)
}

impl Generator {
    /// The generator before its first packet.
    pub(crate) fn new(alloc: Global, start: u32, capacity: u32) -> Result<Generator, AllocError>
        requires { start < 2 ^ 31 }
        ensures follows { IfOk result Follows }
        ensures first { IfOk result (λ g. (g.number ≡ 0) × (g.start ≡ start) × (g.capacity ≡ capacity)) }
    {
        let queues = empty_queues(alloc)?;
        let draws = Draws::new(start);
        let flows = [0; 64];
        Ok(Generator {
            start,
            capacity,
            draws,
            number: 0,
            time: 0,
            flows,
            queues,
        })
    }

    /// The next packet.
    pub(crate) fn next(&mut self) -> Result<Packet, AllocError>
        requires follows { Follows self.old }
        requires more { self.old.number < 1000000 }
        ensures follows { OnOk result (Follows self.new) }
        ensures number { self.new.number ≡ self.old.number + 1 }
        ensures same { (self.new.start ≡ self.old.start) × (self.new.capacity ≡ self.old.capacity) }
        ensures packet { IfOk result (λ packet. packet ≡ nth_packet self.old.start self.old.capacity self.old.number) }
    {
        let drawn = self.draws.next_packet();
        self.number += 1;
        self.time += drawn.gap;
        let seq = next_seq(&mut self.flows, drawn);
        let queue = &mut self.queues[drawn.flow as usize % 4];
        let place = queue.arrive(self.time, (drawn.payload + 40) / 8, self.capacity as usize)?;
        Ok(packet_of(self.number, self.time, seq, drawn, place))
    }
}

/// The first packets of the generator, in their order. A packet that finds `capacity` packets in its queue is dropped.
pub fn simulate(
    alloc: Global,
    packets: u32,
    start: u32,
    capacity: u32,
) -> Result<Seq<Packet>, AllocError>
    requires packets { (1 ≤ packets) × (packets ≤ 1000000) }
    requires start { start < 2 ^ 31 }
    ensures { IfOk result (λ sent. sent ≡ simulated packets start capacity) }
{
    let mut generator = Generator::new(alloc, start, capacity)?;
    let mut sent = Vec::with_capacity(alloc, packets as usize)?;
    for _packet in 0..packets {
        sent.push(generator.next()?)?;
    }
    Ok(Seq::from_vec(sent))
}
