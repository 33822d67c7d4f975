//! The trace of the generator, written in pieces while its packets are made.

ghost use Rattle.std.specs.{Prelude.{◌≡◌, ◌++◌, ◌<◌, ◌≤◌, ◌^◌, IfOk, IsErrOf, OnErr, OnOk}, Io.KnownBytes.Appends};
ghost use Rattle.marple_base.specs.{Faults.Rose, Sink.TakesFront, Pieces.TakesAllBut};
ghost use Rattle.queue_sim.specs.{Generator.simulated, TraceText.{header, line, trace_text}};

use crate::generator::Generator;
use crate::text::{HEADER, LineBuffer};
use marple_base::{Field, Sink, WriteError, write_all};
use std::alloc::{AllocError, Global};

// The most bytes that wait before they are written.
const PIECE: usize = 65_536;

// Adds a line to the bytes that wait. Where it has no room beside them, they are written first.
fn add_line<O: Sink>(waiting: &mut Vec<u8>, line: &[u8], out: &mut O) -> Result<(), WriteError>
    ensures ok { OnOk result
        (TakesAllBut (O.taken out.old) (O.taken out.new) waiting.new.items (waiting.old.items ++ line.now)) }
    ensures err { OnErr result (TakesFront (O.taken out.old) (O.taken out.new) waiting.old.items) }
    ensures failed { IsErrOf result WriteError.Failed → Rose (O.faults out.old) (O.faults out.new) }
    ensures out_later { O.faults out.old ≤ O.faults out.new }
{
    if waiting.len() + line.len() > PIECE {
        write_all(out, waiting.as_slice())?;
        waiting.clear();
    }
    waiting.extend_from_slice(line)?;
    Ok(())
}

// The header, which waits before the first packet, with room for a piece.
fn header_waiting(alloc: Global) -> Result<Vec<u8>, AllocError>
    ensures { IfOk result (λ waiting. waiting.items ≡ line header) }
{
    let mut waiting = Vec::with_capacity(alloc, PIECE)?;
    waiting.extend_from_slice(HEADER)?;
    Ok(waiting)
}

/// Writes the text of the first packets of the generator. A packet that finds `capacity` packets in its queue is dropped.
/// Neither the packets nor their text are held: lines wait until 64 KiB of them are written at once. After an `Err` the sink
/// has some first bytes of the text.
pub fn write_trace<O: Sink>(
    alloc: Global,
    packets: u32,
    start: u32,
    capacity: u32,
    out: &mut O,
) -> Result<(), WriteError>
    requires packets { (1 ≤ packets) × (packets ≤ 1000000) }
    requires start { start < 2 ^ 31 }
    ensures ok { OnOk result (Appends (O.taken out.old) (O.taken out.new) (trace_text (simulated packets start capacity))) }
    ensures err { OnErr result (TakesFront (O.taken out.old) (O.taken out.new) (trace_text (simulated packets start capacity))) }
    ensures failed { IsErrOf result WriteError.Failed → Rose (O.faults out.old) (O.faults out.new) }
    ensures out_later { O.faults out.old ≤ O.faults out.new }
{
    let mut generator = Generator::new(alloc, start, capacity)?;
    let mut waiting = header_waiting(alloc)?;
    let mut line = LineBuffer::new();
    for _packet in 0..packets {
        let packet = generator.next()?;
        add_line(&mut waiting, line.format(&Field::ALL, &packet), out)?;
    }
    write_all(out, waiting.as_slice())?;
    Ok(())
}
