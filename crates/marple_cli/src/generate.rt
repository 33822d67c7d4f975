//! The trace that the generator makes.
ghost use Rattle.std.specs.Prelude.{◌≤◌};
ghost use Rattle.marple_base.specs.{Inputs.Input, declared.inputs.Which.{Which as AnyWhich}};
ghost use Rattle.command_line.specs.Command.{IsGeneration};
ghost use Rattle.marple_cli.specs.Ends.{Ends, status_of};

use command_answers::Status;
use command_line::{Command, Generation};
use marple_base::{Sink, WriteError};
use queue_sim::write_trace;
use std::alloc::Global;

/// How many packets wait in a queue at most.
pub const CAPACITY: u32 = 16;

/// Writes the text of the packets that the generator makes, while it makes them. No input is opened.
pub fn generate<O: Sink>(alloc: Global, generation: Generation, out: &mut O) -> Result<(), Status>
    requires generation { IsGeneration generation }
    ensures ends { (inputs : AnyWhich → Input)
        → Ends O.taken O.faults (Command.Gen generation) inputs inputs out.old out.new (status_of result) }
    ensures out_later { O.faults out.old ≤ O.faults out.new }
{
    match write_trace(alloc, generation.packets, generation.start, CAPACITY, out) {
        Ok(()) => Ok(()),
        Err(WriteError::Memory) => Err(Status::Memory),
        Err(WriteError::Failed) => Err(Status::OutputFault),
    }
}
