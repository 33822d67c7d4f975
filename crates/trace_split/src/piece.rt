//! The packets of a piece of a trace, each to its part.

ghost use Rattle.std.specs.Prelude.{◌≡◌, ◌++◌, ◌≤◌, List, IfErr, IfOk, IsErrOf, OnErr, OnOk, None, Some, length};
ghost use Rattle.marple_base.specs.{Faults.Rose, declared.field.Packet.{Packet as AnyPacket}};
ghost use Rattle.trace_reader.specs.Traces.{packets, trace_fault};
ghost use Rattle.trace_split.specs.{Holding.{TakeFronts, Taken}, PartTexts.{HoldsPackets, SameSetting, is_setting, parts_of, texts_of}};
ghost use Rattle.trace_split.specs.Pieces.{IfPieceRefused, error_of as error_of_answer, write_error_of};

use crate::parts::Parts;
use crate::texts::PartTexts;
use marple_base::{FIELDS, FieldSet, Packet, Steps, WriteError};
use std::alloc::Global;
use std::sync::ledger::Ledger;
use trace_reader::{TraceAnswer, TraceFault, open_trace};

/// Why not all packets of a piece went to their parts.
#[derive(Clone, Copy, PartialEq, Eq)]
pub(crate) enum PieceError {
    Refused(TraceFault),
    OutputFault,
    Memory,
}

// The error of an answer of a trace.
fn error_of(answer: TraceAnswer) -> PieceError
    ensures { result ≡ error_of_answer answer }
{
    match answer {
        TraceAnswer::Refused(fault) => PieceError::Refused(fault),
        TraceAnswer::Memory => PieceError::Memory,
    }
}

// The error of a line that wasn't written.
fn unwritten(error: WriteError) -> PieceError
    ensures { result ≡ write_error_of error }
{
    match error {
        WriteError::Failed => PieceError::OutputFault,
        WriteError::Memory => PieceError::Memory,
    }
}

/// Sends each packet of a piece to its part, and says how many there are. The piece is a trace by itself.
pub(crate) fn split_piece<P: Parts, L: Ledger>(
    alloc: Global,
    piece: &[u8],
    reads: FieldSet,
    texts: &mut PartTexts,
    parts: &mut P,
    steps: &mut Steps<L>,
) -> Result<u64, PieceError>
    requires { is_setting texts.old }
    ensures same { SameSetting texts.old texts.new }
    ensures whole { OnOk result (trace_fault piece.now reads ≡ None) }
    ensures count { IfOk result (λ count. count ≡ length (packets piece.now reads)) }
    ensures sent { OnOk result ((first : Taken) (before : List AnyPacket) → HoldsPackets first (P.taken parts.old) texts.old before
        → HoldsPackets first (P.taken parts.new) texts.new (before ++ packets piece.now reads)) }
    ensures refused { IfErr result (λ error. IfPieceRefused error (λ found. trace_fault piece.now reads ≡ Some found)) }
    ensures fronts { OnErr result ((first : Taken) (before : List AnyPacket) → HoldsPackets first (P.taken parts.old) texts.old before
        → TakeFronts (parts_of texts.old) first (P.taken parts.new) (texts_of texts.old (before ++ packets piece.now reads))) }
    ensures failed { IsErrOf result PieceError.OutputFault → Rose (P.faults parts.old) (P.faults parts.new) }
    ensures later { P.faults parts.old ≤ P.faults parts.new }
    ensures steps { steps.old ≤ steps.new }
{
    let mut trace = match open_trace(alloc, piece, reads) {
        Ok(trace) => trace,
        Err(answer) => return Err(error_of(answer)),
    };
    let mut packet = Packet { words: [0; FIELDS] };
    'packets: for count in 0..u64::MAX {
        match trace.next_into(&mut packet) {
            Ok(true) => match texts.add(&packet, parts, steps) {
                Ok(()) => {}
                Err(error) => return Err(unwritten(error)),
            },
            Ok(false) => return Ok(count),
            Err(answer) => return Err(error_of(answer)),
        }
    }
    Err(PieceError::Memory)
}
