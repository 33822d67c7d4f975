//! The line that a status writes to standard error, as `marple` does.

ghost use Rattle.std.specs.{Prelude.{◌≡◌, OnOk}, List.flat_map, Io.KnownBytes.Appends};
ghost use Rattle.marple_base.specs.{Faults.HasCause, Sink.TakesFront};
ghost use Rattle.tools_cli.specs.Complaint.{tool_complaint};
ghost use Rattle.command_answers.specs.Piece.{piece_text};

use crate::status::ToolStatus;
use command_answers::pieces::{
    Line, Piece, plain_line, trace_line, trace_line_in_record, write_pieces,
};
use command_answers::{Status, complain};
use marple_base::{Failed, Sink, write_all};
use trace_pieces::WholeFault;

fn trace_pieces(fault: WholeFault) -> Line
    ensures { flat_map piece_text result ≡ tool_complaint (ToolStatus.TraceRefused fault) }
{
    match fault {
        WholeFault::NoHeader => plain_line(b"marple: trace: NoHeader\n"),
        WholeFault::FieldTwice(field) => trace_line(b"FieldTwice(", Piece::Text(field.name())),
        WholeFault::FieldMissing(field) => trace_line(b"FieldMissing(", Piece::Text(field.name())),
        WholeFault::FieldCount(record) => trace_line(b"FieldCount(", Piece::Number(record)),
        WholeFault::BadNumber(record, field) => {
            trace_line_in_record(
                b"BadNumber(",
                Piece::Number(record),
                Piece::Text(field.name()),
            )
        }
    }
}

// Writes the complaint of a trace that is refused, or some prefix of it.
fn complain_of_trace<E: Sink>(err: &mut E, fault: WholeFault) -> Result<(), Failed>
    ensures ok { OnOk result (Appends (E.taken err.old) (E.taken err.new) (tool_complaint (ToolStatus.TraceRefused fault))) }
    ensures front { TakesFront (E.taken err.old) (E.taken err.new) (tool_complaint (ToolStatus.TraceRefused fault)) }
    ensures cause { HasCause (E.faults err.old) (E.faults err.new) result }
{
    let pieces = trace_pieces(fault);
    write_pieces(err, &pieces)
}

/// Writes the complaint of the status, or some prefix of it.
pub(crate) fn complain_of<E: Sink>(err: &mut E, status: ToolStatus) -> Result<(), Failed>
    ensures ok { OnOk result (Appends (E.taken err.old) (E.taken err.new) (tool_complaint status)) }
    ensures front { TakesFront (E.taken err.old) (E.taken err.new) (tool_complaint status) }
    ensures cause { HasCause (E.faults err.old) (E.faults err.new) result }
{
    match status {
        ToolStatus::Ok => complain(err, Status::Ok),
        ToolStatus::Memory => complain(err, Status::Memory),
        ToolStatus::Usage => complain(err, Status::Usage),
        ToolStatus::InputFault(which) => complain(err, Status::InputFault(which)),
        ToolStatus::QueryRefused(fault) => complain(err, Status::QueryRefused(fault)),
        ToolStatus::FieldNeeded => write_all(err, b"marple: query: FieldNeeded\n"),
        ToolStatus::TraceRefused(fault) => complain_of_trace(err, fault),
        ToolStatus::OutputFault => complain(err, Status::OutputFault),
    }
}
