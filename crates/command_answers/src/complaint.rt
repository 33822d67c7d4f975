//! The line that a status writes to standard error, piece by piece and without allocating memory.
ghost use Rattle.std.specs.{Prelude.{◌≡◌, OnOk}, List.flat_map, Io.KnownBytes.Appends};
ghost use Rattle.marple_base.specs.{Faults.HasCause, Sink.TakesFront};
ghost use Rattle.command_answers.specs.{Complaint.{complaint, kind_text}, Piece.piece_text};

use crate::pieces::{
    Line, Piece, plain_line, query_line, trace_line, trace_line_in_record, write_pieces,
};
use crate::status::Status;
use marple_base::{Failed, Sink, Which};
use query_lang::{FaultKind, Limit};
use trace_reader::TraceFault;

/// The name of a kind of fault.
fn kind_text(kind: FaultKind) -> &'static [u8]
    ensures { result.now ≡ kind_text kind }
{
    match kind {
        FaultKind::QueryTooLong => b"QueryTooLong",
        FaultKind::BadByte => b"BadByte",
        FaultKind::UnexpectedToken => b"UnexpectedToken",
        FaultKind::NumberTooLarge => b"NumberTooLarge",
        FaultKind::UnknownName => b"UnknownName",
        FaultKind::NameTaken => b"NameTaken",
        FaultKind::WrongKind => b"WrongKind",
        FaultKind::WrongArity => b"WrongArity",
        FaultKind::BadConstant => b"BadConstant",
        FaultKind::StateOnLine => b"StateOnLine",
        FaultKind::OverLimit(Limit::Groupbys) => b"OverLimit(groupbys)",
        FaultKind::OverLimit(Limit::Keys) => b"OverLimit(keys)",
        FaultKind::OverLimit(Limit::States) => b"OverLimit(states)",
        FaultKind::OverLimit(Limit::Args) => b"OverLimit(args)",
        FaultKind::OverLimit(Limit::Statements) => b"OverLimit(statements)",
        FaultKind::OverLimit(Limit::Nodes) => b"OverLimit(nodes)",
        FaultKind::OverLimit(Limit::Bindings) => b"OverLimit(bindings)",
        FaultKind::OverLimit(Limit::Nesting) => b"OverLimit(nesting)",
        FaultKind::OverLimit(Limit::Stages) => b"OverLimit(stages)",
        FaultKind::NothingPrinted => b"NothingPrinted",
        FaultKind::NotAdditive => b"NotAdditive",
        FaultKind::NotMonotone => b"NotMonotone",
        FaultKind::FinalInPlan => b"FinalInPlan",
        FaultKind::BadPlan => b"BadPlan",
    }
}

fn trace_pieces(fault: TraceFault) -> Line
    ensures { flat_map piece_text result ≡ complaint (Status.TraceRefused fault) }
{
    match fault {
        TraceFault::TraceTooLong => plain_line(b"marple: trace: TraceTooLong\n"),
        TraceFault::NoHeader => plain_line(b"marple: trace: NoHeader\n"),
        TraceFault::FieldTwice(field) => trace_line(b"FieldTwice(", Piece::Text(field.name())),
        TraceFault::FieldMissing(field) => trace_line(b"FieldMissing(", Piece::Text(field.name())),
        TraceFault::FieldCount(record) => {
            trace_line(b"FieldCount(", Piece::Number(u64::from(record)))
        }
        TraceFault::BadNumber(record, field) => {
            let number = Piece::Number(u64::from(record));
            trace_line_in_record(b"BadNumber(", number, Piece::Text(field.name()))
        }
        TraceFault::TooManyPackets => plain_line(b"marple: trace: TooManyPackets\n"),
        TraceFault::TooManySwitches(record) => {
            trace_line(b"TooManySwitches(", Piece::Number(u64::from(record)))
        }
    }
}

fn pieces_of(status: Status) -> Line
    ensures { flat_map piece_text result ≡ complaint status }
{
    match status {
        Status::Ok => plain_line(b""),
        Status::Memory => plain_line(b"marple: out of memory\n"),
        Status::Usage => plain_line(b"marple: bad command line\n"),
        Status::InputFault(Which::Query) => plain_line(b"marple: cannot read the query\n"),
        Status::InputFault(Which::Trace) => plain_line(b"marple: cannot read the trace\n"),
        Status::QueryRefused(fault) => query_line(kind_text(fault.kind), fault.span.start),
        Status::TraceRefused(fault) => trace_pieces(fault),
        Status::OutputFault => plain_line(b"marple: cannot write\n"),
    }
}

/// Writes the complaint of the status, or some prefix of it.
pub fn complain<E: Sink>(err: &mut E, status: Status) -> Result<(), Failed>
    ensures ok { OnOk result (Appends (E.taken err.old) (E.taken err.new) (complaint status)) }
    ensures front { TakesFront (E.taken err.old) (E.taken err.new) (complaint status) }
    ensures cause { HasCause (E.faults err.old) (E.faults err.new) result }
{
    let pieces = pieces_of(status);
    write_pieces(err, &pieces)
}
