//! Laws of traces of any length. Each is the contract of a function without a body.

ghost use Rattle.trace_pieces.specs.Laws.{PiecesHaveTheRecords, RunsReadTheWhole};

/// Within the two limits of one run, one run reads all of a trace.
pub fn runs_read_the_whole()
    ensures { RunsReadTheWhole }
{}

/// A text that is cut between two records has the records of its two parts.
pub fn pieces_have_the_records()
    ensures { PiecesHaveTheRecords }
{}
