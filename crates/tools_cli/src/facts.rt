//! The facts of a query, written as one line.

ghost use Rattle.std.specs.Prelude.{◌≡◌, ◌≢◌, ◌+◌, ◌≤◌, IfErr, IfOk, IfSome, OnOk, string_bytes, take};
ghost use Rattle.marple_base.specs.Inputs.{IsClosed};
ghost use Rattle.tools_cli.specs.FactsEnds.{FactsEnd, GivesFacts, IsFactsLine, IsUnread};

use crate::status::ToolStatus;
use facts_text::facts_text;
use marple_base::{Inputs, ReadAnswer, Sink, Text, Which, read_input, write_all};
use query_facts::facts_of;
use query_lang::MAX_QUERY;
use std::alloc::{AllocError, Global};

// Reads the text of the query, to its end or to one byte more than the limit.
fn read_text<I: Inputs>(alloc: Global, inputs: &mut I) -> Result<Text, ToolStatus>
    requires { IsClosed (I.input inputs.old Which.Query) }
    ensures text { IfOk result (λ text. IfSome (I.input inputs.old Which.Query).left (λ query. text ≡ take (MAX_QUERY + 1) query)) }
    ensures unread { IfErr result (IsUnread (I.input inputs.old Which.Query).faults (I.input inputs.new Which.Query).faults) }
    ensures later { (I.input inputs.old Which.Query).faults ≤ (I.input inputs.new Which.Query).faults }
{
    match read_input(alloc, inputs, Which::Query, MAX_QUERY + 1) {
        Ok(text) => Ok(text),
        Err(ReadAnswer::Failed) => Err(ToolStatus::InputFault(Which::Query)),
        Err(ReadAnswer::Memory) => Err(ToolStatus::Memory),
    }
}

// The line that says what a text is.
fn line_of(alloc: Global, text: &[u8]) -> Result<String, AllocError>
    ensures { IfOk result (λ line. IsFactsLine text.now (string_bytes line)) }
{
    let found = facts_of(alloc, text)?;
    let mut line = facts_text(alloc, text, &found)?;
    line.push('\n')?;
    Ok(line)
}

/// Writes the facts of the query, which may be accepted or refused, as one line.
pub(crate) fn facts<I: Inputs, O: Sink>(
    alloc: Global,
    inputs: &mut I,
    out: &mut O,
) -> Result<(), ToolStatus>
    requires { IsClosed (I.input inputs.old Which.Query) }
    ensures ok { OnOk result (GivesFacts (I.input inputs.old Which.Query).left (O.taken out.old) (O.taken out.new)) }
    ensures ends { IfErr result (FactsEnd (I.input inputs.old Which.Query).faults (I.input inputs.new Which.Query).faults
        (O.faults out.old) (O.faults out.new)) }
    ensures query_later { (I.input inputs.old Which.Query).faults ≤ (I.input inputs.new Which.Query).faults }
    ensures out_later { O.faults out.old ≤ O.faults out.new }
{
    let text = read_text(alloc, inputs)?;
    let line = line_of(alloc, text.as_slice())?;
    match write_all(out, line.as_bytes()) {
        Ok(()) => Ok(()),
        Err(_) => Err(ToolStatus::OutputFault),
    }
}
