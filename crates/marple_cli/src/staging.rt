//! The stages of a query.
ghost use Rattle.std.specs.Prelude.{◌≡◌, ◌+◌, ◌≤◌};
ghost use Rattle.marple_base.specs.Inputs.{IsClosed, LosesUpTo};
ghost use Rattle.query_lang.specs.declared.fault.TheConstants.{MAX_QUERY};
ghost use Rattle.marple_cli.specs.Ends.{Ends, status_of};

use command_answers::{Status, read_query};
use command_line::{Command, Ways};
use marple_base::{Inputs, Sink, Which, write_all};
use stage_plan::plan_text;
use std::alloc::Global;

/// Writes the text of the query's plan. The trace isn't opened.
pub fn write_stages<I: Inputs, O: Sink>(
    alloc: Global,
    ways: Ways,
    inputs: &mut I,
    out: &mut O,
) -> Result<(), Status>
    requires closed { IsClosed (I.input inputs.old Which.Query) }
    ensures ends { Ends O.taken O.faults (Command.Plan ways) (I.input inputs.old) (I.input inputs.new) out.old out.new (status_of result) }
    ensures trace_kept { I.input inputs.new Which.Trace ≡ I.input inputs.old Which.Trace }
    ensures lost { LosesUpTo (MAX_QUERY + 1) (I.input inputs.old Which.Query) (I.input inputs.new Which.Query) }
    ensures query_later { (I.input inputs.old Which.Query).faults ≤ (I.input inputs.new Which.Query).faults }
    ensures out_later { O.faults out.old ≤ O.faults out.new }
{
    let query = read_query(alloc, inputs)?;
    let made = plan_text(alloc, &query.plan, ways.number());
    drop(query);
    let text = made?;
    write_all(out, text.as_slice())?;
    Ok(())
}
