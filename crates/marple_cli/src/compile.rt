//! The plan of a query as a text.
ghost use Rattle.std.specs.Prelude.{◌≡◌, ◌+◌, ◌≤◌};
ghost use Rattle.marple_base.specs.Inputs.{IsClosed, LosesUpTo};
ghost use Rattle.query_lang.specs.declared.fault.TheConstants.{MAX_QUERY};
ghost use Rattle.marple_cli.specs.Ends.{Ends, status_of};

use command_answers::{Check, Status, query_for};
use command_line::Command;
use marple_base::{Inputs, Sink, Which, write_all};
use plan_writer::plan_file_text;
use std::alloc::Global;

/// Writes the plan of the query, as a text that can be run. The trace isn't opened.
pub fn compile<I: Inputs, O: Sink>(alloc: Global, inputs: &mut I, out: &mut O) -> Result<(), Status>
    requires closed { IsClosed (I.input inputs.old Which.Query) }
    ensures ends { Ends O.taken O.faults Command.Compile (I.input inputs.old) (I.input inputs.new) out.old out.new (status_of result) }
    ensures trace_kept { I.input inputs.new Which.Trace ≡ I.input inputs.old Which.Trace }
    ensures lost { LosesUpTo (MAX_QUERY + 1) (I.input inputs.old Which.Query) (I.input inputs.new Which.Query) }
    ensures query_later { (I.input inputs.old Which.Query).faults ≤ (I.input inputs.new Which.Query).faults }
    ensures out_later { O.faults out.old ≤ O.faults out.new }
{
    let query = query_for(alloc, inputs, Check::PlanText)?;
    let made = plan_file_text(alloc, &query.typed, &query.plan);
    drop(query);
    let text = made?;
    write_all(out, text.as_slice())?;
    Ok(())
}
