//! What a report writes of a pipeline, in the middle of a trace and at its end.

ghost use Rattle.std.specs.{Prelude.{◌≡◌, ◌++◌, ◌≤◌, ℕ, List, None, IfErr, IfOk, OnOk, true}, Io.KnownBytes.Appends, List.list_all};
ghost use Rattle.epoch_model.specs.{Epochs.Geometry, Laws.HasRoom};
ghost use Rattle.stage_plan.specs.Packets.{AreWhole};
ghost use Rattle.switch_core.specs.{PlanLanes.{PipelineStands, lane_is_drained}, Ends.end_machines};
ghost use Rattle.trace_drive.specs.Answers.{BreaksOff};
ghost use Rattle.query_run.specs.{Reports.{CanPrint, MayPrint, Prints, entries_for, printed_by}, Views.{IsAsFarAs, view_line, view_text}};

use crate::report::Report;
use final_queries::Table;
use itoa::Buffer;
use live_view::{view, views_end_the_trace};
use marple_base::{Seq, Sink, Steps, TextBuffer};
use std::alloc::{AllocError, Global};
use std::sync::ledger::Ledger;
use switch_core::Pipeline;
use trace_drive::RunError;

// Writes these bytes, and then what a report prints of tables: all of it, or some first bytes.
fn write_report<O: Sink, L: Ledger>(
    alloc: Global,
    report: &Report,
    tables: Seq<Table>,
    first: TextBuffer,
    out: &mut O,
    steps: &mut Steps<L>,
) -> Result<(), RunError>
    requires can_print { CanPrint report.now tables }
    ensures written { OnOk result (Appends (O.taken out.old) (O.taken out.new) (first ++ printed_by report.now tables)) }
    ensures breaks_off { IfErr result
        (BreaksOff O.taken O.faults (first ++ printed_by report.now tables) None out.old out.new) }
    ensures out_later { O.faults out.old ≤ O.faults out.new }
    ensures steps { steps.old ≤ steps.new }
{
    let mut text = first;
    report.print(alloc, tables, &mut text, out, steps)?;
    text.write_rest(out)?;
    Ok(())
}

/// Writes what a report prints of a drained pipeline, at the end of packets: all of it, or some first bytes.
pub(crate) fn write_end<const WAYS: usize, O: Sink, L: Ledger>(
    alloc: Global,
    report: &Report,
    pipeline: &Pipeline<WAYS>,
    out: &mut O,
    steps: &mut Steps<L>,
) -> Result<(), RunError>
    requires may_print { MayPrint report.now pipeline.now.plan }
    requires entries { pipeline.now.entries ≡ entries_for report.now }
    requires drained { list_all lane_is_drained pipeline.now.lanes ≡ true }
    requires ends { (g : Geometry) × (packets : List (List ℕ)) × HasRoom g × AreWhole packets
        × PipelineStands pipeline.now (end_machines pipeline.now.plan g packets) }
    ensures written { OnOk result ((text : Geometry → List (List ℕ) → List ℕ) (g : Geometry) (packets : List (List ℕ))
        → Prints report.now pipeline.now.plan text → HasRoom g → AreWhole packets
        → PipelineStands pipeline.now (end_machines pipeline.now.plan g packets)
        → Appends (O.taken out.old) (O.taken out.new) (text g packets)) }
    ensures breaks_off { IfErr result (λ answer. (text : Geometry → List (List ℕ) → List ℕ) (g : Geometry)
        (packets : List (List ℕ)) → Prints report.now pipeline.now.plan text
        → HasRoom g → AreWhole packets → PipelineStands pipeline.now (end_machines pipeline.now.plan g packets)
        → BreaksOff O.taken O.faults (text g packets) None out.old out.new answer) }
    ensures out_later { O.faults out.old ≤ O.faults out.new }
    ensures steps { steps.old ≤ steps.new }
{
    pipeline.invariant();
    pipeline.plan().invariant();
    let tables = pipeline.close()?;
    write_report(alloc, report, tables, TextBuffer::new(alloc), out, steps)
}

// The first line of the view after this number of packets.
fn view_line(alloc: Global, number: u32) -> Result<TextBuffer, AllocError>
    ensures { IfOk result (λ line. line ≡ view_line number) }
{
    let mut buffer = Buffer::new();
    let mut line = TextBuffer::new(alloc);
    line.push_slice(b"view ")?;
    line.push_slice(buffer.format(number).as_bytes())?;
    line.push(b'\n')?;
    Ok(line)
}

/// Writes the view after this number of packets, all of it or some first bytes: a line, and what a report prints of the packets
/// that were taken so far, as if the trace ended with them. The pipeline is left unchanged.
pub(crate) fn write_view<const WAYS: usize, O: Sink, L: Ledger>(
    alloc: Global,
    report: &Report,
    pipeline: &Pipeline<WAYS>,
    number: u32,
    out: &mut O,
    steps: &mut Steps<L>,
) -> Result<(), RunError>
    requires may_print { MayPrint report.now pipeline.now.plan }
    requires entries { pipeline.now.entries ≡ entries_for report.now }
    requires seen { (g : Geometry) × (packets : List (List ℕ)) × IsAsFarAs g packets number pipeline.now }
    ensures written { OnOk result ((text : Geometry → List (List ℕ) → List ℕ) (g : Geometry) (packets : List (List ℕ))
        → Prints report.now pipeline.now.plan text → IsAsFarAs g packets number pipeline.now
        → Appends (O.taken out.old) (O.taken out.new) (view_text (text g) packets number)) }
    ensures breaks_off { IfErr result (λ answer. (text : Geometry → List (List ℕ) → List ℕ) (g : Geometry)
        (packets : List (List ℕ)) → Prints report.now pipeline.now.plan text
        → IsAsFarAs g packets number pipeline.now
        → BreaksOff O.taken O.faults (view_text (text g) packets number) None out.old out.new answer) }
    ensures out_later { O.faults out.old ≤ O.faults out.new }
    ensures steps { steps.old ≤ steps.new }
{
    views_end_the_trace();
    pipeline.invariant();
    pipeline.plan().invariant();
    let tables = view(alloc, pipeline, steps)?;
    let line = view_line(alloc, number)?;
    write_report(alloc, report, tables, line, out, steps)
}
