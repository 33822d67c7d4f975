//! A report over the trace of a command.
ghost use Rattle.std.specs.{Prelude.{◌≡◌, ◌≤◌, ◌+◌, ℕ, List, None, IfOk, IfErr, IfSome}, Io.KnownBytes.Appends};
ghost use Rattle.epoch_model.specs.Epochs.{Geometry};
ghost use Rattle.marple_base.specs.Inputs.{IsClosed, LosesUpTo};
ghost use Rattle.switch_core.specs.{PlanLanes.PipelineStands, Ends.end_machines};
ghost use Rattle.trace_drive.specs.Drives.{words_of};
ghost use Rattle.trace_reader.specs.Traces.{trace_fault, packets};
ghost use Rattle.command_answers.specs.Phases.{TraceEnds};
ghost use Rattle.command_line.specs.Command.{IsSetting};
ghost use Rattle.query_run.specs.{Driven.{IsLeftWith, geometry_of, pipeline_in}, Reports.{MayPrint, Prints, entries_for}, Views.views_text};

use command_answers::{Status, read_trace};
use command_line::Setting;
use marple_base::{Inputs, Sink, Steps, Which};
use query_run::{Driven, Report, run_over_trace};
use stage_plan::Plan;
use std::alloc::Global;
use std::sync::ledger::Ledger;
use trace_reader::MAX_TRACE;

/// Reads the trace, runs the plan over its packets, and writes the report: a view after each packet whose number is a
/// multiple of `every`, none where that is 0, and the report of all packets at the end. What is left is the pipeline after
/// the last packet.
pub fn report_over<I: Inputs, O: Sink, L: Ledger>(
    alloc: Global,
    setting: Setting,
    every: u32,
    report: Report,
    plan: Plan,
    inputs: &mut I,
    out: &mut O,
    steps: &mut Steps<L>,
) -> Result<Driven, Status>
    requires setting { IsSetting setting }
    requires closed { IsClosed (I.input inputs.old Which.Trace) }
    requires may_print { MayPrint report plan }
    ensures accepted { IfOk result (λ driven. IfSome (I.input inputs.old Which.Trace).left
        (λ trace. trace_fault trace plan.reads ≡ None)) }
    ensures written { IfOk result (λ driven. (text : Geometry → List (List ℕ) → List ℕ)
        → Prints report plan text → IfSome (I.input inputs.old Which.Trace).left (λ trace.
        Appends (O.taken out.old) (O.taken out.new)
        (views_text (text (geometry_of setting)) every (words_of (packets trace plan.reads))))) }
    ensures plan { IfOk result (λ driven. (pipeline_in driven).plan ≡ plan) }
    ensures left { IfOk result (IsLeftWith (entries_for report) setting) }
    ensures stands { IfOk result (λ driven. IfSome (I.input inputs.old Which.Trace).left (λ trace.
        PipelineStands (pipeline_in driven) (end_machines plan (geometry_of setting) (words_of (packets trace plan.reads))))) }
    ensures err { IfErr result (λ status. (text : Geometry → List (List ℕ) → List ℕ)
        → Prints report plan text → TraceEnds O.taken O.faults
        (λ trace. trace_fault trace plan.reads)
        (λ trace. views_text (text (geometry_of setting)) every (words_of (packets trace plan.reads)))
        (I.input inputs.old Which.Trace) (I.input inputs.new Which.Trace) out.old out.new status) }
    ensures lost { LosesUpTo (MAX_TRACE + 1) (I.input inputs.old Which.Trace) (I.input inputs.new Which.Trace) }
    ensures later { (I.input inputs.old Which.Trace).faults ≤ (I.input inputs.new Which.Trace).faults }
    ensures query_kept { I.input inputs.new Which.Query ≡ I.input inputs.old Which.Query }
    ensures out_later { O.faults out.old ≤ O.faults out.new }
    ensures steps { steps.old ≤ steps.new }
{
    let bytes = read_trace(alloc, inputs)?;
    let left = run_over_trace(
        alloc,
        setting,
        every,
        &report,
        plan,
        bytes.as_slice(),
        out,
        steps,
    )?;
    Ok(left)
}
