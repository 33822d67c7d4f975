//! A report over the packets of a trace, or over generated packets.

ghost use Rattle.std.specs.{Prelude.{◌≡◌, ◌≤◌, ℕ, List, None, IfOk, IfErr}, Io.KnownBytes.Appends};
ghost use Rattle.epoch_model.specs.Epochs.{Geometry};
ghost use Rattle.stage_plan.specs.Packets.{AreWhole};
ghost use Rattle.switch_core.specs.{PlanLanes.PipelineStands, Ends.end_machines};
ghost use Rattle.trace_drive.specs.{Answers.BreaksOff, Drives.words_of};
ghost use Rattle.trace_reader.specs.Traces.{trace_fault, packets};
ghost use Rattle.command_line.specs.Command.{IsSetting};
ghost use Rattle.query_run.specs.{Driven.{IsLeftWith, geometry_of, pipeline_in}, Reports.{MayPrint, Prints, entries_for}, Views.views_text};

use crate::acceptance::opened_trace;
use crate::driven::Driven;
use crate::report::Report;
use crate::ways::run_with_its_ways;
use command_line::Setting;
use marple_base::{Packet, Seq, Sink, Steps};
use stage_plan::Plan;
use std::alloc::Global;
use std::sync::ledger::Ledger;
use trace_drive::{Packets, RunError, read_packets_are_few, read_packets_are_whole};

/// Opens the trace of these bytes for what the plan reads, and runs the plan over its packets. It writes a view of the report
/// after each packet whose number is a multiple of `every`, none where that is 0, and at the end the report of all packets. A
/// trace that has a fault is refused before anything is written. The pipeline that is left represents the machines of the
/// plan's groupbys after the last packet.
pub fn run_over_trace<O: Sink, L: Ledger>(
    alloc: Global,
    setting: Setting,
    every: u32,
    report: &Report,
    plan: Plan,
    bytes: &[u8],
    out: &mut O,
    steps: &mut Steps<L>,
) -> Result<Driven, RunError>
    requires setting { IsSetting setting }
    requires may_print { MayPrint report.now plan }
    ensures accepted { IfOk result (λ driven. trace_fault bytes.now plan.reads ≡ None) }
    ensures written { IfOk result (λ driven. (text : Geometry → List (List ℕ) → List ℕ)
        → Prints report.now plan text → Appends (O.taken out.old) (O.taken out.new)
        (views_text (text (geometry_of setting)) every (words_of (packets bytes.now plan.reads)))) }
    ensures plan { IfOk result (λ driven. (pipeline_in driven).plan ≡ plan) }
    ensures left { IfOk result (IsLeftWith (entries_for report.now) setting) }
    ensures stands { IfOk result (λ driven. PipelineStands (pipeline_in driven)
        (end_machines plan (geometry_of setting) (words_of (packets bytes.now plan.reads)))) }
    ensures breaks_off { IfErr result (λ answer. (text : Geometry → List (List ℕ) → List ℕ)
        → Prints report.now plan text → BreaksOff O.taken O.faults
        (views_text (text (geometry_of setting)) every (words_of (packets bytes.now plan.reads)))
        (trace_fault bytes.now plan.reads) out.old out.new answer) }
    ensures out_later { O.faults out.old ≤ O.faults out.new }
    ensures steps { steps.old ≤ steps.new }
{
    read_packets_are_whole();
    read_packets_are_few();
    let packets = opened_trace(alloc, bytes, plan.reads(), every)?;
    run_with_its_ways(alloc, setting, every, report, plan, packets, out, steps)
}

/// Runs a plan over generated packets, and writes the report of all of them.
pub fn run_over_made<O: Sink, L: Ledger>(
    alloc: Global,
    setting: Setting,
    report: &Report,
    plan: Plan,
    made: Seq<Packet>,
    out: &mut O,
    steps: &mut Steps<L>,
) -> Result<Driven, RunError>
    requires setting { IsSetting setting }
    requires may_print { MayPrint report.now plan }
    requires whole { AreWhole (words_of made) }
    ensures written { IfOk result (λ driven. (text : Geometry → List (List ℕ) → List ℕ)
        → Prints report.now plan text
        → Appends (O.taken out.old) (O.taken out.new) (text (geometry_of setting) (words_of made))) }
    ensures plan { IfOk result (λ driven. (pipeline_in driven).plan ≡ plan) }
    ensures left { IfOk result (IsLeftWith (entries_for report.now) setting) }
    ensures stands { IfOk result (λ driven. PipelineStands (pipeline_in driven)
        (end_machines plan (geometry_of setting) (words_of made))) }
    ensures breaks_off { IfErr result (λ answer. (text : Geometry → List (List ℕ) → List ℕ)
        → Prints report.now plan text
        → BreaksOff O.taken O.faults (text (geometry_of setting) (words_of made)) None out.old out.new answer) }
    ensures out_later { O.faults out.old ≤ O.faults out.new }
    ensures steps { steps.old ≤ steps.new }
{
    let left = run_with_its_ways(
        alloc,
        setting,
        0,
        report,
        plan,
        Packets::Made(made, 0),
        out,
        steps,
    )?;
    Ok(left)
}
