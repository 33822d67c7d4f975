//! A report over packets, with the ways that a setting gives.

ghost use Rattle.std.specs.{Prelude.{◌≡◌, ◌<◌, ◌≤◌, ℕ, List, None, IfOk, IfErr}, Io.KnownBytes.Appends};
ghost use Rattle.epoch_model.specs.Epochs.{Geometry};
ghost use Rattle.stage_plan.specs.Packets.{AreWhole};
ghost use Rattle.switch_core.specs.{PlanLanes.PipelineStands, Ends.end_machines};
ghost use Rattle.trace_drive.specs.{Answers.BreaksOff, Drives.{coming, fault_of, words_of}};
ghost use Rattle.command_line.specs.Command.{IsSetting};
ghost use Rattle.query_run.specs.{Driven.{IsLeftWith, geometry_of, pipeline_in}, Reports.{MayPrint, Prints, entries_for}};
ghost use Rattle.query_run.specs.Views.{CanBeViewed, views_text};

use crate::driven::Driven;
use crate::report::Report;
use crate::run::run_report;
use command_line::{Setting, Ways};
use marple_base::{Sink, Steps};
use stage_plan::Plan;
use std::alloc::Global;
use std::sync::ledger::Ledger;
use trace_drive::{Packets, RunError};

/// Makes the setting's ways, a value, into the number of ways of a pipeline, which is part of its type; and runs the report.
pub(crate) fn run_with_its_ways<O: Sink, L: Ledger>(
    alloc: Global,
    setting: Setting,
    every: u32,
    report: &Report,
    plan: Plan,
    packets: Packets<'_>,
    out: &mut O,
    steps: &mut Steps<L>,
) -> Result<Driven, RunError>
    requires setting { IsSetting setting }
    requires may_print { MayPrint report.now plan }
    requires whole { AreWhole (words_of (coming packets)) }
    requires viewed { 0 < every → CanBeViewed packets }
    ensures accepted { IfOk result (λ driven. fault_of packets.entry ≡ None) }
    ensures written { IfOk result (λ driven. (text : Geometry → List (List ℕ) → List ℕ)
        → Prints report.now plan text → Appends (O.taken out.old) (O.taken out.new)
        (views_text (text (geometry_of setting)) every (words_of (coming packets.entry)))) }
    ensures plan { IfOk result (λ driven. (pipeline_in driven).plan ≡ plan) }
    ensures left { IfOk result (IsLeftWith (entries_for report.now) setting) }
    ensures stands { IfOk result (λ driven. PipelineStands (pipeline_in driven)
        (end_machines plan (geometry_of setting) (words_of (coming packets.entry)))) }
    ensures breaks_off { IfErr result (λ answer. (text : Geometry → List (List ℕ) → List ℕ)
        → Prints report.now plan text → BreaksOff O.taken O.faults
        (views_text (text (geometry_of setting)) every (words_of (coming packets.entry)))
        (fault_of packets.entry) out.old out.new answer) }
    ensures out_later { O.faults out.old ≤ O.faults out.new }
    ensures steps { steps.old ≤ steps.new }
{
    // What a run with these ways leaves, in the variant for them, or the answer that it broke off with. It is what `?` does,
    // without the two calls that `?` stands for, each of which is more to prove for each number of ways.
    macro_rules! left_in {
        ($variant:ident) => {
            match run_report(alloc, setting, every, report, plan, packets, out, steps) {
                Ok(pipeline) => Ok(Driven::$variant(pipeline)),
                Err(answer) => Err(answer),
            }
        };
    }
    match setting.ways {
        Ways::One => left_in!(Ways1),
        Ways::Two => left_in!(Ways2),
        Ways::Four => left_in!(Ways4),
        Ways::Eight => left_in!(Ways8),
        Ways::Sixteen => left_in!(Ways16),
        Ways::ThirtyTwo => left_in!(Ways32),
    }
}
