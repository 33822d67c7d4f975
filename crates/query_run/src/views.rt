//! The views of a trace, written in turn.

ghost use Rattle.std.specs.{Prelude.{◌≡◌, ◌<◌, ◌≤◌, ℕ, List, IfErr, IfOk, length}, Io.KnownBytes.Appends};
ghost use Rattle.epoch_model.specs.Epochs.{Geometry};
ghost use Rattle.stage_plan.specs.Packets.{AreWhole};
ghost use Rattle.switch_core.specs.{Pipelines.{empty_machines, geometry_without_refresh}, PlanLanes.PipelineStands};
ghost use Rattle.trace_drive.specs.{Answers.BreaksOff, Drives.{coming, fault_of, geometry_for, words_of}, Follows.Keeps};
ghost use Rattle.trace_drive.specs.Replays.{HasTaken, IsUnderWay, replay_fault, replay_pipeline};
ghost use Rattle.query_run.specs.{Reports.{MayPrint, Prints, entries_for}, Views.{CanBeViewed, views_text, views_up_to}};

use crate::report::Report;
use crate::showing::write_view;
use marple_base::{Sink, Steps};
use std::alloc::Global;
use std::sync::ledger::Ledger;
use switch_core::Pipeline;
use trace_drive::{Packets, Replay, RunError, Schedule};

/// Writes a view after each packet whose number is a multiple of `every`, and none where that is 0. The packets are taken as
/// far as the last view needs. The memory of a view is freed before the next one.
pub(crate) fn write_views<'a, const WAYS: usize, O: Sink, L: Ledger>(
    alloc: Global,
    report: &Report,
    pipeline: Pipeline<WAYS>,
    schedule: Schedule,
    every: u32,
    packets: Packets<'a>,
    out: &mut O,
    steps: &mut Steps<L>,
) -> Result<Replay<'a, WAYS>, RunError>
    requires fresh { PipelineStands pipeline (empty_machines (geometry_without_refresh WAYS pipeline.buckets) pipeline.plan.groups) }
    requires buckets { pipeline.buckets ≡ schedule.buckets }
    requires room { (0 < WAYS) × (0 < schedule.buckets) }
    requires may_print { MayPrint report.now pipeline.plan }
    requires entries { pipeline.entries ≡ entries_for report.now }
    requires whole { AreWhole (words_of (coming packets)) }
    requires viewed { 0 < every → CanBeViewed packets }
    ensures written { IfOk result (λ replay. (text : Geometry → List (List ℕ) → List ℕ)
        → Prints report.now pipeline.entry.plan text
        → Appends (O.taken out.old) (O.taken out.new) (views_up_to (text (geometry_for WAYS schedule)) every
        (words_of (coming packets.entry)) (length (coming packets.entry)))) }
    ensures under_way { IfOk result (λ replay. (count : ℕ) × IsUnderWay schedule (coming packets.entry) count replay) }
    ensures turns { IfOk result (HasTaken schedule (coming packets.entry) pipeline.entry) }
    ensures fault { IfOk result (λ replay. replay_fault replay ≡ fault_of packets.entry) }
    ensures keeps { IfOk result (λ replay. Keeps pipeline.entry (replay_pipeline replay)) }
    ensures untouched { every ≡ 0 → out.new ≡ out.old }
    ensures breaks_off { IfErr result (λ answer. (text : Geometry → List (List ℕ) → List ℕ)
        → Prints report.now pipeline.entry.plan text → BreaksOff O.taken O.faults
        (views_text (text (geometry_for WAYS schedule)) every (words_of (coming packets.entry)))
        (fault_of packets.entry) out.old out.new answer) }
    ensures out_later { O.faults out.old ≤ O.faults out.new }
    ensures steps { steps.old ≤ steps.new }
{
    let mut replay = Replay::new(pipeline, schedule, packets);
    if every == 0 {
        return Ok(replay);
    }
    let mut number = 0;
    'views: while replay.advance(every, steps)? {
        number += every;
        write_view(alloc, report, replay.pipeline(), number, out, steps)?;
    }
    Ok(replay)
}
