//! A report over packets.

ghost use Rattle.std.specs.{Prelude.{◌≡◌, ◌<◌, ◌≤◌, ℕ, List, None, IfErr, IfOk, true}, Io.KnownBytes.Appends, List.list_all};
ghost use Rattle.command_line.specs.Command.{IsSetting, ways_number};
ghost use Rattle.epoch_model.specs.Epochs.{Geometry};
ghost use Rattle.stage_plan.specs.Packets.{AreWhole};
ghost use Rattle.switch_core.specs.Pipelines.{empty_machines, geometry_without_refresh};
ghost use Rattle.switch_core.specs.{PlanLanes.{HavePlaces, PipelineStands, PipelineView, lane_is_drained}, Ends.end_machines};
ghost use Rattle.trace_drive.specs.{Answers.BreaksOff, Drives.{coming, fault_of, words_of}, Turns.RunsInTurns};
ghost use Rattle.query_run.specs.{Driven.geometry_of, Reports.{MayPrint, Prints, entries_for}, Views.{CanBeViewed, views_text}};

use crate::report::Report;
use crate::showing::write_end;
use crate::views::write_views;
use command_line::Setting;
use marple_base::{Sink, Steps};
use stage_plan::Plan;
use std::alloc::Global;
use std::sync::ledger::Ledger;
use switch_core::Pipeline;
use trace_drive::{Packets, RunError, Schedule};

// The schedule of a pipeline with this setting: its sizes, and when it does what no packet asks for.
fn schedule_of(setting: Setting) -> Schedule
    ensures { result ≡ record { buckets = setting.buckets; pipe = setting.pipe; lag = setting.lag; refresh = setting.refresh } }
{
    Schedule {
        buckets: setting.buckets,
        pipe: setting.pipe,
        lag: setting.lag,
        refresh: setting.refresh,
    }
}

/// Runs a plan over packets, with caches of `WAYS` ways, and writes its report: a view after each packet whose number is a
/// multiple of `every`, none where that is 0, and at the end the report of all packets. The pipeline represents the machines
/// of the plan's groupbys at the end. Nothing but the views is written before the end.
pub(crate) fn run_report<const WAYS: usize, O: Sink, L: Ledger>(
    alloc: Global,
    setting: Setting,
    every: u32,
    report: &Report,
    plan: Plan,
    packets: Packets<'_>,
    out: &mut O,
    steps: &mut Steps<L>,
) -> Result<Pipeline<WAYS>, RunError>
    requires setting { IsSetting setting }
    requires ways { (0 < WAYS) × (ways_number setting.ways ≡ WAYS) }
    requires may_print { MayPrint report.now plan }
    requires whole { AreWhole (words_of (coming packets)) }
    requires viewed { 0 < every → CanBeViewed packets }
    ensures accepted { IfOk result (λ pipeline. fault_of packets.entry ≡ None) }
    ensures written { IfOk result (λ pipeline. (text : Geometry → List (List ℕ) → List ℕ)
        → Prints report.now plan text → Appends (O.taken out.old) (O.taken out.new)
        (views_text (text (geometry_of setting)) every (words_of (coming packets.entry)))) }
    ensures plan { IfOk result (λ pipeline. pipeline.plan ≡ plan) }
    ensures entries { IfOk result (λ pipeline. pipeline.entries ≡ entries_for report.now) }
    ensures machines { IfOk result
        (λ pipeline. PipelineStands pipeline (end_machines plan (geometry_of setting) (words_of (coming packets.entry)))) }
    ensures turns { IfOk result (λ pipeline. (fresh : PipelineView)
        × PipelineStands fresh (empty_machines (geometry_without_refresh WAYS setting.buckets) plan.groups)
        × RunsInTurns WAYS setting.refresh setting.lag (words_of (coming packets.entry)) fresh pipeline) }
    ensures drained { IfOk result (λ pipeline. list_all lane_is_drained pipeline.lanes ≡ true) }
    ensures buckets { IfOk result (λ pipeline. pipeline.buckets ≡ setting.buckets) }
    ensures pipe_places { IfOk result (λ pipeline. HavePlaces setting.pipe pipeline.lanes) }
    ensures breaks_off { IfErr result (λ answer. (text : Geometry → List (List ℕ) → List ℕ)
        → Prints report.now plan text → BreaksOff O.taken O.faults
        (views_text (text (geometry_of setting)) every (words_of (coming packets.entry)))
        (fault_of packets.entry) out.old out.new answer) }
    ensures out_later { O.faults out.old ≤ O.faults out.new }
    ensures steps { steps.old ≤ steps.new }
{
    let schedule = schedule_of(setting);
    let fresh = Pipeline::new(alloc, plan, report.entries(), setting.buckets, setting.pipe)?;
    let replay = write_views(alloc, report, fresh, schedule, every, packets, out, steps)?;
    let pipeline = replay.finish(steps)?;
    write_end(alloc, report, &pipeline, out, steps)?;
    Ok(pipeline)
}
