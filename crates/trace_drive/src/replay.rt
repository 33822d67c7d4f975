//! A trace on its way through a pipeline.

ghost use Rattle.std.specs.{Prelude.{◌≡◌, ◌≤◌, ℕ, None, Some, IfErr, IfOk, OnOk, false, true}, List.list_all};
ghost use Rattle.epoch_model.specs.Machine.{Machine, empty_buckets};
ghost use Rattle.switch_core.specs.Pipelines.{empty_machines, geometry_without_refresh};
ghost use Rattle.switch_core.specs.{PlanLanes.{AreKept, HavePlaces, PipelineStands, lane_is_drained}, Ends.end_machines};
ghost use Rattle.trace_drive.specs.{Drives.{coming, fault_of, geometry_for, words_of}, Follows.{FollowsBy, Keeps}};
ghost use Rattle.trace_drive.specs.Replays.{Advances, EndsInTurns, IsOnItsWay, IsUnderWay, MakesAllTurns, MakesTheirTurns, ReachesTheEnd};
ghost use Rattle.trace_drive.specs.{Replays.{TakesTheRest, replay_fault, replay_pipeline}, Turns.{Drains, RunsInTurns}};
ghost use Rattle.trace_reader.specs.Faults.{IfRefused};

use crate::clock::Clock;
use crate::packets::Packets;
use crate::schedule::Schedule;
use crate::turn::turn;
use epoch_model::{
    events_keep_alike, packets_follow_the_trace, sweeps_reach_the_end, taken_uses_are_in_trace,
};
use marple_base::{FIELDS, Packet, Steps};
use std::alloc::AllocError;
use std::sync::ledger::Ledger;
use switch_core::{Pipeline, Upkeep};
use trace_reader::TraceAnswer;

/// A trace that is taken packet by packet: its pipeline, the packets still to come, and when the next refresh and the next
/// merges are due. Between two calls the pipeline can be read.
#[derive(Drop)]
pub struct Replay<'a, const WAYS: usize> {
    pipeline: Pipeline<WAYS>,
    packets: Packets<'a>,
    refreshes: Clock,
    lags: Clock,
}

fn drain<const WAYS: usize, L: Ledger>(
    pipeline: &mut Pipeline<WAYS>,
    steps: &mut Steps<L>,
) -> Result<(), AllocError>
    ensures follows { OnOk result ((after : ℕ → Machine) → FollowsBy after pipeline.old
        → FollowsBy (λ i. empty_buckets pipeline.old.buckets (after i)) pipeline.new) }
    ensures drains { OnOk result (Drains WAYS pipeline.old pipeline.new) }
    ensures empty { OnOk result (AreKept Upkeep.Rest pipeline.new.lanes) }
    ensures keeps { OnOk result (Keeps pipeline.old pipeline.new) }
    ensures steps { steps.old ≤ steps.new }
{
    events_keep_alike();
    pipeline.sweep(steps)?;
    pipeline.keep_up(Upkeep::Rest, steps)
}

impl<'a, const WAYS: usize> Replay<'a, WAYS> {
    /// A trace at its first packet, on a pipeline in which no epoch was opened yet.
    pub fn new(
        pipeline: Pipeline<WAYS>,
        schedule: Schedule,
        packets: Packets<'a>,
    ) -> Replay<'a, WAYS>
        requires fresh { PipelineStands pipeline (empty_machines (geometry_without_refresh WAYS pipeline.buckets) pipeline.plan.groups) }
        requires buckets { pipeline.buckets ≡ schedule.buckets }
        ensures under_way { IsUnderWay schedule (coming packets.entry) 0 result }
        ensures fault { replay_fault result ≡ fault_of packets.entry }
        ensures pipeline { replay_pipeline result ≡ pipeline.entry }
    {
        events_keep_alike();
        packets_follow_the_trace();
        let refreshes = Clock::new(schedule.refresh);
        let lags = Clock::new(schedule.lag);
        Replay {
            pipeline,
            packets,
            refreshes,
            lags,
        }
    }

    /// The pipeline, as it is after the packets that were taken.
    pub fn pipeline(&self) -> &Pipeline<WAYS>
        ensures { result.now ≡ replay_pipeline self.now }
    {
        &self.pipeline
    }

    // The next packet, with the merges and the sweep that are due; and whether there was one.
    #[inline(always)]
    fn step<L: Ledger>(
        &mut self,
        packet: &mut Packet,
        steps: &mut Steps<L>,
    ) -> Result<bool, TraceAnswer>
        requires { IsOnItsWay self.old }
        ensures next { result ≡ Ok true → Advances 1 self.old self.new }
        ensures turn { result ≡ Ok true → MakesTheirTurns 1 self.old self.new }
        ensures end { result ≡ Ok false → TakesTheRest 1 self.old self.new }
        ensures still { result ≡ Ok false → replay_pipeline self.new ≡ replay_pipeline self.old }
        ensures accepted { result ≡ Ok false → replay_fault self.old ≡ None }
        ensures fault { OnOk result (replay_fault self.new ≡ replay_fault self.old) }
        ensures keeps { OnOk result (Keeps (replay_pipeline self.old) (replay_pipeline self.new)) }
        ensures refused { IfErr result (λ answer. IfRefused answer (λ fault. replay_fault self.old ≡ Some fault)) }
        ensures steps { steps.old ≤ steps.new }
    {
        packets_follow_the_trace();
        taken_uses_are_in_trace();
        if !self.packets.next_into(packet)? {
            return Ok(false);
        }
        match turn(
            &mut self.pipeline,
            &mut self.refreshes,
            &mut self.lags,
            packet,
            steps,
        ) {
            Ok(()) => Ok(true),
            Err(AllocError) => Err(TraceAnswer::Memory),
        }
    }

    /// Takes `most` packets, or all that are left where there are fewer, and says whether there were as many. They are numbered
    /// from 1; for each one, in this order: each lane whose pipe is full merges a record; the packet; a sweep, where the
    /// number is a multiple of the refresh; a merge of each lane, where it is a multiple of the lag. No memory is taken for a
    /// packet, except by a store for a new key, and for a further epoch of a key where each has a row.
    pub fn advance<L: Ledger>(
        &mut self,
        most: u32,
        steps: &mut Steps<L>,
    ) -> Result<bool, TraceAnswer>
        requires { IsOnItsWay self.old }
        ensures all { result ≡ Ok true → Advances most self.old self.new }
        ensures turns { result ≡ Ok true → MakesTheirTurns most self.old self.new }
        ensures end { result ≡ Ok false → TakesTheRest most self.old self.new }
        ensures all_turns { result ≡ Ok false → MakesAllTurns self.old (replay_pipeline self.new) }
        ensures accepted { result ≡ Ok false → replay_fault self.old ≡ None }
        ensures fault { OnOk result (replay_fault self.new ≡ replay_fault self.old) }
        ensures keeps { OnOk result (Keeps (replay_pipeline self.old) (replay_pipeline self.new)) }
        ensures refused { IfErr result (λ answer. IfRefused answer (λ fault. replay_fault self.old ≡ Some fault)) }
        ensures steps { steps.old ≤ steps.new }
    {
        let mut packet = Packet { words: [0; FIELDS] };
        'packets: for _taken in 0..most {
            if !self.step(&mut packet, steps)? {
                return Ok(false);
            }
        }
        Ok(true)
    }

    /// Takes the packets that are left, as `advance` does, and after the last one makes a sweep, and merges until each pipe is
    /// empty: the pipeline at the trace's end.
    pub fn finish<L: Ledger>(mut self, steps: &mut Steps<L>) -> Result<Pipeline<WAYS>, TraceAnswer>
        requires { IsOnItsWay self }
        ensures accepted { IfOk result (λ pipeline. replay_fault self.entry ≡ None) }
        ensures machines { IfOk result (ReachesTheEnd self.entry) }
        ensures turns { IfOk result (EndsInTurns self.entry) }
        ensures drained { IfOk result (λ pipeline. list_all lane_is_drained pipeline.lanes ≡ true) }
        ensures keeps { IfOk result (Keeps (replay_pipeline self.entry)) }
        ensures pipe_places { IfOk result (λ pipeline. (places : ℕ) → HavePlaces places (replay_pipeline self.entry).lanes
            → HavePlaces places pipeline.lanes) }
        ensures refused { IfErr result (λ answer. IfRefused answer (λ fault. replay_fault self.entry ≡ Some fault)) }
        ensures steps { steps.old ≤ steps.new }
    {
        events_keep_alike();
        sweeps_reach_the_end();
        let mut packet = Packet { words: [0; FIELDS] };
        'packets: while self.step(&mut packet, steps)? {}
        let Replay { mut pipeline, .. } = self;
        match drain(&mut pipeline, steps) {
            Ok(()) => {
                pipeline.invariant();
                Ok(pipeline)
            }
            Err(AllocError) => Err(TraceAnswer::Memory),
        }
    }
}

/// The pipeline of a plan after a whole trace: the packets in order, as `Replay::advance` takes them, and then
/// the end. The pipeline that is passed has opened no epoch yet.
pub fn drive<const WAYS: usize, L: Ledger>(
    pipeline: Pipeline<WAYS>,
    schedule: Schedule,
    packets: Packets<'_>,
    steps: &mut Steps<L>,
) -> Result<Pipeline<WAYS>, TraceAnswer>
    requires fresh { PipelineStands pipeline (empty_machines (geometry_without_refresh WAYS pipeline.buckets) pipeline.plan.groups) }
    requires buckets { pipeline.buckets ≡ schedule.buckets }
    ensures accepted { IfOk result (λ found. fault_of packets.entry ≡ None) }
    ensures machines { IfOk result
        (λ found. PipelineStands found (end_machines pipeline.entry.plan (geometry_for WAYS schedule) (words_of (coming packets.entry)))) }
    ensures turns { IfOk result (RunsInTurns WAYS schedule.refresh schedule.lag (words_of (coming packets.entry)) pipeline.entry) }
    ensures drained { IfOk result (λ found. list_all lane_is_drained found.lanes ≡ true) }
    ensures keeps { IfOk result (Keeps pipeline.entry) }
    ensures pipe_places { IfOk result (λ found. (places : ℕ) → HavePlaces places pipeline.entry.lanes
        → HavePlaces places found.lanes) }
    ensures refused { IfErr result (λ answer. IfRefused answer (λ fault. fault_of packets.entry ≡ Some fault)) }
    ensures steps { steps.old ≤ steps.new }
{
    let replay = Replay::new(pipeline, schedule, packets);
    let found = replay.finish(steps)?;
    Ok(found)
}
