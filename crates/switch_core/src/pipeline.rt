//! The lanes of a plan.

ghost use Rattle.std.specs.Prelude.{◌≡◌, ◌+◌, ◌*◌, ◌<◌, ◌≤◌, ◌==◌, ◌↔◌, not, true, List, length, map, slice_get, sum_by, if◌then◌else◌};
ghost use Rattle.std.specs.{Prelude.{IfOk, OnOk, OnErr, Some}, List.list_all};
ghost use Rattle.epoch_model.specs.{Machine.{Machine, Evict, Merge}, Timeline.IsSwept};
ghost use Rattle.switch_core.specs.{Rows.Each, Closing.held_in, Costs.evict_cost};
ghost use Rattle.switch_core.specs.Pipelines.{empty_machines, event_at, geometry_without_refresh, packet_events, tables_of};
ghost use Rattle.switch_core.specs.PlanLanes.{AreKept, AreLanesOf, AtLane, HavePlaces, IsMadeFor, PipelineIsSwept, PipelineMakes};
ghost use Rattle.switch_core.specs.PlanLanes.{PipelineStands, UpkeepBreaksOff, folding_at, lane_is_drained, lane_is_ready, lane_merge_cost};
ghost use Rattle.switch_core.specs.PlanLanes.{lane_sweep_cost, lane_upkeep_cost, pipeline_cost, stored_tables, upkeeps_at};
ghost use Rattle.bucket_cache.specs.Caches.{list_at};
ghost use Rattle.fold_class.specs.Program.{IsProgramOf};
ghost use Rattle.query_lang.specs.declared.fold.TypedFold.{TypedFold};
ghost use Rattle.epoch_entry.specs.Purposes.{IsKindFor, runs_of};
ghost use Rattle.stage_plan.specs.{declared.group.GroupPlan.GroupPlan, Planned.plan_bound};

use crate::fetching::read_caches;
use crate::front::Merged;
use crate::lane::Lane;
use crate::lanes::{all_drained, all_ready, keep_lanes};
use crate::making::made_lanes;
use crate::registers::{fill_registers, registers_of};
use crate::tables::lane_tables;
use crate::upkeep::Upkeep;
use epoch_entry::{AnyEpochs, Entries, EpochKind, entries_suit_folds};
use epoch_model::{buckets_empty_by_evictions, events_keep_alike};
use final_queries::Table;
use fold_class::depth_is_found;
use marple_base::{Packet, Seq, Steps};
use query_lang::{MAX_ARGS, MAX_KEYS};
use stage_plan::Plan;
use std::alloc::{AllocError, Global};
use std::marker::Model;
use std::sync::ledger::Ledger;

/// A plan with a lane for each groupby, whose entries give the folds or bounds of them. Once it is made, only `merge`,
/// `keep_up`, `sweep` and `close` take memory.
pub struct Pipeline<const WAYS: usize> {
    alloc: Global,
    plan: Plan,
    entries: Entries,
    buckets: u32,
    lanes: Vec<Lane<AnyEpochs, WAYS>>,
    registers: Vec<u64>,
    key: Vec<u64>,
    args: Vec<u64>,
}

impl<const WAYS: usize> Drop for Pipeline<WAYS> {
    fn drop(self) {
        let Pipeline {
            alloc: _,
            plan: _,
            entries: _,
            buckets: _,
            lanes: _,
            registers: _,
            key: _,
            args: _,
        } = self;
    }
}

impl<const WAYS: usize> Model for Pipeline<WAYS> {
    ghost use Rattle.std.specs.Prelude.{map};
    ghost use Rattle.switch_core.specs.PlanLanes.{PipelineView, IsPipeline};

    ghost Value = { PipelineView };

    ghost view = { λ p. record { plan = p.plan; entries = p.entries; buckets = p.buckets; lanes = p.lanes.items } };

    ghost invariant = { λ p. IsPipeline WAYS (record {
      plan = p.plan;
      entries = p.entries;
      buckets = p.buckets;
      lanes = p.lanes.items;
    }) p.registers.items p.key.items p.args.items };
}

impl<const WAYS: usize> Pipeline<WAYS> {
    /// A lane for each groupby of the plan, with entries for this purpose, this number of buckets, and a pipe for this number
    /// of records. No epoch is open.
    pub fn new(
        alloc: Global,
        plan: Plan,
        entries: Entries,
        buckets: u32,
        pipe_records: u32,
    ) -> Result<Pipeline<WAYS>, AllocError>
        requires ways { 0 < WAYS }
        requires buckets { 0 < buckets }
        requires places { buckets * WAYS ≤ 65536 }
        requires pipe { (0 < pipe_records) × (pipe_records ≤ 65536) }
        ensures stands { IfOk result (λ p. PipelineStands p (empty_machines (geometry_without_refresh WAYS buckets) plan.groups)) }
        ensures plan { IfOk result (λ p. p.plan ≡ plan) }
        ensures entries { IfOk result (λ p. p.entries ≡ entries) }
        ensures buckets { IfOk result (λ p. p.buckets ≡ buckets) }
        ensures pipe_places { IfOk result (λ p. HavePlaces pipe_records p.lanes) }
    {
        let lanes = made_lanes(alloc, &plan, entries, buckets, pipe_records)?;
        let registers = vec![in alloc; 0; plan.registers()]?;
        let key = vec![in alloc; 0; MAX_KEYS]?;
        let args = vec![in alloc; 0; MAX_ARGS]?;
        Ok(Pipeline {
            alloc,
            plan,
            entries,
            buckets,
            lanes,
            registers,
            key,
            args,
        })
    }

    /// What holds of every pipeline: its lanes are those of the plan's groupbys, each with entries of its fold's
    /// kind for what they are for.
    pub fn invariant(&self)
        ensures { AreLanesOf self.now.entries self.now.plan self.now.buckets self.now.lanes }
    {
        let _buckets = self.buckets;
    }

    /// The number of lanes.
    pub fn lanes(&self) -> u32
        ensures { result ≡ length self.now.lanes }
    {
        self.plan.groups()
    }

    /// Whether every pipe has room for a record.
    pub fn ready(&self) -> bool
        ensures { result ≡ list_all lane_is_ready self.now.lanes }
    {
        all_ready(&self.lanes)
    }

    /// Whether the pipe of a lane has room for a record.
    pub fn lane_ready(&self, lane: u32) -> bool
        requires { lane < length self.now.lanes }
        ensures { AtLane (λ at. result ≡ lane_is_ready at) self.now.lanes lane }
    {
        let lane = self.lane(lane);
        lane.ready()
    }

    /// Takes a packet: each groupby whose input has a tuple for it has the packet event of its key and its arguments.
    #[inline(always)]
    pub fn packet<L: Ledger>(&mut self, p: &Packet, steps: &mut Steps<L>)
        requires { list_all lane_is_ready self.old.lanes ≡ true }
        ensures makes { PipelineMakes WAYS (packet_events self.old.plan p.now.words) self.old self.new }
        ensures steps { steps.old ≤ steps.new }
        ensures cost { steps.new ≤ steps.old + pipeline_cost WAYS self.old }
        ensures bound { steps.new ≤ steps.old + runs_of self.old.entries * plan_bound self.old.plan WAYS }
    {
        depth_is_found();
        entries_suit_folds();
        self.plan.invariant();
        fill_registers(&self.plan, p, &mut self.registers, steps);
        let registers = registers_of(&self.plan, p, &self.registers);
        let lanes: &mut [Lane<AnyEpochs, WAYS>] = &mut self.lanes;
        let key: &mut [u64] = &mut self.key;
        let args: &mut [u64] = &mut self.args;
        read_caches(self.buckets, lanes, &self.plan, registers, key, args);
        for i in 0..lanes.len() {
            let lane = &mut lanes[i];
            lane.take(&self.plan, i as u32, registers, key, args, steps);
        }
    }

    /// Closes the least recently used epoch of a bucket of a lane. False exactly where the bucket is empty.
    pub fn evict<L: Ledger>(&mut self, lane: u32, bucket: u32, steps: &mut Steps<L>) -> bool
        requires lane { lane < length self.old.lanes }
        requires ready { AtLane (λ at. lane_is_ready at ≡ true) self.old.lanes lane }
        requires range { bucket < self.old.buckets }
        ensures makes { PipelineMakes WAYS (event_at lane (Evict bucket)) self.old self.new }
        ensures some { AtLane (λ at. result ≡ not (length (list_at at.cache bucket) == 0)) self.old.lanes lane }
        ensures steps { steps.old ≤ steps.new }
        ensures cost { AtLane (λ at. steps.new ≡ steps.old
            + (if result then evict_cost at.cache.key_words at.cache.entry_words else 0)) self.old.lanes lane }
    {
        let lane = &mut self.lanes[lane as usize];
        lane.evict(bucket, steps)
    }

    /// Merges the oldest record of a lane's pipe into its store. Empty exactly where the pipe is empty.
    pub fn merge<L: Ledger>(
        &mut self,
        lane: u32,
        steps: &mut Steps<L>,
    ) -> Result<Merged, AllocError>
        requires { lane < length self.old.lanes }
        ensures makes { OnOk result (PipelineMakes WAYS (event_at lane Merge) self.old self.new) }
        ensures ready { OnOk result (AtLane (λ at. lane_is_ready at ≡ true) self.new.lanes lane) }
        ensures empty { AtLane (λ at. (result ≡ Ok Merged.Empty) ↔ (length at.pipe.records ≡ 0)) self.old.lanes lane }
        ensures err { OnErr result (self.new ≡ self.old) }
        ensures steps { steps.old ≤ steps.new }
        ensures cost { AtLane (λ at. steps.new ≤ steps.old + lane_merge_cost at) self.old.lanes lane }
    {
        let lane = &mut self.lanes[lane as usize];
        lane.merge(steps)
    }

    /// Does what is due at each lane, lane by lane. When out of memory, the lanes before one did it, that one made only the
    /// first of its events, and those after it none.
    #[inline(always)]
    pub fn keep_up<L: Ledger>(
        &mut self,
        upkeep: Upkeep,
        steps: &mut Steps<L>,
    ) -> Result<(), AllocError>
        ensures makes { OnOk result (PipelineMakes WAYS (upkeeps_at upkeep self.old.lanes) self.old self.new) }
        ensures breaks_off { OnErr result (UpkeepBreaksOff WAYS upkeep self.old self.new) }
        ensures left { OnOk result (AreKept upkeep self.new.lanes) }
        ensures steps { steps.old ≤ steps.new }
        ensures cost { steps.new ≤ steps.old + sum_by (lane_upkeep_cost upkeep) self.old.lanes }
    {
        keep_lanes(&mut self.lanes, upkeep, &mut self.args, steps)
    }

    /// Closes all open epochs: for each lane and each bucket in ascending order it evicts until the bucket is empty, with
    /// one merge before an eviction where the lane isn't ready.
    pub fn sweep<L: Ledger>(&mut self, steps: &mut Steps<L>) -> Result<(), AllocError>
        ensures swept { OnOk result (PipelineIsSwept self.old self.new) }
        ensures makes { OnOk result (PipelineMakes WAYS (upkeeps_at Upkeep.Sweep self.old.lanes) self.old self.new) }
        ensures breaks_off { OnErr result (UpkeepBreaksOff WAYS Upkeep.Sweep self.old self.new) }
        ensures steps { steps.old ≤ steps.new }
        ensures cost { steps.new ≤ steps.old + sum_by lane_sweep_cost self.old.lanes }
    {
        events_keep_alike();
        buckets_empty_by_evictions();
        self.invariant();
        self.keep_up(Upkeep::Sweep, steps)
    }

    /// The number of open epochs in a lane's cache.
    pub fn held(&self, lane: u32) -> usize
        requires { lane < length self.now.lanes }
        ensures number { AtLane (λ at. result ≡ held_in at.cache) self.now.lanes lane }
        ensures bound { result ≤ self.now.buckets * WAYS }
    {
        self.invariant();
        let lane = self.lane(lane);
        lane.held()
    }

    /// Whether all caches and pipes are empty. Then no epoch is open, and all closed ones are merged.
    pub fn drained(&self) -> bool
        ensures value { result ≡ list_all lane_is_drained self.now.lanes }
        ensures done { result ≡ true → (machines : List Machine) → PipelineStands self.now machines
            → Each (λ lane m. IsSwept m × (m.merged ≡ length m.closed)) self.now.lanes machines }
    {
        all_drained(&self.lanes)
    }

    /// The most steps that a packet takes for each run of a fold in an entry, by the sizes of the plan.
    pub fn bound(&self) -> u64
        ensures { result ≡ plan_bound self.now.plan WAYS }
    {
        self.plan.bound(WAYS as u32)
    }

    /// The tables of the closed epochs, one for each groupby in order. The pipeline doesn't change.
    pub fn close(&self) -> Result<Seq<Table>, AllocError>
        requires { list_all lane_is_drained self.now.lanes ≡ true }
        ensures stored { IfOk result (λ tables. tables ≡ stored_tables self.now.plan.groups self.now.lanes) }
        ensures closed { IfOk result (λ tables. (machines : List Machine) → PipelineStands self.now machines
            → tables ≡ tables_of self.now.plan.groups (map folding_at self.now.lanes) machines) }
    {
        lane_tables(self.alloc, &self.plan, &self.lanes)
    }

    /// The lane of a groupby. Its entries are made of the groupby's own program, of the kind of its fold for what they are for,
    /// so that merging one of them takes at most the steps that the fold allows.
    pub fn lane(&self, lane: u32) -> &Lane<AnyEpochs, WAYS>
        requires { lane < length self.now.lanes }
        ensures lane { slice_get self.now.lanes lane ≡ Some result.now }
        ensures kind { (group : GroupPlan) (f : TypedFold) → slice_get self.now.plan.groups lane ≡ Some group → IsProgramOf f group.program
            → IsKindFor self.now.entries f (⟦<AnyEpochs as EpochKind>⟧.sizes result.now.kind) (⟦<AnyEpochs as EpochKind>⟧.folding result.now.kind)
            (⟦<AnyEpochs as EpochKind>⟧.open_bound result.now.kind) (⟦<AnyEpochs as EpochKind>⟧.absorb_bound result.now.kind) }
        ensures made { (group : GroupPlan) → slice_get self.now.plan.groups lane ≡ Some group → IsMadeFor result.now group }
    {
        &self.lanes[lane as usize]
    }

    /// What the entries are for.
    pub fn entries(&self) -> Entries
        ensures { result ≡ self.now.entries }
    {
        self.entries
    }

    /// The plan.
    pub fn plan(&self) -> &Plan
        ensures { result.now ≡ self.now.plan }
    {
        &self.plan
    }
}
