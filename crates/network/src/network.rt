//! A plan over several switches: a call for each event of a switch, and their tables.

ghost use Rattle.std.specs.Prelude.{◌≡◌, ◌+◌, ◌==◌, ◌<◌, ◌≤◌, ◌↔◌, ℕ, List, [], Ok, true, not, length, filter, map, slice_get};
ghost use Rattle.std.specs.{Prelude.{slice_index, if◌then◌else◌, IfOk, OnOk, OnErr, Some}, List.list_all};
ghost use Rattle.bucket_cache.specs.Caches.{list_at};
ghost use Rattle.epoch_model.specs.{Keys.{Key, ascending, has}, Laws.rows_given, Machine.{Epoch, lists_of}, TableLaws.keys_given};
ghost use Rattle.epoch_model.specs.Tables.{closed_key_rows, exact_row};
ghost use Rattle.epoch_entry.specs.Foldings.{folding_of};
ghost use Rattle.final_queries.specs.Finals.{is_of_key};
ghost use Rattle.additive_laws.specs.{Laws.IsAdditiveFrom, Network.{all_epochs, all_events, machine_at}};
ghost use Rattle.stage_plan.specs.{Packets.AreWhole, Planned.plan_bound};
ghost use Rattle.switch_core.specs.{Costs.evict_cost, FrontParts.AreSizes, PlanLanes.lane_merge_cost};
ghost use Rattle.query_lang.specs.{Folds.initial_state, declared.{fold.TypedFold.TypedFold, typed.TypedQuery.TypedQuery}};
ghost use Rattle.net_wide.specs.NetTables.{caches_of, net_tables, tables_of_pieces};
ghost use Rattle.network.specs.Ends.{AreTakenAt, CombineOver, EvictsLast, IsDrainedWith, IsSwitchPlace, packets_taken, pieces_closed};
ghost use Rattle.network.specs.Groups.{StoresHold, group_is_drained, shared_tables};
ghost use Rattle.network.specs.Events.{AreAllMerged, AtFront, AtGroup, IsLeft, OthersStay, StoresStay, is_ready_at};
ghost use Rattle.network.specs.Costs.{AtSwitchLane, front_upkeep_cost, group_merge_cost};
ghost use Rattle.network.specs.{Networks.{IsNetwork, NetworkGrows, network_cost, upkeeps_cost}, Running.{Evicts, FrontsStay, Merges}};
ghost use Rattle.network.specs.Running.{NetworkEvent, NetworkMakes, NetworkRuns, NetworkStands, RunBreaksOff, SwitchesStay, Takes};
ghost use Rattle.network.specs.Running.{all_given, front_at, lane_calls, merged_after, upkeep_calls};

use crate::group::Group;
use crate::groups::{add_switch, all_drained, all_ready, group_tables, made_groups, packet_groups};
use epoch_entry::entries_suit_folds;
use final_queries::{Table, alike_foldings_make_one_table};
use fold_class::depth_is_found;
use marple_base::{Packet, Seq, Steps};
use net_wide::{merged_make_the_table, pieces_are_the_epochs};
use query_lang::{MAX_ARGS, MAX_KEYS};
use stage_plan::Plan;
use std::alloc::{AllocError, Global};
use std::marker::Model;
use std::sync::ledger::Ledger;
use switch_core::{Merged, Upkeep};

/// A plan over several switches: each switch has a cache and a pipe for each groupby, and all of them share one store for
/// each groupby.
pub struct Network<const WAYS: usize> {
    alloc: Global,
    plan: Plan,
    buckets: u32,
    pipe_records: u32,
    switches: u32,
    groups: Vec<Group<WAYS>>,
    registers: Vec<u64>,
    key: Vec<u64>,
    args: Vec<u64>,
}

impl<const WAYS: usize> Drop for Network<WAYS> {
    fn drop(self) {
        let Network {
            alloc: _,
            plan: _,
            buckets: _,
            pipe_records: _,
            switches: _,
            groups: _,
            registers: _,
            key: _,
            args: _,
        } = self;
    }
}

impl<const WAYS: usize> Model for Network<WAYS> {
    ghost use Rattle.switch_core.specs.Pipelines.{HasRooms};
    ghost use Rattle.network.specs.Networks.{IsNetwork, NetworkView};

    ghost Value = { NetworkView };

    ghost view = { λ n. record {
      plan = n.plan;
      buckets = n.buckets;
      pipe_records = n.pipe_records;
      switches = n.switches;
      groups = n.groups.items;
    } };

    ghost invariant = { λ n. IsNetwork WAYS (record {
      plan = n.plan;
      buckets = n.buckets;
      pipe_records = n.pipe_records;
      switches = n.switches;
      groups = n.groups.items;
    }) × HasRooms n.plan n.registers.items n.key.items n.args.items };
}

impl<const WAYS: usize> Network<WAYS> {
    /// A plan that has no switch yet. Each switch will have caches of `buckets` buckets and pipes of `pipe_records`
    /// records.
    pub fn new(
        alloc: Global,
        plan: Plan,
        buckets: u32,
        pipe_records: u32,
    ) -> Result<Network<WAYS>, AllocError>
        requires { AreSizes WAYS buckets pipe_records }
        ensures switches { IfOk result (λ net. net.switches ≡ 0) }
        ensures plan { IfOk result (λ net. net.plan ≡ plan) }
        ensures buckets { IfOk result (λ net. net.buckets ≡ buckets) }
        ensures pipe { IfOk result (λ net. net.pipe_records ≡ pipe_records) }
        ensures stands { IfOk result (λ net. NetworkStands WAYS net []) }
    {
        let groups = made_groups(alloc, &plan)?;
        let registers = vec![in alloc; 0; plan.registers()]?;
        let key = vec![in alloc; 0; MAX_KEYS]?;
        let args = vec![in alloc; 0; MAX_ARGS]?;
        Ok(Network {
            alloc,
            plan,
            buckets,
            pipe_records,
            switches: 0,
            groups,
            registers,
            key,
            args,
        })
    }

    /// What holds of every network: its groupbys are those of the plan, with a cache and a pipe of its sizes for each of at
    /// most 64 switches.
    pub fn invariant(&self)
        ensures { IsNetwork WAYS self.now }
    {
        let _buckets = self.buckets;
    }

    /// Makes the caches and pipes of the next switch. There are at most 64. Out of memory leaves everything unchanged.
    pub fn add_switch(&mut self) -> Result<(), AllocError>
        requires { self.old.switches < 64 }
        ensures grows { OnOk result (NetworkGrows WAYS self.old self.new) }
        ensures stands { OnOk result ((events : List NetworkEvent) → NetworkStands WAYS self.old events
            → NetworkStands WAYS self.new events) }
        ensures err { OnErr result (self.new ≡ self.old) }
    {
        add_switch(
            self.alloc,
            &self.plan,
            &mut self.groups,
            self.switches as usize,
            self.buckets,
            self.pipe_records,
        )?;
        self.switches += 1;
        Ok(())
    }

    /// How many switches there are.
    pub fn switches(&self) -> u32
        ensures { result ≡ self.now.switches }
    {
        self.switches
    }

    /// The plan.
    pub fn plan(&self) -> &Plan
        ensures { result.now ≡ self.now.plan }
    {
        &self.plan
    }

    /// How many groupbys there are.
    pub fn lanes(&self) -> u32
        ensures { result ≡ length self.now.groups }
    {
        self.plan.groups()
    }

    /// Whether every pipe of a switch has room for a record.
    pub fn ready(&self, at: u32) -> bool
        requires { at < self.now.switches }
        ensures { result ≡ list_all (is_ready_at at) self.now.groups }
    {
        all_ready(&self.groups, at as usize)
    }

    /// Whether the pipe of a switch has room for a record at one groupby.
    pub fn lane_ready(&self, at: u32, lane: u32) -> bool
        requires switch { at < self.now.switches }
        requires lane { lane < length self.now.groups }
        ensures { AtGroup (λ group. result ≡ is_ready_at at group) self.now.groups lane }
    {
        let group = &self.groups[lane as usize];
        group.ready(at as usize)
    }

    /// Takes a packet of a switch: each groupby whose input has a tuple for it makes the packet event of its key and
    /// arguments at this switch. It needs no memory.
    pub fn packet<L: Ledger>(&mut self, at: u32, packet: &Packet, steps: &mut Steps<L>)
        requires switch { at < self.old.switches }
        requires ready { list_all (is_ready_at at) self.old.groups ≡ true }
        ensures makes { NetworkMakes WAYS (Takes at packet.now.words) self.old self.new }
        ensures others { OthersStay at self.old.groups self.new.groups }
        ensures stores { StoresStay self.old.groups self.new.groups }
        ensures steps { steps.old ≤ steps.new }
        ensures cost { steps.new ≤ steps.old + network_cost WAYS at self.old }
        ensures bound { steps.new ≤ steps.old + plan_bound self.old.plan WAYS }
    {
        depth_is_found();
        entries_suit_folds();
        self.plan.invariant();
        self.plan.row(packet, &mut self.registers, steps);
        packet_groups(
            &self.plan,
            &self.registers,
            at as usize,
            &mut self.groups,
            &mut self.key,
            &mut self.args,
            steps,
        );
    }

    /// Closes the least recently used epoch of a bucket of a switch at one groupby. False exactly where the bucket is empty.
    pub fn evict<L: Ledger>(
        &mut self,
        at: u32,
        lane: u32,
        bucket: u32,
        steps: &mut Steps<L>,
    ) -> bool
        requires switch { at < self.old.switches }
        requires lane { lane < length self.old.groups }
        requires ready { AtGroup (λ group. is_ready_at at group ≡ true) self.old.groups lane }
        requires range { bucket < self.old.buckets }
        ensures makes { NetworkMakes WAYS (Evicts at lane bucket) self.old self.new }
        ensures others { OthersStay at self.old.groups self.new.groups }
        ensures stores { StoresStay self.old.groups self.new.groups }
        ensures some { AtFront (λ front. result ≡ not (length (list_at front.cache bucket) == 0))
            self.old.groups at lane }
        ensures steps { steps.old ≤ steps.new }
        ensures cost { AtSwitchLane (λ one. steps.new ≡ steps.old
            + (if result then evict_cost one.cache.key_words one.cache.entry_words else 0)) self.old.groups at lane }
    {
        let group = &mut self.groups[lane as usize];
        group.evict(at as usize, bucket, steps)
    }

    /// Merges the oldest record of a switch's pipe into the store of all switches, at one groupby. `Empty` exactly
    /// where the pipe is empty, and then everything is unchanged, as when out of memory.
    pub fn merge<L: Ledger>(
        &mut self,
        at: u32,
        lane: u32,
        steps: &mut Steps<L>,
    ) -> Result<Merged, AllocError>
        requires switch { at < self.old.switches }
        requires lane { lane < length self.old.groups }
        ensures makes { OnOk result (NetworkMakes WAYS (Merges at lane) self.old self.new) }
        ensures others { OthersStay at self.old.groups self.new.groups }
        ensures ready { OnOk result (AtGroup (λ group. is_ready_at at group ≡ true) self.new.groups lane) }
        ensures empty { AtFront (λ front. (result ≡ Ok Merged.Empty) ↔ (length front.pipe.records ≡ 0))
            self.old.groups at lane }
        ensures same { result ≡ Ok Merged.Empty → self.new ≡ self.old }
        ensures err { OnErr result (self.new ≡ self.old) }
        ensures steps { steps.old ≤ steps.new }
        ensures cost { AtSwitchLane (λ one. steps.new ≤ steps.old + lane_merge_cost one) self.old.groups at lane }
        ensures most { AtGroup (λ group. steps.new ≤ steps.old + group_merge_cost at group) self.old.groups lane }
    {
        let group = &mut self.groups[lane as usize];
        group.merge(at as usize, steps)
    }

    #[inline(always)]
    fn keep_lane<L: Ledger>(
        &mut self,
        at: u32,
        lane: u32,
        upkeep: Upkeep,
        steps: &mut Steps<L>,
    ) -> Result<(), AllocError>
        requires switch { at < self.old.switches }
        requires lane { lane < length self.old.groups }
        ensures runs { OnOk result (NetworkRuns WAYS (lane_calls at upkeep self.old lane) self.old self.new) }
        ensures breaks_off { OnErr result (RunBreaksOff WAYS (lane_calls at upkeep self.old lane) self.old self.new) }
        ensures left { OnOk result (IsLeft upkeep (front_at self.old lane at) (front_at self.new lane at)) }
        ensures others { OnOk result (FrontsStay lane at self.old self.new) }
        ensures steps { steps.old ≤ steps.new }
        ensures cost { steps.new ≤ steps.old + front_upkeep_cost upkeep (front_at self.old lane at) }
    {
        let group = &mut self.groups[lane as usize];
        group.keep_up(at as usize, upkeep, steps)
    }

    /// Does what is due at all fronts of a switch, groupby by groupby. When out of memory, only the first of these events were made.
    #[inline(always)]
    pub(crate) fn keep_up<L: Ledger>(
        &mut self,
        at: u32,
        upkeep: Upkeep,
        steps: &mut Steps<L>,
    ) -> Result<(), AllocError>
        requires { at < self.old.switches }
        ensures runs { OnOk result (NetworkRuns WAYS (upkeep_calls at upkeep self.old) self.old self.new) }
        ensures breaks_off { OnErr result (RunBreaksOff WAYS (upkeep_calls at upkeep self.old) self.old self.new) }
        ensures left { OnOk result ((lane : ℕ) → lane < length self.old.groups
            → IsLeft upkeep (front_at self.old lane at) (front_at self.new lane at)) }
        ensures others { OnOk result (SwitchesStay at self.old self.new) }
        ensures steps { steps.old ≤ steps.new }
        ensures cost { steps.new ≤ steps.old + upkeeps_cost upkeep at self.old }
    {
        for lane in 0..self.lanes() {
            self.keep_lane(at, lane, upkeep, steps)?;
        }
        Ok(())
    }

    /// Whether all caches and pipes of all switches are empty. Then no epoch is open, and the closed ones of all switches are
    /// merged.
    pub fn drained(&self) -> bool
        ensures value { result ≡ list_all group_is_drained self.now.groups }
        ensures done { result ≡ true → (lane : ℕ) → AtGroup (AreAllMerged WAYS) self.now.groups lane }
    {
        all_drained(&self.groups)
    }

    /// The tables of the merged epochs, one for each groupby in order. Where the network is drained, and whatever packets,
    /// evictions and merges came in whatever order, they are the tables of the query over the packets that were taken, with
    /// the pieces of each key that the switches closed; and where no eviction was called for before the last packet, those
    /// of the definition. With an additive fold the state of each key is over all its rows; and a key that has the switch in
    /// it has the rows of that switch's machine. These two ask for no query.
    pub fn close(&self) -> Result<Seq<Table>, AllocError>
        ensures held { IfOk result (λ tables. (epochs : List (List Epoch)) → StoresHold self.now.groups epochs
            → tables ≡ shared_tables self.now.plan.groups self.now.groups epochs) }
        ensures pieces { IfOk result (λ tables. (q : TypedQuery) (number : ℕ → ℕ) (events : List NetworkEvent)
            → CombineOver q self.now.plan number events → NetworkStands WAYS self.now events
            → list_all group_is_drained self.now.groups ≡ true
            → tables ≡ tables_of_pieces q (packets_taken events) (pieces_closed number WAYS self.now events)) }
        ensures defined { IfOk result (λ tables. (q : TypedQuery) (number : ℕ → ℕ) (events : List NetworkEvent)
            → CombineOver q self.now.plan number events → NetworkStands WAYS self.now events
            → list_all group_is_drained self.now.groups ≡ true → EvictsLast events
            → tables ≡ net_tables q (caches_of self.now.buckets WAYS) (packets_taken events)) }
        ensures additive { IfOk result (λ tables. (n : ℕ) (f : TypedFold) (table : Table) (events : List NetworkEvent)
            → IsDrainedWith WAYS self.now n f events → slice_get tables n ≡ Some table → IsAdditiveFrom f (initial_state f)
            → let given = all_given self.now.plan n events in
            let merged = all_epochs (merged_after WAYS self.now.buckets [] given) in
            table.rows ≡ map (λ key. exact_row (folding_of f) key (length (lists_of key merged)) (rows_given key (all_events given)))
            (ascending (keys_given (all_events given)))) }
        ensures own { IfOk result (λ tables. (n j at : ℕ) (f : TypedFold) (table : Table) (key : Key) (events : List NetworkEvent)
            → IsDrainedWith WAYS self.now n f events → slice_get tables n ≡ Some table → AreWhole (packets_taken events)
            → IsSwitchPlace self.now.plan n j → AreTakenAt at (slice_index key j) events
            → let given = all_given self.now.plan n events in
            has key (keys_given (all_events given)) ≡ true
            → filter (is_of_key key) table.rows
            ≡ closed_key_rows (folding_of f) (machine_at (caches_of self.now.buckets WAYS) at given).closed key) }
    {
        alike_foldings_make_one_table();
        merged_make_the_table();
        pieces_are_the_epochs();
        group_tables(self.alloc, &self.plan, &self.groups)
    }
}
