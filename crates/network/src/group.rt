//! The fronts of all switches at one groupby, and the store that they share.

ghost use Rattle.std.specs.Prelude.{◌≡◌, ◌+◌, ◌==◌, ◌<◌, ◌≤◌, ◌↔◌, ℕ, List, [], Ok, true, not, length, slice_get, if◌then◌else◌, IfOk};
ghost use Rattle.std.specs.{Prelude.{OnOk, OnErr}, List.list_all};
ghost use Rattle.bucket_cache.specs.Caches.{list_at};
ghost use Rattle.epoch_model.specs.{Driving.event_of, Machine.{Epoch, Evict, Merge}};
ghost use Rattle.fold_class.specs.Program.{IsProgram};
ghost use Rattle.backing_store.specs.Merged.{StoreHolds};
ghost use Rattle.final_queries.specs.GroupTable.{closed_table};
ghost use Rattle.stage_plan.specs.{declared.group.GroupWiring.GroupWiring, Planned.{registers_of, wiring_at}, Registers.taken_at};
ghost use Rattle.stage_plan.specs.Sound.{IsSoundGroup};
ghost use Rattle.switch_core.specs.{Closing.is_drained, Costs.evict_cost, FrontParts.AreSizes, Pipelines.heading_of};
ghost use Rattle.switch_core.specs.PlanLanes.{lane_cost, lane_merge_cost};
ghost use Rattle.network.specs.Shared.{AtSwitch};
ghost use Rattle.network.specs.Groups.{GroupGrows, GroupShares, GroupStands, IsGroup, folding_in, group_is_drained, with_first};
ghost use Rattle.network.specs.Events.{AreAllMerged, GroupBreaksOff, GroupMakes, GroupMakesAll, IsLeft, is_ready_at, upkeep_in};
ghost use Rattle.network.specs.Costs.{AtLaneIn, group_merge_cost, group_upkeep_cost};

use crate::taking::take_use;
use backing_store::BackingStore;
use epoch_entry::{AnyEpochs, EpochKind, entries_are_small, entries_suit_folds};
use final_queries::Table;
use marple_base::Steps;
use query_lang::MAX_KEYS;
use stage_plan::{GroupPlan, Plan};
use std::alloc::{AllocError, Global};
use std::marker::Model;
use std::sync::ledger::Ledger;
use switch_core::{Front, Merged, Upkeep, held_table, keep_up};

fn all_drained<const WAYS: usize>(fronts: &[Front<AnyEpochs, WAYS>]) -> bool
    ensures { result ≡ list_all (λ front. is_drained front.cache front.pipe) fronts.now }
{
    for front in fronts {
        if !front.drained() {
            return false;
        }
    }
    true
}

/// What is kept for one groupby of all switches: a cache and a pipe for each switch, and one store.
#[derive(Drop)]
pub struct Group<const WAYS: usize> {
    kind: AnyEpochs,
    fronts: Vec<Front<AnyEpochs, WAYS>>,
    store: BackingStore,
}

impl<const WAYS: usize> Model for Group<WAYS> {
    ghost use Rattle.network.specs.Groups.{GroupView};

    ghost Value = { GroupView };

    ghost view = { λ g. record { kind = g.kind; fronts = g.fronts.items; store = g.store } };
}

impl<const WAYS: usize> Group<WAYS> {
    /// What a groupby of a plan has before there is a switch.
    pub fn new(alloc: Global, part: &GroupPlan) -> Result<Group<WAYS>, AllocError>
        requires program { IsProgram part.now.program }
        ensures is { IfOk result (λ group. (wiring : GroupWiring) → IsGroup 0 part.now wiring group) }
        ensures stands { IfOk result (λ group. (buckets : ℕ) → GroupStands WAYS buckets group [] []) }
    {
        entries_suit_folds();
        let kind = AnyEpochs::of(part.program.copy(alloc)?);
        let store = BackingStore::new(alloc, part.key_names.len(), kind.state_words());
        Ok(Group {
            kind,
            fronts: Vec::new(alloc),
            store,
        })
    }

    /// Makes cache and pipe of the next switch.
    pub fn add_switch(
        &mut self,
        alloc: Global,
        part: &GroupPlan,
        buckets: u32,
        pipe_records: u32,
    ) -> Result<(), AllocError>
        requires sizes { AreSizes WAYS buckets pipe_records }
        requires program { IsProgram part.now.program }
        requires keys { (0 < length part.now.key_names) × (length part.now.key_names ≤ MAX_KEYS) }
        ensures is { OnOk result ((switches registers : ℕ) (wiring : GroupWiring) → IsSoundGroup registers part.now wiring
            → IsGroup switches part.now wiring self.old → IsGroup (switches + 1) part.now wiring self.new) }
        ensures grows { OnOk result (GroupGrows WAYS buckets pipe_records self.old self.new) }
        ensures err { OnErr result (self.new ≡ self.old) }
    {
        entries_are_small();
        entries_suit_folds();
        let kind = AnyEpochs::of(part.program.copy(alloc)?);
        let keys = part.key_names.len();
        let front = Front::new(alloc, kind, buckets, keys, pipe_records)?;
        self.fronts.push(front)?;
        Ok(())
    }

    /// Keeps the caches and pipes of the first `switches` switches, and drops those of the others.
    pub fn keep_switches(&mut self, switches: usize)
        ensures { self.new ≡ with_first switches self.old }
    {
        self.fronts.truncate(switches);
    }

    /// Whether the pipe of a switch has room for a record.
    pub fn ready(&self, at: usize) -> bool
        requires { at < length self.now.fronts }
        ensures { result ≡ is_ready_at at self.now }
    {
        let front = &self.fronts[at];
        front.ready()
    }

    /// Takes, at this switch, what the groupby takes from these registers, if it takes anything.
    pub fn packet<L: Ledger>(
        &mut self,
        plan: &Plan,
        group: u32,
        registers: &[u64],
        at: usize,
        key: &mut [u64],
        args: &mut [u64],
        steps: &mut Steps<L>,
    )
        requires group { group < length plan.now.groups }
        requires registers { length registers.now ≡ registers_of plan.now }
        requires switch { at < length self.old.fronts }
        requires ready { is_ready_at at self.old ≡ true }
        requires shares { GroupShares (length (wiring_at plan.now group).args) self.old }
        requires keys { self.old.store.key_words ≡ length (wiring_at plan.now group).keys }
        requires key_room { length (wiring_at plan.now group).keys ≤ length key.old }
        requires args_room { length (wiring_at plan.now group).args ≤ length args.old }
        ensures makes { GroupMakesAll WAYS at (event_of (taken_at (wiring_at plan.now group) registers.now)) self.old self.new }
        ensures store { self.new.store ≡ self.old.store }
        ensures steps { steps.old ≤ steps.new }
        ensures cost { AtLaneIn (λ lane. steps.new ≤ steps.old + lane_cost WAYS lane) self.old at }
    {
        let front = &mut self.fronts[at];
        take_use(plan, group, registers, front, key, args, steps);
    }

    /// Closes the least recently used epoch of a bucket of a switch. False exactly where the bucket is empty.
    pub fn evict<L: Ledger>(&mut self, at: usize, bucket: u32, steps: &mut Steps<L>) -> bool
        requires switch { at < length self.old.fronts }
        requires ready { is_ready_at at self.old ≡ true }
        requires range { AtSwitch (λ front. bucket < length front.cache.lists) self.old.fronts at }
        ensures makes { GroupMakes WAYS at (Evict bucket) self.old self.new }
        ensures store { self.new.store ≡ self.old.store }
        ensures some { AtSwitch (λ front. result ≡ not (length (list_at front.cache bucket) == 0)) self.old.fronts at }
        ensures steps { steps.old ≤ steps.new }
        ensures cost { AtLaneIn (λ lane. steps.new ≡ steps.old
            + (if result then evict_cost lane.cache.key_words lane.cache.entry_words else 0)) self.old at }
    {
        let front = &mut self.fronts[at];
        front.evict(bucket, steps)
    }

    /// Merges the oldest record of a switch's pipe into the store. Empty exactly where the pipe is empty.
    pub fn merge<L: Ledger>(
        &mut self,
        at: usize,
        steps: &mut Steps<L>,
    ) -> Result<Merged, AllocError>
        requires switch { at < length self.old.fronts }
        requires shares { (args : ℕ) × GroupShares args self.old }
        ensures makes { OnOk result (GroupMakes WAYS at Merge self.old self.new) }
        ensures ready { OnOk result (is_ready_at at self.new ≡ true) }
        ensures empty { AtSwitch (λ front. (result ≡ Ok Merged.Empty) ↔ (length front.pipe.records ≡ 0)) self.old.fronts at }
        ensures same { result ≡ Ok Merged.Empty → self.new ≡ self.old }
        ensures err { OnErr result (self.new ≡ self.old) }
        ensures steps { steps.old ≤ steps.new }
        ensures cost { AtLaneIn (λ lane. steps.new ≤ steps.old + lane_merge_cost lane) self.old at }
        ensures most { steps.new ≤ steps.old + group_merge_cost at self.old }
    {
        let front = &mut self.fronts[at];
        front.merge_into(&mut self.store, steps)
    }

    /// Does what is due at the front of a switch, with the store of all. When out of memory, it made only the first of the events.
    #[inline(always)]
    pub fn keep_up<L: Ledger>(
        &mut self,
        at: usize,
        upkeep: Upkeep,
        steps: &mut Steps<L>,
    ) -> Result<(), AllocError>
        requires switch { at < length self.old.fronts }
        requires shares { (args : ℕ) × GroupShares args self.old }
        ensures makes { OnOk result (GroupMakesAll WAYS at (upkeep_in upkeep (slice_get self.old.fronts at)) self.old self.new) }
        ensures breaks_off { OnErr result (GroupBreaksOff WAYS at (upkeep_in upkeep (slice_get self.old.fronts at)) self.old self.new) }
        ensures left { OnOk result (IsLeft upkeep (slice_get self.old.fronts at) (slice_get self.new.fronts at)) }
        ensures steps { steps.old ≤ steps.new }
        ensures cost { steps.new ≤ steps.old + group_upkeep_cost upkeep at self.old }
    {
        let front = &mut self.fronts[at];
        keep_up(front, &mut self.store, upkeep, steps)
    }

    /// Whether all caches and pipes are empty.
    pub fn drained(&self) -> bool
        ensures value { result ≡ group_is_drained self.now }
        ensures done { result ≡ true → AreAllMerged WAYS self.now }
    {
        all_drained(&self.fronts)
    }

    /// The table of the epochs that the store holds.
    pub fn table(&self, alloc: Global, part: &GroupPlan) -> Result<Table, AllocError>
        requires { length part.now.key_names ≤ MAX_KEYS }
        ensures { IfOk result (λ table. (epochs : List Epoch) → StoreHolds (folding_in self.now) self.now.store epochs
            → table ≡ closed_table (heading_of part.now) (folding_in self.now) epochs) }
    {
        held_table(alloc, part, &self.store, self.kind.row_per_epoch())
    }
}
