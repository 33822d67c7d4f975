//! The tables of a view.

ghost use Rattle.std.specs.Prelude.{◌≡◌, ◌+◌, ◌≤◌, List, map, length, IfOk};
ghost use Rattle.epoch_model.specs.Machine.{Machine};
ghost use Rattle.final_queries.specs.GroupTable.{closed_table};
ghost use Rattle.switch_core.specs.{Lanes.LaneStands, Pipelines.heading_of, PlanLanes.{PipelineStands, folding_at}};
ghost use Rattle.live_view.specs.Views.{all_epochs, tables_seen};

use crate::keeping::keep_released;
use crate::lane::full_store;
use crate::rows::seen_rows;
use crate::waiting::waiting_entries;
use epoch_entry::{EpochKind, entries_are_small};
use final_queries::Table;
use marple_base::{Seq, Steps};
use stage_plan::GroupPlan;
use std::alloc::{AllocError, Global};
use std::sync::ledger::Ledger;
use switch_core::{Lane, Pipeline, held_table, shown_table};

/// The table that a lane would give for its groupby if the trace ended here: of its closed epochs, and of each open one as
/// one more epoch. The lane is unchanged.
pub fn view_lane<K: EpochKind, const WAYS: usize, L: Ledger>(
    alloc: Global,
    group: &GroupPlan,
    lane: &Lane<K, WAYS>,
    steps: &mut Steps<L>,
) -> Result<Table, AllocError>
    requires keys { length group.now.key_names ≡ lane.now.cache.key_words }
    requires entry { lane.now.cache.key_words + (K.sizes lane.now.kind).entry ≤ 512 }
    ensures table { IfOk result (λ table. (m : Machine)
        → LaneStands (K.stands lane.now.kind) (K.folding lane.now.kind) lane.now.cache lane.now.pipe lane.now.store m
        → table ≡ closed_table (heading_of group.now) (K.folding lane.now.kind) (all_epochs m)) }
    ensures steps { steps.old ≤ steps.new }
{
    lane.invariant();
    let waiting = waiting_entries(alloc, lane, group.key_names.len())?;
    if lane.kind().row_per_epoch() {
        let store = full_store(alloc, lane, &waiting, steps)?;
        return held_table(alloc, group, &store, true);
    }
    let shown = seen_rows(alloc, lane.kind(), lane.store(), &waiting, steps)?;
    shown_table(alloc, group, shown)
}

/// One table for each groupby, in order: those that the pipeline would give if the trace ended here. It may be anywhere in
/// a trace, with records in its pipes and epochs in its caches, and is unchanged.
pub fn view<const WAYS: usize, L: Ledger>(
    alloc: Global,
    p: &Pipeline<WAYS>,
    steps: &mut Steps<L>,
) -> Result<Seq<Table>, AllocError>
    ensures tables { IfOk result (λ tables. (machines : List Machine)
        → PipelineStands p.now machines → tables ≡ tables_seen p.now.plan.groups (map folding_at p.now.lanes) machines) }
    ensures steps { steps.old ≤ steps.new }
{
    entries_are_small();
    p.invariant();
    keep_released(alloc);
    let plan = p.plan();
    plan.invariant();
    let mut tables = Seq::new(alloc);
    for i in 0..p.lanes() {
        tables.push(view_lane(alloc, plan.group(i), p.lane(i), steps)?)?;
    }
    Ok(tables)
}
