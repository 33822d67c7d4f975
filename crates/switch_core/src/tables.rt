//! The tables of the epochs that stores hold.

ghost use Rattle.std.specs.{Prelude.{◌≡◌, ◌≤◌, ◌++◌, ℕ, List, true, length, map, IfOk, OnOk}, List.list_all};
ghost use Rattle.epoch_model.specs.{Machine.{Epoch, Machine}, Tables.Folding};
ghost use Rattle.epoch_entry.specs.declared.purpose.Entries.{Entries};
ghost use Rattle.backing_store.specs.Merged.{StoreHolds};
ghost use Rattle.final_queries.specs.GroupTable.{closed_table};
ghost use Rattle.switch_core.specs.{Rows.Each, Pipelines.{heading_of, shown_table, stored_table, tables_of}};
ghost use Rattle.switch_core.specs.PlanLanes.{AreLanesOf, StandsFor, folding_at, lane_is_drained, stored_tables};

use crate::lane::Lane;
use backing_store::{BackingStore, ShownRows, rows_held};
use epoch_entry::{AnyEpochs, EpochKind};
use final_queries::{Table, TableKind};
use marple_base::{Seq, Text};
use query_lang::MAX_KEYS;
use stage_plan::{GroupPlan, Plan};
use std::alloc::{AllocError, Global};

// Adds copies of texts.
fn push_texts(alloc: Global, into: &mut Seq<Text>, texts: &[Text]) -> Result<(), AllocError>
    ensures { OnOk result (into.new ≡ into.old ++ texts.now) }
{
    for text in texts {
        into.push(Text::from_slice(alloc, text.as_slice())?)?;
    }
    Ok(())
}

// The columns of a groupby's table: its keys, and then its fold's state variables.
fn group_columns(alloc: Global, group: &GroupPlan) -> Result<Seq<Text>, AllocError>
    ensures { IfOk result (λ columns. columns ≡ group.now.key_names ++ group.now.state_names) }
{
    let mut columns = Seq::new(alloc);
    push_texts(alloc, &mut columns, group.key_names.as_slice())?;
    push_texts(alloc, &mut columns, group.state_names.as_slice())?;
    Ok(columns)
}

/// The table of the epochs that a store holds, under the names of a groupby. The store stays unchanged.
pub fn held_table(
    alloc: Global,
    group: &GroupPlan,
    store: &BackingStore,
    row_per_epoch: bool,
) -> Result<Table, AllocError>
    requires { length group.now.key_names ≤ MAX_KEYS }
    ensures stored { IfOk result (λ table. table ≡ stored_table (heading_of group.now) row_per_epoch store.now) }
    ensures held { IfOk result (λ table. (f : Folding) (epochs : List Epoch)
        → f.row_per_epoch ≡ row_per_epoch → StoreHolds f store.now epochs → table ≡ closed_table (heading_of group.now) f epochs) }
{
    shown_table(alloc, group, rows_held(store, row_per_epoch)?)
}

/// The table of these rows, under the names of a groupby.
pub fn shown_table(alloc: Global, group: &GroupPlan, shown: ShownRows) -> Result<Table, AllocError>
    requires { length group.now.key_names ≤ MAX_KEYS }
    ensures { IfOk result (λ table. table ≡ shown_table (heading_of group.now) shown.rows shown.epochs) }
{
    let (class, depth) = (group.program.class, group.program.depth);
    Ok(Table {
        name: Text::from_slice(alloc, group.name.as_slice())?,
        columns: group_columns(alloc, group)?,
        keys: group.key_names.len() as u8,
        kind: TableKind::Group(class, depth, shown.epochs),
        rows: shown.rows,
    })
}

/// The tables of the lanes, in the order of the groupbys.
pub fn lane_tables<const WAYS: usize>(
    alloc: Global,
    plan: &Plan,
    lanes: &[Lane<AnyEpochs, WAYS>],
) -> Result<Seq<Table>, AllocError>
    requires lanes { (entries : Entries) × (buckets : ℕ) × AreLanesOf entries plan.now buckets lanes.now }
    requires drained { list_all lane_is_drained lanes.now ≡ true }
    ensures stored { IfOk result (λ tables. tables ≡ stored_tables plan.now.groups lanes.now) }
    ensures closed { IfOk result (λ tables. (machines : List Machine) → Each StandsFor lanes.now machines
        → tables ≡ tables_of plan.now.groups (map folding_at lanes.now) machines) }
{
    plan.invariant();
    let mut tables = Seq::new(alloc);
    for i in 0..lanes.len() {
        let lane = &lanes[i];
        let row_per_epoch = lane.kind().row_per_epoch();
        tables.push(held_table(alloc, plan.group(i as u32), lane.store(), row_per_epoch)?)?;
    }
    Ok(tables)
}
