//! What is shown of the groupbys of a pipeline.

ghost use Rattle.std.specs.{Prelude.{◌≡◌, ℕ, All, List, map, true, IfOk}, List.list_all};
ghost use Rattle.query_lang.specs.declared.typed.TypedQuery.{TypedQuery as AnyQuery};
ghost use Rattle.epoch_entry.specs.declared.purpose.Entries.TheVariants.{Bounds};
ghost use Rattle.epoch_model.specs.{Epochs.Geometry, Laws.HasRoom, Machine.{Event, Machine}};
ghost use Rattle.switch_core.specs.PlanLanes.{PipelineStands, lane_is_drained, stored_tables};
ghost use Rattle.enclosure_folds.specs.Shown.{MayBeShown, shown};
ghost use Rattle.enclosed_query.specs.AfterEvents.{HaveStoredRows, ShownHoldsAfter, machines_after, shown_tables};
ghost use Rattle.enclosed_query.specs.{EnclosedTables.{enclosed_tables, EndsAt}, Reading.IsWhole};

use crate::laws::ends_give_enclosed_tables;
use enclosure_folds::{Enclosed, closed_tables_hold, enclosed_of, triples_give_whole_tables};
use final_queries::Table;
use marple_base::Seq;
use std::alloc::{AllocError, Global};
use switch_core::Pipeline;

// What is shown of groupbys with these tables.
fn each_shown(alloc: Global, tables: Seq<Table>) -> Result<Seq<Enclosed>, AllocError>
    requires { All MayBeShown tables }
    ensures { IfOk result (λ made. made ≡ map shown tables) }
{
    let mut made = Seq::new(alloc);
    for table in tables.into_vec() {
        made.push(enclosed_of(alloc, table)?)?;
    }
    Ok(made)
}

/// What is shown of groupbys with these tables, in order: of a linear fold its table, and of any other fold its table of bounds,
/// which has the words that its names say.
pub fn shown_of(alloc: Global, tables: Seq<Table>) -> Result<Seq<Enclosed>, AllocError>
    requires { All MayBeShown tables }
    ensures made { IfOk result (λ made. made ≡ map shown tables) }
    ensures whole { IfOk result (All IsWhole) }
{
    triples_give_whole_tables();
    let made = each_shown(alloc, tables)?;
    Ok(made)
}

// The stores of the lanes have keys of as many words as their caches, and states of as many as their entries.
fn stores_known<const WAYS: usize>(pipeline: &Pipeline<WAYS>)
    ensures { HaveStoredRows pipeline.now.lanes }
{
    for i in 0..pipeline.lanes() {
        let lane = pipeline.lane(i);
        lane.invariant();
        lane.store().invariant();
    }
}

// The tables of a pipeline for bounds may be shown.
fn tables_known<const WAYS: usize>(pipeline: &Pipeline<WAYS>)
    requires { pipeline.now.entries ≡ Bounds }
    ensures { All MayBeShown (stored_tables pipeline.now.plan.groups pipeline.now.lanes) }
{
    pipeline.invariant();
    pipeline.plan().invariant();
    stores_known(pipeline);
}

// What is shown of the machines that a drained pipeline for bounds represents holds over all rows of whatever events led to
// them.
fn machines_known<const WAYS: usize>(pipeline: &Pipeline<WAYS>)
    requires entries { pipeline.now.entries ≡ Bounds }
    requires drained { list_all lane_is_drained pipeline.now.lanes ≡ true }
    ensures holds { (g : Geometry) (events : ℕ → List Event) → HasRoom g
        → PipelineStands pipeline.now (machines_after pipeline.now.plan g events)
        → ShownHoldsAfter pipeline.now.plan events (shown_tables pipeline.now (machines_after pipeline.now.plan g events)) }
{
    closed_tables_hold();
    pipeline.invariant();
    pipeline.plan().invariant();
    let _drained = pipeline.drained();
}

/// What is shown of the groupbys of a drained pipeline whose entries are for bounds, in order: the table of a linear fold,
/// and the table of bounds of any other fold. It holds over all rows that the pipeline's machines took, whatever events led
/// to them: packets, evictions and merges in any order. At the end of a trace it is what is shown of the query's groupbys
/// over its packets.
pub fn enclosed<const WAYS: usize>(
    alloc: Global,
    pipeline: &Pipeline<WAYS>,
) -> Result<Seq<Enclosed>, AllocError>
    requires entries { pipeline.now.entries ≡ Bounds }
    requires drained { list_all lane_is_drained pipeline.now.lanes ≡ true }
    ensures shown { IfOk result (λ tables. (machines : List Machine) → PipelineStands pipeline.now machines
        → tables ≡ shown_tables pipeline.now machines) }
    ensures holds { IfOk result (λ tables. (g : Geometry) (events : ℕ → List Event) → HasRoom g
        → PipelineStands pipeline.now (machines_after pipeline.now.plan g events)
        → ShownHoldsAfter pipeline.now.plan events tables) }
    ensures tables { IfOk result (λ tables. (q : AnyQuery) (g : Geometry) (packets : List (List ℕ))
        → EndsAt q g packets pipeline.now → tables ≡ enclosed_tables q g packets) }
    ensures whole { IfOk result (All IsWhole) }
{
    ends_give_enclosed_tables();
    pipeline.invariant();
    pipeline.plan().invariant();
    tables_known(pipeline);
    machines_known(pipeline);
    let tables = pipeline.close()?;
    let made = shown_of(alloc, tables)?;
    Ok(made)
}
