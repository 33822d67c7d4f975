//! The tables of the pipeline that a command leaves.

ghost use Rattle.std.specs.{Prelude.{◌≡◌, true, IfOk}, List.list_all};
ghost use Rattle.epoch_entry.specs.declared.purpose.Entries.TheVariants.{Folds};
ghost use Rattle.query_run.specs.Driven.{pipeline_in};
ghost use Rattle.switch_core.specs.PlanLanes.{lane_is_drained};
ghost use Rattle.marple_laws.specs.Left.{AreTablesOfPlan, AreTablesOfQuery, PlansStandForTheirTexts};

use final_queries::Table;
use marple_base::Seq;
use query_laws::accepted_are_valid;
use query_run::{Driven, ends_are_the_querys, ends_are_the_texts};
use std::alloc::AllocError;
use switch_core::Pipeline;

/// The pipeline that a run of a plan leaves represents the machines of the uses that the plan's text gives its groups.
pub fn plans_stand_for_their_texts()
    ensures { PlansStandForTheirTexts }
{}

// The tables of a drained pipeline with entries for folds.
fn closed_tables<const WAYS: usize>(pipeline: &Pipeline<WAYS>) -> Result<Seq<Table>, AllocError>
    requires entries { pipeline.now.entries ≡ Folds }
    requires drained { list_all lane_is_drained pipeline.now.lanes ≡ true }
    ensures query { IfOk result (AreTablesOfQuery pipeline.now) }
    ensures plan { IfOk result (AreTablesOfPlan pipeline.now) }
{
    accepted_are_valid();
    ends_are_the_querys();
    ends_are_the_texts();
    pipeline.invariant();
    let tables = pipeline.close()?;
    Ok(tables)
}

/// The tables of the pipeline that a command leaves: those of the query's groupbys over the packets, or of the groups of the plan's
/// text over the trace, whose printed text is the one by which the command's output is defined.
pub fn tables_left(driven: &Driven) -> Result<Seq<Table>, AllocError>
    requires entries { (pipeline_in driven.now).entries ≡ Folds }
    requires drained { list_all lane_is_drained (pipeline_in driven.now).lanes ≡ true }
    ensures query { IfOk result (AreTablesOfQuery (pipeline_in driven.now)) }
    ensures plan { IfOk result (AreTablesOfPlan (pipeline_in driven.now)) }
{
    match driven {
        Driven::Ways1(pipeline) => closed_tables(pipeline),
        Driven::Ways2(pipeline) => closed_tables(pipeline),
        Driven::Ways4(pipeline) => closed_tables(pipeline),
        Driven::Ways8(pipeline) => closed_tables(pipeline),
        Driven::Ways16(pipeline) => closed_tables(pipeline),
        Driven::Ways32(pipeline) => closed_tables(pipeline),
    }
}
