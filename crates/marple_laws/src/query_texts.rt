//! The laws of written plans.

ghost use Rattle.std.specs.Prelude.{◌≡◌, None};
ghost use Rattle.query_lang.specs.TypedQueries.{IsValidQuery};
ghost use Rattle.stage_plan.specs.{Planned.IsPlanOf, Fields.reads_of};
ghost use Rattle.plan_file.specs.Texts.{Says};
ghost use Rattle.plan_writer.specs.PlanText.{compiled_text, final_fault};
ghost use Rattle.marple_laws.specs.{MadeOf.made_of, RunLaws.{RunsAsTheQuery, LoadsAsTheQuery}, WellNamed.HasPlanText};
ghost use Rattle.plan_loader.specs.Meaning.{reads_in};

use query_lang::TypedQuery;
use stage_plan::Plan;

/// The text of a query's plan is valid, and makes the fields, operations, groupbys and prints of that plan.
pub fn written_plan_is_valid(q: &TypedQuery, p: &Plan)
    requires valid { IsValidQuery q.now }
    requires text { HasPlanText q.now }
    requires plan { IsPlanOf q.now p.now }
    ensures { Says (compiled_text q.now) (made_of q.now) }
{
    p.invariant();
}

/// What the text of a plan prints is what the query prints, byte for byte.
pub fn written_plan_runs_as_the_query(q: &TypedQuery, p: &Plan)
    requires valid { IsValidQuery q.now }
    requires plan { IsPlanOf q.now p.now }
    requires no_finals { final_fault q.now ≡ None }
    ensures { RunsAsTheQuery q.now }
{
    p.invariant();
}

/// The fields that the text of a plan names are those that the query reads.
pub fn written_plan_reads_as_the_query(q: &TypedQuery)
    ensures { reads_in (made_of q.now) ≡ reads_of q.now }
{}

/// Where the text of a plan is loaded, the loaded plan reads what the query reads, and prints what the query prints.
pub fn compile_then_run(q: &TypedQuery, p: &Plan)
    requires valid { IsValidQuery q.now }
    requires text { HasPlanText q.now }
    requires plan { IsPlanOf q.now p.now }
    requires no_finals { final_fault q.now ≡ None }
    ensures { LoadsAsTheQuery q.now }
{
    p.invariant();
}
