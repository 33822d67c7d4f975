//! Parsing, typing and planning, in sequence.

ghost use Rattle.std.specs.Prelude.{◌≡◌, Ok, IfOk, IfErr};
ghost use Rattle.query_lang.specs.{Answers.IsTold, TypedQueries.IsValidQuery};
ghost use Rattle.stage_plan.specs.Planned.{IsPlanOf};
ghost use Rattle.accepted_query.specs.Accepted.{accepted, query_fault};

use query_lang::{QueryError, TypedQuery};
use query_parser::parse;
use query_types::check;
use stage_plan::{Plan, plan};
use std::alloc::Global;

/// A query, typed, and the plan of its part that runs while packets pass.
#[derive(Drop)]
pub struct AcceptedQuery {
    pub typed: TypedQuery,
    pub plan: Plan,
}

/// The typed query and the plan of a text, or its first fault.
#[tactic(auto, unfolding(crate::specs::Accepted::accepted))]
pub fn accept(alloc: Global, text: &[u8]) -> Result<AcceptedQuery, QueryError>
    ensures typed { IfOk result (λ found. accepted text.now ≡ Ok found.typed) }
    ensures valid { IfOk result (λ found. IsValidQuery found.typed) }
    ensures plan { IfOk result (λ found. IsPlanOf found.typed found.plan) }
    ensures err { IfErr result (IsTold (query_fault text.now)) }
{
    let query = parse(alloc, text)?;
    let typed = check(alloc, query)?;
    let plan = plan(alloc, &typed)?;
    Ok(AcceptedQuery { typed, plan })
}
