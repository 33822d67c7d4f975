//! What a plan's text can't have.

ghost use Rattle.std.specs.Prelude.{◌≡◌};
ghost use Rattle.plan_writer.specs.PlanText.{final_fault};

use query_lang::{FaultKind, QueryFault, TypedQuery};

/// A plan's text has no finals: the fault is at the name of the query's first final, and there is none where the query has
/// none.
pub fn final_in_plan(q: &TypedQuery) -> Option<QueryFault>
    ensures { result ≡ final_fault q.now }
{
    if q.finals.is_empty() {
        return None;
    }
    Some(QueryFault {
        kind: FaultKind::FinalInPlan,
        span: q.finals.get(0).name.span,
    })
}
