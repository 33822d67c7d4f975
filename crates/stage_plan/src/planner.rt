//! The plan of a typed query.

ghost use Rattle.std.specs.Prelude.{◌≡◌, None, IfOk, OnOk, IfErr};
ghost use Rattle.query_lang.specs.{Answers.IsTold, TypedQueries.IsValidQuery};
ghost use Rattle.stage_plan.specs.{Depths.stage_fault, Planned.{IsPlanOf, MadeOf}};

use crate::fields::read_fields;
use crate::groups::{plan_groups, wire_groups};
use crate::order::{order_by_stage, registers_in, reorder};
use crate::plans::{Plan, greatest_stage};
use crate::streams::{MadeStreams, make_streams};
use query_lang::{QueryError, TypedQuery};
use std::alloc::{AllocError, Global};

// The operations that were made for a query are put in the order of their stages, and the groupbys are wired to them.
fn put_plan(alloc: Global, q: &TypedQuery, made: &MadeStreams) -> Result<Plan, AllocError>
    requires { MadeOf q.now made.now.ops made.now.streams }
    ensures { IfOk result (λ plan. IsPlanOf q.now plan) }
{
    let reads = read_fields(alloc, q)?;
    let ops = made.ops.as_slice();
    let order = order_by_stage(alloc, ops, greatest_stage(ops))?;
    let registers = registers_in(alloc, order.as_slice(), ops.len())?;
    let sorted = reorder(alloc, ops, order.as_slice(), registers.as_slice())?;
    let wiring = wire_groups(
        alloc,
        q.streams.as_slice(),
        made.streams.as_slice(),
        registers.as_slice(),
    )?;
    let groups = plan_groups(alloc, q)?;
    Plan::of_parts(alloc, reads, sorted, groups, wiring)
}

/// The plan of a query. It is refused exactly for its first stream that needs too many stages.
pub fn plan(alloc: Global, q: &TypedQuery) -> Result<Plan, QueryError>
    requires { IsValidQuery q.now }
    ensures meaning { IfOk result (λ plan. IsPlanOf q.now plan) }
    ensures fits { OnOk result (stage_fault q.now ≡ None) }
    ensures refused { IfErr result (IsTold (stage_fault q.now)) }
{
    let made = make_streams(alloc, q)?;
    Ok(put_plan(alloc, q, &made)?)
}
