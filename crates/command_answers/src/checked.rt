//! Queries for the commands that have checks of their own: read, accepted, and checked.
ghost use Rattle.std.specs.Prelude.{◌≡◌, ◌+◌, ◌≤◌, Ok, None, IfOk, IfErr, IfSome};
ghost use Rattle.marple_base.specs.Inputs.{IsClosed, LosesUpTo};
ghost use Rattle.query_lang.specs.TypedQueries.{IsValidQuery};
ghost use Rattle.stage_plan.specs.Planned.{IsPlanOf};
ghost use Rattle.accepted_query.specs.Accepted.{accepted};
ghost use Rattle.net_wide.specs.NetLaws.{TellsSwitches};
ghost use Rattle.command_answers.specs.{Phases.QueryEnds, OwnChecks.{fault_with, own_fault}};

use crate::operands::read_query;
use crate::status::Status;
use accepted_query::AcceptedQuery;
use enclosure_folds::enclose_check;
use marple_base::{Inputs, Which};
use net_laws::accepted_tell_switches;
use net_wide::net_check;
use plan_writer::final_in_plan;
use query_lang::{MAX_QUERY, QueryFault};
use std::alloc::Global;

/// What a command asks of a query beside that it is accepted.
#[derive(Clone, Copy)]
pub enum Check {
    /// Each groupby combines over several switches.
    Switches,
    /// The fold of each groupby has bounds: it is linear or monotone.
    Bounds,
    /// Its plan can be written: it has no final.
    PlanText,
}

fn own_fault(check: Check, query: &AcceptedQuery) -> Option<QueryFault>
    requires valid { IsValidQuery query.now.typed }
    requires plan { IsPlanOf query.now.typed query.now.plan }
    ensures { result ≡ own_fault check query.now.typed }
{
    match check {
        Check::Switches => net_check(&query.typed),
        Check::Bounds => enclose_check(&query.typed, &query.plan),
        Check::PlanText => final_in_plan(&query.typed),
    }
}

/// Reads a query for a command: it is accepted, and the command's own check finds no fault in it.
pub fn query_for<I: Inputs>(
    alloc: Global,
    inputs: &mut I,
    check: Check,
) -> Result<AcceptedQuery, Status>
    requires { IsClosed (I.input inputs.old Which.Query) }
    ensures ok { IfOk result (λ found. IfSome (I.input inputs.old Which.Query).left (λ query. accepted query ≡ Ok found.typed)) }
    ensures fits { IfOk result (λ found. own_fault check found.typed ≡ None) }
    ensures tells { IfOk result (λ found. TellsSwitches found.typed) }
    ensures valid { IfOk result (λ found. IsValidQuery found.typed) }
    ensures plan { IfOk result (λ found. IsPlanOf found.typed found.plan) }
    ensures err { IfErr result
        (QueryEnds (fault_with (own_fault check)) (I.input inputs.old Which.Query) (I.input inputs.new Which.Query)) }
    ensures lost { LosesUpTo (MAX_QUERY + 1) (I.input inputs.old Which.Query) (I.input inputs.new Which.Query) }
    ensures later { (I.input inputs.old Which.Query).faults ≤ (I.input inputs.new Which.Query).faults }
    ensures trace_kept { I.input inputs.new Which.Trace ≡ I.input inputs.old Which.Trace }
{
    accepted_tell_switches();
    let query = read_query(alloc, inputs)?;
    match own_fault(check, &query) {
        Some(fault) => Err(Status::QueryRefused(fault)),
        None => Ok(query),
    }
}
