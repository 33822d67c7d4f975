//! The operands of a command: read, and accepted or refused.
ghost use Rattle.std.specs.Prelude.{◌≡◌, ◌+◌, ◌≤◌, Ok, IfOk, IfErr, IfSome, take};
ghost use Rattle.marple_base.specs.Inputs.{IsClosed, LosesUpTo};
ghost use Rattle.query_lang.specs.TypedQueries.{IsValidQuery};
ghost use Rattle.stage_plan.specs.Planned.{IsPlanOf};
ghost use Rattle.accepted_query.specs.{Accepted.{accepted, query_fault}, TrialQuery.trial_query};
ghost use Rattle.command_answers.specs.Phases.{IsOfText, IsReadFrom, PlanEnds, QueryEnds, ReadEnds};

use crate::status::Status;
use accepted_query::{AcceptedQuery, accept, trial_is_accepted, trial_query};
use marple_base::{Inputs, ReadAnswer, Text, Which, read_input};
use plan_file::MAX_PLAN;
use plan_loader::{LoadedPlan, read_plan};
use query_lang::{MAX_QUERY, QueryError};
use std::alloc::{AllocError, Global};
use trace_reader::MAX_TRACE;

// The bytes of an input, to its end or to one byte more than the limit. Where they can't be read, the function ends in that.
macro_rules! read {
    ($alloc:ident, $inputs:ident, $which:ident, $limit:expr) => {
        match read_input($alloc, $inputs, Which::$which, $limit + 1) {
            Ok(text) => text,
            Err(ReadAnswer::Failed) => return Err(Status::InputFault(Which::$which)),
            Err(ReadAnswer::Memory) => return Err(Status::Memory),
        }
    };
}

/// Reads the query, to its end or to one byte more than the limit, and accepts or refuses it.
pub fn read_query<I: Inputs>(alloc: Global, inputs: &mut I) -> Result<AcceptedQuery, Status>
    requires { IsClosed (I.input inputs.old Which.Query) }
    ensures ok { IfOk result (λ found. IfSome (I.input inputs.old Which.Query).left (λ query. accepted query ≡ Ok found.typed)) }
    ensures some_text { IfOk result (λ found. IsOfText found.typed) }
    ensures valid { IfOk result (λ found. IsValidQuery found.typed) }
    ensures plan { IfOk result (λ found. IsPlanOf found.typed found.plan) }
    ensures err { IfErr result (QueryEnds query_fault (I.input inputs.old Which.Query) (I.input inputs.new Which.Query)) }
    ensures lost { LosesUpTo (MAX_QUERY + 1) (I.input inputs.old Which.Query) (I.input inputs.new Which.Query) }
    ensures later { (I.input inputs.old Which.Query).faults ≤ (I.input inputs.new Which.Query).faults }
    ensures trace_kept { I.input inputs.new Which.Trace ≡ I.input inputs.old Which.Trace }
{
    let text = read!(alloc, inputs, Query, MAX_QUERY);
    let query = accept(alloc, text.as_slice())?;
    Ok(query)
}

/// The trial's query with its plan.
pub fn accept_trial(alloc: Global) -> Result<AcceptedQuery, AllocError>
    ensures ok { IfOk result (λ found. accepted trial_query ≡ Ok found.typed) }
    ensures valid { IfOk result (λ found. IsValidQuery found.typed) }
    ensures plan { IfOk result (λ found. IsPlanOf found.typed found.plan) }
{
    trial_is_accepted();
    match accept(alloc, trial_query()) {
        Ok(query) => Ok(query),
        Err(QueryError::Refused(_fault)) => unreachable!(),
        Err(QueryError::Memory) => Err(AllocError),
    }
}

/// Reads the text of a plan, to its end or to one byte more than the limit, and makes the plan or refuses the text.
pub fn read_plan_text<I: Inputs>(alloc: Global, inputs: &mut I) -> Result<LoadedPlan, Status>
    requires { IsClosed (I.input inputs.old Which.Query) }
    ensures ok { IfOk result (IsReadFrom (I.input inputs.old Which.Query)) }
    ensures err { IfErr result (PlanEnds (I.input inputs.old Which.Query) (I.input inputs.new Which.Query)) }
    ensures lost { LosesUpTo (MAX_PLAN + 1) (I.input inputs.old Which.Query) (I.input inputs.new Which.Query) }
    ensures later { (I.input inputs.old Which.Query).faults ≤ (I.input inputs.new Which.Query).faults }
    ensures trace_kept { I.input inputs.new Which.Trace ≡ I.input inputs.old Which.Trace }
{
    let text = read!(alloc, inputs, Query, MAX_PLAN);
    let loaded = read_plan(alloc, text.as_slice())?;
    Ok(loaded)
}

/// Reads the bytes of the trace, to its end or to one byte more than the limit.
pub fn read_trace<I: Inputs>(alloc: Global, inputs: &mut I) -> Result<Text, Status>
    requires { IsClosed (I.input inputs.old Which.Trace) }
    ensures ok { IfOk result (λ text. IfSome (I.input inputs.old Which.Trace).left (λ trace. text ≡ take (MAX_TRACE + 1) trace)) }
    ensures err { IfErr result (ReadEnds (I.input inputs.old Which.Trace) (I.input inputs.new Which.Trace)) }
    ensures lost { LosesUpTo (MAX_TRACE + 1) (I.input inputs.old Which.Trace) (I.input inputs.new Which.Trace) }
    ensures later { (I.input inputs.old Which.Trace).faults ≤ (I.input inputs.new Which.Trace).faults }
    ensures query_kept { I.input inputs.new Which.Query ≡ I.input inputs.old Which.Query }
{
    let text = read!(alloc, inputs, Trace, MAX_TRACE);
    Ok(text)
}
