//! The facts of a query's text.

ghost use Rattle.std.specs.Prelude.{◌≡◌, ◌≤◌, Ok, Err, length, IfOk, IfSome};
ghost use Rattle.query_lang.specs.{Limits.IsReadable, TypedQueries.IsValidQuery};
ghost use Rattle.stage_plan.specs.Planned.{IsPlanOf};
ghost use Rattle.accepted_query.specs.Accepted.{accepted};
ghost use Rattle.query_facts.specs.Facts.{AreFactsOf, AreOfText, AreRefused};

use crate::columns::all_columns;
use crate::commands::{Commands, command_faults};
use crate::earlier::{Reach, items_before, reach_before};
use crate::expected::expected_of;
use crate::folds::{FoldFacts, all_folds};
use crate::needs::{needed_groupbys, needed_tables};
use crate::parts::{Parts, parts_of};
use accepted_query::{AcceptedQuery, accept};
use marple_base::{FieldSet, Seq};
use query_lang::typing::Origin;
use query_lang::{FaultKind, Query, QueryError, QueryFault, TokenKind, TypedQuery};
use query_parser::parse;
use std::alloc::{AllocError, Global};

/// What an accepted query is. The folds are in its order, and so are the columns of its streams, after those of the packets;
/// `needed` has the places of the groupbys among the streams that the prints need.
#[derive(Drop)]
pub struct AcceptedFacts {
    pub typed: TypedQuery,
    pub folds: Seq<FoldFacts>,
    pub origins: Seq<Seq<Origin>>,
    pub needed: Seq<usize>,
    pub reads: FieldSet,
    pub commands: Commands,
    pub parts: Parts,
}

/// What is wrong with a refused query: its first fault, the tokens that may stand there, and if a name is the fault, what the
/// items before its item make.
#[derive(Drop)]
pub struct RefusedFacts {
    pub fault: QueryFault,
    pub expected: Seq<TokenKind>,
    pub reach: Option<Reach>,
}

/// The facts of a query.
#[derive(Drop)]
pub enum Facts {
    Accepted(AcceptedFacts),
    Refused(RefusedFacts),
}

// The query of a text, where it is read.
fn query_of(alloc: Global, text: &[u8]) -> Result<Option<Query>, AllocError>
    ensures { IfOk result (λ o. IfSome o (λ q. IsReadable q)) }
{
    match parse(alloc, text) {
        Ok(query) => Ok(Some(query)),
        Err(QueryError::Refused(_)) => Ok(None),
        Err(QueryError::Memory) => Err(AllocError),
    }
}

// The facts of an accepted query.
fn accepted_facts(alloc: Global, found: AcceptedQuery) -> Result<AcceptedFacts, AllocError>
    requires valid { IsValidQuery found.typed }
    requires plan { IsPlanOf found.typed found.plan }
    ensures typed { IfOk result (λ facts. facts.typed ≡ found.typed) }
    ensures facts { IfOk result (λ facts. AreFactsOf facts.typed facts) }
{
    let AcceptedQuery { typed, plan } = found;
    let folds = all_folds(alloc, typed.folds.as_slice())?;
    let origins = all_columns(alloc, &typed)?;
    let tables = needed_tables(alloc, &typed)?;
    let needed = needed_groupbys(alloc, tables.as_slice(), typed.streams.as_slice())?;
    let commands = command_faults(&typed, &plan);
    let parts = parts_of(alloc, &typed)?;
    let reads = plan.reads();
    Ok(AcceptedFacts {
        typed,
        folds,
        origins,
        needed,
        reads,
        commands,
        parts,
    })
}

// Whether the names in reach of such a fault are of use.
fn has_names(kind: FaultKind) -> bool {
    matches!(kind, FaultKind::UnknownName | FaultKind::StateOnLine)
}

// What the items before that of a fault make, where a name is the fault.
fn names_in_reach(
    alloc: Global,
    text: &[u8],
    fault: QueryFault,
) -> Result<Option<Reach>, AllocError> {
    if !has_names(fault.kind) {
        return Ok(None);
    }
    match query_of(alloc, text)? {
        Some(query) => {
            let item = items_before(query.items.as_slice(), fault.span.start);
            reach_before(alloc, query, item)
        }
        None => Ok(None),
    }
}

// The facts of a text that has this fault.
fn refused_facts(alloc: Global, text: &[u8], fault: QueryFault) -> Result<RefusedFacts, AllocError>
    requires { accepted text.now ≡ Err fault }
    ensures { IfOk result (AreRefused text.now) }
{
    let expected = expected_of(alloc, text, fault)?;
    let reach = names_in_reach(alloc, text, fault)?;
    Ok(RefusedFacts {
        fault,
        expected,
        reach,
    })
}

/// The facts of a query's text, each by its definition. It fails only where memory runs out.
pub fn facts_of(alloc: Global, text: &[u8]) -> Result<Facts, AllocError>
    ensures { IfOk result (AreOfText text.now) }
{
    match accept(alloc, text) {
        Ok(found) => Ok(Facts::Accepted(accepted_facts(alloc, found)?)),
        Err(QueryError::Refused(fault)) => Ok(Facts::Refused(refused_facts(alloc, text, fault)?)),
        Err(QueryError::Memory) => Err(AllocError),
    }
}
