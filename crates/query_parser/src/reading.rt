//! Reads a query's text: its length is tested, then it is cut into tokens, and then these are read.

ghost use Rattle.std.specs.Prelude.{◌≡◌, IfOk};
ghost use Rattle.query_grammar.specs.Reading.{parsed};
ghost use Rattle.query_grammar.specs.Texts.{answered, first_fault_of, IsFaultOf, IsQueryOf, kind_of as kind_by, parsed_text};
ghost use Rattle.query_lang.specs.{Answers.Answers, Limits.IsReadable};
ghost use Rattle.query_parser.specs.Given.{IfRefused, length_checked};

use crate::halt::Halt;
use crate::item::query;
use crate::lexer::{Lexed, cut_text, fault_from};
use crate::reader::Reader;
use marple_base::Seq;
use query_grammar::{Counts, Stop};
use query_lang::{FaultKind, Item, Limit, MAX_QUERY, Query, QueryError, QueryFault, Span, Token};
use std::alloc::Global;

fn kind_of(stop: Stop) -> FaultKind
    ensures { result ≡ kind_by stop }
{
    match stop {
        Stop::Unexpected => FaultKind::UnexpectedToken,
        Stop::Nodes => FaultKind::OverLimit(Limit::Nodes),
        Stop::Statements => FaultKind::OverLimit(Limit::Statements),
        Stop::Nesting => FaultKind::OverLimit(Limit::Nesting),
    }
}

/// The fault at the first of the tokens.
fn fault_of(stop: Stop, rest: &[Token]) -> QueryFault
    ensures { result ≡ first_fault_of stop rest.now }
{
    let span = match rest {
        [first, ..] => first.span,
        [] => Span { start: 0, end: 0 },
    };
    QueryFault {
        kind: kind_of(stop),
        span,
    }
}

/// The items that the tokens are, all of them, and where the text ends.
fn read_tokens(alloc: Global, tokens: &[Token]) -> Result<(Seq<Item>, Span), QueryError>
    ensures { Answers result (answered (parsed tokens.now)) }
{
    let none = Counts {
        nodes: 0,
        statements: 0,
    };
    let mut reader = Reader {
        alloc,
        counts: none,
        rest: tokens,
    };
    match query(&mut reader) {
        Ok(found) => match reader.rest {
            [] => Ok(found),
            rest => Err(QueryError::Refused(fault_of(Stop::Unexpected, rest))),
        },
        Err(Halt::At(stop)) => Err(QueryError::Refused(fault_of(stop, reader.rest))),
        Err(Halt::Memory) => Err(QueryError::Memory),
    }
}

/// No text is read that is longer than a query may be.
fn check_length(text: &[u8]) -> Result<(), QueryFault>
    ensures { result ≡ length_checked text.now }
{
    if text.len() > MAX_QUERY {
        return Err(fault_from(FaultKind::QueryTooLong, MAX_QUERY));
    }
    Ok(())
}

fn read_text(alloc: Global, text: &[u8]) -> Result<Query, QueryError>
    ensures { Answers result (parsed_text text.now) }
{
    check_length(text)?;
    let Lexed { tokens, names } = cut_text(alloc, text)?;
    let (items, end) = read_tokens(alloc, tokens.as_slice())?;
    Ok(Query { names, items, end })
}

/// The query of a text, or the first fault: of its length, then of the lexis, then of the grammar with its limits on
/// nodes, statements and open brackets. `Memory` is given only where memory runs out.
pub fn parse(alloc: Global, text: &[u8]) -> Result<Query, QueryError>
    ensures given { Answers result (parsed_text text.now) }
    ensures query { IfOk result (λ q. IsQueryOf text.now q) }
    ensures readable { IfOk result (λ q. IsReadable q) }
    ensures refused { IfRefused result (λ fault. IsFaultOf text.now fault) }
{
    read_text(alloc, text)
}
