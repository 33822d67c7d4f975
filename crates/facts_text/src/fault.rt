//! The fault of a refused query, with the tokens that may stand there and the names in reach.

use crate::reach::{InReach, in_reach};
use crate::read::{ReadText, place_of};
use crate::values::{Members, bytes_value, push_made, put_span, word_value};
use crate::words::{fault_word, limit_of, most_of, place_word};
use query_facts::{RefusedFacts, spelling};
use query_lang::{FaultKind, TokenKind};
use query_places::Place;
use serde_json::Value;
use std::alloc::{AllocError, Global};

// The word of what kind a token is.
fn token_word(kind: TokenKind) -> &'static str {
    match kind {
        TokenKind::Name(_) => "name",
        TokenKind::Number(_) => "number",
        TokenKind::End => "end",
        TokenKind::FiveTuple | TokenKind::Word(_) | TokenKind::Mark(_) => "token",
    }
}

// The text of a token that has only one.
fn token_text(alloc: Global, kind: TokenKind) -> Result<Value, AllocError> {
    match kind {
        TokenKind::Name(_) | TokenKind::Number(_) | TokenKind::End => Ok(Value::Null),
        TokenKind::FiveTuple | TokenKind::Word(_) | TokenKind::Mark(_) => {
            bytes_value(alloc, spelling(kind))
        }
    }
}

fn token_value(alloc: Global, kind: TokenKind) -> Result<Value, AllocError> {
    let mut members = Members::new(alloc);
    members.put_text("kind", token_word(kind))?;
    members.put_made("text", token_text(alloc, kind))?;
    Ok(members.into_object())
}

// The tokens that may stand there.
fn expected_value(alloc: Global, kinds: &[TokenKind]) -> Result<Value, AllocError> {
    let mut list = Vec::new(alloc);
    for kind in kinds {
        push_made(&mut list, token_value(alloc, *kind))?;
    }
    Ok(Value::Array(list))
}

// The number of the item that a fault is in, where the text is read.
fn item_number(found: Option<(usize, Place)>) -> Option<u64> {
    match found {
        Some((number, _)) => Some(number as u64),
        None => None,
    }
}

// The word of a place.
fn word_of_place(found: Option<(usize, Place)>) -> Option<&'static str> {
    match found {
        Some((_, place)) => Some(place_word(place)),
        None => None,
    }
}

// Adds the kind of a fault, and its limit with its number if it is of one.
fn put_kind(alloc: Global, kind: FaultKind, to: &mut Members) -> Result<(), AllocError> {
    to.put_text("kind", fault_word(kind))?;
    to.put_made("limit", word_value(alloc, limit_of(kind)))?;
    to.put("most", Value::from(most_of(kind)))
}

// Adds the item and the place that a fault is in.
fn put_place(
    alloc: Global,
    found: Option<(usize, Place)>,
    to: &mut Members,
) -> Result<(), AllocError> {
    to.put("item", Value::from(item_number(found)))?;
    to.put_made("place", word_value(alloc, word_of_place(found)))
}

// Adds the names in reach.
fn put_reach(found: InReach, to: &mut Members) -> Result<(), AllocError> {
    let InReach {
        names,
        columns,
        missing,
    } = found;
    to.put("names", names)?;
    to.put("columns", columns)?;
    to.put("missing", missing)
}

// Adds all that is said of a fault.
fn put_fault(
    alloc: Global,
    text: &Option<ReadText>,
    facts: &RefusedFacts,
    to: &mut Members,
) -> Result<(), AllocError> {
    put_kind(alloc, facts.fault.kind, to)?;
    put_span(to, facts.fault.span)?;
    to.put_made("expected", expected_value(alloc, facts.expected.as_slice()))?;
    let found = place_of(text, facts.fault.span.start);
    put_place(alloc, found, to)?;
    put_reach(in_reach(alloc, text, &facts.reach, found)?, to)
}

/// The fault of a refused query.
pub(crate) fn fault_value(
    alloc: Global,
    text: &Option<ReadText>,
    facts: &RefusedFacts,
) -> Result<Value, AllocError> {
    let mut members = Members::new(alloc);
    put_fault(alloc, text, facts, &mut members)?;
    Ok(members.into_object())
}
