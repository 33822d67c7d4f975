//! Streams, with where their columns come from.

use crate::values::{Members, name_value, push_made};
use crate::words::class_word;
use query_facts::{AcceptedFacts, FoldFacts};
use query_lang::typing::Origin;
use query_lang::{Names, TypedOp, TypedQuery, TypedStream};
use serde_json::Value;
use std::alloc::{AllocError, Global};

/// The name of the stream with this number.
pub(crate) fn stream_name(alloc: Global, q: &TypedQuery, number: u16) -> Result<Value, AllocError> {
    if number == 0 {
        return Value::try_from_str(alloc, "pktstream");
    }
    match q.streams.as_slice().get(usize::from(number - 1)) {
        Some(one) => name_value(alloc, &q.names, one.name.id),
        None => Ok(Value::Null),
    }
}

// The stream whose `map` makes a column, or null for a field of the packet.
fn maker(alloc: Global, q: &TypedQuery, origin: Origin) -> Result<Value, AllocError> {
    match origin {
        Origin::Field => Ok(Value::Null),
        Origin::Map(number) => stream_name(alloc, q, number),
    }
}

// A column of this name.
fn column_value(
    alloc: Global,
    q: &TypedQuery,
    id: u32,
    origin: Origin,
) -> Result<Value, AllocError> {
    let mut members = Members::new(alloc);
    members.put_made("name", name_value(alloc, &q.names, id))?;
    members.put_made("made_by", maker(alloc, q, origin))?;
    Ok(members.into_object())
}

/// Columns with these names, each with the stream whose `map` makes it.
pub(crate) fn columns_value(
    alloc: Global,
    q: &TypedQuery,
    ids: &[u32],
    origins: &[Origin],
) -> Result<Value, AllocError> {
    let mut list = Vec::new(alloc);
    for (id, origin) in ids.iter().zip(origins.iter()) {
        push_made(&mut list, column_value(alloc, q, *id, *origin))?;
    }
    Ok(Value::Array(list))
}

// The word of an operator.
fn operator_word(op: &TypedOp) -> &'static str {
    match op {
        TypedOp::Filter(_, _) => "filter",
        TypedOp::Map(_, _) => "map",
        TypedOp::Zip(_, _, _) => "zip",
        TypedOp::Group(_, _, _, _) => "groupby",
    }
}

// The inputs of an operator: the first one, and another if there are two.
fn inputs_of(op: &TypedOp) -> (u16, Option<u16>) {
    match op {
        TypedOp::Filter(input, _) => (*input, None),
        TypedOp::Map(input, _) => (*input, None),
        TypedOp::Zip(left, right, _) => (*left, Some(*right)),
        TypedOp::Group(input, _, _, _) => (*input, None),
    }
}

// The names of an operator's inputs.
fn inputs_value(alloc: Global, q: &TypedQuery, op: &TypedOp) -> Result<Value, AllocError> {
    let mut list = Vec::new(alloc);
    let (first, second) = inputs_of(op);
    push_made(&mut list, stream_name(alloc, q, first))?;
    if let Some(other) = second {
        push_made(&mut list, stream_name(alloc, q, other))?;
    }
    Ok(Value::Array(list))
}

// Adds the name of a stream and its place.
fn put_begin(
    alloc: Global,
    names: &Names,
    one: &TypedStream,
    to: &mut Members,
) -> Result<(), AllocError> {
    to.put_made("name", name_value(alloc, names, one.name.id))?;
    to.put("start", Value::from(one.name.span.start))
}

// A stream.
fn stream_value(
    alloc: Global,
    q: &TypedQuery,
    one: &TypedStream,
    origins: &[Origin],
) -> Result<Value, AllocError> {
    let mut members = Members::new(alloc);
    put_begin(alloc, &q.names, one, &mut members)?;
    members.put_text("operator", operator_word(&one.op))?;
    members.put_made("inputs", inputs_value(alloc, q, &one.op))?;
    let columns = columns_value(alloc, q, one.columns.as_slice(), origins)?;
    members.put("columns", columns)?;
    Ok(members.into_object())
}

/// The streams of an accepted query, but for `pktstream`.
pub(crate) fn streams_value(alloc: Global, facts: &AcceptedFacts) -> Result<Value, AllocError> {
    let mut list = Vec::new(alloc);
    let q = &facts.typed;
    let origins = facts.origins.as_slice();
    for one in q.streams.as_slice() {
        if let Some(columns) = origins.get(list.len() + 1) {
            push_made(&mut list, stream_value(alloc, q, one, columns.as_slice()))?;
        }
    }
    Ok(Value::Array(list))
}

// A key, and whether it is a field of the packet.
fn key_value(alloc: Global, names: &Names, id: u32, is_field: bool) -> Result<Value, AllocError> {
    let mut members = Members::new(alloc);
    members.put_made("name", name_value(alloc, names, id))?;
    members.put("field", Value::from(is_field))?;
    Ok(members.into_object())
}

// The keys of a groupby, each with whether it is a field of the packet.
fn keys_value(
    alloc: Global,
    names: &Names,
    ids: &[u32],
    origins: &[Origin],
) -> Result<Value, AllocError> {
    let mut list = Vec::new(alloc);
    for (id, origin) in ids.iter().zip(origins.iter()) {
        push_made(
            &mut list,
            key_value(alloc, names, *id, matches!(origin, Origin::Field)),
        )?;
    }
    Ok(Value::Array(list))
}

// The name of the fold with this number.
fn fold_name(alloc: Global, q: &TypedQuery, number: u16) -> Result<Value, AllocError> {
    match q.folds.as_slice().get(usize::from(number)) {
        Some(f) => name_value(alloc, &q.names, f.name.id),
        None => Ok(Value::Null),
    }
}

// The word of the class of the fold with this number.
fn fold_class(alloc: Global, facts: &[FoldFacts], number: u16) -> Result<Value, AllocError> {
    match facts.get(usize::from(number)) {
        Some(one) => Value::try_from_str(alloc, class_word(one.class)),
        None => Ok(Value::Null),
    }
}

// Adds the fold with this number.
fn put_fold(
    alloc: Global,
    facts: &AcceptedFacts,
    number: u16,
    to: &mut Members,
) -> Result<(), AllocError> {
    to.put_made("fold", fold_name(alloc, &facts.typed, number))?;
    to.put_made("class", fold_class(alloc, facts.folds.as_slice(), number))
}

// A groupby of this fold.
fn groupby_value(
    alloc: Global,
    facts: &AcceptedFacts,
    one: &TypedStream,
    origins: &[Origin],
    fold: u16,
    needed: bool,
) -> Result<Value, AllocError> {
    let names = &facts.typed.names;
    let mut members = Members::new(alloc);
    put_begin(alloc, names, one, &mut members)?;
    members.put_made(
        "keys",
        keys_value(alloc, names, one.columns.as_slice(), origins),
    )?;
    put_fold(alloc, facts, fold, &mut members)?;
    members.put("needed", Value::from(needed))?;
    Ok(members.into_object())
}

// Whether a place is among these.
fn is_among(place: usize, places: &[usize]) -> bool {
    for one in places {
        if *one == place {
            return true;
        }
    }
    false
}

/// The groupbys of an accepted query.
pub(crate) fn groupbys_value(alloc: Global, facts: &AcceptedFacts) -> Result<Value, AllocError> {
    let mut list = Vec::new(alloc);
    let origins = facts.origins.as_slice();
    for (place, one) in facts.typed.streams.as_slice().iter().enumerate() {
        if let TypedOp::Group(_, _, fold, _) = &one.op {
            if let Some(columns) = origins.get(place + 1) {
                let needed = is_among(place, facts.needed.as_slice());
                push_made(
                    &mut list,
                    groupby_value(alloc, facts, one, columns.as_slice(), *fold, needed),
                )?;
            }
        }
    }
    Ok(Value::Array(list))
}
