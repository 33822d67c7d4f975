//! The items of a text, as they were read.

use crate::read::ReadText;
use crate::values::{Members, bytes_value, name_value, placed, placed_list, push_made, put_span};
use marple_base::Field;
use query_lang::{
    Column, FinalDef, FinalOp, FoldDef, Item, Key, Name, Names, Span, StateVar, StreamDef, StreamOp,
};
use serde_json::Value;
use std::alloc::{AllocError, Global};

const FIVE: [Field; 5] = [
    Field::SrcIp,
    Field::DstIp,
    Field::SrcPort,
    Field::DstPort,
    Field::Proto,
];

// Adds the five fields that `5tuple` stands for.
fn push_five(alloc: Global, list: &mut Vec<Value>) -> Result<(), AllocError> {
    for field in FIVE {
        push_made(list, bytes_value(alloc, field.name()))?;
    }
    Ok(())
}

// The names of keys.
fn keys_value(alloc: Global, names: &Names, keys: &[Key]) -> Result<Value, AllocError> {
    let mut list = Vec::new(alloc);
    for key in keys {
        match key {
            Key::Named(name) => push_made(&mut list, name_value(alloc, names, name.id))?,
            Key::FiveTuple(_) => push_five(alloc, &mut list)?,
        }
    }
    Ok(Value::Array(list))
}

// The names of new columns, with their places.
fn made_value(alloc: Global, names: &Names, columns: &[Column]) -> Result<Value, AllocError> {
    let mut list = Vec::new(alloc);
    for column in columns {
        push_made(&mut list, placed(alloc, names, column.name))?;
    }
    Ok(Value::Array(list))
}

// A state variable, with its place and its initial number.
fn state_value(alloc: Global, names: &Names, state: &StateVar) -> Result<Value, AllocError> {
    let mut members = Members::new(alloc);
    members.put_made("name", name_value(alloc, names, state.name.id))?;
    members.put("start", Value::from(state.name.span.start))?;
    members.put("initial", Value::from(state.initial))?;
    Ok(members.into_object())
}

// The state variables of a fold.
fn states_value(alloc: Global, names: &Names, states: &[StateVar]) -> Result<Value, AllocError> {
    let mut list = Vec::new(alloc);
    for state in states {
        push_made(&mut list, state_value(alloc, names, state))?;
    }
    Ok(Value::Array(list))
}

// Adds what an item is, and its name with its place.
fn put_begin(
    alloc: Global,
    names: &Names,
    kind: &str,
    operator: &str,
    name: Name,
    to: &mut Members,
) -> Result<(), AllocError> {
    to.put_text("kind", kind)?;
    to.put_text("operator", operator)?;
    to.put_made("name", name_value(alloc, names, name.id))?;
    to.put("name_start", Value::from(name.span.start))
}

// Adds the keys and the fold of a groupby.
fn put_group(
    alloc: Global,
    names: &Names,
    keys: &[Key],
    fold: Name,
    to: &mut Members,
) -> Result<(), AllocError> {
    to.put_made("keys", keys_value(alloc, names, keys))?;
    to.put_made("fold", placed(alloc, names, fold))
}

// Adds the column and the number of rows of a `top`.
fn put_best(
    alloc: Global,
    names: &Names,
    best: Name,
    rows: u64,
    to: &mut Members,
) -> Result<(), AllocError> {
    let mut members = Members::new(alloc);
    members.put_made("column", name_value(alloc, names, best.id))?;
    members.put("rows", Value::from(rows))?;
    to.put("best", members.into_object())
}

fn put_fold(alloc: Global, names: &Names, d: &FoldDef, to: &mut Members) -> Result<(), AllocError> {
    put_begin(alloc, names, "fold", "def", d.name, to)?;
    to.put_made("states", states_value(alloc, names, d.states.as_slice()))?;
    to.put_made("arguments", placed_list(alloc, names, d.args.as_slice()))
}

// The word of a stream's operator.
fn stream_word(op: &StreamOp) -> &'static str {
    match op {
        StreamOp::Filter(_, _) => "filter",
        StreamOp::Map(_, _) => "map",
        StreamOp::Zip(_, _) => "zip",
        StreamOp::Group(_, _, _) => "groupby",
    }
}

// The inputs of a stream, with their places.
fn stream_inputs(alloc: Global, names: &Names, op: &StreamOp) -> Result<Value, AllocError> {
    match op {
        StreamOp::Filter(input, _) => placed_list(alloc, names, &[*input]),
        StreamOp::Map(input, _) => placed_list(alloc, names, &[*input]),
        StreamOp::Zip(one, other) => placed_list(alloc, names, &[*one, *other]),
        StreamOp::Group(input, _, _) => placed_list(alloc, names, &[*input]),
    }
}

// Adds what only some streams have.
fn put_stream_rest(
    alloc: Global,
    names: &Names,
    op: &StreamOp,
    to: &mut Members,
) -> Result<(), AllocError> {
    match op {
        StreamOp::Filter(_, _) => Ok(()),
        StreamOp::Map(_, columns) => to.put_made(
            "made",
            made_value(alloc, names, columns.as_slice()),
        ),
        StreamOp::Zip(_, _) => Ok(()),
        StreamOp::Group(_, keys, fold) => put_group(alloc, names, keys.as_slice(), *fold, to),
    }
}

fn put_stream(
    alloc: Global,
    names: &Names,
    d: &StreamDef,
    to: &mut Members,
) -> Result<(), AllocError> {
    put_begin(alloc, names, "stream", stream_word(&d.op), d.name, to)?;
    to.put_made("inputs", stream_inputs(alloc, names, &d.op))?;
    put_stream_rest(alloc, names, &d.op, to)
}

// The word of a final's operator.
fn final_word(op: &FinalOp) -> &'static str {
    match op {
        FinalOp::Filter(_, _) => "filter",
        FinalOp::Map(_, _) => "map",
        FinalOp::Group(_, _, _) => "groupby",
        FinalOp::Join(_, _) => "join",
        FinalOp::Top(_, _, _, _) => "top",
    }
}

// The inputs of a final, with their places.
fn final_inputs(alloc: Global, names: &Names, op: &FinalOp) -> Result<Value, AllocError> {
    match op {
        FinalOp::Filter(input, _) => placed_list(alloc, names, &[*input]),
        FinalOp::Map(input, _) => placed_list(alloc, names, &[*input]),
        FinalOp::Group(input, _, _) => placed_list(alloc, names, &[*input]),
        FinalOp::Join(one, other) => placed_list(alloc, names, &[*one, *other]),
        FinalOp::Top(input, _, _, _) => placed_list(alloc, names, &[*input]),
    }
}

// Adds what only some finals have.
fn put_final_rest(
    alloc: Global,
    names: &Names,
    op: &FinalOp,
    to: &mut Members,
) -> Result<(), AllocError> {
    match op {
        FinalOp::Filter(_, _) => Ok(()),
        FinalOp::Map(_, columns) => to.put_made(
            "made",
            made_value(alloc, names, columns.as_slice()),
        ),
        FinalOp::Group(_, keys, fold) => put_group(alloc, names, keys.as_slice(), *fold, to),
        FinalOp::Join(_, _) => Ok(()),
        FinalOp::Top(_, best, rows, _) => put_best(alloc, names, *best, *rows, to),
    }
}

fn put_final(
    alloc: Global,
    names: &Names,
    d: &FinalDef,
    to: &mut Members,
) -> Result<(), AllocError> {
    put_begin(alloc, names, "final", final_word(&d.op), d.name, to)?;
    to.put_made("inputs", final_inputs(alloc, names, &d.op))?;
    put_final_rest(alloc, names, &d.op, to)
}

// Adds what is said of an item.
fn put_item(alloc: Global, names: &Names, item: &Item, to: &mut Members) -> Result<(), AllocError> {
    match item {
        Item::Fold(d) => put_fold(alloc, names, d, to),
        Item::Stream(d) => put_stream(alloc, names, d, to),
        Item::Final(d) => put_final(alloc, names, d, to),
        Item::Print(name) => put_begin(alloc, names, "print", "print", *name, to),
    }
}

// An item at its place.
fn item_value(alloc: Global, names: &Names, item: &Item, span: Span) -> Result<Value, AllocError> {
    let mut members = Members::new(alloc);
    put_item(alloc, names, item, &mut members)?;
    put_span(&mut members, span)?;
    Ok(members.into_object())
}

/// The items of a text that was read, in order; none of another.
pub(crate) fn items_value(alloc: Global, text: &Option<ReadText>) -> Result<Value, AllocError> {
    let mut list = Vec::new(alloc);
    if let Some(read) = text {
        let spans = read.spans.as_slice();
        for (number, item) in read.query.items.as_slice().iter().enumerate() {
            if let Some(span) = spans.get(number) {
                push_made(&mut list, item_value(alloc, &read.query.names, item, *span))?;
            }
        }
    }
    Ok(Value::Array(list))
}
