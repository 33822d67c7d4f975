//! Tables: groupbys, finals, and what is printed of them.

use crate::values::{Members, name_list, name_value, push_made};
use marple_base::Seq;
use query_lang::{Names, PrintOf, TypedFinal, TypedFinalOp, TypedOp, TypedQuery};
use serde_json::Value;
use std::alloc::{AllocError, Global};

/// The names of tables by number: those of the groupbys, and then those of the finals.
pub(crate) fn table_names(alloc: Global, q: &TypedQuery) -> Result<Seq<u32>, AllocError> {
    let mut ids = Seq::new(alloc);
    for one in q.streams.as_slice() {
        if let TypedOp::Group(_, _, _, _) = &one.op {
            ids.push(one.name.id)?;
        }
    }
    for one in q.finals.as_slice() {
        ids.push(one.name.id)?;
    }
    Ok(ids)
}

// The name of the table with this number.
fn table_name(
    alloc: Global,
    names: &Names,
    tables: &[u32],
    number: u16,
) -> Result<Value, AllocError> {
    match tables.get(usize::from(number)) {
        Some(id) => name_value(alloc, names, *id),
        None => Ok(Value::Null),
    }
}

// The word of an operator.
fn operator_word(op: &TypedFinalOp) -> &'static str {
    match op {
        TypedFinalOp::Filter(_, _) => "filter",
        TypedFinalOp::Map(_, _) => "map",
        TypedFinalOp::Group(_, _, _, _) => "groupby",
        TypedFinalOp::Join(_, _) => "join",
        TypedFinalOp::Top(_, _, _) => "top",
    }
}

// The inputs of an operator: the first one, and another if there are two.
fn inputs_of(op: &TypedFinalOp) -> (u16, Option<u16>) {
    match op {
        TypedFinalOp::Filter(input, _) => (*input, None),
        TypedFinalOp::Map(input, _) => (*input, None),
        TypedFinalOp::Group(input, _, _, _) => (*input, None),
        TypedFinalOp::Join(left, right) => (*left, Some(*right)),
        TypedFinalOp::Top(input, _, _) => (*input, None),
    }
}

// The names of an operator's inputs.
fn inputs_value(
    alloc: Global,
    names: &Names,
    tables: &[u32],
    op: &TypedFinalOp,
) -> Result<Value, AllocError> {
    let mut list = Vec::new(alloc);
    let (first, second) = inputs_of(op);
    push_made(&mut list, table_name(alloc, names, tables, first))?;
    if let Some(other) = second {
        push_made(&mut list, table_name(alloc, names, tables, other))?;
    }
    Ok(Value::Array(list))
}

// The name of the column with this number.
fn column_name(
    alloc: Global,
    names: &Names,
    one: &TypedFinal,
    number: u16,
) -> Result<Value, AllocError> {
    match one.columns.as_slice().get(usize::from(number)) {
        Some(id) => name_value(alloc, names, *id),
        None => Ok(Value::Null),
    }
}

// The column and the number of rows of a `top`.
fn best_value(alloc: Global, names: &Names, one: &TypedFinal) -> Result<Value, AllocError> {
    let TypedFinalOp::Top(_, column, rows) = &one.op else {
        return Ok(Value::Null);
    };
    let mut members = Members::new(alloc);
    members.put_made("column", column_name(alloc, names, one, *column))?;
    members.put("rows", Value::from(*rows))?;
    Ok(members.into_object())
}

// Adds the columns of a final, and what a `top` is by.
fn put_columns(
    alloc: Global,
    names: &Names,
    one: &TypedFinal,
    to: &mut Members,
) -> Result<(), AllocError> {
    to.put_made("columns", name_list(alloc, names, one.columns.as_slice()))?;
    to.put("keys", Value::from(one.keys))?;
    to.put_made("best", best_value(alloc, names, one))
}

// A final.
fn final_value(
    alloc: Global,
    names: &Names,
    tables: &[u32],
    one: &TypedFinal,
) -> Result<Value, AllocError> {
    let mut members = Members::new(alloc);
    members.put_made("name", name_value(alloc, names, one.name.id))?;
    members.put("start", Value::from(one.name.span.start))?;
    members.put_text("operator", operator_word(&one.op))?;
    members.put_made("inputs", inputs_value(alloc, names, tables, &one.op))?;
    put_columns(alloc, names, one, &mut members)?;
    Ok(members.into_object())
}

/// The finals of an accepted query.
pub(crate) fn finals_value(alloc: Global, q: &TypedQuery) -> Result<Value, AllocError> {
    let tables = table_names(alloc, q)?;
    let mut list = Vec::new(alloc);
    for one in q.finals.as_slice() {
        push_made(
            &mut list,
            final_value(alloc, &q.names, tables.as_slice(), one),
        )?;
    }
    Ok(Value::Array(list))
}

// The name of the groupby with this number.
fn groupby_name(alloc: Global, q: &TypedQuery, number: u16) -> Result<Value, AllocError> {
    let tables = table_names(alloc, q)?;
    table_name(alloc, &q.names, tables.as_slice(), number)
}

// The name of the final with this number.
fn final_name(alloc: Global, q: &TypedQuery, number: u16) -> Result<Value, AllocError> {
    match q.finals.as_slice().get(usize::from(number)) {
        Some(one) => name_value(alloc, &q.names, one.name.id),
        None => Ok(Value::Null),
    }
}

/// The names of the printed tables.
pub(crate) fn prints_value(alloc: Global, q: &TypedQuery) -> Result<Value, AllocError> {
    let mut list = Vec::new(alloc);
    for place in q.prints.as_slice() {
        match place {
            PrintOf::Group(i) => push_made(&mut list, groupby_name(alloc, q, *i))?,
            PrintOf::Final(i) => push_made(&mut list, final_name(alloc, q, *i))?,
        }
    }
    Ok(Value::Array(list))
}
