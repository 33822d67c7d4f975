//! The whole object.

ghost use Rattle.std.specs.Prelude.{IfOk, string_bytes};
ghost use Rattle.facts_text.specs.Json.{IsJson};

use crate::fault::fault_value;
use crate::folds::folds_value;
use crate::items::items_value;
use crate::read::{ReadText, read_text, remarks_on};
use crate::streams::{groupbys_value, streams_value};
use crate::tables::{finals_value, prints_value};
use crate::values::{Members, bytes_value, name_value, push_made, put_span, word_at};
use crate::words::{fault_word, unsplit_word};
use marple_base::{Field, FieldSet};
use query_facts::{AcceptedFacts, Commands, Facts, Parts, RefusedFacts};
use query_lang::{Name, Names, QueryFault};
use serde_json::Value;
use std::alloc::{AllocError, Global};

// What a command refuses, or null where it takes the query.
fn command_value(alloc: Global, fault: Option<QueryFault>) -> Result<Value, AllocError> {
    match fault {
        Some(fault) => word_at(alloc, fault_word(fault.kind), fault.span),
        None => Ok(Value::Null),
    }
}

fn commands_value(alloc: Global, commands: &Commands) -> Result<Value, AllocError> {
    let mut members = Members::new(alloc);
    members.put_made("net", command_value(alloc, commands.net))?;
    members.put_made("enclose", command_value(alloc, commands.enclose))?;
    members.put_made("compile", command_value(alloc, commands.compile))?;
    Ok(members.into_object())
}

// The names of fields.
fn fields_value(alloc: Global, fields: &[Field]) -> Result<Value, AllocError> {
    let mut list = Vec::new(alloc);
    for field in fields {
        push_made(&mut list, bytes_value(alloc, field.name()))?;
    }
    Ok(Value::Array(list))
}

// The names of the fields of a set.
fn reads_value(alloc: Global, reads: FieldSet) -> Result<Value, AllocError> {
    let mut list = Vec::new(alloc);
    for field in Field::ALL {
        if reads.has(field) {
            push_made(&mut list, bytes_value(alloc, field.name()))?;
        }
    }
    Ok(Value::Array(list))
}

// The fields by which a trace may be split.
fn by_value(alloc: Global, parts: &Parts) -> Result<Value, AllocError> {
    match parts {
        Parts::By(fields) => fields_value(alloc, fields.as_slice()),
        Parts::Sums => Ok(Value::Array(Vec::new(alloc))),
        Parts::No(_, _) => Ok(Value::Array(Vec::new(alloc))),
    }
}

// Why a trace may not be split, or null.
fn unsplit_value(alloc: Global, parts: &Parts) -> Result<Value, AllocError> {
    match parts {
        Parts::By(_) => Ok(Value::Null),
        Parts::Sums => Ok(Value::Null),
        Parts::No(why, span) => word_at(alloc, unsplit_word(*why), *span),
    }
}

fn parts_value(alloc: Global, parts: &Parts) -> Result<Value, AllocError> {
    let mut members = Members::new(alloc);
    members.put_made("by", by_value(alloc, parts))?;
    members.put("sums", Value::from(matches!(parts, Parts::Sums)))?;
    members.put_made("refused", unsplit_value(alloc, parts))?;
    Ok(members.into_object())
}

// A place where the infinity of a dropped packet is reckoned with.
fn warning_value(alloc: Global, names: &Names, loss: Name) -> Result<Value, AllocError> {
    let mut members = Members::new(alloc);
    members.put_text("kind", "infinity")?;
    members.put_made("name", name_value(alloc, names, loss.id))?;
    put_span(&mut members, loss.span)?;
    Ok(members.into_object())
}

fn warnings_value(alloc: Global, names: &Names, losses: &[Name]) -> Result<Value, AllocError> {
    let mut list = Vec::new(alloc);
    for loss in losses {
        push_made(&mut list, warning_value(alloc, names, *loss))?;
    }
    Ok(Value::Array(list))
}

// Adds what any text has: the version of the form, the fields, the fault and the items.
fn put_text(
    alloc: Global,
    text: &Option<ReadText>,
    fault: Value,
    to: &mut Members,
) -> Result<(), AllocError> {
    to.put("marple_facts", Value::from(1))?;
    to.put("fault", fault)?;
    to.put_made("fields", fields_value(alloc, &Field::ALL))?;
    to.put_made("items", items_value(alloc, text))
}

// Adds what the remarks on its text say of a query.
fn put_remarks(
    alloc: Global,
    text: &Option<ReadText>,
    facts: &AcceptedFacts,
    to: &mut Members,
) -> Result<(), AllocError> {
    let remarks = remarks_on(alloc, text, facts.folds.as_slice())?;
    let folds = folds_value(alloc, text, facts, remarks.causes.as_slice())?;
    to.put("folds", folds)?;
    let warnings = warnings_value(alloc, &facts.typed.names, remarks.losses.as_slice())?;
    to.put("warnings", warnings)
}

// Adds the streams and tables of a query.
fn put_tables(alloc: Global, facts: &AcceptedFacts, to: &mut Members) -> Result<(), AllocError> {
    to.put_made("streams", streams_value(alloc, facts))?;
    to.put_made("groupbys", groupbys_value(alloc, facts))?;
    to.put_made("finals", finals_value(alloc, &facts.typed))?;
    to.put_made("prints", prints_value(alloc, &facts.typed))
}

// Adds what may be done with a query.
fn put_uses(alloc: Global, facts: &AcceptedFacts, to: &mut Members) -> Result<(), AllocError> {
    to.put_made("reads", reads_value(alloc, facts.reads))?;
    to.put_made("commands", commands_value(alloc, &facts.commands))?;
    to.put_made("parts", parts_value(alloc, &facts.parts))
}

fn accepted_value(
    alloc: Global,
    text: &Option<ReadText>,
    facts: &AcceptedFacts,
) -> Result<Value, AllocError> {
    let mut members = Members::new(alloc);
    put_text(alloc, text, Value::Null, &mut members)?;
    put_remarks(alloc, text, facts, &mut members)?;
    put_tables(alloc, facts, &mut members)?;
    put_uses(alloc, facts, &mut members)?;
    Ok(members.into_object())
}

fn refused_value(
    alloc: Global,
    text: &Option<ReadText>,
    facts: &RefusedFacts,
) -> Result<Value, AllocError> {
    let mut members = Members::new(alloc);
    put_text(alloc, text, fault_value(alloc, text, facts)?, &mut members)?;
    Ok(members.into_object())
}

/// The facts of a query's text as one JSON object.
pub fn facts_text(alloc: Global, text: &[u8], facts: &Facts) -> Result<String, AllocError>
    ensures { IfOk result (λ shown. IsJson (string_bytes shown)) }
{
    let read = read_text(alloc, text)?;
    let value = match facts {
        Facts::Accepted(facts) => accepted_value(alloc, &read, facts)?,
        Facts::Refused(facts) => refused_value(alloc, &read, facts)?,
    };
    value.to_string(alloc)
}
