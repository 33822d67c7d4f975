//! The names in reach of a fault.

use crate::read::ReadText;
use crate::streams::columns_value;
use crate::values::{Members, name_value, push_made};
use marple_base::{Field, Seq};
use query_facts::Reach;
use query_lang::typing::Origin;
use query_lang::{
    FinalDef, FinalOp, FoldDef, Item, Name, Names, StreamDef, StreamOp, TypedFinal, TypedFold,
    TypedOp, TypedStream,
};
use query_places::Place;
use serde_json::Value;
use std::alloc::{AllocError, Global};

/// The names that may stand at a place, and the columns of the item's input; and the arguments of a groupby's fold that are none
/// of them.
pub(crate) struct InReach {
    pub(crate) names: Value,
    pub(crate) columns: Value,
    pub(crate) missing: Value,
}

// The folds of earlier items.
fn folds_of(reach: &Reach) -> &[TypedFold] {
    let all = reach.typed.folds.as_slice();
    if reach.folds < all.len() {
        return &all[..reach.folds];
    }
    all
}

// The streams of earlier items.
fn streams_of(reach: &Reach) -> &[TypedStream] {
    let all = reach.typed.streams.as_slice();
    if reach.streams < all.len() {
        return &all[..reach.streams];
    }
    all
}

// A name in reach: what it is, and where it is made, if an item makes it.
fn known(
    alloc: Global,
    names: &Names,
    id: u32,
    kind: &str,
    start: Option<u32>,
) -> Result<Value, AllocError> {
    let mut members = Members::new(alloc);
    members.put_made("name", name_value(alloc, names, id))?;
    members.put_text("kind", kind)?;
    members.put("start", Value::from(start))?;
    Ok(members.into_object())
}

// The stream of all packets.
fn packets_value(alloc: Global) -> Result<Value, AllocError> {
    let mut members = Members::new(alloc);
    members.put_text("name", "pktstream")?;
    members.put_text("kind", "stream")?;
    members.put("start", Value::Null)?;
    Ok(members.into_object())
}

// Whether a stream is a groupby.
fn groups(one: &TypedStream) -> bool {
    matches!(&one.op, TypedOp::Group(_, _, _, _))
}

// The streams so far.
fn stream_names(alloc: Global, reach: &Reach) -> Result<Value, AllocError> {
    let mut list = Vec::new(alloc);
    push_made(&mut list, packets_value(alloc))?;
    for one in streams_of(reach) {
        let kind = if groups(one) { "groupby" } else { "stream" };
        let start = Some(one.name.span.start);
        push_made(
            &mut list,
            known(alloc, &reach.typed.names, one.name.id, kind, start),
        )?;
    }
    Ok(Value::Array(list))
}

// The folds so far.
fn fold_names(alloc: Global, reach: &Reach) -> Result<Value, AllocError> {
    let mut list = Vec::new(alloc);
    for f in folds_of(reach) {
        let start = Some(f.name.span.start);
        push_made(
            &mut list,
            known(alloc, &reach.typed.names, f.name.id, "fold", start),
        )?;
    }
    Ok(Value::Array(list))
}

// The tables so far.
fn table_names(alloc: Global, reach: &Reach) -> Result<Value, AllocError> {
    let mut list = Vec::new(alloc);
    for one in streams_of(reach) {
        if groups(one) {
            let start = Some(one.name.span.start);
            push_made(
                &mut list,
                known(alloc, &reach.typed.names, one.name.id, "groupby", start),
            )?;
        }
    }
    for one in reach.typed.finals.as_slice() {
        let start = Some(one.name.span.start);
        push_made(
            &mut list,
            known(alloc, &reach.typed.names, one.name.id, "final", start),
        )?;
    }
    Ok(Value::Array(list))
}

// Columns with these names.
fn column_names(alloc: Global, names: &Names, ids: &[u32]) -> Result<Value, AllocError> {
    let mut list = Vec::new(alloc);
    for id in ids {
        push_made(&mut list, known(alloc, names, *id, "column", None))?;
    }
    Ok(Value::Array(list))
}

// The variables of a fold.
fn variable_names(alloc: Global, names: &Names, d: &FoldDef) -> Result<Value, AllocError> {
    let mut list = Vec::new(alloc);
    for state in d.states.as_slice() {
        let start = Some(state.name.span.start);
        push_made(
            &mut list,
            known(alloc, names, state.name.id, "state", start),
        )?;
    }
    for arg in d.args.as_slice() {
        let start = Some(arg.span.start);
        push_made(&mut list, known(alloc, names, arg.id, "argument", start))?;
    }
    Ok(Value::Array(list))
}

// Nothing but these names.
fn only(alloc: Global, names: Value) -> InReach {
    InReach {
        names,
        columns: Value::Array(Vec::new(alloc)),
        missing: Value::Array(Vec::new(alloc)),
    }
}

// The fields of the packet.
fn field_ids(alloc: Global, names: &Names) -> Result<Seq<u32>, AllocError> {
    let mut ids = Seq::new(alloc);
    if names.len() < 65536 {
        for field in Field::ALL {
            ids.push(names.find(field.name()))?;
        }
    }
    Ok(ids)
}

// The same names.
fn copy(alloc: Global, ids: &[u32]) -> Result<Seq<u32>, AllocError> {
    Ok(Seq::from_vec(ids.to_vec(alloc)?))
}

// The columns of the stream of a name, by name and by origin.
fn stream_columns(
    alloc: Global,
    reach: &Reach,
    name: Name,
) -> Result<(Seq<u32>, Seq<Origin>), AllocError> {
    let origins = reach.origins.as_slice();
    for (place, one) in streams_of(reach).iter().enumerate() {
        if one.name.id == name.id {
            if let Some(columns) = origins.get(place + 1) {
                let ids = copy(alloc, one.columns.as_slice())?;
                return Ok((ids, Seq::from_vec(columns.as_slice().to_vec(alloc)?)));
            }
        }
    }
    let ids = match name_text(&reach.typed.names, name) {
        Some(text) if text == b"pktstream".as_slice() => field_ids(alloc, &reach.typed.names)?,
        _ => Seq::new(alloc),
    };
    let fields = Seq::from_vec(vec![in alloc; Origin::Field; ids.len()]?);
    Ok((ids, fields))
}

// The text of a name, where it has one.
fn name_text(names: &Names, name: Name) -> Option<&[u8]> {
    if (name.id as usize) < names.len() {
        return Some(names.text(name.id));
    }
    None
}

// Adds a groupby's state variables.
fn push_states(ids: &mut Seq<u32>, folds: &[TypedFold], number: u16) -> Result<(), AllocError> {
    if let Some(f) = folds.get(usize::from(number)) {
        for id in f.state_names.as_slice() {
            ids.push(*id)?;
        }
    }
    Ok(())
}

// The columns of the final of a name.
fn final_columns(alloc: Global, finals: &[TypedFinal], name: Name) -> Result<Seq<u32>, AllocError> {
    for one in finals {
        if one.name.id == name.id {
            return copy(alloc, one.columns.as_slice());
        }
    }
    Ok(Seq::new(alloc))
}

// The columns of the table of a name.
fn table_columns(alloc: Global, reach: &Reach, name: Name) -> Result<Seq<u32>, AllocError> {
    for one in streams_of(reach) {
        if one.name.id == name.id {
            if let TypedOp::Group(_, _, fold, _) = &one.op {
                let mut ids = copy(alloc, one.columns.as_slice())?;
                push_states(&mut ids, folds_of(reach), *fold)?;
                return Ok(ids);
            }
        }
    }
    final_columns(alloc, reach.typed.finals.as_slice(), name)
}

// The fold of a name.
fn fold_named(reach: &Reach, name: Name) -> Option<&TypedFold> {
    for f in folds_of(reach) {
        if f.name.id == name.id {
            return Some(f);
        }
    }
    None
}

// Whether a name is among these.
fn is_among(id: u32, ids: &[u32]) -> bool {
    for one in ids {
        if *one == id {
            return true;
        }
    }
    false
}

// The arguments of a fold that are no columns.
fn missing(alloc: Global, names: &Names, f: &TypedFold, ids: &[u32]) -> Result<Value, AllocError> {
    let mut list = Vec::new(alloc);
    for arg in f.arg_names.as_slice() {
        if !is_among(*arg, ids) {
            push_made(&mut list, name_value(alloc, names, *arg))?;
        }
    }
    Ok(Value::Array(list))
}

// At a groupby's fold: the folds, or the columns and the missing arguments if the fold is known.
fn at_fold(
    alloc: Global,
    reach: &Reach,
    fold: Name,
    ids: &[u32],
    columns: Value,
) -> Result<InReach, AllocError> {
    let names = &reach.typed.names;
    match fold_named(reach, fold) {
        Some(f) => Ok(InReach {
            names: column_names(alloc, names, ids)?,
            columns,
            missing: missing(alloc, names, f, ids)?,
        }),
        None => Ok(only(alloc, fold_names(alloc, reach)?)),
    }
}

// The first input of a stream, and its fold if it groups.
fn stream_parts(op: &StreamOp) -> (Name, Option<Name>) {
    match op {
        StreamOp::Filter(input, _) => (*input, None),
        StreamOp::Map(input, _) => (*input, None),
        StreamOp::Zip(input, _) => (*input, None),
        StreamOp::Group(input, _, fold) => (*input, Some(*fold)),
    }
}

// The first input of a final, and its fold if it groups.
fn final_parts(op: &FinalOp) -> (Name, Option<Name>) {
    match op {
        FinalOp::Filter(input, _) => (*input, None),
        FinalOp::Map(input, _) => (*input, None),
        FinalOp::Group(input, _, fold) => (*input, Some(*fold)),
        FinalOp::Join(input, _) => (*input, None),
        FinalOp::Top(input, _, _, _) => (*input, None),
    }
}

// Whether a place is an input.
fn is_input(place: Place) -> bool {
    matches!(place, Place::Input | Place::SecondInput)
}

fn in_stream(
    alloc: Global,
    reach: &Reach,
    d: &StreamDef,
    place: Place,
) -> Result<InReach, AllocError> {
    if is_input(place) {
        return Ok(only(alloc, stream_names(alloc, reach)?));
    }
    let (input, fold) = stream_parts(&d.op);
    let (ids, origins) = stream_columns(alloc, reach, input)?;
    let columns = columns_value(alloc, &reach.typed, ids.as_slice(), origins.as_slice())?;
    match (place, fold) {
        (Place::Fold, Some(fold)) => at_fold(alloc, reach, fold, ids.as_slice(), columns),
        _ => Ok(InReach {
            names: column_names(alloc, &reach.typed.names, ids.as_slice())?,
            columns,
            missing: Value::Array(Vec::new(alloc)),
        }),
    }
}

fn in_final(
    alloc: Global,
    reach: &Reach,
    d: &FinalDef,
    place: Place,
) -> Result<InReach, AllocError> {
    if is_input(place) {
        return Ok(only(alloc, table_names(alloc, reach)?));
    }
    let (input, fold) = final_parts(&d.op);
    let ids = table_columns(alloc, reach, input)?;
    let columns = Value::Array(Vec::new(alloc));
    match (place, fold) {
        (Place::Fold, Some(fold)) => at_fold(alloc, reach, fold, ids.as_slice(), columns),
        _ => Ok(InReach {
            names: column_names(alloc, &reach.typed.names, ids.as_slice())?,
            columns,
            missing: Value::Array(Vec::new(alloc)),
        }),
    }
}

// The names in reach at a place of an item.
fn in_item(alloc: Global, reach: &Reach, item: &Item, place: Place) -> Result<InReach, AllocError> {
    match item {
        Item::Fold(d) => Ok(only(alloc, variable_names(alloc, &reach.typed.names, d)?)),
        Item::Stream(d) => in_stream(alloc, reach, d, place),
        Item::Final(d) => in_final(alloc, reach, d, place),
        Item::Print(_) => Ok(only(alloc, table_names(alloc, reach)?)),
    }
}

/// The names in reach of a fault that stands here; none where a name isn't the fault.
pub(crate) fn in_reach(
    alloc: Global,
    text: &Option<ReadText>,
    reach: &Option<Reach>,
    found: Option<(usize, Place)>,
) -> Result<InReach, AllocError> {
    if let (Some(read), Some(reach), Some((number, place))) = (text, reach, found) {
        if let Some(item) = read.query.items.as_slice().get(number) {
            return in_item(alloc, reach, item, place);
        }
    }
    Ok(only(alloc, Value::Array(Vec::new(alloc))))
}
