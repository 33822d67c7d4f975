//! What stands at a byte of an item.

use crate::expressions::{has_node_at, has_shift_at};
use query_lang::{Column, Expr, FinalOp, FoldDef, Item, Key, Name, Stmt, StreamOp};

/// What stands at a place of a query.
#[derive(Clone, Copy, PartialEq, Eq)]
pub enum Place {
    /// The name that the item gives.
    Name,
    Input,
    /// The second input of a `zip` or a `join`.
    SecondInput,
    Key,
    /// The fold of a groupby.
    Fold,
    /// The column of a `top`.
    Best,
    /// A column that a `map` makes.
    Column,
    /// The table after `print`.
    Printed,
    /// A state variable or an argument, where the fold declares it.
    Variable,
    /// The variable that a statement assigns.
    Target,
    Emit,
    /// How far something is shifted.
    Shift,
    Expression,
    /// The number of a `top`, or anything else.
    Number,
}

// What an expression has at a byte.
fn in_expression(e: &Expr, at: u32) -> Option<Place> {
    if has_shift_at(e, at) {
        return Some(Place::Shift);
    }
    if has_node_at(e, at) {
        return Some(Place::Expression);
    }
    None
}

// What a statement has at a byte.
fn in_statement(s: &Stmt, at: u32) -> Option<Place> {
    match s {
        Stmt::Assign(target, _) if target.span.start == at => Some(Place::Target),
        Stmt::Assign(_, value) => in_expression(value, at),
        Stmt::Emit(span) if span.start == at => Some(Place::Emit),
        Stmt::Emit(_) => None,
        Stmt::If(condition, then, otherwise) => {
            let found = in_expression(condition, at);
            if found.is_some() {
                return found;
            }
            'then_block: for inner in then.as_slice() {
                if let Some(place) = in_statement(inner, at) {
                    return Some(place);
                }
            }
            'else_block: for inner in otherwise.as_slice() {
                if let Some(place) = in_statement(inner, at) {
                    return Some(place);
                }
            }
            None
        }
    }
}

// Whether one of a fold's variables is declared at a byte.
fn declares_at(d: &FoldDef, at: u32) -> bool {
    for state in d.states.as_slice() {
        if state.name.span.start == at {
            return true;
        }
    }
    for arg in d.args.as_slice() {
        if arg.span.start == at {
            return true;
        }
    }
    false
}

fn in_fold(d: &FoldDef, at: u32) -> Option<Place> {
    if d.name.span.start == at {
        return Some(Place::Name);
    }
    if declares_at(d, at) {
        return Some(Place::Variable);
    }
    for s in d.body.as_slice() {
        if let Some(place) = in_statement(s, at) {
            return Some(place);
        }
    }
    None
}

// What the columns of a `map` have at a byte.
fn in_columns(columns: &[Column], at: u32) -> Option<Place> {
    for column in columns {
        if column.name.span.start == at {
            return Some(Place::Column);
        }
    }
    for column in columns {
        if let Some(place) = in_expression(&column.value, at) {
            return Some(place);
        }
    }
    None
}

// What the keys and the fold of a groupby have at a byte.
fn in_groupby(keys: &[Key], fold: Name, at: u32) -> Option<Place> {
    for key in keys {
        let start = match key {
            Key::Named(name) => name.span.start,
            Key::FiveTuple(span) => span.start,
        };
        if start == at {
            return Some(Place::Key);
        }
    }
    if fold.span.start == at {
        return Some(Place::Fold);
    }
    None
}

// This place, where the name is at the byte.
fn named(name: Name, at: u32, place: Place) -> Option<Place> {
    if name.span.start == at {
        Some(place)
    } else {
        None
    }
}

// The first of two places that there is.
fn either(one: Option<Place>, other: Option<Place>) -> Option<Place> {
    match one {
        Some(place) => Some(place),
        None => other,
    }
}

fn in_stream(op: &StreamOp, at: u32) -> Option<Place> {
    match op {
        StreamOp::Filter(input, e) => {
            either(named(*input, at, Place::Input), in_expression(e, at))
        }
        StreamOp::Map(input, columns) => either(
            named(*input, at, Place::Input),
            in_columns(columns.as_slice(), at),
        ),
        StreamOp::Zip(input, second) => either(
            named(*input, at, Place::Input),
            named(*second, at, Place::SecondInput),
        ),
        StreamOp::Group(input, keys, fold) => either(
            named(*input, at, Place::Input),
            in_groupby(keys.as_slice(), *fold, at),
        ),
    }
}

fn in_final(op: &FinalOp, at: u32) -> Option<Place> {
    match op {
        FinalOp::Filter(input, e) => {
            either(named(*input, at, Place::Input), in_expression(e, at))
        }
        FinalOp::Map(input, columns) => either(
            named(*input, at, Place::Input),
            in_columns(columns.as_slice(), at),
        ),
        FinalOp::Group(input, keys, fold) => either(
            named(*input, at, Place::Input),
            in_groupby(keys.as_slice(), *fold, at),
        ),
        FinalOp::Join(input, second) => either(
            named(*input, at, Place::Input),
            named(*second, at, Place::SecondInput),
        ),
        FinalOp::Top(input, best, _, _) => either(
            named(*input, at, Place::Input),
            named(*best, at, Place::Best),
        ),
    }
}

/// What an item has at a byte of it.
pub fn place_at(item: &Item, at: u32) -> Place {
    let found = match item {
        Item::Fold(d) => in_fold(d, at),
        Item::Stream(d) => either(named(d.name, at, Place::Name), in_stream(&d.op, at)),
        Item::Final(d) => either(named(d.name, at, Place::Name), in_final(&d.op, at)),
        Item::Print(name) => named(*name, at, Place::Printed),
    };
    match found {
        Some(place) => place,
        None => Place::Number,
    }
}
