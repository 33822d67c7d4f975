//! Columns: those that a `map` adds, those of a `zip`, keys, and the arguments of a fold.

ghost use Rattle.std.specs.Prelude.{◌≡◌, ◌<◌, ◌≤◌, ◌^◌, ◌++◌, ◌||◌, [], Ok, IfOk, OnOk, length, map, flat_map, slice_get};
ghost use Rattle.query_lang.specs.{Checks.{collected, is_among}, TypedExprs.slot_of, TypedStreams.{new_columns, no_new_columns}};
ghost use Rattle.query_lang.specs.TypedStreams.{same_origin, clashes_with, clash, column_names, others_from, columns_at, key_names};
ghost use Rattle.query_lang.specs.{TypedStreams.{keys_from, keys_checked, arguments_of}, Answers.Answers};
ghost use Rattle.query_types.specs.{Answers.Leaves, Fitting.IsNarrow, MadeStreams.{column_added, key_added}};
ghost use Rattle.query_types.specs.Numbers.{columns_number, greatest_number};

use crate::answer::refused;
use crate::exprs::{check_word, find_slot, has_common, has_name};
use marple_base::Seq;
use query_lang::typing::{FoldView, NewColumns, Origin, Picked, StreamColumn};
use query_lang::{Column, FaultKind, Key, Limit, MAX_KEYS, Name, QueryError, Span};
use std::alloc::{AllocError, Global};

// Has a column, a hidden state or a new column before it this name?
fn is_taken(columns: &[u32], hidden: &[u32], made: &[u32], id: u32) -> bool
    ensures { result ≡ (is_among id columns.now || (is_among id hidden.now || is_among id made.now)) }
{
    has_name(columns, id) || has_name(hidden, id) || has_name(made, id)
}

/// The columns that a `map` adds to these columns, beside these hidden states.
pub fn check_columns(
    alloc: Global,
    columns: &[u32],
    hidden: &[u32],
    new: &[Column],
) -> Result<NewColumns, QueryError>
    requires { IsNarrow columns.now }
    ensures given { Answers result (new_columns columns.now hidden.now no_new_columns new.now) }
    ensures numbers { IfOk result (λ _. columns_number new.now < 2 ^ 64) }
{
    let mut made = NewColumns {
        names: Seq::new(alloc),
        values: Seq::new(alloc),
    };
    for column in new {
        add_column(alloc, columns, hidden, &mut made, column)?;
    }
    Ok(made)
}

// One more column after those before it, where its name is new.
fn add_column(
    alloc: Global,
    columns: &[u32],
    hidden: &[u32],
    made: &mut NewColumns,
    column: &Column,
) -> Result<(), QueryError>
    requires { IsNarrow columns.now }
    ensures given { Leaves result made.new (column_added columns.now hidden.now made.old column.now) }
    ensures numbers { OnOk result (greatest_number column.now.value < 2 ^ 64) }
{
    let name = column.name;
    if is_taken(columns, hidden, made.names.as_slice(), name.id) {
        return Err(refused(FaultKind::NameTaken, name.span));
    }
    let value = check_word(alloc, columns, hidden, &column.value)?;
    made.names.push(name.id)?;
    made.values.push(value)?;
    Ok(())
}

/// The names of columns.
pub fn names_of(alloc: Global, columns: &[StreamColumn]) -> Result<Seq<u32>, AllocError>
    ensures { IfOk result (λ names. names ≡ column_names columns.now) }
{
    let mut names = Seq::new(alloc);
    for column in columns {
        names.push(column.name)?;
    }
    Ok(names)
}

/// Columns of these names and of one origin, after others.
pub fn add_columns(
    columns: &mut Seq<StreamColumn>,
    origin: Origin,
    names: &[u32],
) -> Result<(), AllocError>
    ensures { OnOk result (columns.new ≡ columns.old ++ map (λ name. record { name = name; origin = origin }) names.now) }
{
    for name in names {
        columns.push(StreamColumn {
            name: *name,
            origin,
        })?;
    }
    Ok(())
}

// Have two columns of one name the same values?
fn is_same_origin(left: Origin, right: Origin) -> bool
    ensures { result ≡ same_origin left right }
{
    left == right
}

// Has the left another column of this name?
fn column_clashes(left: &[StreamColumn], column: StreamColumn) -> bool
    ensures { result ≡ clashes_with left.now column }
{
    for other in left {
        if other.name == column.name && !is_same_origin(other.origin, column.origin) {
            return true;
        }
    }
    false
}

/// Have both sides of a `zip` a column of one name that isn't the same column?
pub fn columns_clash(left: &[StreamColumn], right: &[StreamColumn]) -> bool
    ensures { result ≡ clash left.now right.now }
{
    for column in right {
        if column_clashes(left, *column) {
            return true;
        }
    }
    false
}

/// The slots of the columns that aren't among these names.
pub fn other_slots(
    alloc: Global,
    names: &[u32],
    columns: &[StreamColumn],
) -> Result<Seq<u16>, AllocError>
    requires { length columns.now ≤ 65536 }
    ensures { IfOk result (λ slots. slots ≡ others_from 0 names.now columns.now) }
{
    let mut slots = Seq::new(alloc);
    for (at, column) in columns.iter().enumerate() {
        if !has_name(names, column.name) {
            slots.push(at as u16)?;
        }
    }
    Ok(slots)
}

// The column at a slot.
fn column_at(columns: &[StreamColumn], slot: u16) -> Option<StreamColumn>
    ensures { result ≡ slice_get columns.now slot }
{
    columns.get(usize::from(slot)).copied()
}

/// The columns at these slots.
pub fn pick_columns(
    alloc: Global,
    columns: &[StreamColumn],
    slots: &[u16],
) -> Result<Seq<StreamColumn>, AllocError>
    ensures { IfOk result (λ picked. picked ≡ columns_at columns.now slots.now) }
{
    let mut picked = Seq::new(alloc);
    for slot in slots {
        if let Some(column) = column_at(columns, *slot) {
            picked.push(column)?;
        }
    }
    Ok(picked)
}

// The names that keys stand for: `5tuple` stands for five.
fn list_keys(alloc: Global, five: &[u32], keys: &[Key]) -> Result<Seq<Name>, AllocError>
    ensures { IfOk result (λ names. names ≡ flat_map (key_names five.now) keys.now) }
{
    let mut names = Seq::new(alloc);
    for key in keys {
        add_key(&mut names, five, *key)?;
    }
    Ok(names)
}

// The names that one key stands for, after others.
fn add_key(names: &mut Seq<Name>, five: &[u32], key: Key) -> Result<(), AllocError>
    ensures { OnOk result (names.new ≡ names.old ++ key_names five.now key) }
{
    match key {
        Key::Named(name) => names.push(name)?,
        Key::FiveTuple(span) => {
            for id in five {
                names.push(Name { id: *id, span })?;
            }
        }
    }
    Ok(())
}

// Each key in turn.
fn pick_keys(
    alloc: Global,
    columns: &[u32],
    hidden: &[u32],
    keys: &[Name],
) -> Result<Picked, QueryError>
    requires { IsNarrow columns.now }
    ensures given { Answers result (keys_from columns.now hidden.now (record { names = []; slots = [] }) keys.now) }
    ensures most { IfOk result (λ picked. length picked.names ≤ MAX_KEYS) }
{
    let mut found = Picked {
        names: Seq::new(alloc),
        slots: Seq::new(alloc),
    };
    for key in keys {
        let slot = find_slot(columns, hidden, *key)?;
        pick(&mut found, *key, slot)?;
    }
    Ok(found)
}

// One more key, which is at this slot, where its name is new.
fn pick(found: &mut Picked, key: Name, slot: u16) -> Result<(), QueryError>
    ensures given { Leaves result found.new (key_added found.old key slot) }
    ensures most { OnOk result (length found.new.names ≤ MAX_KEYS) }
{
    if has_name(found.names.as_slice(), key.id) {
        return Err(refused(FaultKind::NameTaken, key.span));
    }
    if found.names.len() >= MAX_KEYS {
        return Err(refused(FaultKind::OverLimit(Limit::Keys), key.span));
    }
    found.names.push(key.id)?;
    found.slots.push(slot)?;
    Ok(())
}

/// The keys of a groupby over these columns, where `5tuple` stands for the names of these five fields.
pub fn check_keys(
    alloc: Global,
    five: &[u32],
    columns: &[u32],
    hidden: &[u32],
    keys: &[Key],
) -> Result<Picked, QueryError>
    requires { IsNarrow columns.now }
    ensures given { Answers result (keys_checked five.now columns.now hidden.now keys.now) }
    ensures most { IfOk result (λ picked. length picked.names ≤ MAX_KEYS) }
{
    let names = list_keys(alloc, five, keys)?;
    pick_keys(alloc, columns, hidden, names.as_slice())
}

// The slots of a fold's arguments.
fn argument_slots(
    alloc: Global,
    columns: &[u32],
    hidden: &[u32],
    f: &FoldView,
    span: Span,
) -> Result<Seq<u16>, QueryError>
    requires { IsNarrow columns.now }
    ensures { Answers result (collected [] (map (λ id. slot_of columns.now hidden.now (record { id = id; span = span })) f.now.args)) }
{
    let mut slots = Seq::new(alloc);
    for id in f.args.as_slice() {
        let slot = find_slot(columns, hidden, Name { id: *id, span })?;
        slots.push(slot)?;
    }
    Ok(slots)
}

/// The columns that are a fold's arguments, where no state variable has the name of a key. The faults are at the fold's name.
pub fn check_arguments(
    alloc: Global,
    columns: &[u32],
    hidden: &[u32],
    keys: &[u32],
    f: &FoldView,
    span: Span,
) -> Result<Seq<u16>, QueryError>
    requires { IsNarrow columns.now }
    ensures { Answers result (arguments_of columns.now hidden.now keys.now f.now span) }
{
    let slots = argument_slots(alloc, columns, hidden, f, span)?;
    if has_common(f.states.as_slice(), keys) {
        return Err(refused(FaultKind::NameTaken, span));
    }
    Ok(slots)
}
