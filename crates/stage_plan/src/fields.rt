//! The fields that a query reads.

ghost use Rattle.std.specs.Prelude.{◌≡◌, ◌∷◌, ◌++◌, [], None, map, fold, IfOk, OnOk};
ghost use Rattle.marple_base.specs.Field.{all_fields, no_fields};
ghost use Rattle.query_lang.specs.Terms.{term_of};
ghost use Rattle.stage_plan.specs.Fields.{source_at, sources_at, packet_sources, sources_made, all_sources, reads_of};
ghost use Rattle.stage_plan.specs.Marking.{marked, marked_slots, marked_term, marked_op};

use crate::wires::copy;
use marple_base::{Field, FieldSet, Seq};
use query_lang::{TypedExpr, TypedOp, TypedQuery, TypedStream};
use std::alloc::{AllocError, Global};

// Where the columns of the packets come from.
fn packet_fields(alloc: Global) -> Result<Seq<Option<Field>>, AllocError>
    ensures { IfOk result (λ columns. columns ≡ packet_sources) }
{
    let mut columns = Seq::new(alloc);
    for f in Field::ALL {
        columns.push(Some(f))?;
    }
    Ok(columns)
}

fn source_of(columns: &[Option<Field>], slot: u16) -> Option<Field>
    ensures { result ≡ source_at columns.now slot }
{
    *columns.get(slot as usize)?
}

fn columns_of(streams: &[Seq<Option<Field>>], number: u16) -> &[Option<Field>]
    ensures { result.now ≡ sources_at streams.now number }
{
    match streams.get(number as usize) {
        Some(columns) => columns.as_slice(),
        None => &[],
    }
}

fn push_sources(
    into: &mut Seq<Option<Field>>,
    columns: &[Option<Field>],
    slots: &[u16],
) -> Result<(), AllocError>
    ensures { OnOk result (into.new ≡ into.old ++ map (source_at columns.now) slots.now) }
{
    for slot in slots {
        into.push(source_of(columns, *slot))?;
    }
    Ok(())
}

// As many columns more that are no fields.
fn push_made(into: &mut Seq<Option<Field>>, values: &[TypedExpr]) -> Result<(), AllocError>
    ensures { OnOk result (into.new ≡ into.old ++ map (λ _. None) values.now) }
{
    for _value in values {
        into.push(None)?;
    }
    Ok(())
}

fn make_columns(
    alloc: Global,
    streams: &[Seq<Option<Field>>],
    op: &TypedOp,
) -> Result<Seq<Option<Field>>, AllocError>
    ensures { IfOk result (λ columns. columns ≡ sources_made streams.now op.now) }
{
    match op {
        TypedOp::Filter(input, _) => copy(alloc, columns_of(streams, *input)),
        TypedOp::Map(input, values) => {
            let mut columns = copy(alloc, columns_of(streams, *input))?;
            push_made(&mut columns, values.as_slice())?;
            Ok(columns)
        }
        TypedOp::Zip(left, right, slots) => {
            let mut columns = copy(alloc, columns_of(streams, *left))?;
            push_sources(&mut columns, columns_of(streams, *right), slots.as_slice())?;
            Ok(columns)
        }
        TypedOp::Group(input, keys, _, _) => {
            let mut columns = Seq::new(alloc);
            push_sources(&mut columns, columns_of(streams, *input), keys.as_slice())?;
            Ok(columns)
        }
    }
}

fn make_all_columns(alloc: Global, q: &TypedQuery) -> Result<Seq<Seq<Option<Field>>>, AllocError>
    ensures { IfOk result (λ streams. streams ≡ all_sources q.now) }
{
    let mut streams = Seq::new(alloc);
    streams.push(packet_fields(alloc)?)?;
    for one in q.streams.as_slice() {
        let columns = make_columns(alloc, streams.as_slice(), &one.op)?;
        streams.push(columns)?;
    }
    Ok(streams)
}

// The fields with that of a column, where it comes from one.
fn mark(fields: FieldSet, source: Option<Field>) -> FieldSet
    ensures { result ≡ marked fields source }
{
    match source {
        Some(field) => fields.with(field),
        None => fields,
    }
}

fn mark_slots(fields: FieldSet, columns: &[Option<Field>], slots: &[u16]) -> FieldSet
    ensures { result ≡ marked_slots columns.now fields slots.now }
{
    let mut all = fields;
    for slot in slots {
        all = mark(all, source_of(columns, *slot));
    }
    all
}

// The fields with those that an expression names.
fn mark_expr(fields: FieldSet, columns: &[Option<Field>], e: &TypedExpr) -> FieldSet
    ensures { result ≡ marked_term columns.now fields (term_of e.now) }
{
    match e {
        TypedExpr::Number(_) => fields,
        TypedExpr::Slot(s) => mark(fields, source_of(columns, *s)),
        TypedExpr::Not(inner) => mark_expr(fields, columns, inner.get()),
        TypedExpr::Binary(_, a, b) => {
            let left = mark_expr(fields, columns, a.get());
            mark_expr(left, columns, b.get())
        }
    }
}

fn mark_exprs(fields: FieldSet, columns: &[Option<Field>], values: &[TypedExpr]) -> FieldSet
    ensures { result ≡ fold (λ all e. marked_term columns.now all (term_of e)) fields values.now }
{
    let mut all = fields;
    for e in values {
        all = mark_expr(all, columns, e);
    }
    all
}

fn mark_op(fields: FieldSet, streams: &[Seq<Option<Field>>], op: &TypedOp) -> FieldSet
    ensures { result ≡ marked_op streams.now fields op.now }
{
    match op {
        TypedOp::Filter(input, condition) => {
            mark_expr(fields, columns_of(streams, *input), condition)
        }
        TypedOp::Map(input, values) => {
            mark_exprs(fields, columns_of(streams, *input), values.as_slice())
        }
        TypedOp::Zip(_, _, _) => fields,
        TypedOp::Group(input, keys, _, args) => {
            let columns = columns_of(streams, *input);
            let marked = mark_slots(fields, columns, keys.as_slice());
            mark_slots(marked, columns, args.as_slice())
        }
    }
}

fn mark_all(columns: &[Seq<Option<Field>>], streams: &[TypedStream]) -> FieldSet
    ensures { result ≡ fold (λ all one. marked_op columns.now all one.op) no_fields streams.now }
{
    let mut all = FieldSet::EMPTY;
    for one in streams {
        all = mark_op(all, columns, &one.op);
    }
    all
}

/// The fields that a query names while packets pass.
pub(crate) fn read_fields(alloc: Global, q: &TypedQuery) -> Result<FieldSet, AllocError>
    ensures { IfOk result (λ fields. fields ≡ reads_of q.now) }
{
    let columns = make_all_columns(alloc, q)?;
    Ok(mark_all(columns.as_slice(), q.streams.as_slice()))
}
