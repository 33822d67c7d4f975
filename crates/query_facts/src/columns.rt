//! Where the columns of streams come from.

ghost use Rattle.std.specs.Prelude.{◌≡◌, ◌++◌, ◌<◌, length, map, IfOk, OnOk};
ghost use Rattle.query_facts.specs.Columns.{origin_at, origins_at, packet_origins, origins_made, all_origins};

use marple_base::{Field, Seq};
use query_lang::typing::Origin;
use query_lang::{TypedExpr, TypedOp, TypedQuery};
use std::alloc::{AllocError, Global};

// As many columns more that are these fields.
fn push_fields(into: &mut Seq<Origin>, fields: &[Field]) -> Result<(), AllocError>
    ensures { OnOk result (into.new ≡ into.old ++ map (λ _. Origin.Field) fields.now) }
{
    for _field in fields {
        into.push(Origin::Field)?;
    }
    Ok(())
}

// Where the columns of the packets come from.
fn packet_columns(alloc: Global) -> Result<Seq<Origin>, AllocError>
    ensures { IfOk result (λ columns. columns ≡ packet_origins) }
{
    let mut columns = Seq::new(alloc);
    push_fields(&mut columns, &Field::ALL)?;
    Ok(columns)
}

// Where the column in a slot comes from.
fn origin_of(columns: &[Origin], slot: u16) -> Origin
    ensures { result ≡ origin_at columns.now slot }
{
    match columns.get(slot as usize) {
        Some(origin) => *origin,
        None => Origin::Field,
    }
}

// The columns of the stream with a number.
fn columns_of(streams: &[Seq<Origin>], number: u16) -> &[Origin]
    ensures { result.now ≡ origins_at streams.now number }
{
    match streams.get(number as usize) {
        Some(columns) => columns.as_slice(),
        None => &[],
    }
}

// The columns in these slots, after those that are there.
fn push_origins(into: &mut Seq<Origin>, columns: &[Origin], slots: &[u16]) -> Result<(), AllocError>
    ensures { OnOk result (into.new ≡ into.old ++ map (origin_at columns.now) slots.now) }
{
    for slot in slots {
        into.push(origin_of(columns, *slot))?;
    }
    Ok(())
}

// The same columns.
fn copy(alloc: Global, columns: &[Origin]) -> Result<Seq<Origin>, AllocError>
    ensures { IfOk result (λ copy. copy ≡ columns.now) }
{
    Ok(Seq::from_vec(columns.to_vec(alloc)?))
}

// As many columns more that this stream makes.
fn push_made(into: &mut Seq<Origin>, number: u16, values: &[TypedExpr]) -> Result<(), AllocError>
    ensures { OnOk result (into.new ≡ into.old ++ map (λ _. Origin.Map number) values.now) }
{
    for _value in values {
        into.push(Origin::Map(number))?;
    }
    Ok(())
}

// Where the columns of the stream with this number come from.
fn make_columns(
    alloc: Global,
    streams: &[Seq<Origin>],
    number: u16,
    op: &TypedOp,
) -> Result<Seq<Origin>, AllocError>
    ensures { IfOk result (λ columns. columns ≡ origins_made streams.now number op.now) }
{
    match op {
        TypedOp::Filter(input, _) => copy(alloc, columns_of(streams, *input)),
        TypedOp::Map(input, values) => {
            let mut columns = copy(alloc, columns_of(streams, *input))?;
            push_made(&mut columns, number, values.as_slice())?;
            Ok(columns)
        }
        TypedOp::Zip(left, right, slots) => {
            let mut columns = copy(alloc, columns_of(streams, *left))?;
            push_origins(&mut columns, columns_of(streams, *right), slots.as_slice())?;
            Ok(columns)
        }
        TypedOp::Group(input, keys, _, _) => {
            let mut columns = Seq::new(alloc);
            push_origins(&mut columns, columns_of(streams, *input), keys.as_slice())?;
            Ok(columns)
        }
    }
}

/// Where the columns of all streams come from, those of the packets first.
pub(crate) fn all_columns(alloc: Global, q: &TypedQuery) -> Result<Seq<Seq<Origin>>, AllocError>
    requires { length q.now.streams < 65535 }
    ensures { IfOk result (λ streams. streams ≡ all_origins q.now) }
{
    let mut streams = Seq::new(alloc);
    streams.push(packet_columns(alloc)?)?;
    for one in q.streams.as_slice() {
        let number = streams.len() as u16;
        let columns = make_columns(alloc, streams.as_slice(), number, &one.op)?;
        streams.push(columns)?;
    }
    Ok(streams)
}
