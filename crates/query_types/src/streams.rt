//! Streams.

ghost use Rattle.std.specs.Prelude.{◌≡◌, ◌+◌, ◌<◌, ◌^◌, Ok, None, IfOk, OnOk, length};
ghost use Rattle.query_lang.specs.{TypedExprs.condition_of, TypedStreams.{column_names, new_columns, no_new_columns, others_from}};
ghost use Rattle.query_lang.specs.TypedStreams.{filtered, next_stream, mapped, zipped, made_stream, with_stream, stream_checked};
ghost use Rattle.query_lang.specs.Answers.{Answers};
ghost use Rattle.query_types.specs.{Answers.Leaves, Fitting.{Fits, IsNarrow}, MadeStreams.{with_columns, with_slots}};
ghost use Rattle.query_types.specs.Numbers.{greatest_number, columns_number, stream_number};

use crate::answer::refused;
use crate::columns::{
    add_columns, check_columns, columns_clash, names_of, other_slots, pick_columns,
};
use crate::copies::{both_lists, copy_list};
use crate::exprs::check_condition;
use crate::groupbys::check_group;
use crate::views::{check_binding, find_stream, learn};
use marple_base::Seq;
use query_lang::typing::{Earlier, MadeStream, Meaning, NewColumns, Origin, StreamView};
use query_lang::{
    Column, Expr, FaultKind, Limit, MAX_BINDINGS, MAX_GROUPBYS, Name, QueryError, StreamDef,
    StreamOp, TypedExpr, TypedOp, TypedStream,
};
use std::alloc::{AllocError, Global};

// The condition of a filter over a stream.
fn stream_condition(alloc: Global, source: &StreamView, e: &Expr) -> Result<TypedExpr, QueryError>
    requires { IsNarrow (column_names source.now.columns) }
    ensures given { Answers result (condition_of (column_names source.now.columns) source.now.hidden e.now) }
    ensures numbers { IfOk result (λ _. greatest_number e.now < 2 ^ 64) }
{
    let names = names_of(alloc, source.columns.as_slice())?;
    check_condition(alloc, names.as_slice(), source.hidden.as_slice(), e)
}

// A filter: it keeps the columns and the hidden states of its input.
fn made_filter(
    alloc: Global,
    source: &StreamView,
    condition: TypedExpr,
) -> Result<MadeStream, QueryError>
    ensures { Answers result (Ok (record {
      op = TypedOp.Filter source.now.number condition;
      columns = source.now.columns;
      hidden = source.now.hidden;
      table = None;
    })) }
{
    let columns = copy_list(alloc, source.columns.as_slice())?;
    let hidden = copy_list(alloc, source.hidden.as_slice())?;
    Ok(MadeStream {
        op: TypedOp::Filter(source.number, condition),
        columns,
        hidden,
        table: None,
    })
}

fn check_filter(
    alloc: Global,
    earlier: &Earlier,
    input: Name,
    e: &Expr,
) -> Result<MadeStream, QueryError>
    requires { Fits earlier.now }
    ensures given { Answers result (filtered earlier.now input e.now) }
    ensures numbers { IfOk result (λ _. greatest_number e.now < 2 ^ 64) }
{
    let source = find_stream(earlier, input)?;
    let condition = stream_condition(alloc, source, e)?;
    made_filter(alloc, source, condition)
}

// The new columns of a map over a stream.
fn stream_columns(
    alloc: Global,
    source: &StreamView,
    columns: &[Column],
) -> Result<NewColumns, QueryError>
    requires { IsNarrow (column_names source.now.columns) }
    ensures given { Answers result (new_columns (column_names source.now.columns) source.now.hidden no_new_columns columns.now) }
    ensures numbers { IfOk result (λ _. columns_number columns.now < 2 ^ 64) }
{
    let names = names_of(alloc, source.columns.as_slice())?;
    check_columns(alloc, names.as_slice(), source.hidden.as_slice(), columns)
}

// A map: it adds its columns after those of its input.
fn made_map(
    alloc: Global,
    source: &StreamView,
    number: u16,
    new: NewColumns,
) -> Result<MadeStream, QueryError>
    ensures { Answers result (Ok (with_columns source.now number new)) }
{
    let mut columns = copy_list(alloc, source.columns.as_slice())?;
    add_columns(&mut columns, Origin::Map(number), new.names.as_slice())?;
    let hidden = copy_list(alloc, source.hidden.as_slice())?;
    Ok(MadeStream {
        op: TypedOp::Map(source.number, new.values),
        columns,
        hidden,
        table: None,
    })
}

// The number of the stream after those before it.
fn next_number(earlier: &Earlier) -> u16
    requires { length earlier.now.streams + length earlier.now.finals < MAX_BINDINGS }
    ensures { result ≡ next_stream earlier.now }
{
    (earlier.streams.len() + 1) as u16
}

fn check_map(
    alloc: Global,
    earlier: &Earlier,
    input: Name,
    columns: &[Column],
) -> Result<MadeStream, QueryError>
    requires fits { Fits earlier.now }
    requires room { length earlier.now.streams + length earlier.now.finals < MAX_BINDINGS }
    ensures given { Answers result (mapped earlier.now input columns.now) }
    ensures numbers { IfOk result (λ _. columns_number columns.now < 2 ^ 64) }
{
    let source = find_stream(earlier, input)?;
    let new = stream_columns(alloc, source, columns)?;
    let number = next_number(earlier);
    made_map(alloc, source, number, new)
}

// The slots of the right that a zip takes.
fn slots_of_right(
    alloc: Global,
    left: &StreamView,
    right: &StreamView,
) -> Result<Seq<u16>, AllocError>
    requires { IsNarrow (column_names right.now.columns) }
    ensures { IfOk result (λ slots. slots ≡ others_from 0 (column_names left.now.columns) right.now.columns) }
{
    let names = names_of(alloc, left.columns.as_slice())?;
    other_slots(alloc, names.as_slice(), right.columns.as_slice())
}

// A zip: the columns of the left, and then those of the right that the left doesn't have.
fn made_zip(
    alloc: Global,
    left: &StreamView,
    right: &StreamView,
    slots: Seq<u16>,
) -> Result<MadeStream, QueryError>
    ensures { Answers result (Ok (with_slots left.now right.now slots)) }
{
    let taken = pick_columns(alloc, right.columns.as_slice(), slots.as_slice())?;
    let columns = both_lists(alloc, left.columns.as_slice(), taken.as_slice())?;
    let hidden = both_lists(alloc, left.hidden.as_slice(), right.hidden.as_slice())?;
    Ok(MadeStream {
        op: TypedOp::Zip(left.number, right.number, slots),
        columns,
        hidden,
        table: None,
    })
}

fn check_zip(
    alloc: Global,
    earlier: &Earlier,
    first: Name,
    second: Name,
) -> Result<MadeStream, QueryError>
    requires { Fits earlier.now }
    ensures { Answers result (zipped earlier.now first second) }
{
    let left = find_stream(earlier, first)?;
    let right = find_stream(earlier, second)?;
    if columns_clash(left.columns.as_slice(), right.columns.as_slice()) {
        return Err(refused(FaultKind::NameTaken, second.span));
    }
    let slots = slots_of_right(alloc, left, right)?;
    made_zip(alloc, left, right, slots)
}

// What the operator of the stream with this name makes. There are at most `MAX_GROUPBYS` groupbys.
fn check_operator(
    alloc: Global,
    five: &[u32],
    earlier: &Earlier,
    name: Name,
    op: &StreamOp,
) -> Result<MadeStream, QueryError>
    requires fits { Fits earlier.now }
    requires room { length earlier.now.streams + length earlier.now.finals < MAX_BINDINGS }
    ensures given { Answers result (made_stream five.now earlier.now name op.now) }
    ensures numbers { IfOk result (λ _. stream_number op.now < 2 ^ 64) }
{
    match op {
        StreamOp::Filter(input, e) => check_filter(alloc, earlier, *input, e),
        StreamOp::Map(input, columns) => check_map(alloc, earlier, *input, columns.as_slice()),
        StreamOp::Zip(first, second) => check_zip(alloc, earlier, *first, *second),
        StreamOp::Group(input, keys, fold_name) => {
            if earlier.groups >= MAX_GROUPBYS {
                return Err(refused(FaultKind::OverLimit(Limit::Groupbys), name.span));
            }
            check_group(alloc, five, earlier, *input, keys.as_slice(), *fold_name)
        }
    }
}

// One more stream.
#[tactic(auto, using(crate::proofs::FitLaws::groups_within))]
fn add_stream(
    alloc: Global,
    earlier: &mut Earlier,
    name: Name,
    made: MadeStream,
) -> Result<(), AllocError>
    requires fits { Fits earlier.old }
    requires room { length earlier.old.streams + length earlier.old.finals < MAX_BINDINGS }
    ensures { OnOk result (earlier.new ≡ with_stream earlier.old name made) }
{
    let number = next_number(earlier);
    let groups = earlier.groups + u16::from(made.table.is_some());
    let names = names_of(alloc, made.columns.as_slice())?;
    let view = StreamView {
        number,
        columns: made.columns,
        hidden: made.hidden,
        table: made.table,
    };
    learn(earlier, name, Meaning::Stream(view))?;
    earlier.streams.push(TypedStream {
        name,
        columns: names,
        op: made.op,
    })?;
    earlier.groups = groups;
    Ok(())
}

/// One more stream: its name is free, and then its operator is checked.
pub fn check_stream(
    alloc: Global,
    five: &[u32],
    earlier: &mut Earlier,
    d: &StreamDef,
) -> Result<(), QueryError>
    requires { Fits earlier.old }
    ensures given { Leaves result earlier.new (stream_checked five.now earlier.old d.now) }
    ensures numbers { OnOk result (stream_number d.now.op < 2 ^ 64) }
{
    check_binding(earlier, d.name)?;
    let made = check_operator(alloc, five, earlier, d.name, &d.op)?;
    add_stream(alloc, earlier, d.name, made)?;
    Ok(())
}
