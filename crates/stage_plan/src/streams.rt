//! The operations of all streams of a query.

ghost use Rattle.std.specs.{Prelude.{◌≡◌, ◌+◌, ◌<◌, ◌≤◌, ◌∷◌, [], Some, length, slice_get, nat_lt, IfOk, OnOk, IfErr}, List.list_any};
ghost use Rattle.query_lang.specs.{Answers.IsTold, TypedQueries.IsValidQuery};
ghost use Rattle.stage_plan.specs.Counting.{HasInputs, HasFold, op_most};
ghost use Rattle.stage_plan.specs.{Making.{packet_wires, wires_at, made_by, are_deep, made_fault}, Planned.MadeOf};

use crate::making::{make_filter, make_group, make_map, make_zip};
use crate::op::{Operand, PlanOp};
use crate::wires::StreamWires;
use marple_base::{Field, Seq};
use query_lang::{
    FaultKind, Limit, MAX_STAGES, QueryError, QueryFault, TypedFold, TypedOp, TypedQuery,
};
use std::alloc::{AllocError, Global};

/// All operations of a query, and where the columns of all its streams are, from the packets on.
#[derive(Drop)]
pub(crate) struct MadeStreams {
    pub(crate) ops: Seq<PlanOp>,
    pub(crate) streams: Seq<StreamWires>,
}

fn packets(alloc: Global) -> Result<StreamWires, AllocError>
    ensures { IfOk result (λ wires. wires ≡ packet_wires) }
{
    let mut columns = Seq::new(alloc);
    for f in Field::ALL {
        columns.push(Operand::Register(f.number() as u32))?;
    }
    Ok(StreamWires {
        present: Operand::Number(1),
        columns,
    })
}

pub(crate) fn stream_at(streams: &[StreamWires], number: u16) -> &StreamWires
    requires { number < length streams.now }
    ensures { result.now ≡ wires_at streams.now number }
{
    &streams[number as usize]
}

pub(crate) fn fold_of(folds: &[TypedFold], number: u16) -> &TypedFold
    requires { number < length folds.now }
    ensures { slice_get folds.now number ≡ Some result.now }
{
    &folds[number as usize]
}

// What an operator makes of the streams before it.
fn make_stream(
    alloc: Global,
    ops: &mut Seq<PlanOp>,
    folds: &[TypedFold],
    streams: &[StreamWires],
    op: &TypedOp,
) -> Result<StreamWires, AllocError>
    requires inputs { HasInputs (length streams.now) op.now }
    requires fold { HasFold (length folds.now) op.now }
    requires room { length ops.old + op_most folds.now op.now ≤ 32768 }
    ensures ops { OnOk result (ops.new ≡ (made_by folds.now streams.now op.now ops.old).ops) }
    ensures wires { IfOk result (λ wires. wires ≡ (made_by folds.now streams.now op.now ops.old).wires) }
    ensures few { OnOk result (length ops.new ≤ length ops.old + op_most folds.now op.now) }
{
    match op {
        TypedOp::Filter(input, condition) => {
            make_filter(alloc, ops, stream_at(streams, *input), condition)
        }
        TypedOp::Map(input, values) => {
            make_map(alloc, ops, stream_at(streams, *input), values.as_slice())
        }
        TypedOp::Zip(first, second, slots) => {
            let left = stream_at(streams, *first);
            let right = stream_at(streams, *second);
            make_zip(alloc, ops, left, right, slots.as_slice())
        }
        TypedOp::Group(input, keys, number, args) => {
            let source = stream_at(streams, *input);
            let f = fold_of(folds, *number);
            make_group(alloc, ops, f, source, keys.as_slice(), args.as_slice())
        }
    }
}

fn has_deep(ops: &[PlanOp]) -> bool
    ensures { result ≡ are_deep ops.now }
{
    for one in ops {
        if MAX_STAGES < one.stage {
            return true;
        }
    }
    false
}

// Adds what each stream makes to the packets, which alone are made before, or finds the first stream that is too deep.
fn make_each(alloc: Global, q: &TypedQuery, made: &mut MadeStreams) -> Result<(), QueryError>
    requires valid { IsValidQuery q.now }
    requires none { made.old.ops ≡ [] }
    requires packets { made.old.streams ≡ packet_wires ∷ [] }
    ensures made { OnOk result (MadeOf q.now made.new.ops made.new.streams) }
    ensures refused { IfErr result (IsTold (made_fault q.now.folds [] (packet_wires ∷ []) q.now.streams)) }
{
    for one in q.streams.as_slice() {
        let wires = make_stream(
            alloc,
            &mut made.ops,
            q.folds.as_slice(),
            made.streams.as_slice(),
            &one.op,
        )?;
        if has_deep(made.ops.as_slice()) {
            return Err(QueryError::Refused(QueryFault {
                kind: FaultKind::OverLimit(Limit::Stages),
                span: one.name.span,
            }));
        }
        made.streams.push(wires)?;
    }
    Ok(())
}

// The operations of all streams, or the first stream that is too deep.
pub(crate) fn make_streams(alloc: Global, q: &TypedQuery) -> Result<MadeStreams, QueryError>
    requires { IsValidQuery q.now }
    ensures made { IfOk result (λ made. MadeOf q.now made.ops made.streams) }
    ensures refused { IfErr result (IsTold (made_fault q.now.folds [] (packet_wires ∷ []) q.now.streams)) }
{
    let mut made = MadeStreams {
        ops: Seq::new(alloc),
        streams: Seq::new(alloc),
    };
    made.streams.push(packets(alloc)?)?;
    make_each(alloc, q, &mut made)?;
    Ok(made)
}
