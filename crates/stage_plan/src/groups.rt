//! The groupbys of a plan.

ghost use Rattle.std.specs.Prelude.{◌≡◌, ℕ, ◌<◌, ◌++◌, map, length, option_map, option_to_list, All, IfOk, OnOk};
ghost use Rattle.query_lang.specs.{Folds.IsValidFold, Streams.{taking_of, takings}, TypedQueries.{AreNames, HasNames}};
ghost use Rattle.stage_plan.specs.{Counting.HasInputs, Making.operand_at, Ordering.{moved, wiring_of}};
ghost use Rattle.stage_plan.specs.Shape.{text_at, shape_made, group_shape, query_groups};
ghost use Rattle.stage_plan.specs.Grouping.{FitsFold, FitsGroup, IsGroupFor, IsGroupOf, AreGroupsOf, IsGroupShape};

use crate::group::{GroupPlan, GroupWiring};
use crate::making::column_at;
use crate::op::Operand;
use crate::order::move_operand;
use crate::streams::{fold_of, stream_at};
use crate::wires::StreamWires;
use fold_class::classify;
use fold_code::compile;
use marple_base::{Seq, Text};
use query_lang::{Names, TypedOp, TypedQuery, TypedStream};
use std::alloc::{AllocError, Global};

fn move_columns(
    alloc: Global,
    registers: &[u32],
    columns: &[Operand],
    slots: &[u16],
) -> Result<Seq<Operand>, AllocError>
    ensures { IfOk result (λ all. all ≡ map (λ slot. moved registers.now (operand_at columns.now slot)) slots.now) }
{
    let mut all = Seq::new(alloc);
    for slot in slots {
        all.push(move_operand(registers, column_at(columns, *slot)))?;
    }
    Ok(all)
}

fn push_some<T: Drop>(all: &mut Seq<T>, item: Option<T>) -> Result<(), AllocError>
    ensures { OnOk result (all.new ≡ all.old ++ option_to_list item) }
{
    if let Some(item) = item {
        all.push(item)?;
    }
    Ok(())
}

// What an operator takes of its input, where it is a groupby.
fn wiring_for(
    alloc: Global,
    wires: &[StreamWires],
    registers: &[u32],
    op: &TypedOp,
) -> Result<Option<GroupWiring>, AllocError>
    requires { HasInputs (length wires.now) op.now }
    ensures { IfOk result (λ wiring. wiring ≡ option_map (wiring_of registers.now wires.now) (taking_of op.now)) }
{
    match op {
        TypedOp::Group(input, keys, _, args) => {
            let source = stream_at(wires, *input);
            let columns = source.columns.as_slice();
            Ok(Some(GroupWiring {
                present: move_operand(registers, source.present),
                keys: move_columns(alloc, registers, columns, keys.as_slice())?,
                args: move_columns(alloc, registers, columns, args.as_slice())?,
            }))
        }
        _ => Ok(None),
    }
}

/// What the groupbys take of the streams.
pub(crate) fn wire_groups(
    alloc: Global,
    streams: &[TypedStream],
    wires: &[StreamWires],
    registers: &[u32],
) -> Result<Seq<GroupWiring>, AllocError>
    requires { All (λ one. HasInputs (length wires.now) one.op) streams.now }
    ensures { IfOk result (λ all. all ≡ map (wiring_of registers.now wires.now) (takings streams.now)) }
{
    let mut all = Seq::new(alloc);
    for one in streams {
        push_some(&mut all, wiring_for(alloc, wires, registers, &one.op)?)?;
    }
    Ok(all)
}

fn text_of(alloc: Global, names: &Names, id: u32) -> Result<Text, AllocError>
    requires { id < length names.now }
    ensures { IfOk result (λ text. text ≡ text_at names.now id) }
{
    Text::from_slice(alloc, names.text(id))
}

fn texts_of(alloc: Global, names: &Names, ids: &[u32]) -> Result<Seq<Text>, AllocError>
    requires { AreNames (length names.now) ids.now }
    ensures { IfOk result (λ texts. texts ≡ map (text_at names.now) ids.now) }
{
    let mut texts = Seq::new(alloc);
    for id in ids {
        texts.push(text_of(alloc, names, *id)?)?;
    }
    Ok(texts)
}

// A groupby with its fold.
fn plan_fitting(
    alloc: Global,
    q: &TypedQuery,
    one: &TypedStream,
    number: u16,
    keys: usize,
    args: usize,
) -> Result<GroupPlan, AllocError>
    requires folds { All IsValidFold q.now.folds }
    requires names { All (HasNames (length q.now.names)) q.now.folds }
    requires fits { FitsFold q.now one.now number keys args }
    ensures shape { IfOk result (λ group. IsGroupShape q.now one.now number args group) }
    ensures sound { IfOk result (λ group. IsGroupFor q.now.folds number keys args group) }
{
    let f = fold_of(q.folds.as_slice(), number);
    let program = classify(alloc, f, compile(alloc, f)?)?;
    Ok(GroupPlan {
        name: text_of(alloc, &q.names, one.name.id)?,
        key_names: texts_of(alloc, &q.names, one.columns.as_slice())?,
        state_names: texts_of(alloc, &q.names, f.state_names.as_slice())?,
        program,
    })
}

// The groupby of a stream, where it is one.
fn group_of(
    alloc: Global,
    q: &TypedQuery,
    one: &TypedStream,
) -> Result<Option<GroupPlan>, AllocError>
    requires folds { All IsValidFold q.now.folds }
    requires names { All (HasNames (length q.now.names)) q.now.folds }
    requires fits { FitsGroup q.now one.now one.now.op }
    ensures shape { IfOk result (λ group. option_map group_shape group ≡ shape_made q.now.names q.now.folds one.now one.now.op) }
    ensures sound { IfOk result (λ group. IsGroupOf q.now.folds (taking_of one.now.op) group) }
{
    match &one.op {
        TypedOp::Group(_, keys, number, args) => {
            Ok(Some(plan_fitting(alloc, q, one, *number, keys.len(), args.len())?))
        }
        _ => Ok(None),
    }
}

/// The groupbys, with the programs of their folds.
pub(crate) fn plan_groups(alloc: Global, q: &TypedQuery) -> Result<Seq<GroupPlan>, AllocError>
    requires folds { All IsValidFold q.now.folds }
    requires names { All (HasNames (length q.now.names)) q.now.folds }
    requires fits { All (λ one. FitsGroup q.now one one.op) q.now.streams }
    ensures shapes { IfOk result (λ groups. map group_shape groups ≡ query_groups q.now) }
    ensures sound { IfOk result (λ groups. AreGroupsOf q.now.folds (takings q.now.streams) groups) }
    ensures all { IfOk result (λ groups. length groups ≡ length (takings q.now.streams)) }
{
    let mut groups = Seq::new(alloc);
    for one in q.streams.as_slice() {
        push_some(&mut groups, group_of(alloc, q, one)?)?;
    }
    Ok(groups)
}
