//! The operations of a query in order.

ghost use Rattle.std.specs.Prelude.{◌≡◌, ◌+◌, ◌<◌, ◌≤◌, max, min, suc, length, map, ◌++◌, Some, IfOk, OnOk};
ghost use Rattle.query_lang.specs.{Folds.term_nodes, Terms.term_of};
ghost use Rattle.stage_plan.specs.{declared.op.Operand.TheVariants.Number, Registers.operand_stage, Making.{stage_after, with_op}};
ghost use Rattle.stage_plan.specs.Making.{operand_at, compiled, made_join, conditioned, made_filter, made_map, made_zip, emit_columns};
ghost use Rattle.stage_plan.specs.{Making.made_group, Counting.{condition_most, values_most, emit_most}};

use crate::op::{FIRST_RESULT, Operand, Operation, PlanOp};
use crate::wires::{StreamWires, copy};
use marple_base::{FIELDS, Seq};
use query_lang::{MAX_STAGES, Op, TypedExpr, TypedFold};
use std::alloc::{AllocError, Global};

fn stage_of(ops: &[PlanOp], operand: Operand) -> u32
    ensures { result ≡ operand_stage ops.now operand }
{
    match operand {
        Operand::Register(r) if r >= FIRST_RESULT => match ops.get(r as usize - FIELDS) {
            Some(one) => one.stage,
            None => 0,
        },
        _ => 0,
    }
}

// The stage after two others, and the same one for all above the most.
fn beyond(left: u32, right: u32) -> u32
    ensures { result ≡ stage_after left right }
{
    if left < MAX_STAGES && right < MAX_STAGES {
        left.max(right) + 1
    } else {
        MAX_STAGES + 1
    }
}

// One more operation, and its register.
fn make_op(
    ops: &mut Seq<PlanOp>,
    op: Operation,
    left: Operand,
    right: Operand,
) -> Result<Operand, AllocError>
    requires room { length ops.old < 32768 }
    ensures ops { OnOk result (ops.new ≡ (with_op op ops.old left right).ops) }
    ensures value { IfOk result (λ value. value ≡ (with_op op ops.old left right).value) }
    ensures more { OnOk result (length ops.new ≡ length ops.old + 1) }
{
    let at = ops.len();
    let stage = beyond(
        stage_of(ops.as_slice(), left),
        stage_of(ops.as_slice(), right),
    );
    ops.push(PlanOp {
        stage,
        op,
        left,
        right,
    })?;
    Ok(Operand::Register(FIRST_RESULT + at as u32))
}

pub(crate) fn column_at(columns: &[Operand], slot: u16) -> Operand
    ensures { result ≡ operand_at columns.now slot }
{
    match columns.get(slot as usize) {
        Some(column) => *column,
        None => Operand::Number(0),
    }
}

// The operations of an expression over columns, and its operand.
fn compile(ops: &mut Seq<PlanOp>, columns: &[Operand], e: &TypedExpr) -> Result<Operand, AllocError>
    requires room { length ops.old + term_nodes (term_of e.now) ≤ 32768 }
    ensures ops { OnOk result (ops.new ≡ (compiled columns.now (term_of e.now) ops.old).ops) }
    ensures value { IfOk result (λ value. value ≡ (compiled columns.now (term_of e.now) ops.old).value) }
    ensures few { OnOk result (length ops.new ≤ length ops.old + term_nodes (term_of e.now)) }
{
    match e {
        TypedExpr::Number(n) => Ok(Operand::Number(*n)),
        TypedExpr::Slot(s) => Ok(column_at(columns, *s)),
        TypedExpr::Not(inner) => {
            let value = compile(ops, columns, inner.get())?;
            make_op(ops, Operation::Not, value, Operand::Number(0))
        }
        TypedExpr::Binary(op, a, b) => {
            let left = compile(ops, columns, a.get())?;
            let right = compile(ops, columns, b.get())?;
            make_op(ops, Operation::Two(*op), left, right)
        }
    }
}

fn push_columns(
    into: &mut Seq<Operand>,
    columns: &[Operand],
    slots: &[u16],
) -> Result<(), AllocError>
    ensures { OnOk result (into.new ≡ into.old ++ map (operand_at columns.now) slots.now) }
{
    for slot in slots {
        into.push(column_at(columns, *slot))?;
    }
    Ok(())
}

// A presence, joined with another condition.
fn join(
    ops: &mut Seq<PlanOp>,
    present: Operand,
    condition: Operand,
    columns: Seq<Operand>,
) -> Result<StreamWires, AllocError>
    requires room { length ops.old < 32768 }
    ensures ops { OnOk result (ops.new ≡ (made_join ops.old present condition columns).ops) }
    ensures wires { IfOk result (λ wires. wires ≡ (made_join ops.old present condition columns).wires) }
    ensures more { OnOk result (length ops.new ≡ length ops.old + 1) }
{
    let present = make_op(ops, Operation::Two(Op::Both), present, condition)?;
    Ok(StreamWires { present, columns })
}

// A presence, joined with a condition over columns.
pub(crate) fn make_condition(
    ops: &mut Seq<PlanOp>,
    over: &[Operand],
    condition: &TypedExpr,
    present: Operand,
    columns: Seq<Operand>,
) -> Result<StreamWires, AllocError>
    requires room { length ops.old + condition_most (term_of condition.now) ≤ 32768 }
    ensures ops { OnOk result (ops.new ≡ (conditioned over.now (term_of condition.now) ops.old present columns).ops) }
    ensures wires { IfOk result (λ wires. wires ≡ (conditioned over.now (term_of condition.now) ops.old present columns).wires) }
    ensures few { OnOk result (length ops.new ≤ length ops.old + condition_most (term_of condition.now)) }
{
    let value = compile(ops, over, condition)?;
    join(ops, present, value, columns)
}

pub(crate) fn make_filter(
    alloc: Global,
    ops: &mut Seq<PlanOp>,
    input: &StreamWires,
    condition: &TypedExpr,
) -> Result<StreamWires, AllocError>
    requires room { length ops.old + condition_most (term_of condition.now) ≤ 32768 }
    ensures ops { OnOk result (ops.new ≡ (made_filter input.now (term_of condition.now) ops.old).ops) }
    ensures wires { IfOk result (λ wires. wires ≡ (made_filter input.now (term_of condition.now) ops.old).wires) }
    ensures few { OnOk result (length ops.new ≤ length ops.old + condition_most (term_of condition.now)) }
{
    let columns = copy(alloc, input.columns.as_slice())?;
    make_condition(
        ops,
        input.columns.as_slice(),
        condition,
        input.present,
        columns,
    )
}

pub(crate) fn make_map(
    alloc: Global,
    ops: &mut Seq<PlanOp>,
    input: &StreamWires,
    values: &[TypedExpr],
) -> Result<StreamWires, AllocError>
    requires room { length ops.old + values_most values.now ≤ 32768 }
    ensures ops { OnOk result (ops.new ≡ (made_map input.now values.now ops.old).ops) }
    ensures wires { IfOk result (λ wires. wires ≡ (made_map input.now values.now ops.old).wires) }
    ensures few { OnOk result (length ops.new ≤ length ops.old + values_most values.now) }
{
    let mut columns = copy(alloc, input.columns.as_slice())?;
    for e in values {
        let value = compile(ops, input.columns.as_slice(), e)?;
        columns.push(value)?;
    }
    Ok(StreamWires {
        present: input.present,
        columns,
    })
}

pub(crate) fn make_zip(
    alloc: Global,
    ops: &mut Seq<PlanOp>,
    left: &StreamWires,
    right: &StreamWires,
    slots: &[u16],
) -> Result<StreamWires, AllocError>
    requires room { length ops.old < 32768 }
    ensures ops { OnOk result (ops.new ≡ (made_zip left.now right.now slots.now ops.old).ops) }
    ensures wires { IfOk result (λ wires. wires ≡ (made_zip left.now right.now slots.now ops.old).wires) }
    ensures more { OnOk result (length ops.new ≡ length ops.old + 1) }
{
    let mut columns = copy(alloc, left.columns.as_slice())?;
    push_columns(&mut columns, right.columns.as_slice(), slots)?;
    join(ops, left.present, right.present, columns)
}

// What a fold's emit condition reads.
fn columns_of_emit(
    alloc: Global,
    initial: &[u64],
    columns: &[Operand],
    args: &[u16],
) -> Result<Seq<Operand>, AllocError>
    ensures { IfOk result (λ all. all ≡ emit_columns initial.now columns.now args.now) }
{
    let mut all = Seq::new(alloc);
    for n in initial {
        all.push(Operand::Number(*n))?;
    }
    push_columns(&mut all, columns, args)?;
    Ok(all)
}

// The stream of the keys for which a fold emits.
pub(crate) fn make_group(
    alloc: Global,
    ops: &mut Seq<PlanOp>,
    f: &TypedFold,
    input: &StreamWires,
    keys: &[u16],
    args: &[u16],
) -> Result<StreamWires, AllocError>
    requires room { length ops.old + emit_most f.now.emit ≤ 32768 }
    ensures ops { OnOk result (ops.new ≡ (made_group (Some f.now) input.now keys.now args.now ops.old).ops) }
    ensures wires { IfOk result (λ wires. wires ≡ (made_group (Some f.now) input.now keys.now args.now ops.old).wires) }
    ensures few { OnOk result (length ops.new ≤ length ops.old + emit_most f.now.emit) }
{
    let mut columns = Seq::new(alloc);
    push_columns(&mut columns, input.columns.as_slice(), keys)?;
    match &f.emit {
        None => Ok(StreamWires {
            present: Operand::Number(0),
            columns,
        }),
        Some(condition) => {
            let over = columns_of_emit(
                alloc,
                f.initial.as_slice(),
                input.columns.as_slice(),
                args,
            )?;
            make_condition(ops, over.as_slice(), condition, input.present, columns)
        }
    }
}
