//! Operands and the lines `op` as they are read.

ghost use Rattle.std.specs.Prelude.{◌≡◌, ◌≤◌, true, false, length, map, Contains, MatchOption, Some};
ghost use Rattle.marple_base.specs.Field.{number_of};
ghost use Rattle.plan_file.specs.Finding.{Finds};
ghost use Rattle.plan_file.specs.Lexis as Lexis;
ghost use Rattle.plan_file.specs.Operations as Operations;
ghost use Rattle.plan_file.specs.Operations.{IsAllowed, IsKnown, IsKnownRegister, IsOpLine, IsStaged, is_right_of, not_of, takes_right};
ghost use Rattle.plan_file.specs.Operations.{two_of};

use crate::lexis::{cut_at_space, function_named, number, past};
use marple_base::{FIELDS, Field};
use query_lang::lexis::is_text;
use query_lang::{MAX_STAGES, Op};
use stage_plan::{FIRST_RESULT, Operand, Operation, PlanOp};

fn has_number(fields: &[Field], n: u64) -> bool
    ensures yes { result ≡ true → Contains (map number_of fields.now) n }
    ensures no { result ≡ false → Contains (map number_of fields.now) n → ⊥ }
{
    for f in fields {
        if f.number() as u64 == n {
            return true;
        }
    }
    false
}

fn is_known(fields: &[Field], ops: &[PlanOp], n: u64) -> bool
    requires few { length ops.now ≤ 32768 }
    ensures yes { result ≡ true → IsKnownRegister fields.now ops.now n }
    ensures no { result ≡ false → IsKnownRegister fields.now ops.now n → ⊥ }
{
    if n < FIELDS as u64 {
        has_number(fields, n)
    } else {
        n < FIELDS as u64 + ops.len() as u64
    }
}

/// An operand whose register is known after these fields and operations.
pub(crate) fn operand(fields: &[Field], ops: &[PlanOp], token: &[u8]) -> Option<Operand>
    requires few { length ops.now ≤ 32768 }
    ensures { MatchOption result ((v : Operand) → Operations.operand token.now ≡ Some v → IsKnown fields.now ops.now v
        → ⊥) (λ v. (Operations.operand token.now ≡ Some v) × IsKnown fields.now ops.now v) }
{
    match past(b'r', token) {
        Some(n) => {
            if n < 65536 && is_known(fields, ops, n) {
                Some(Operand::Register(n as u32))
            } else {
                None
            }
        }
        None => Some(Operand::Number(past(b'#', token)?)),
    }
}

fn stage_of(ops: &[PlanOp], operand: Operand) -> u32
    ensures { result ≡ Operations.stage_of ops.now operand }
{
    match operand {
        Operand::Register(r) if r >= FIRST_RESULT => match ops.get(r as usize - FIELDS) {
            Some(one) => one.stage,
            None => 0,
        },
        _ => 0,
    }
}

// The stage of the last operation, or 0.
fn last_stage(ops: &[PlanOp]) -> u32
    ensures { result ≡ Operations.last_stage ops.now }
{
    if ops.is_empty() {
        0
    } else {
        ops[ops.len() - 1].stage
    }
}

fn takes(op: Op, right: Operand) -> bool
    ensures { result ≡ takes_right op right }
{
    match op {
        Op::Div | Op::Rem => match right {
            Operand::Number(n) => 0 < n,
            Operand::Register(_) => false,
        },
        Op::Shl | Op::Shr | Op::Decay => match right {
            Operand::Number(n) => n < 64,
            Operand::Register(_) => false,
        },
        _ => true,
    }
}

fn is_right(op: Operation, right: Operand) -> bool
    ensures { result ≡ is_right_of op right }
{
    match op {
        Operation::Not => true,
        Operation::Two(f) => takes(f, right),
    }
}

// An operation, where it keeps the rules on stages and on its right operand.
fn staged(
    ops: &[PlanOp],
    stage: u64,
    op: Operation,
    left: Operand,
    right: Operand,
) -> Option<PlanOp>
    ensures { MatchOption result (IsStaged ops.now (record { stage = stage; op = op; left = left; right = right })
        → ⊥) (λ r. (r ≡ record { stage = stage; op = op; left = left; right = right }) × IsStaged ops.now r) }
{
    if ops.len() >= 32768 || stage < 1 || stage > MAX_STAGES as u64 {
        return None;
    }
    let stage = stage as u32;
    let greatest = stage_of(ops, left).max(stage_of(ops, right));
    if last_stage(ops) <= stage && stage - 1 == greatest && is_right(op, right) {
        Some(PlanOp {
            stage,
            op,
            left,
            right,
        })
    } else {
        None
    }
}

// The operation of a line with one operand.
fn not_op(fields: &[Field], ops: &[PlanOp], stage: &[u8], a: &[u8]) -> Option<PlanOp>
    requires few { length ops.now ≤ 32768 }
    ensures { MatchOption result ((op : PlanOp) → not_of (Lexis.number stage.now) (Operations.operand a.now) ≡ Some op
        → IsAllowed fields.now ops.now op
        → ⊥) (λ op. (not_of (Lexis.number stage.now) (Operations.operand a.now) ≡ Some op) × IsAllowed fields.now ops.now op) }
{
    let stage = number(stage)?;
    let left = operand(fields, ops, a)?;
    staged(ops, stage, Operation::Not, left, Operand::Number(0))
}

// The operation of a line with two operands.
fn two_op(
    fields: &[Field],
    ops: &[PlanOp],
    stage: &[u8],
    function: &[u8],
    a: &[u8],
    b: &[u8],
) -> Option<PlanOp>
    requires few { length ops.now ≤ 32768 }
    ensures { MatchOption result ((op : PlanOp)
        → two_of (Lexis.number stage.now) (Lexis.function_named function.now) (Operations.operand a.now)
        (Operations.operand b.now) ≡ Some op → IsAllowed fields.now ops.now op
        → ⊥) (λ op. (two_of (Lexis.number stage.now) (Lexis.function_named function.now) (Operations.operand a.now)
        (Operations.operand b.now) ≡ Some op) × IsAllowed fields.now ops.now op) }
{
    let stage = number(stage)?;
    let function = function_named(function)?;
    let left = operand(fields, ops, a)?;
    let right = operand(fields, ops, b)?;
    staged(ops, stage, Operation::Two(function), left, right)
}

/// The operation of a line `op`, where the line is valid after these fields and operations.
pub(crate) fn op_line(fields: &[Field], ops: &[PlanOp], line: &[u8]) -> Option<PlanOp>
    requires few { length ops.now ≤ 32768 }
    ensures { Finds result (IsOpLine fields.now ops.now line.now) }
{
    let (word, rest) = cut_at_space(line)?;
    let (stage, rest) = cut_at_space(rest)?;
    let (function, rest) = cut_at_space(rest)?;
    if !is_text(word, b"op") {
        return None;
    }
    match cut_at_space(rest) {
        None => {
            if is_text(function, b"not") {
                not_op(fields, ops, stage, rest)
            } else {
                None
            }
        }
        Some((a, b)) => match cut_at_space(b) {
            Some(_) => None,
            None => two_op(fields, ops, stage, function, a, b),
        },
    }
}
