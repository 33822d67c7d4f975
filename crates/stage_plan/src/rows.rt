//! The registers of a packet.

ghost use Rattle.std.specs.Prelude.{◌≡◌, ℕ, ◌+◌, ◌<◌, ◌≤◌, length, take, slice_get, slice_index, Some, map, All};
ghost use Rattle.stage_plan.specs.{declared.op.PlanOp.PlanOp, Registers.{operand_value, result_of, registers_after, stages_of}};
ghost use Rattle.stage_plan.specs.Sound.{IsWithin, AreSoundOps};

use crate::op::{Operand, Operation, PlanOp};
use marple_base::{FIELDS, Steps};
use std::sync::ledger::Ledger;

pub(crate) fn operand_in(operand: Operand, registers: &[u64]) -> u64
    requires { IsWithin (length registers.now) operand }
    ensures { result ≡ operand_value registers.now operand }
{
    match operand {
        Operand::Register(r) => registers[r as usize],
        Operand::Number(n) => n,
    }
}

fn result_in(one: &PlanOp, registers: &[u64]) -> u64
    requires left { IsWithin (length registers.now) one.now.left }
    requires right { IsWithin (length registers.now) one.now.right }
    ensures { result ≡ result_of registers.now one.now }
{
    let left = operand_in(one.left, registers);
    let right = operand_in(one.right, registers);
    match one.op {
        Operation::Not => u64::from(left == 0),
        Operation::Two(op) => op.value(left, right),
    }
}

fn fill_fields<L: Ledger>(words: &[u64], registers: &mut [u64], steps: &mut Steps<L>)
    requires words { length words.now ≡ FIELDS }
    requires room { FIELDS ≤ length registers.old }
    ensures fields { take FIELDS registers.new ≡ words.now }
    ensures steps { steps.new ≡ steps.old + FIELDS }
{
    registers[..FIELDS].copy_from_slice(words);
    steps.tick_many(FIELDS as u64);
}

// Each operation's result in its register, in turn: each reads only earlier registers.
fn fill_results<L: Ledger>(ops: &[PlanOp], registers: &mut [u64], steps: &mut Steps<L>)
    requires sound { AreSoundOps ops.now }
    requires room { length registers.old ≡ FIELDS + length ops.now }
    ensures fields { take FIELDS registers.new ≡ take FIELDS registers.old }
    ensures results { (i : ℕ) (one : PlanOp) → slice_get ops.now i ≡ Some one
        → slice_index registers.new (FIELDS + i) ≡ result_of registers.new one }
    ensures steps { steps.new ≡ steps.old + length ops.now }
{
    for at in 0..ops.len() {
        registers[FIELDS + at] = result_in(&ops[at], registers);
    }
    steps.tick_many(ops.len() as u64);
}

// All registers of a packet.
pub(crate) fn fill<L: Ledger>(
    words: &[u64],
    ops: &[PlanOp],
    registers: &mut [u64],
    steps: &mut Steps<L>,
)
    requires sound { AreSoundOps ops.now }
    requires words { length words.now ≡ FIELDS }
    requires room { length registers.old ≡ FIELDS + length ops.now }
    ensures row { registers.new ≡ registers_after ops.now words.now (stages_of ops.now) }
    ensures steps { steps.new ≡ steps.old + (FIELDS + length ops.now) }
{
    fill_fields(words, registers, steps);
    fill_results(ops, registers, steps);
}

pub(crate) fn copy_into<L: Ledger>(
    operands: &[Operand],
    registers: &[u64],
    into: &mut [u64],
    steps: &mut Steps<L>,
)
    requires within { All (IsWithin (length registers.now)) operands.now }
    requires room { length into.old ≡ length operands.now }
    ensures words { into.new ≡ map (operand_value registers.now) operands.now }
    ensures steps { steps.new ≡ steps.old + length operands.now }
{
    for at in 0..operands.len() {
        into[at] = operand_in(operands[at], registers);
    }
    steps.tick_many(operands.len() as u64);
}
