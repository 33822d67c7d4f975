//! The operations of a plan.

ghost use Rattle.std.specs.Prelude.{◌≡◌, ◌++◌, flat_map, OnOk};
ghost use Rattle.plan_writer.specs.{Words.{spaced, function_word, operation_words}, PlanText.op_line};

use crate::words::{push_number, push_operand, push_word};
use marple_base::Text;
use query_lang::Op;
use stage_plan::{Operation, Plan, PlanOp};
use std::alloc::AllocError;

/// The name of an operator or a function of two words.
pub(crate) fn function_name(op: Op) -> &'static [u8]
    ensures { result.now ≡ function_word op }
{
    match op {
        Op::Mul => b"mul",
        Op::Div => b"div",
        Op::Rem => b"rem",
        Op::Add => b"add",
        Op::Sub => b"sub",
        Op::Shl => b"shl",
        Op::Shr => b"shr",
        Op::And => b"and",
        Op::Xor => b"xor",
        Op::Or => b"or",
        Op::Eq => b"eq",
        Op::Ne => b"ne",
        Op::Lt => b"lt",
        Op::Le => b"le",
        Op::Gt => b"gt",
        Op::Ge => b"ge",
        Op::Both => b"both",
        Op::Either => b"either",
        Op::Max => b"max",
        Op::Min => b"min",
        Op::Sadd => b"sadd",
        Op::Decay => b"decay",
    }
}

fn push_operation(text: &mut Text, one: &PlanOp) -> Result<(), AllocError>
    ensures { OnOk result (text.new ≡ text.old ++ spaced (operation_words one.now.op one.now.left one.now.right)) }
{
    match one.op {
        Operation::Not => {
            push_word(text, b"not")?;
            push_operand(text, one.left)
        }
        Operation::Two(op) => {
            push_word(text, function_name(op))?;
            push_operand(text, one.left)?;
            push_operand(text, one.right)
        }
    }
}

fn push_op(text: &mut Text, one: &PlanOp) -> Result<(), AllocError>
    ensures { OnOk result (text.new ≡ text.old ++ op_line one.now) }
{
    text.push_slice(b"op")?;
    push_number(text, u64::from(one.stage))?;
    push_operation(text, one)?;
    text.push(b'\n')
}

/// The lines of a plan's operations.
pub(crate) fn push_ops(text: &mut Text, p: &Plan) -> Result<(), AllocError>
    ensures { OnOk result (text.new ≡ text.old ++ flat_map op_line p.now.ops) }
{
    for number in 0..p.operations() {
        push_op(text, &p.op(number))?;
    }
    Ok(())
}
