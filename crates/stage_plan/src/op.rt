//! The operations of a plan.

use marple_base::FIELDS;
use query_lang::Op;

/// What an operation does with its operands.
#[derive(Clone, Copy)]
pub enum Operation {
    /// 1 exactly where the left operand is 0. The right one isn't read.
    Not,
    Two(Op),
}

/// The register of the first operation. Those before it are the packet's fields.
pub const FIRST_RESULT: u32 = FIELDS as u32;

/// A word of a packet's registers, or a number. The registers are the packet's fields and then the operations in order.
#[derive(Clone, Copy)]
pub enum Operand {
    Register(u32),
    Number(u64),
}

/// One operation, which is in a stage from 1 on.
#[derive(Clone, Copy)]
pub struct PlanOp {
    pub stage: u32,
    pub op: Operation,
    pub left: Operand,
    /// The number 0 for `Not`.
    pub right: Operand,
}
