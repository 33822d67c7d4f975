//! Operations that wait for one another, one in each stage.

ghost use Rattle.std.specs.Prelude.{◌≡◌, ◌+◌, ◌<◌, [], length, IfOk, IfSome, OnOk, is_some, true};
ghost use Rattle.stage_plan.specs.{declared.op.Operand.TheVariants.Register, Registers.operand_stage};
ghost use Rattle.stage_plan.specs.Sound.{AreSoundOps, IsNamed, IsPrevious, EndsAt, IsChain};

use crate::op::{FIRST_RESULT, Operand, PlanOp};
use marple_base::{FIELDS, Seq};
use std::alloc::{AllocError, Global};

// The number of the operation that an operand names, where it is in this stage.
fn number_in(ops: &[PlanOp], operand: Operand, stage: u32) -> Option<u32>
    ensures named { IfSome result (λ number. IsNamed ops.now operand stage number) }
    ensures found { 0 < stage → operand_stage ops.now operand ≡ stage → is_some result ≡ true }
{
    match operand {
        Operand::Register(r) if r >= FIRST_RESULT => {
            let one = ops.get(r as usize - FIELDS)?;
            if one.stage == stage {
                Some(r - FIRST_RESULT)
            } else {
                None
            }
        }
        _ => None,
    }
}

// An operand's operation in the stage before.
fn previous(ops: &[PlanOp], at: u32) -> u32
    requires sound { AreSoundOps ops.now }
    requires there { at < length ops.now }
    requires late { 1 < operand_stage ops.now (Register (FIELDS + at)) }
    ensures { IsPrevious ops.now at result }
{
    let one = ops[at as usize];
    match number_in(ops, one.left, one.stage - 1) {
        Some(number) => number,
        None => match number_in(ops, one.right, one.stage - 1) {
            Some(number) => number,
            None => 0,
        },
    }
}

// The chain up to an operation.
fn push_chain(chain: &mut Seq<u32>, ops: &[PlanOp], at: u32) -> Result<(), AllocError>
    requires sound { AreSoundOps ops.now }
    requires there { at < length ops.now }
    requires empty { chain.old ≡ [] }
    ensures { OnOk result (EndsAt ops.now chain.new at) }
{
    if ops[at as usize].stage > 1 {
        push_chain(chain, ops, previous(ops, at))?;
        return chain.push(at);
    }
    chain.push(at)
}

/// Operations that wait for one another, as many as there are stages.
pub(crate) fn longest_chain(alloc: Global, ops: &[PlanOp]) -> Result<Seq<u32>, AllocError>
    requires { AreSoundOps ops.now }
    ensures { IfOk result (λ chain. IsChain ops.now chain) }
{
    let mut chain = Seq::new(alloc);
    if ops.is_empty() {
        return Ok(chain);
    }
    push_chain(&mut chain, ops, ops.len() as u32 - 1)?;
    Ok(chain)
}
