//! From a fold's statements to instructions.

ghost use Rattle.std.specs.Prelude.{◌≡◌, ◌+◌, ◌-◌, ◌<◌, ◌≤◌, [], ◌∷◌, ◌++◌, IfOk, OnOk, vec_len};
ghost use Rattle.query_lang.specs.{Blocks.{stmt_block, block_of}, Terms.term_of, Folds.term_nodes};
ghost use Rattle.fold_code.specs.Code.{term_code, block_size, block_code};

use crate::instr::Instr;
use query_lang::{TypedExpr, TypedStmt};
use std::alloc::AllocError;

// One more instruction, and its number.
pub(crate) fn put(code: &mut Vec<Instr>, instr: Instr) -> Result<u16, AllocError>
    requires { vec_len code.old < 65535 }
    ensures items { OnOk result (code.new.items ≡ code.old.items ++ instr ∷ []) }
    ensures length { OnOk result (vec_len code.new ≡ vec_len code.old + 1) }
    ensures place { IfOk result (λ at. at ≡ vec_len code.old) }
{
    let at = code.len() as u16;
    code.push(instr)?;
    Ok(at)
}

// The instructions of an expression, and the number of the last one, which gives its value.
fn emit_expr(code: &mut Vec<Instr>, states: u16, e: &TypedExpr) -> Result<u16, AllocError>
    requires { vec_len code.old + term_nodes (term_of e.now) ≤ 65535 }
    ensures items { OnOk result (code.new.items ≡ code.old.items ++ term_code states (term_of e.now) (vec_len code.old)) }
    ensures length { OnOk result (vec_len code.new ≡ vec_len code.old + term_nodes (term_of e.now)) }
    ensures place { IfOk result (λ at. at + 1 ≡ vec_len code.old + term_nodes (term_of e.now)) }
{
    match e {
        TypedExpr::Number(n) => put(code, Instr::Constant(*n)),
        TypedExpr::Slot(s) => {
            if *s < states {
                put(code, Instr::State(*s))
            } else {
                put(code, Instr::Argument(*s - states))
            }
        }
        TypedExpr::Not(inner) => {
            let of = emit_expr(code, states, inner.get())?;
            put(code, Instr::Negate(of))
        }
        TypedExpr::Binary(op, left, right) => {
            let first = emit_expr(code, states, left.get())?;
            let second = emit_expr(code, states, right.get())?;
            put(code, Instr::Operate(*op, first, second))
        }
    }
}

// The instructions of a statement under a mask.
fn emit_stmt(code: &mut Vec<Instr>, states: u16, mask: u16, s: &TypedStmt) -> Result<(), AllocError>
    requires room { vec_len code.old + block_size (stmt_block s.now) ≤ 65535 }
    ensures items { OnOk result (code.new.items ≡ code.old.items ++ block_code states (stmt_block s.now) mask (vec_len code.old)) }
    ensures length { OnOk result (vec_len code.new ≡ vec_len code.old + block_size (stmt_block s.now)) }
{
    match s {
        TypedStmt::Assign(v, e) => {
            let value = emit_expr(code, states, e)?;
            put(code, Instr::Keep(*v, mask, value))?;
        }
        TypedStmt::If(c, a, b) => {
            let condition = emit_expr(code, states, c)?;
            let then_mask = put(code, Instr::Then(mask, condition))?;
            let else_mask = put(code, Instr::Else(mask, condition))?;
            'then_block: for inner in a.as_slice() {
                emit_stmt(code, states, then_mask, inner)?;
            }
            'else_block: for inner in b.as_slice() {
                emit_stmt(code, states, else_mask, inner)?;
            }
        }
    }
    Ok(())
}

// The instructions of statements under a mask.
pub(crate) fn emit_block(
    code: &mut Vec<Instr>,
    states: u16,
    mask: u16,
    block: &[TypedStmt],
) -> Result<(), AllocError>
    requires { vec_len code.old + block_size (block_of block.now) ≤ 65535 }
    ensures items { OnOk result (code.new.items ≡ code.old.items ++ block_code states (block_of block.now) mask (vec_len code.old)) }
    ensures length { OnOk result (vec_len code.new ≡ vec_len code.old + block_size (block_of block.now)) }
{
    for s in block {
        emit_stmt(code, states, mask, s)?;
    }
    Ok(())
}
