//! The statements of a fold in prefix form.

ghost use Rattle.std.specs.Prelude.{◌≡◌, ◌++◌, ◌∷◌, [], OnOk};
ghost use Rattle.query_lang.specs.{Blocks.{stmt_block, block_of}, Terms.term_of};
ghost use Rattle.plan_writer.specs.Words.{spaced, slot_word, term_words, block_words};

use crate::operations::function_name;
use crate::words::{push_marked, push_word};
use marple_base::Text;
use query_lang::{TypedExpr, TypedStmt};
use std::alloc::AllocError;

// A slot of a row that has this many state variables, and the arguments after them.
fn push_slot(text: &mut Text, states: u16, s: u16) -> Result<(), AllocError>
    ensures { OnOk result (text.new ≡ text.old ++ spaced (slot_word states s ∷ [])) }
{
    if s < states {
        push_marked(text, b's', u64::from(s))
    } else {
        push_marked(text, b'a', u64::from(s - states))
    }
}

fn push_expr(text: &mut Text, states: u16, e: &TypedExpr) -> Result<(), AllocError>
    ensures { OnOk result (text.new ≡ text.old ++ spaced (term_words states (term_of e.now))) }
{
    match e {
        TypedExpr::Number(n) => push_marked(text, b'#', *n),
        TypedExpr::Slot(s) => push_slot(text, states, *s),
        TypedExpr::Not(inner) => {
            push_word(text, b"not")?;
            push_expr(text, states, inner.get())
        }
        TypedExpr::Binary(op, left, right) => {
            push_word(text, function_name(*op))?;
            push_expr(text, states, left.get())?;
            push_expr(text, states, right.get())
        }
    }
}

fn push_stmt(text: &mut Text, states: u16, s: &TypedStmt) -> Result<(), AllocError>
    ensures { OnOk result (text.new ≡ text.old ++ spaced (block_words states (stmt_block s.now))) }
{
    match s {
        TypedStmt::Assign(v, e) => {
            push_word(text, b"set")?;
            push_marked(text, b's', u64::from(*v))?;
            push_expr(text, states, e)?;
        }
        TypedStmt::If(c, a, b) => {
            push_word(text, b"if")?;
            push_expr(text, states, c)?;
            push_word(text, b"{")?;
            'then_block: for inner in a.as_slice() {
                push_stmt(text, states, inner)?;
            }
            push_word(text, b"}")?;
            push_word(text, b"{")?;
            'else_block: for inner in b.as_slice() {
                push_stmt(text, states, inner)?;
            }
            push_word(text, b"}")?;
        }
    }
    Ok(())
}

/// The statements of a fold with this many state variables.
pub(crate) fn push_body(text: &mut Text, states: u16, body: &[TypedStmt]) -> Result<(), AllocError>
    ensures { OnOk result (text.new ≡ text.old ++ spaced (block_words states (block_of body.now))) }
{
    for s in body {
        push_stmt(text, states, s)?;
    }
    Ok(())
}
