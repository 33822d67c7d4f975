//! Expressions, with the places of their nodes.

use query_lang::{Expr, Name, Op, Span};

/// The place of the node's token: a number, a name, an operator or a function.
pub(crate) fn token_of(e: &Expr) -> Span {
    match e {
        Expr::Number(_, span) => *span,
        Expr::Named(name) => name.span,
        Expr::Not(span, _) => *span,
        Expr::Binary(_, span, _, _) => *span,
        Expr::Call(_, span, _) => *span,
    }
}

/// The first byte of an expression, parentheses aside.
pub(crate) fn start_of(e: &Expr) -> u32 {
    match e {
        Expr::Number(_, span) => span.start,
        Expr::Named(name) => name.span.start,
        Expr::Not(span, _) => span.start,
        Expr::Binary(_, _, left, _) => start_of(left.get()),
        Expr::Call(_, span, _) => span.start,
    }
}

/// Whether a node of the expression has its token at this byte.
pub(crate) fn has_node_at(e: &Expr, at: u32) -> bool {
    if token_of(e).start == at {
        return true;
    }
    match e {
        Expr::Number(_, _) => false,
        Expr::Named(_) => false,
        Expr::Not(_, inner) => has_node_at(inner.get(), at),
        Expr::Binary(_, _, left, right) => {
            has_node_at(left.get(), at) || has_node_at(right.get(), at)
        }
        Expr::Call(_, _, operands) => {
            for operand in operands.as_slice() {
                if has_node_at(operand, at) {
                    return true;
                }
            }
            false
        }
    }
}

// Whether the operator's right side is how far a word is shifted.
fn shifts(op: Op) -> bool {
    matches!(op, Op::Shl | Op::Shr | Op::Decay)
}

// Whether the second of these operands begins at this byte.
fn second_is_at(operands: &[Expr], at: u32) -> bool {
    match operands.get(1) {
        Some(second) => start_of(second) == at,
        None => false,
    }
}

/// Whether how far something is shifted stands at this byte.
pub(crate) fn has_shift_at(e: &Expr, at: u32) -> bool {
    match e {
        Expr::Number(_, _) => false,
        Expr::Named(_) => false,
        Expr::Not(_, inner) => has_shift_at(inner.get(), at),
        Expr::Binary(op, _, left, right) => {
            shifts(*op) && start_of(right.get()) == at
                || has_shift_at(left.get(), at)
                || has_shift_at(right.get(), at)
        }
        Expr::Call(op, _, operands) => {
            if shifts(*op) && second_is_at(operands.as_slice(), at) {
                return true;
            }
            for operand in operands.as_slice() {
                if has_shift_at(operand, at) {
                    return true;
                }
            }
            false
        }
    }
}

/// Whether the expression reads this name.
pub(crate) fn reads(e: &Expr, id: u32) -> bool {
    match e {
        Expr::Number(_, _) => false,
        Expr::Named(name) => name.id == id,
        Expr::Not(_, inner) => reads(inner.get(), id),
        Expr::Binary(_, _, left, right) => reads(left.get(), id) || reads(right.get(), id),
        Expr::Call(_, _, operands) => {
            for operand in operands.as_slice() {
                if reads(operand, id) {
                    return true;
                }
            }
            false
        }
    }
}

/// The name, where the expression is one.
pub(crate) fn as_name(e: &Expr) -> Option<Name> {
    match e {
        Expr::Named(name) => Some(*name),
        _ => None,
    }
}

/// Whether both are the same expression, wherever they stand.
pub(crate) fn is_alike(one: &Expr, other: &Expr) -> bool {
    match (one, other) {
        (Expr::Number(m, _), Expr::Number(n, _)) => *m == *n,
        (Expr::Named(a), Expr::Named(b)) => a.id == b.id,
        (Expr::Not(_, a), Expr::Not(_, b)) => is_alike(a.get(), b.get()),
        (Expr::Binary(op, _, a, b), Expr::Binary(other_op, _, c, d)) => {
            *op == *other_op && is_alike(a.get(), c.get()) && is_alike(b.get(), d.get())
        }
        (Expr::Call(op, _, some), Expr::Call(other_op, _, others)) => {
            if *op != *other_op || some.len() != others.len() {
                return false;
            }
            for (at, a) in some.as_slice().iter().enumerate() {
                match others.as_slice().get(at) {
                    Some(b) if is_alike(a, b) => {}
                    _ => return false,
                }
            }
            true
        }
        _ => false,
    }
}
