//! The first statement that keeps a fold from being additive.

use crate::expressions::{as_name, start_of};
use crate::values::{Cause, Form, Rule};
use query_lang::{Expr, FoldDef, Name, Op, StateVar, Stmt};

// The first of the variables that an expression reads, in the order of its text.
fn state_in(states: &[StateVar], e: &Expr) -> Option<Name> {
    match e {
        Expr::Number(_, _) => None,
        Expr::Named(name) => {
            for state in states {
                if state.name.id == name.id {
                    return Some(*name);
                }
            }
            None
        }
        Expr::Not(_, inner) => state_in(states, inner.get()),
        Expr::Binary(_, _, left, right) => match state_in(states, left.get()) {
            Some(name) => Some(name),
            None => state_in(states, right.get()),
        },
        Expr::Call(_, _, operands) => {
            for operand in operands.as_slice() {
                if let Some(name) = state_in(states, operand) {
                    return Some(name);
                }
            }
            None
        }
    }
}

// Whether an assignment adds to its variable, or subtracts, what reads no variable.
fn adds(states: &[StateVar], target: Name, value: &Expr) -> bool {
    let Expr::Binary(Op::Add | Op::Sub, _, left, right) = value else {
        return false;
    };
    match as_name(left.get()) {
        Some(name) => name.id == target.id && state_in(states, right.get()).is_none(),
        None => false,
    }
}

// Whether a statement assigns anything.
fn assigns(s: &Stmt) -> bool {
    match s {
        Stmt::Assign(_, _) => true,
        Stmt::Emit(_) => false,
        Stmt::If(_, then, otherwise) => {
            'then_block: for inner in then.as_slice() {
                if assigns(inner) {
                    return true;
                }
            }
            'else_block: for inner in otherwise.as_slice() {
                if assigns(inner) {
                    return true;
                }
            }
            false
        }
    }
}

// What a statement does that an additive fold doesn't.
fn cause_in(states: &[StateVar], s: &Stmt) -> Option<Cause> {
    match s {
        Stmt::Emit(_) => None,
        Stmt::Assign(target, value) if adds(states, *target, value) => None,
        Stmt::Assign(target, _) => Some(Cause {
            start: target.span.start,
            reads: Some(*target),
            rule: Rule::Assignment,
        }),
        Stmt::If(condition, then, otherwise) => {
            let read = state_in(states, condition);
            if read.is_some() && assigns(s) {
                return Some(Cause {
                    start: start_of(condition),
                    reads: read,
                    rule: Rule::Condition(Form::Plain),
                });
            }
            'then_block: for inner in then.as_slice() {
                if let Some(cause) = cause_in(states, inner) {
                    return Some(cause);
                }
            }
            'else_block: for inner in otherwise.as_slice() {
                if let Some(cause) = cause_in(states, inner) {
                    return Some(cause);
                }
            }
            None
        }
    }
}

/// The first statement of a fold that isn't `x = x + e` or `x = x - e`, or that has a variable in `e` or in a condition
/// around it.
pub fn not_additive(d: &FoldDef) -> Option<Cause> {
    for s in d.body.as_slice() {
        if let Some(cause) = cause_in(d.states.as_slice(), s) {
            return Some(cause);
        }
    }
    None
}
