//! The statements that keep a fold from being linear or monotone.

use crate::expressions::{as_name, has_node_at, is_alike, start_of};
use crate::values::{
    Cause, Form, Rule, Value, Values, carried_name, cause_of, combined, set_value, value_of, worse,
};
use enclosure_folds::StateOrder;
use fold_class::{Algebra, Operators, Role};
use marple_base::Seq;
use query_lang::{Expr, FoldDef, MAX_STATES, Name, Op, StateVar, Stmt};
use std::alloc::{AllocError, Global};

/// A variable that is spoilt at the end of a fold's body, and its cause.
#[derive(Clone, Copy, PartialEq, Eq)]
pub struct Spoilt {
    pub variable: Name,
    pub cause: Cause,
}

// The value of an expression.
fn value_in<O: Operators>(operators: &O, states: &[StateVar], values: &Values, e: &Expr) -> Value {
    match e {
        Expr::Number(_, _) => Value::Known,
        Expr::Named(name) => value_of(states, values, name.id),
        Expr::Not(_, inner) => {
            let value = value_in(operators, states, values, inner.get());
            let cause = cause_of(states, values, e, Rule::Negation);
            combined(Role::Outside, value, Value::Known, cause)
        }
        Expr::Binary(op, _, left, right) => {
            let one = value_in(operators, states, values, left.get());
            let other = value_in(operators, states, values, right.get());
            let cause = cause_of(states, values, e, Rule::Operator(*op));
            combined(operators.role_of(*op), one, other, cause)
        }
        Expr::Call(op, _, operands) => {
            let cause = cause_of(states, values, e, Rule::Operator(*op));
            let mut found = None;
            for operand in operands.as_slice() {
                let value = value_in(operators, states, values, operand);
                found = match found {
                    None => Some(value),
                    Some(before) => Some(combined(operators.role_of(*op), before, value, cause)),
                };
            }
            match found {
                Some(value) => value,
                None => Value::Known,
            }
        }
    }
}

// Whether the assignment of a value to `kept` keeps the greater one: `new < kept` or `kept > new` tests it.
fn is_kept(kept: &Expr, new: &Expr, target: Name, value: &Expr) -> bool {
    match as_name(kept) {
        Some(name) => name.id == target.id && is_alike(new, value),
        None => false,
    }
}

// What a comparison keeps of the variable that is assigned a value where it holds.
fn compared(op: Op, left: &Expr, right: &Expr, target: Name, value: &Expr) -> Form {
    let rises = matches!(op, Op::Lt | Op::Le);
    if !rises && !matches!(op, Op::Gt | Op::Ge) {
        return Form::Plain;
    }
    if is_kept(left, right, target, value) {
        return if rises { Form::Greatest } else { Form::Least };
    }
    if is_kept(right, left, target, value) {
        return if rises { Form::Least } else { Form::Greatest };
    }
    Form::Plain
}

// What a condition over these two blocks keeps.
fn form_of(condition: &Expr, then: &[Stmt], otherwise: &[Stmt]) -> Form {
    match (condition, then, otherwise) {
        (Expr::Binary(op, _, left, right), [Stmt::Assign(target, value)], []) => {
            compared(*op, left.get(), right.get(), *target, value)
        }
        _ => Form::Plain,
    }
}

// What a condition with this value spoils the variables by that are assigned under it: what spoilt it before, or itself.
fn condition_cause(
    states: &[StateVar],
    values: &Values,
    value: Value,
    condition: &Expr,
    form: Form,
) -> Cause {
    if let Value::Spoilt(cause) = value {
        if !has_node_at(condition, cause.start) {
            return cause;
        }
    }
    Cause {
        start: start_of(condition),
        reads: carried_name(states, values, condition),
        rule: Rule::Condition(form),
    }
}

// Gives each variable that a statement assigns this value.
fn mark(states: &[StateVar], values: &mut Values, s: &Stmt, value: Value) {
    match s {
        Stmt::Assign(target, _) => set_value(states, values, target.id, value),
        Stmt::Emit(_) => {}
        Stmt::If(_, then, otherwise) => {
            'then_block: for inner in then.as_slice() {
                mark(states, values, inner, value);
            }
            'else_block: for inner in otherwise.as_slice() {
                mark(states, values, inner, value);
            }
        }
    }
}

// For each variable the worse of its values in two tables.
fn join(values: &mut Values, others: &Values) {
    for v in 0..8 {
        values[v] = worse(values[v], others[v]);
    }
}

// The values after a statement.
fn walk<O: Operators>(operators: &O, states: &[StateVar], values: &mut Values, s: &Stmt) {
    match s {
        Stmt::Assign(target, e) => {
            let value = value_in(operators, states, values, e);
            set_value(states, values, target.id, value);
        }
        Stmt::Emit(_) => {}
        Stmt::If(condition, then, otherwise) => {
            match value_in(operators, states, values, condition) {
                Value::Known => {
                    let mut others = *values;
                    'then_block: for inner in then.as_slice() {
                        walk(operators, states, values, inner);
                    }
                    'else_block: for inner in otherwise.as_slice() {
                        walk(operators, states, &mut others, inner);
                    }
                    join(values, &others);
                }
                value => {
                    let form = form_of(condition, then.as_slice(), otherwise.as_slice());
                    let cause = condition_cause(states, values, value, condition, form);
                    mark(states, values, s, Value::Spoilt(cause));
                }
            }
        }
    }
}

// The variables that are spoilt at the end.
fn spoilt_at_end(
    alloc: Global,
    states: &[StateVar],
    values: &Values,
) -> Result<Seq<Spoilt>, AllocError> {
    let mut found = Seq::new(alloc);
    for (v, state) in states.iter().enumerate() {
        if v < MAX_STATES {
            if let Value::Spoilt(cause) = values[v] {
                found.push(Spoilt {
                    variable: state.name,
                    cause,
                })?;
            }
        }
    }
    Ok(found)
}

// The values at the start: known where a variable has a depth, and carried otherwise.
fn first_values(states: &[StateVar], history: &[u8]) -> Values {
    let mut values = [Value::Known; MAX_STATES];
    for (v, _state) in states.iter().enumerate() {
        if v < MAX_STATES {
            values[v] = Value::Carried;
        }
    }
    for v in history {
        let v = usize::from(*v);
        if v < MAX_STATES {
            values[v] = Value::Known;
        }
    }
    values
}

// What is spoilt at the end of a fold's body by these operators.
fn spoilt_by<O: Operators>(
    alloc: Global,
    operators: &O,
    d: &FoldDef,
    history: &[u8],
) -> Result<Seq<Spoilt>, AllocError> {
    let states = d.states.as_slice();
    let mut values = first_values(states, history);
    for s in d.body.as_slice() {
        walk(operators, states, &mut values, s);
    }
    spoilt_at_end(alloc, states, &values)
}

/// The variables that keep a fold from being linear by the sums and products of an algebra, where these have a depth.
pub fn not_linear(
    alloc: Global,
    algebra: Algebra,
    d: &FoldDef,
    history: &[u8],
) -> Result<Seq<Spoilt>, AllocError> {
    spoilt_by(alloc, &algebra, d, history)
}

/// The variables that keep a fold from being monotone.
pub fn not_monotone(alloc: Global, d: &FoldDef) -> Result<Seq<Spoilt>, AllocError> {
    spoilt_by(alloc, &StateOrder, d, &[])
}
