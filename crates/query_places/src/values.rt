//! What is known of the values of expressions in a fold, and what spoils them.

use crate::expressions::start_of;
use fold_class::Role;
use query_lang::{Expr, MAX_STATES, Name, Op, StateVar};

/// What a condition keeps, where it keeps something: `if (x > m) { m = x; }` the greatest, and `if (x < m) { m = x; }` the
/// least.
#[derive(Clone, Copy, PartialEq, Eq)]
pub enum Form {
    Plain,
    Greatest,
    Least,
}

/// What fails of a fold's rules: an operator, `!`, a condition that reads a variable, or an assignment that doesn't add.
#[derive(Clone, Copy, PartialEq, Eq)]
pub enum Rule {
    Operator(Op),
    Negation,
    Condition(Form),
    Assignment,
}

/// What spoils a variable: the byte where it begins, and the first variable that it reads.
#[derive(Clone, Copy, PartialEq, Eq)]
pub struct Cause {
    pub start: u32,
    pub reads: Option<Name>,
    pub rule: Rule,
}

/// What is known of a value: it depends on no variable that is followed; it depends on them as the operators allow; or a
/// cause spoils it.
#[derive(Clone, Copy)]
pub(crate) enum Value {
    Known,
    Carried,
    Spoilt(Cause),
}

/// The values of a fold's variables, of which there are at most `MAX_STATES` in an accepted query.
pub(crate) type Values = [Value; MAX_STATES];

/// The value of a name: that of the variable, and known where it is none.
pub(crate) fn value_of(states: &[StateVar], values: &Values, id: u32) -> Value {
    for (v, state) in states.iter().enumerate() {
        if state.name.id == id && v < MAX_STATES {
            return values[v];
        }
    }
    Value::Known
}

/// Gives a variable a value.
pub(crate) fn set_value(states: &[StateVar], values: &mut Values, id: u32, value: Value) {
    for (v, state) in states.iter().enumerate() {
        if state.name.id == id && v < MAX_STATES {
            values[v] = value;
        }
    }
}

/// The worse of two values, the first of two that are spoilt.
pub(crate) fn worse(one: Value, other: Value) -> Value {
    match (one, other) {
        (Value::Spoilt(_), _) => one,
        (_, Value::Spoilt(_)) => other,
        (Value::Carried, _) => one,
        _ => other,
    }
}

/// What an operator with this role makes of two values, where `cause` says that it spoils them.
pub(crate) fn combined(role: Role, left: Value, right: Value, cause: Cause) -> Value {
    match (left, right) {
        (Value::Spoilt(_), _) => left,
        (_, Value::Spoilt(_)) => right,
        (Value::Known, Value::Known) => Value::Known,
        _ => match role {
            Role::Sum | Role::Difference => Value::Carried,
            Role::Product => match (left, right) {
                (Value::Carried, Value::Carried) => Value::Spoilt(cause),
                _ => Value::Carried,
            },
            Role::Outside => Value::Spoilt(cause),
        },
    }
}

// Whether a value depends on variables.
fn is_carried(value: Value) -> bool {
    !matches!(value, Value::Known)
}

/// The first name in an expression whose value depends on variables.
pub(crate) fn carried_name(states: &[StateVar], values: &Values, e: &Expr) -> Option<Name> {
    match e {
        Expr::Number(_, _) => None,
        Expr::Named(name) if is_carried(value_of(states, values, name.id)) => Some(*name),
        Expr::Named(_) => None,
        Expr::Not(_, inner) => carried_name(states, values, inner.get()),
        Expr::Binary(_, _, left, right) => match carried_name(states, values, left.get()) {
            Some(name) => Some(name),
            None => carried_name(states, values, right.get()),
        },
        Expr::Call(_, _, operands) => {
            for operand in operands.as_slice() {
                if let Some(name) = carried_name(states, values, operand) {
                    return Some(name);
                }
            }
            None
        }
    }
}

/// The cause that an expression is, by this rule.
pub(crate) fn cause_of(states: &[StateVar], values: &Values, e: &Expr, rule: Rule) -> Cause {
    Cause {
        start: start_of(e),
        reads: carried_name(states, values, e),
        rule,
    }
}
