//! Whether a fold keeps the order of states.

ghost use Rattle.std.specs.Prelude.{◌≡◌};
ghost use Rattle.query_lang.specs.Folds.{IsValidFold};
ghost use Rattle.enclosure_folds.specs.Kinds as Kinds;

use fold_class::{Operators, Role, has_no_other};
use query_lang::{MAX_STATES, Op, TypedFold};

/// What the operators make of the order of states.
#[derive(Clone, Copy)]
pub struct StateOrder;

impl Operators for StateOrder {
    ghost roles = { λ _. Kinds.role };

    fn role_of(&self, op: Op) -> Role {
        match op {
            Op::Max => Role::Sum,
            Op::Min => Role::Sum,
            Op::Sadd => Role::Sum,
            Op::Decay => Role::Product,
            Op::Shr => Role::Product,
            Op::Div => Role::Product,
            _ => Role::Outside,
        }
    }
}

/// Whether each variable of a fold is no less from a greater state, by the kinds of its expressions.
pub fn is_monotone(f: &TypedFold) -> bool
    requires { IsValidFold f.now }
    ensures { result ≡ Kinds.is_monotone f.now }
{
    has_no_other(&StateOrder, f, &[false; MAX_STATES])
}
