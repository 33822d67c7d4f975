//! What the operators are to a walk over a fold's statements.

ghost use Rattle.std.specs.Prelude.{◌≡◌};
ghost use Rattle.query_lang.specs.declared.fold.Op.{Op as AnyOp};
ghost use Rattle.fold_class.specs.{declared.class.Role.{Role as AnyRole}, Kinds.role, Walk.outside};

use crate::class::{Algebra, Role};
use query_lang::Op;

/// The roles of the operators in a walk.
pub trait Operators {
    /// The role of each operator.
    ghost roles: { Self → AnyOp → AnyRole };

    /// The role of an operator.
    fn role_of(&self, op: Op) -> Role
        ensures { result ≡ roles self.now op };
}

impl Operators for Algebra {
    ghost roles = { role };

    fn role_of(&self, op: Op) -> Role {
        match self {
            Algebra::Sums => match op {
                Op::Add => Role::Sum,
                Op::Sub => Role::Difference,
                Op::Mul => Role::Product,
                _ => Role::Outside,
            },
            Algebra::Maxima => match op {
                Op::Max => Role::Sum,
                Op::Sadd => Role::Product,
                _ => Role::Outside,
            },
        }
    }
}

/// Each operator is Outside: the kind of an expression shows only whether it reads a variable that is not Pure.
#[derive(Clone, Copy)]
pub(crate) struct Reads;

impl Operators for Reads {
    ghost roles = { λ _. outside };

    fn role_of(&self, _op: Op) -> Role {
        Role::Outside
    }
}
