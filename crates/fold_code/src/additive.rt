//! Folds whose assignments add to a variable what does not depend on the state.

ghost use Rattle.std.specs.Prelude.{◌≡◌, ◌&&◌};
ghost use Rattle.query_lang.specs.{Terms.term_of, Folds.IsValidFold};
ghost use Rattle.fold_code.specs.Additive.{is_variable, adds_known, is_additive as is_additive_fold};

use crate::checks::{Checks, body_passes, is_known};
use query_lang::{Op, TypedExpr, TypedFold};

// An assignment passes if it adds to its variable, or subtracts, what does not depend on the state.
#[derive(Clone, Copy)]
struct Increments;

impl Checks for Increments {
    ghost passes = { λ _. adds_known };

    fn may_assign(&self, states: u16, known: &[u8], v: u16, e: &TypedExpr) -> bool {
        match e {
            TypedExpr::Binary(op, left, right) => match op {
                Op::Add | Op::Sub => is_slot(v, left.get()) && is_known(states, known, right.get()),
                _ => false,
            },
            _ => false,
        }
    }
}

// Whether an expression is the variable and nothing else.
fn is_slot(v: u16, e: &TypedExpr) -> bool
    ensures { result ≡ is_variable v (term_of e.now) }
{
    match e {
        TypedExpr::Slot(s) => *s == v,
        _ => false,
    }
}

/// Whether each assignment of the fold is `X = X + E` or `X = X - E`, where neither E nor a condition around it names a
/// state variable.
pub fn is_additive(f: &TypedFold) -> bool
    requires { IsValidFold f.now }
    ensures { result ≡ is_additive_fold f.now }
{
    body_passes(&Increments, &[], f)
}
