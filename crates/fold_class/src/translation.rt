//! Whether a fold is a translation.

ghost use Rattle.std.specs.Prelude.{◌≡◌};
ghost use Rattle.query_lang.specs.{Terms.term_of, Folds.IsValidFold};
ghost use Rattle.fold_code.specs.Checks.{is_in};
ghost use Rattle.fold_class.specs.{Step.history_places, Translations.{moves_left, moves_right, is_move, keeps_moves, is_translation_by}};

use crate::class::Algebra;
use fold_code::{Checks, body_passes, contains, is_known};
use query_lang::{Op, TypedExpr, TypedFold};

// Whether an operator moves its left operand by its right one.
fn can_move_left(algebra: Algebra, op: Op) -> bool
    ensures { result ≡ moves_left algebra op }
{
    match algebra {
        Algebra::Sums => matches!(op, Op::Add | Op::Sub),
        Algebra::Maxima => matches!(op, Op::Max),
    }
}

// Whether an operator moves its right operand by its left one.
fn can_move_right(algebra: Algebra, op: Op) -> bool
    ensures { result ≡ moves_right algebra op }
{
    match algebra {
        Algebra::Sums => matches!(op, Op::Add),
        Algebra::Maxima => matches!(op, Op::Max),
    }
}

// An assignment passes if it gives a history variable what history and arguments give, or moves a linear variable by that.
impl Checks for Algebra {
    ghost passes = { keeps_moves };

    fn may_assign(&self, states: u16, known: &[u8], v: u16, e: &TypedExpr) -> bool {
        if contains(known, v) {
            is_known(states, known, e)
        } else {
            moves(*self, states, known, v, e)
        }
    }
}

// Whether an expression is a variable, moved by what names history variables and arguments alone.
fn moves(algebra: Algebra, states: u16, history: &[u8], v: u16, e: &TypedExpr) -> bool
    ensures { result ≡ is_move algebra states (is_in history.now) v (term_of e.now) }
{
    match e {
        TypedExpr::Slot(s) => *s == v,
        TypedExpr::Binary(op, left, right) => {
            (can_move_left(algebra, *op)
                && (moves(algebra, states, history, v, left.get())
                    && is_known(states, history, right.get())))
                || (can_move_right(algebra, *op)
                    && (is_known(states, history, left.get())
                        && moves(algebra, states, history, v, right.get())))
        }
        _ => false,
    }
}

/// Whether a fold is a translation by an algebra, where these are its history variables.
pub(crate) fn is_translation(f: &TypedFold, algebra: Algebra, history: &[u8]) -> bool
    requires valid { IsValidFold f.now }
    requires history { history.now ≡ history_places f.now }
    ensures { result ≡ is_translation_by algebra f.now }
{
    body_passes(&algebra, history, f)
}
