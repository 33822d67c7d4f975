//! The value of an expression.

ghost use Rattle.std.specs.Prelude.{◌≡◌, length};
ghost use Rattle.query_lang.specs.{Folds.IsValidTerm, Streams.expr_value, Terms.term_of};

use crate::fold::TypedExpr;

/// The value of an expression over a row of slots. Both sides of an operator are computed, and a condition is 1 or 0.
pub fn eval_expr(e: &TypedExpr, row: &[u64]) -> u64
    requires { IsValidTerm (length row.now) (term_of e.now) }
    ensures { result ≡ expr_value e.now row.now }
{
    match e {
        TypedExpr::Number(n) => *n,
        TypedExpr::Slot(slot) => row[*slot as usize],
        TypedExpr::Not(inner) => u64::from(eval_expr(inner.get(), row) == 0),
        TypedExpr::Binary(op, left, right) => {
            let x = eval_expr(left.get(), row);
            let y = eval_expr(right.get(), row);
            op.value(x, y)
        }
    }
}
