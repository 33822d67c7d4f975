//! Copies of expressions and of lists.

ghost use Rattle.std.specs.Prelude.{◌≡◌, ◌++◌, IfOk};

use crate::exprs::typed_binary;
use marple_base::{Boxed, Seq};
use query_lang::TypedExpr;
use std::alloc::{AllocError, Global};

/// A copy of an expression.
pub fn copy_expr(alloc: Global, e: &TypedExpr) -> Result<TypedExpr, AllocError>
    ensures { IfOk result (λ copy. copy ≡ e.now) }
{
    match e {
        TypedExpr::Number(n) => Ok(TypedExpr::Number(*n)),
        TypedExpr::Slot(slot) => Ok(TypedExpr::Slot(*slot)),
        TypedExpr::Not(inner) => {
            let of = copy_expr(alloc, inner.get())?;
            Ok(TypedExpr::Not(Boxed::new(alloc, of)?))
        }
        TypedExpr::Binary(op, left, right) => {
            let first = copy_expr(alloc, left.get())?;
            let second = copy_expr(alloc, right.get())?;
            typed_binary(alloc, *op, first, second)
        }
    }
}

/// A copy of a list.
pub fn copy_list<T: Copy>(alloc: Global, items: &[T]) -> Result<Seq<T>, AllocError>
    ensures { IfOk result (λ copy. copy ≡ items.now) }
{
    Ok(Seq::from_vec(Vec::from_slice(alloc, items)?))
}

/// One list after another.
pub fn both_lists<T: Copy>(alloc: Global, first: &[T], second: &[T]) -> Result<Seq<T>, AllocError>
    ensures { IfOk result (λ both. both ≡ first.now ++ second.now) }
{
    let mut both = Vec::from_slice(alloc, first)?;
    both.extend_from_slice(second)?;
    Ok(Seq::from_vec(both))
}
