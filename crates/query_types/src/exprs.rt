//! Expressions over columns.

ghost use Rattle.std.specs.{Prelude.{◌≡◌, ◌<◌, ◌^◌, ◌∷◌, [], IfOk, IfSome, length, map}, List.list_any};
ghost use Rattle.query_lang.specs.{Checks.{and_then, collected, is_among, place_of}, TypedExprs.{slot_of, is_condition_sort, is_operand}};
ghost use Rattle.query_lang.specs.TypedExprs.{is_right_constant, sort_of, of_two, call_of, negation_checked, expr_checked, condition_of};
ghost use Rattle.query_lang.specs.{TypedExprs.word_of, Answers.Answers};
ghost use Rattle.query_types.specs.{Fitting.IsNarrow, Numbers.{greatest_of, greatest_number}};

use crate::answer::{fault, refused};
use marple_base::{Boxed, Seq};
use query_lang::typing::{Found, Sort};
use query_lang::{Expr, FaultKind, Name, Op, QueryError, QueryFault, Span, TypedExpr};
use std::alloc::{AllocError, Global};

/// Is the name among these?
pub fn has_name(names: &[u32], id: u32) -> bool
    ensures { result ≡ is_among id names.now }
{
    names.contains(&id)
}

/// Is one of the names among the others?
pub fn has_common(names: &[u32], others: &[u32]) -> bool
    ensures { result ≡ list_any (λ name. is_among name others.now) names.now }
{
    for name in names {
        if has_name(others, *name) {
            return true;
        }
    }
    false
}

/// The name's place among these.
pub fn find_place(names: &[u32], id: u32) -> Option<usize>
    ensures place { result ≡ place_of names.now id }
    ensures within { IfSome result (λ at. at < length names.now) }
{
    for (at, name) in names.iter().enumerate() {
        if *name == id {
            return Some(at);
        }
    }
    None
}

/// The slot of a column.
pub fn find_slot(columns: &[u32], hidden: &[u32], name: Name) -> Result<u16, QueryFault>
    requires { IsNarrow columns.now }
    ensures { result ≡ slot_of columns.now hidden.now name }
{
    match find_place(columns, name.id) {
        Some(at) => Ok(at as u16),
        None if has_name(hidden, name.id) => Err(fault(FaultKind::StateOnLine, name.span)),
        None => Err(fault(FaultKind::UnknownName, name.span)),
    }
}

fn is_condition(sort: Sort) -> bool
    ensures { result ≡ is_condition_sort sort }
{
    matches!(sort, Sort::Condition)
}

// Is this allowed beside the operator?
fn fits(op: Op, sort: Sort) -> bool
    ensures { result ≡ is_operand op sort }
{
    match op {
        Op::Both | Op::Either => is_condition(sort),
        _ => !is_condition(sort),
    }
}

// Is this allowed to the right of the operator, where it fits?
fn fits_right(op: Op, sort: Sort) -> bool
    ensures { result ≡ is_right_constant op sort }
{
    match op {
        Op::Div | Op::Rem => matches!(sort, Sort::Number(n) if 0 < n),
        Op::Shl | Op::Shr | Op::Decay => matches!(sort, Sort::Number(n) if n < 64),
        _ => true,
    }
}

fn sort_made(op: Op) -> Sort
    ensures { result ≡ sort_of op }
{
    match op {
        Op::Eq | Op::Ne | Op::Lt | Op::Le | Op::Gt | Op::Ge | Op::Both | Op::Either => {
            Sort::Condition
        }
        _ => Sort::Word,
    }
}

/// An operator between two expressions.
pub fn typed_binary(
    alloc: Global,
    op: Op,
    left: TypedExpr,
    right: TypedExpr,
) -> Result<TypedExpr, AllocError>
    ensures { IfOk result (λ e. e ≡ TypedExpr.Binary op left right) }
{
    Ok(TypedExpr::Binary(op, Boxed::new(alloc, left)?, Boxed::new(alloc, right)?))
}

// An operator or function between two operands.
fn join(alloc: Global, op: Op, at: Span, left: Found, right: Found) -> Result<Found, QueryError>
    ensures { Answers result (of_two op at left right) }
{
    if !fits(op, left.sort) {
        return Err(refused(FaultKind::WrongKind, left.at));
    }
    if !fits(op, right.sort) {
        return Err(refused(FaultKind::WrongKind, right.at));
    }
    if !fits_right(op, right.sort) {
        return Err(refused(FaultKind::BadConstant, right.at));
    }
    let tree = typed_binary(alloc, op, left.tree, right.tree)?;
    Ok(Found {
        tree,
        sort: sort_made(op),
        at,
    })
}

// A function of its operands.
fn call(alloc: Global, op: Op, span: Span, operands: Seq<Found>) -> Result<Found, QueryError>
    ensures { Answers result (call_of op span operands) }
{
    let mut items = operands.into_vec();
    if items.len() == 2 {
        if let Some(second) = items.pop() {
            if let Some(first) = items.pop() {
                return join(alloc, op, span, first, second);
            }
        }
    }
    Err(refused(FaultKind::WrongArity, span))
}

// `!` before an expression.
fn negate(alloc: Global, span: Span, inner: Found) -> Result<Found, QueryError>
    ensures { Answers result (negation_checked span inner) }
{
    if !is_condition(inner.sort) {
        return Err(refused(FaultKind::WrongKind, inner.at));
    }
    Ok(Found {
        tree: TypedExpr::Not(Boxed::new(alloc, inner.tree)?),
        sort: Sort::Condition,
        at: span,
    })
}

/// The typed expression over these columns, or its first fault: the operands first, from left to right, and then the node. The
/// hidden states are the names that are not read while packets pass.
#[cycle(expression)]
pub fn check_expr(
    alloc: Global,
    columns: &[u32],
    hidden: &[u32],
    e: &Expr,
) -> Result<Found, QueryError>
    requires { IsNarrow columns.now }
    ensures given { Answers result (expr_checked columns.now hidden.now e.now) }
    ensures numbers { IfOk result (λ _. greatest_number e.now < 2 ^ 64) }
{
    match e {
        Expr::Number(n, span) => Ok(Found {
            tree: TypedExpr::Number(*n),
            sort: Sort::Number(*n),
            at: *span,
        }),
        Expr::Named(name) => {
            let slot = find_slot(columns, hidden, *name)?;
            Ok(Found {
                tree: TypedExpr::Slot(slot),
                sort: Sort::Word,
                at: name.span,
            })
        }
        Expr::Not(span, inner) => {
            let of = check_expr(alloc, columns, hidden, inner.get())?;
            negate(alloc, *span, of)
        }
        Expr::Binary(op, _, left, right) => {
            check_operation(alloc, columns, hidden, *op, left.get(), right.get())
        }
        Expr::Call(op, span, arguments) => {
            let operands = check_operands(alloc, columns, hidden, arguments.as_slice())?;
            call(alloc, *op, *span, operands)
        }
    }
}

// An operator between two expressions, of which the left one is checked first.
#[cycle(expression)]
fn check_operation(
    alloc: Global,
    columns: &[u32],
    hidden: &[u32],
    op: Op,
    left: &Expr,
    right: &Expr,
) -> Result<Found, QueryError>
    requires { IsNarrow columns.now }
    ensures given { Answers result (and_then (expr_checked columns.now hidden.now left.now) (λ x.
        and_then (expr_checked columns.now hidden.now right.now) (λ y. of_two op x.at x y))) }
    ensures numbers { IfOk result (λ _. (greatest_number left.now < 2 ^ 64) × (greatest_number right.now < 2 ^ 64)) }
{
    let first = check_expr(alloc, columns, hidden, left)?;
    let second = check_expr(alloc, columns, hidden, right)?;
    let at = first.at;
    join(alloc, op, at, first, second)
}

// The operands of a function, in order.
#[cycle(expression)]
fn check_operands(
    alloc: Global,
    columns: &[u32],
    hidden: &[u32],
    arguments: &[Expr],
) -> Result<Seq<Found>, QueryError>
    requires { IsNarrow columns.now }
    ensures given { Answers result (collected [] (map (expr_checked columns.now hidden.now) arguments.now)) }
    ensures numbers { IfOk result (λ _. greatest_of (map greatest_number arguments.now) < 2 ^ 64) }
{
    let mut operands = Seq::new(alloc);
    for argument in arguments {
        let operand = check_expr(alloc, columns, hidden, argument)?;
        operands.push(operand)?;
    }
    Ok(operands)
}

/// The same of an expression that has to be a condition.
pub fn check_condition(
    alloc: Global,
    columns: &[u32],
    hidden: &[u32],
    e: &Expr,
) -> Result<TypedExpr, QueryError>
    requires { IsNarrow columns.now }
    ensures given { Answers result (condition_of columns.now hidden.now e.now) }
    ensures numbers { IfOk result (λ _. greatest_number e.now < 2 ^ 64) }
{
    let found = check_expr(alloc, columns, hidden, e)?;
    if !is_condition(found.sort) {
        return Err(refused(FaultKind::WrongKind, found.at));
    }
    Ok(found.tree)
}

/// The same of an expression that has to be a word.
pub fn check_word(
    alloc: Global,
    columns: &[u32],
    hidden: &[u32],
    e: &Expr,
) -> Result<TypedExpr, QueryError>
    requires { IsNarrow columns.now }
    ensures given { Answers result (word_of columns.now hidden.now e.now) }
    ensures numbers { IfOk result (λ _. greatest_number e.now < 2 ^ 64) }
{
    let found = check_expr(alloc, columns, hidden, e)?;
    if is_condition(found.sort) {
        return Err(refused(FaultKind::WrongKind, found.at));
    }
    Ok(found.tree)
}
