//! The statements of a fold.

ghost use Rattle.std.specs.Prelude.{◌≡◌, ◌<◌, ◌≤◌, ◌^◌, ◌∷◌, ◌++◌, [], Ok, Some, IfOk, OnOk, length, map};
ghost use Rattle.query_lang.specs.{TypedExprs.{condition_of, word_of}, TypedFolds.{target_of, state_in, joined, inside, in_order}};
ghost use Rattle.query_lang.specs.{TypedFolds.{emit_condition, emitted, stmt_checked, body_checked}, Answers.Answers};
ghost use Rattle.query_lang.specs.declared.query.Stmt.{If};
ghost use Rattle.query_types.specs.{Answers.Leaves, Bodies.{IsScope, choice_of, assigned}};
ghost use Rattle.query_types.specs.Numbers.{greatest_of, greatest_number, greatest_in};

use crate::answer::{fault, refused};
use crate::copies::{both_lists, copy_expr};
use crate::exprs::{check_condition, check_word, find_place, has_name, typed_binary};
use marple_base::{Boxed, Seq};
use query_lang::typing::{Body, Enclosing};
use query_lang::{
    Expr, FaultKind, MAX_ARGS, MAX_STATES, Name, Op, QueryError, QueryFault, Span, Stmt, TypedExpr,
    TypedStmt,
};
use std::alloc::{AllocError, Global};
use std::mem;

/// The names of a fold: its state variables, its arguments, and the columns of its expressions, which are both.
#[derive(Clone, Copy)]
pub struct Scope<'a> {
    pub states: &'a [u32],
    pub args: &'a [u32],
    pub columns: &'a [u32],
}

// The state variable that an assignment gives a value.
fn find_target(scope: Scope<'_>, name: Name) -> Result<u16, QueryFault>
    requires { IsScope scope }
    ensures { result ≡ target_of scope.entry.states.now scope.entry.args.now name }
{
    match find_place(scope.states, name.id) {
        Some(at) => Ok(at as u16),
        None if has_name(scope.args, name.id) => Err(fault(FaultKind::WrongKind, name.span)),
        None => Err(fault(FaultKind::UnknownName, name.span)),
    }
}

// Where the first state variable of an expression is.
fn find_state(states: &[u32], e: &Expr) -> Option<Span>
    ensures { result ≡ state_in states.now e.now }
{
    match e {
        Expr::Number(_, _) => None,
        Expr::Named(name) => has_name(states, name.id).then_some(name.span),
        Expr::Not(_, inner) => find_state(states, inner.get()),
        Expr::Binary(_, _, left, right) => {
            let first = find_state(states, left.get());
            first.or(find_state(states, right.get()))
        }
        Expr::Call(_, _, arguments) => {
            'arguments: for argument in arguments.as_slice() {
                if let Some(at) = find_state(states, argument) {
                    return Some(at);
                }
            }
            None
        }
    }
}

// An expression over a fold's columns that has to be a word.
fn fold_word(alloc: Global, scope: Scope<'_>, e: &Expr) -> Result<TypedExpr, QueryError>
    requires { IsScope scope }
    ensures given { Answers result (word_of (scope.entry.states.now ++ scope.entry.args.now) [] e.now) }
    ensures numbers { IfOk result (λ _. greatest_number e.now < 2 ^ 64) }
{
    check_word(alloc, scope.columns, &[], e)
}

// An expression over a fold's columns that has to be a condition.
fn fold_condition(alloc: Global, scope: Scope<'_>, e: &Expr) -> Result<TypedExpr, QueryError>
    requires { IsScope scope }
    ensures given { Answers result (condition_of (scope.entry.states.now ++ scope.entry.args.now) [] e.now) }
    ensures numbers { IfOk result (λ _. greatest_number e.now < 2 ^ 64) }
{
    check_condition(alloc, scope.columns, &[], e)
}

// The conditions that enclose a statement, and one more.
fn join_conditions(
    alloc: Global,
    outer: &Option<TypedExpr>,
    condition: TypedExpr,
) -> Result<TypedExpr, AllocError>
    ensures { IfOk result (λ whole. whole ≡ joined outer.now condition) }
{
    match outer {
        None => Ok(condition),
        Some(around) => {
            let first = copy_expr(alloc, around)?;
            typed_binary(alloc, Op::Both, first, condition)
        }
    }
}

// What encloses the statements under one more condition.
fn enclose(
    alloc: Global,
    states: &[u32],
    outer: &Enclosing,
    written: &Expr,
    condition: TypedExpr,
) -> Result<Enclosing, AllocError>
    ensures { IfOk result (λ inner. inner ≡ inside states.now outer.now written.now condition) }
{
    let whole = join_conditions(alloc, &outer.condition, condition)?;
    Ok(Enclosing {
        condition: Some(whole),
        state: outer.state.or(find_state(states, written)),
    })
}

// The condition that holds where this one doesn't.
fn opposite(alloc: Global, condition: &TypedExpr) -> Result<TypedExpr, AllocError>
    ensures { IfOk result (λ e. e ≡ TypedExpr.Not condition.now) }
{
    let copy = copy_expr(alloc, condition)?;
    Ok(TypedExpr::Not(Boxed::new(alloc, copy)?))
}

// The condition of an `emit` from those that enclose it.
fn emit_under(alloc: Global, outer: &Option<TypedExpr>) -> Result<TypedExpr, AllocError>
    ensures { IfOk result (λ e. e ≡ emit_condition outer.now) }
{
    match outer {
        None => Ok(TypedExpr::Number(1)),
        Some(condition) => copy_expr(alloc, condition),
    }
}

/// A choice between two blocks: its condition, and what encloses the statements of each block.
#[derive(Drop)]
pub struct Choice {
    pub condition: TypedExpr,
    pub holding: Enclosing,
    pub failing: Enclosing,
}

// A choice by this condition, with what encloses the statements of each block.
fn choice_by(
    alloc: Global,
    states: &[u32],
    outer: &Enclosing,
    written: &Expr,
    condition: TypedExpr,
) -> Result<Choice, AllocError>
    ensures { IfOk result (λ choice. choice ≡ record {
      condition = condition;
      holding = inside states.now outer.now written.now condition;
      failing = inside states.now outer.now written.now (TypedExpr.Not condition);
    }) }
{
    let copy = copy_expr(alloc, &condition)?;
    let holding = enclose(alloc, states, outer, written, copy)?;
    let opposite = opposite(alloc, &condition)?;
    let failing = enclose(alloc, states, outer, written, opposite)?;
    Ok(Choice {
        condition,
        holding,
        failing,
    })
}

// The choice with this condition.
fn open_choice(
    alloc: Global,
    scope: Scope<'_>,
    outer: &Enclosing,
    written: &Expr,
) -> Result<Boxed<Choice>, QueryError>
    requires { IsScope scope }
    ensures given { Answers result (choice_of scope.entry.states.now scope.entry.args.now outer.now written.now) }
    ensures numbers { IfOk result (λ _. greatest_number written.now < 2 ^ 64) }
{
    let condition = fold_condition(alloc, scope, written)?;
    let choice = choice_by(alloc, scope.states, outer, written, condition)?;
    Ok(Boxed::new(alloc, choice)?)
}

// Takes the statements so far, and leaves none: those of a block inside follow.
fn take_statements(alloc: Global, found: &mut Body) -> Seq<TypedStmt>
    ensures statements { result ≡ found.old.statements }
    ensures block { found.new ≡ record { statements = []; emit = found.old.emit } }
{
    mem::replace(&mut found.statements, Seq::new(alloc))
}

// A choice after the statements before it, where the second block is found.
fn close_choice(
    found: &mut Body,
    choice: Boxed<Choice>,
    before: Seq<TypedStmt>,
    then_block: Seq<TypedStmt>,
) -> Result<(), QueryError>
    ensures { Leaves result found.new
        (Ok (record {
          statements = before ++ TypedStmt.If choice.condition then_block found.old.statements ∷ [];
          emit = found.old.emit;
        })) }
{
    let else_block = mem::replace(&mut found.statements, before);
    let Choice {
        condition,
        holding: _,
        failing: _,
    } = choice.into_inner();
    found
        .statements
        .push(TypedStmt::If(condition, then_block, else_block))?;
    Ok(())
}

// The fold's one `emit`.
fn add_emit(
    alloc: Global,
    span: Span,
    outer: &Enclosing,
    found: &mut Body,
) -> Result<(), QueryError>
    ensures { Leaves result found.new (emitted span outer.now found.old) }
{
    if found.emit.is_some() {
        return Err(refused(FaultKind::WrongArity, span));
    }
    if let Some(state) = outer.state {
        return Err(refused(FaultKind::StateOnLine, state));
    }
    let condition = emit_under(alloc, &outer.condition)?;
    found.emit = Some(condition);
    Ok(())
}

// One more assignment.
fn add_assignment(
    alloc: Global,
    scope: Scope<'_>,
    found: &mut Body,
    name: Name,
    e: &Expr,
) -> Result<(), QueryError>
    requires { IsScope scope }
    ensures given { Leaves result found.new (assigned scope.entry.states.now scope.entry.args.now name e.now found.old) }
    ensures numbers { OnOk result (greatest_number e.now < 2 ^ 64) }
{
    let v = find_target(scope, name)?;
    let value = fold_word(alloc, scope, e)?;
    found.statements.push(TypedStmt::Assign(v, value))?;
    Ok(())
}

// One statement after those before it in its block, under the conditions that enclose it.
#[cycle(statements)]
fn check_stmt(
    alloc: Global,
    scope: Scope<'_>,
    outer: &Enclosing,
    found: &mut Body,
    s: &Stmt,
) -> Result<(), QueryError>
    requires { IsScope scope }
    ensures given { Leaves result found.new (stmt_checked scope.entry.states.now scope.entry.args.now s.now outer.now found.old) }
    ensures numbers { OnOk result (greatest_in s.now < 2 ^ 64) }
{
    match s {
        Stmt::Assign(name, e) => add_assignment(alloc, scope, found, *name, e),
        Stmt::If(c, a, b) => {
            check_choice(alloc, scope, outer, found, c, a.as_slice(), b.as_slice())
        }
        Stmt::Emit(span) => add_emit(alloc, *span, outer, found),
    }
}

// A choice: its condition, the statements where it holds, and then those where it doesn't.
#[cycle(statements)]
fn check_choice(
    alloc: Global,
    scope: Scope<'_>,
    outer: &Enclosing,
    found: &mut Body,
    condition: &Expr,
    holding: &[Stmt],
    failing: &[Stmt],
) -> Result<(), QueryError>
    requires { IsScope scope }
    ensures given { Leaves result found.new (stmt_checked scope.entry.states.now scope.entry.args.now
        (If condition.now holding.now failing.now) outer.now found.old) }
    ensures numbers { OnOk result (greatest_in (If condition.now holding.now failing.now) < 2 ^ 64) }
{
    let choice = open_choice(alloc, scope, outer, condition)?;
    let before = take_statements(alloc, found);
    check_all(alloc, scope, &choice.get().holding, found, holding)?;
    let then_block = take_statements(alloc, found);
    check_all(alloc, scope, &choice.get().failing, found, failing)?;
    close_choice(found, choice, before, then_block)
}

// The statements of a block after those before them.
#[cycle(statements)]
fn check_all(
    alloc: Global,
    scope: Scope<'_>,
    outer: &Enclosing,
    found: &mut Body,
    body: &[Stmt],
) -> Result<(), QueryError>
    requires { IsScope scope }
    ensures given { Leaves result found.new
        (in_order (map (stmt_checked scope.entry.states.now scope.entry.args.now) body.now) outer.now found.old) }
    ensures numbers { OnOk result (greatest_of (map greatest_in body.now) < 2 ^ 64) }
{
    for one in body {
        check_stmt(alloc, scope, outer, found, one)?;
    }
    Ok(())
}

// The statements of a fold in its scope, with no condition around them.
fn check_within(alloc: Global, scope: Scope<'_>, body: &[Stmt]) -> Result<Body, QueryError>
    requires { IsScope scope }
    ensures given { Answers result (body_checked scope.entry.states.now scope.entry.args.now body.now) }
    ensures numbers { IfOk result (λ _. greatest_of (map greatest_in body.now) < 2 ^ 64) }
{
    let outer = Enclosing {
        condition: None,
        state: None,
    };
    let mut found = Body {
        statements: Seq::new(alloc),
        emit: None,
    };
    check_all(alloc, scope, &outer, &mut found, body)?;
    Ok(found)
}

/// The statements of a fold with these state variables and arguments.
#[tactic(auto, using(crate::proofs::ScopeLaws::scope_is))]
pub fn check_body(
    alloc: Global,
    states: &[u32],
    args: &[u32],
    body: &[Stmt],
) -> Result<Body, QueryError>
    requires states { length states.now ≤ MAX_STATES }
    requires args { length args.now ≤ MAX_ARGS }
    ensures given { Answers result (body_checked states.now args.now body.now) }
    ensures numbers { IfOk result (λ _. greatest_of (map greatest_in body.now) < 2 ^ 64) }
{
    let columns = both_lists(alloc, states, args)?;
    let scope = Scope {
        states,
        args,
        columns: columns.as_slice(),
    };
    check_within(alloc, scope, body)
}
