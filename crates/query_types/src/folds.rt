//! Folds.

ghost use Rattle.std.specs.Prelude.{◌≡◌, ◌+◌, ◌<◌, ◌^◌, ◌≤◌, [], Ok, IfOk, length, map, sum_by};
ghost use Rattle.query_lang.specs.TypedFolds.{states_from, args_from, expr_nodes, stmt_nodes, stmt_count, fold_nodes, fold_with};
ghost use Rattle.query_lang.specs.{TypedFolds.{fold_statements, fold_checked}, Folds.IsValidFold, Answers.Answers};
ghost use Rattle.query_types.specs.Numbers.{greatest_of, greatest_in};

use crate::answer::refused;
use crate::bodies::check_body;
use crate::exprs::has_name;
use marple_base::Seq;
use query_lang::typing::Body;
use query_lang::{
    Expr, FaultKind, FoldDef, Limit, MAX_ARGS, MAX_NODES, MAX_STATEMENTS, MAX_STATES, Name,
    QueryError, StateVar, Stmt, TypedFold,
};
use std::alloc::{AllocError, Global};

// The state variables: each is new.
fn check_states(alloc: Global, states: &[StateVar]) -> Result<Seq<u32>, QueryError>
    ensures given { Answers result (states_from [] states.now) }
    ensures most { IfOk result (λ found. length found ≤ MAX_STATES) }
{
    let mut found = Seq::new(alloc);
    for state in states {
        let name = state.name;
        if has_name(found.as_slice(), name.id) {
            return Err(refused(FaultKind::NameTaken, name.span));
        }
        if found.len() >= MAX_STATES {
            return Err(refused(FaultKind::OverLimit(Limit::States), name.span));
        }
        found.push(name.id)?;
    }
    Ok(found)
}

// The arguments: each is no state variable and new.
fn check_args(alloc: Global, states: &[u32], args: &[Name]) -> Result<Seq<u32>, QueryError>
    ensures given { Answers result (args_from states.now [] args.now) }
    ensures most { IfOk result (λ found. length found ≤ MAX_ARGS) }
{
    let mut found = Seq::new(alloc);
    for arg in args {
        if has_name(states, arg.id) || has_name(found.as_slice(), arg.id) {
            return Err(refused(FaultKind::NameTaken, arg.span));
        }
        if found.len() >= MAX_ARGS {
            return Err(refused(FaultKind::OverLimit(Limit::Args), arg.span));
        }
        found.push(arg.id)?;
    }
    Ok(found)
}

/// How many nodes an expression has.
pub fn count_nodes(e: &Expr) -> u32
    requires { expr_nodes e.now < 2 ^ 32 }
    ensures { result ≡ expr_nodes e.now }
{
    match e {
        Expr::Number(_, _) | Expr::Named(_) => 1,
        Expr::Not(_, inner) => 1 + count_nodes(inner.get()),
        Expr::Binary(_, _, left, right) => 1 + count_nodes(left.get()) + count_nodes(right.get()),
        Expr::Call(_, _, arguments) => {
            let mut all = 1;
            'arguments: for argument in arguments.as_slice() {
                all += count_nodes(argument);
            }
            all
        }
    }
}

// How many nodes and statements a statement or a block has, with the statements inside.
#[derive(Clone, Copy)]
struct Counts {
    nodes: u32,
    statements: u32,
}

#[cycle(counts)]
fn count_statement(s: &Stmt) -> Counts
    requires nodes { stmt_nodes s.now < 2 ^ 32 }
    requires statements { stmt_count s.now < 2 ^ 32 }
    ensures nodes { result.nodes ≡ stmt_nodes s.now }
    ensures statements { result.statements ≡ stmt_count s.now }
{
    match s {
        Stmt::Assign(_, e) => Counts {
            nodes: count_nodes(e),
            statements: 1,
        },
        Stmt::If(c, a, b) => {
            let first = count_block(a.as_slice());
            let second = count_block(b.as_slice());
            Counts {
                nodes: count_nodes(c) + first.nodes + second.nodes,
                statements: 1 + first.statements + second.statements,
            }
        }
        Stmt::Emit(_) => Counts {
            nodes: 0,
            statements: 1,
        },
    }
}

#[cycle(counts)]
fn count_block(body: &[Stmt]) -> Counts
    requires nodes { sum_by stmt_nodes body.now < 2 ^ 32 }
    requires statements { sum_by stmt_count body.now < 2 ^ 32 }
    ensures nodes { result.nodes ≡ sum_by stmt_nodes body.now }
    ensures statements { result.statements ≡ sum_by stmt_count body.now }
{
    let mut nodes = 0;
    let mut statements = 0;
    for one in body {
        let counts = count_statement(one);
        nodes += counts.nodes;
        statements += counts.statements;
    }
    Counts { nodes, statements }
}

// The values that state variables begin with.
fn initial_values(alloc: Global, states: &[StateVar]) -> Result<Seq<u64>, AllocError>
    ensures { IfOk result (λ values. values ≡ map (λ state. state.initial) states.now) }
{
    let mut values = Seq::new(alloc);
    for state in states {
        values.push(state.initial)?;
    }
    Ok(values)
}

// The fold of its parts.
fn fold_of(
    alloc: Global,
    d: &FoldDef,
    state_names: Seq<u32>,
    arg_names: Seq<u32>,
    found: Body,
) -> Result<TypedFold, QueryError>
    requires nodes { fold_nodes d.now ≤ MAX_NODES }
    requires statements { fold_statements d.now ≤ MAX_STATEMENTS }
    ensures { Answers result (Ok (fold_with d.now state_names arg_names found)) }
{
    let initial = initial_values(alloc, d.states.as_slice())?;
    let Counts { nodes, statements } = count_block(d.body.as_slice());
    let Body {
        statements: body,
        emit,
    } = found;
    Ok(TypedFold {
        name: d.name,
        state_names,
        initial,
        arg_names,
        body,
        emit,
        nodes,
        statements,
    })
}

// A fold's parts in order.
fn check_parts(alloc: Global, d: &FoldDef) -> Result<TypedFold, QueryError>
    requires nodes { fold_nodes d.now ≤ MAX_NODES }
    requires statements { fold_statements d.now ≤ MAX_STATEMENTS }
    ensures given { Answers result (fold_checked d.now) }
    ensures numbers { IfOk result (λ _. greatest_of (map greatest_in d.now.body) < 2 ^ 64) }
{
    let states = check_states(alloc, d.states.as_slice())?;
    let args = check_args(alloc, states.as_slice(), d.args.as_slice())?;
    let body = check_body(alloc, states.as_slice(), args.as_slice(), d.body.as_slice())?;
    fold_of(alloc, d, states, args, body)
}

/// A fold: its state variables, its arguments, and then its body. A fold of a text that was read has at most
/// `MAX_NODES` nodes and `MAX_STATEMENTS` statements.
pub fn check_fold(alloc: Global, d: &FoldDef) -> Result<TypedFold, QueryError>
    requires nodes { fold_nodes d.now ≤ MAX_NODES }
    requires statements { fold_statements d.now ≤ MAX_STATEMENTS }
    ensures given { Answers result (fold_checked d.now) }
    ensures valid { IfOk result IsValidFold }
    ensures numbers { IfOk result (λ _. greatest_of (map greatest_in d.now.body) < 2 ^ 64) }
{
    match check_parts(alloc, d) {
        Ok(f) => Ok(f),
        Err(answer) => Err(answer),
    }
}
