//! Expressions. An argument of each function says how many brackets may still be opened.

ghost use Rattle.std.specs.Prelude.{◌≡◌, ℕ, [], ◌∷◌, ◌^◌, ◌-◌, IfOk};
ghost use Rattle.query_grammar.specs.{Grammar.{negated as negated_by}, Kinds.{among, is, sign}, Language.Node};
ghost use Rattle.query_grammar.specs.{Parser.{Limited, word, next_is, repeated}, Reading.{atom as atom_of, atom_starts, expr_starts}};
ghost use Rattle.query_grammar.specs.Reading.{unary as unary_of, expr_at, separated, listed_by, call_of, after};
ghost use Rattle.query_lang.specs.declared.query.Expr.TheVariants as exprs;
ghost use Rattle.query_lang.specs.declared.token.Mark.TheVariants as marks;
ghost use Rattle.query_parser.specs.Reads.{Gives, Sees, operands_of, operation_of, level_of, comparison_of, bracket_at, arguments_at};
ghost use Rattle.query_parser.specs.Reads.{primary_at};

use crate::halt::{Read, read};
use crate::operators::{Level, at_function, at_operator, function, operator};
use crate::reader::{Reader, Role};
use crate::word::{at_mark, at_number, at_word, is_name, is_number, is_word};
use marple_base::{Boxed, Seq};
use query_lang::{Expr, Mark, Op, Span, Token, Word};
use std::alloc::{AllocError, Global};

/// An operator on two expressions.
fn binary(alloc: Global, op: (Op, Span), left: Expr, right: Expr) -> Result<Expr, AllocError>
    ensures { IfOk result (λ e. e ≡ exprs.Binary op.0 op.1 left right) }
{
    let (op, span) = op;
    Ok(Expr::Binary(
        op,
        span,
        Boxed::new(alloc, left)?,
        Boxed::new(alloc, right)?,
    ))
}

/// An expression after a `!`.
fn not(alloc: Global, span: Span, inner: Expr) -> Result<Expr, AllocError>
    ensures { IfOk result (λ e. e ≡ exprs.Not span inner) }
{
    Ok(Expr::Not(span, Boxed::new(alloc, inner)?))
}

/// The expression after these `!`, the first of which is the outermost.
fn negated(alloc: Global, bangs: Seq<Span>, inner: Expr) -> Result<Expr, AllocError>
    ensures { IfOk result (λ e. e ≡ negated_by bangs inner) }
{
    let mut bangs = bangs.into_vec();
    let mut inner = inner;
    'bangs: while let Some(span) = bangs.pop() {
        inner = not(alloc, span, inner)?;
    }
    Ok(inner)
}

/// Any number of `!`.
fn bangs(reader: &mut Reader<'_>) -> Read<Seq<Span>>
    ensures { Gives result reader.old reader.new (repeated (among (51 ∷ [])) (word Limited Node (is (sign marks.Bang)))) }
{
    let mut found = Seq::new(reader.alloc);
    'bangs: for _ in 0..reader.rest.len() {
        if !at_mark(Mark::Bang, reader.rest) {
            break;
        }
        let span = read!(reader.sign(Role::Node, Mark::Bang));
        found.push(span)?;
    }
    Ok(found)
}

/// Whether a number, `infinity` or a name comes next.
fn at_atom(rest: &[Token]) -> bool
    ensures { result ≡ next_is (among atom_starts) rest.now }
{
    match rest {
        [first, ..] => {
            is_number(first.kind) || is_word(first.kind, Word::Infinity) || is_name(first.kind)
        }
        [] => false,
    }
}

/// Whether an expression may come next.
fn at_expression(rest: &[Token]) -> bool
    ensures { result ≡ next_is (among expr_starts) rest.now }
{
    at_mark(Mark::Bang, rest)
        || at_atom(rest)
        || at_mark(Mark::OpenParen, rest)
        || at_function(rest)
}

/// A number, `infinity` or a name.
fn atom(reader: &mut Reader<'_>) -> Read<Expr>
    ensures { Sees result reader.old reader.new (atom_of Limited) }
{
    if at_number(reader.rest) {
        let (value, span) = read!(reader.number(Role::Node));
        return Ok(Expr::Number(value, span));
    }
    if at_word(Word::Infinity, reader.rest) {
        let span = read!(reader.keyword(Role::Node, Word::Infinity));
        return Ok(Expr::Number(u64::MAX, span));
    }
    let name = read!(reader.name(Role::Node));
    Ok(Expr::Named(name))
}

/// An expression in its bracket.
#[cycle(expr)]
#[tactic(auto, using(crate::proofs::Levels::bracket_more))]
pub fn bracketed(reader: &mut Reader<'_>, brackets: u32) -> Read<Expr>
    ensures { Gives result reader.old reader.new (bracket_at brackets) }
{
    if brackets == 0 {
        return reader.no_bracket(Mark::OpenParen);
    }
    read!(reader.mark(Mark::OpenParen));
    let inner = read!(expression(reader, brackets - 1));
    reader.closed(inner, Mark::CloseParen)
}

/// A comma, and an expression after it.
#[cycle(expr)]
fn next_expression(reader: &mut Reader<'_>, brackets: u32) -> Read<Expr>
    ensures { Gives result reader.old reader.new (after Limited (sign marks.Comma) (expr_at Limited brackets)) }
{
    read!(reader.mark(Mark::Comma));
    expression(reader, brackets)
}

/// Expressions with commas between them.
#[cycle(expr)]
fn expressions(reader: &mut Reader<'_>, brackets: u32) -> Read<Seq<Expr>>
    ensures { Gives result reader.old reader.new (separated Limited (expr_at Limited brackets)) }
{
    let mut found = Seq::new(reader.alloc);
    let first = read!(expression(reader, brackets));
    found.push(first)?;
    'expressions: for _ in 0..reader.rest.len() {
        if !at_mark(Mark::Comma, reader.rest) {
            break;
        }
        let next = read!(next_expression(reader, brackets));
        found.push(next)?;
    }
    Ok(found)
}

/// No expressions, or some with commas between them.
#[cycle(expr)]
fn listed(reader: &mut Reader<'_>, brackets: u32) -> Read<Seq<Expr>>
    ensures { Gives result reader.old reader.new (listed_by Limited expr_starts (expr_at Limited brackets)) }
{
    if !at_expression(reader.rest) {
        return Ok(Seq::new(reader.alloc));
    }
    expressions(reader, brackets)
}

/// The arguments of a call, in their bracket.
#[cycle(expr)]
#[tactic(auto, using(crate::proofs::Levels::arguments_more))]
fn arguments(reader: &mut Reader<'_>, brackets: u32) -> Read<Seq<Expr>>
    ensures { Gives result reader.old reader.new (arguments_at brackets) }
{
    if brackets == 0 {
        return reader.no_bracket(Mark::OpenParen);
    }
    read!(reader.mark(Mark::OpenParen));
    let found = read!(listed(reader, brackets - 1));
    reader.closed(found, Mark::CloseParen)
}

/// A function, and its arguments.
#[cycle(expr)]
fn call(reader: &mut Reader<'_>, brackets: u32) -> Read<Expr>
    ensures { Gives result reader.old reader.new (call_of Limited (arguments_at brackets)) }
{
    let (op, span) = read!(function(reader));
    let arguments = read!(arguments(reader, brackets));
    Ok(Expr::Call(op, span, arguments))
}

/// A number, a name, an expression in brackets or a call.
#[cycle(expr)]
fn primary(reader: &mut Reader<'_>, brackets: u32) -> Read<Expr>
    ensures { Gives result reader.old reader.new (primary_at brackets) }
{
    if at_atom(reader.rest) {
        return atom(reader);
    }
    if at_mark(Mark::OpenParen, reader.rest) {
        return bracketed(reader, brackets);
    }
    call(reader, brackets)
}

/// A primary, with any number of `!` before it.
#[cycle(expr)]
fn unary(reader: &mut Reader<'_>, brackets: u32) -> Read<Expr>
    ensures { Gives result reader.old reader.new (unary_of Limited (primary_at brackets)) }
{
    let bangs = read!(bangs(reader));
    let inner = read!(primary(reader, brackets));
    Ok(negated(reader.alloc, bangs, inner)?)
}

/// An operand of this level.
#[cycle(expr)]
#[tactic(auto, unfolding(crate::specs::Reads::operands_of))]
fn operand(reader: &mut Reader<'_>, of: Level, brackets: u32) -> Read<Expr>
    ensures { Gives result reader.old reader.new (operands_of of (primary_at brackets)) }
{
    match of {
        Level::Product => unary(reader, brackets),
        Level::Sum => level(reader, Level::Product, brackets),
        Level::Shift => level(reader, Level::Sum, brackets),
        Level::And => level(reader, Level::Shift, brackets),
        Level::Xor => level(reader, Level::And, brackets),
        Level::Or => level(reader, Level::Xor, brackets),
        Level::Comparison => level(reader, Level::Or, brackets),
        Level::Both => comparison(reader, brackets),
        Level::Either => level(reader, Level::Both, brackets),
    }
}

/// An operator of this level, and the operand after it.
#[cycle(expr)]
fn operation(reader: &mut Reader<'_>, of: Level, brackets: u32) -> Read<((Op, Span), Expr)>
    ensures { Gives result reader.old reader.new (operation_of of (primary_at brackets)) }
{
    let op = read!(operator(reader, of));
    let right = read!(operand(reader, of, brackets));
    Ok((op, right))
}

/// Operands with operators of this level between them, which group from the left. Comparisons are not read this way.
#[cycle(expr)]
fn level(reader: &mut Reader<'_>, of: Level, brackets: u32) -> Read<Expr>
    ensures { Gives result reader.old reader.new (level_of of (primary_at brackets)) }
{
    let mut left = read!(operand(reader, of, brackets));
    'operations: for _ in 0..reader.rest.len() {
        if !at_operator(of, reader.rest) {
            break;
        }
        let (op, right) = read!(operation(reader, of, brackets));
        left = binary(reader.alloc, op, left, right)?;
    }
    Ok(left)
}

/// At most one comparison.
#[cycle(expr)]
fn comparison(reader: &mut Reader<'_>, brackets: u32) -> Read<Expr>
    ensures { Gives result reader.old reader.new (comparison_of (primary_at brackets)) }
{
    let left = read!(operand(reader, Level::Comparison, brackets));
    if !at_operator(Level::Comparison, reader.rest) {
        return Ok(left);
    }
    let (op, right) = read!(operation(reader, Level::Comparison, brackets));
    Ok(binary(reader.alloc, op, left, right)?)
}

/// An expression.
#[cycle(expr)]
#[tactic(auto, using(crate::proofs::Levels::expr_is))]
pub fn expression(reader: &mut Reader<'_>, brackets: u32) -> Read<Expr>
    ensures { Gives result reader.old reader.new (expr_at Limited brackets) }
{
    level(reader, Level::Either, brackets)
}
