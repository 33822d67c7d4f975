//! Operators, by how close they bind, and the functions.

ghost use Rattle.std.specs.Prelude.{◌≡◌, map};
ghost use Rattle.query_grammar.specs.Grammar.{Operators, functions};
ghost use Rattle.query_grammar.specs.{Kinds.{among, kinds_of, sign, operator as operator_of}, Language.Node};
ghost use Rattle.query_grammar.specs.Parser.{Limited, word, next_is};
ghost use Rattle.query_parser.specs.Reads.{Sees, next_op, op_among, ops_of};

use crate::halt::{Halt, Read, read};
use crate::reader::{Reader, Role, charged};
use crate::word::{is_mark, is_word};
use query_grammar::Stop;
use query_lang::{Mark, Op, Span, Token, TokenKind, Word};

/// Operators that bind alike, beginning with the closest. Those of one level group from the left, but for comparisons, which
/// don't group.
#[derive(Clone, Copy)]
pub enum Level {
    Product,
    Sum,
    Shift,
    And,
    Xor,
    Or,
    Comparison,
    Both,
    Either,
}

/// The operators of a level, by their marks.
fn signs(level: Level) -> &'static [(Mark, Op)]
    ensures { map (λ one. (sign one.0, one.1)) result.now ≡ ops_of level }
{
    match level {
        Level::Product => &[
            (Mark::Times, Op::Mul),
            (Mark::Slash, Op::Div),
            (Mark::Percent, Op::Rem),
        ],
        Level::Sum => &[(Mark::Plus, Op::Add), (Mark::Minus, Op::Sub)],
        Level::Shift => &[(Mark::ShiftLeft, Op::Shl), (Mark::ShiftRight, Op::Shr)],
        Level::And => &[(Mark::And, Op::And)],
        Level::Xor => &[(Mark::Xor, Op::Xor)],
        Level::Or => &[(Mark::Or, Op::Or)],
        Level::Comparison => &[
            (Mark::Equal, Op::Eq),
            (Mark::NotEqual, Op::Ne),
            (Mark::Less, Op::Lt),
            (Mark::LessOrEqual, Op::Le),
            (Mark::Greater, Op::Gt),
            (Mark::GreaterOrEqual, Op::Ge),
        ],
        Level::Both => &[(Mark::Both, Op::Both)],
        Level::Either => &[(Mark::Either, Op::Either)],
    }
}

/// The operator of this level that the token is.
fn level_op(level: Level, kind: TokenKind) -> Option<Op>
    ensures { result ≡ op_among (ops_of level) kind }
{
    for one in signs(level) {
        if is_mark(kind, one.0) {
            return Some(one.1);
        }
    }
    None
}

/// The function that the token is.
fn function_op(kind: TokenKind) -> Option<Op>
    ensures { result ≡ op_among functions kind }
{
    if is_word(kind, Word::Max) {
        Some(Op::Max)
    } else if is_word(kind, Word::Min) {
        Some(Op::Min)
    } else if is_word(kind, Word::Sadd) {
        Some(Op::Sadd)
    } else if is_word(kind, Word::Decay) {
        Some(Op::Decay)
    } else {
        None
    }
}

/// The operator of this level that comes next.
fn next_operator(level: Level, rest: &[Token]) -> Option<Op>
    ensures { result ≡ next_op (ops_of level) rest.now }
{
    match rest {
        [first, ..] => level_op(level, first.kind),
        [] => None,
    }
}

/// The function that comes next.
fn next_function(rest: &[Token]) -> Option<Op>
    ensures { result ≡ next_op functions rest.now }
{
    match rest {
        [first, ..] => function_op(first.kind),
        [] => None,
    }
}

/// Whether an operator of this level comes next.
pub fn at_operator(level: Level, rest: &[Token]) -> bool
    ensures { result ≡ next_is (among (kinds_of (ops_of level))) rest.now }
{
    next_operator(level, rest).is_some()
}

/// Whether a function comes next.
pub fn at_function(rest: &[Token]) -> bool
    ensures { result ≡ next_is (among (kinds_of functions)) rest.now }
{
    next_function(rest).is_some()
}

/// This operator, which the next token is, and which counts as a node.
#[tactic(auto, using(crate::proofs::OperatorLists::word_is))]
fn counted(reader: &mut Reader<'_>, found: Option<Op>) -> Read<(Op, Span)>
    ensures { (ops : Operators) → found ≡ next_op ops reader.old.rest.now
        → Sees result reader.old reader.new (word Limited Node (operator_of ops)) }
{
    match (found, reader.rest) {
        (Some(op), [first, later @ ..]) => {
            reader.counts = read!(charged(Role::Node, reader.counts));
            reader.rest = later;
            Ok((op, first.span))
        }
        _ => Err(Halt::At(Stop::Unexpected)),
    }
}

/// An operator of this level, which counts as a node.
pub fn operator(reader: &mut Reader<'_>, level: Level) -> Read<(Op, Span)>
    ensures { Sees result reader.old reader.new (word Limited Node (operator_of (ops_of level))) }
{
    let found = next_operator(level, reader.rest);
    counted(reader, found)
}

/// A function's word, which counts as a node.
pub fn function(reader: &mut Reader<'_>) -> Read<(Op, Span)>
    ensures { Sees result reader.old reader.new (word Limited Node (operator_of functions)) }
{
    let found = next_function(reader.rest);
    counted(reader, found)
}
