//! The tokens of a `body` line.

ghost use Rattle.std.specs.Prelude.{◌≡◌, map, IfOk};
ghost use Rattle.plan_file.specs.Lexis.{tokens_left, function_named, literal, state_number, argument_number};
ghost use Rattle.plan_file.specs.Lexemes as Lexemes;

use crate::lexis::{first_token, function_named, past};
use marple_base::Seq;
use query_lang::Op;
use query_lang::lexis::is_text;
use std::alloc::{AllocError, Global};

/// What a token of a body is.
#[derive(Clone, Copy)]
pub enum Lexeme {
    Set,
    If,
    Open,
    Close,
    Not,
    Function(Op),
    Number(u64),
    State(u64),
    Argument(u64),
    Other,
}

// A token that isn't a keyword of a statement.
fn lexeme_among(token: &[u8]) -> Lexeme
    ensures { result ≡ Lexemes.lexeme_among (function_named token.now) (literal token.now) (state_number token.now)
        (argument_number token.now) }
{
    if let Some(op) = function_named(token) {
        return Lexeme::Function(op);
    }
    if let Some(n) = past(b'#', token) {
        return Lexeme::Number(n);
    }
    if let Some(s) = past(b's', token) {
        return Lexeme::State(s);
    }
    match past(b'a', token) {
        Some(a) => Lexeme::Argument(a),
        None => Lexeme::Other,
    }
}

#[tactic(auto, unfolding(crate::specs::Lexemes::lexeme_of))]
fn lexeme_of(token: &[u8]) -> Lexeme
    ensures { result ≡ Lexemes.lexeme_of token.now }
{
    if is_text(token, b"set") {
        Lexeme::Set
    } else if is_text(token, b"if") {
        Lexeme::If
    } else if is_text(token, b"{") {
        Lexeme::Open
    } else if is_text(token, b"}") {
        Lexeme::Close
    } else if is_text(token, b"not") {
        Lexeme::Not
    } else {
        lexeme_among(token)
    }
}

/// The tokens of the rest of a line after a space, if there was one.
pub(crate) fn lexemes(alloc: Global, text: &[u8], more: bool) -> Result<Seq<Lexeme>, AllocError>
    ensures { IfOk result (λ all. all ≡ map Lexemes.lexeme_of (tokens_left more text.now)) }
{
    let mut all = Seq::new(alloc);
    let mut rest = text;
    let mut left = more;
    'tokens: while left {
        let (token, past, another) = first_token(rest);
        all.push(lexeme_of(token))?;
        rest = past;
        left = another;
    }
    Ok(all)
}
