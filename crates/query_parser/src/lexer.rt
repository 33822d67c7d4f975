//! Cuts a text into tokens.

ghost use Rattle.std.specs.{Prelude.{◌≡◌, ℕ, length, slice_index, ◌<◌, ◌≤◌, ◌+◌, true}, List.prefix_len};
ghost use Rattle.query_lang.specs.Lexis.{is_word_byte, is_digit, is_not_line_feed, is_blank, one_mark, two_mark, word_piece, mark_at};
ghost use Rattle.query_lang.specs.Lexis.{piece, token_at, fault_at, tokens_of};
ghost use Rattle.query_parser.specs.Given.{GivesTokens, IsWithin};

use marple_base::Seq;
use query_lang::lexis::{is_decimal_digit, is_in_word, is_text, number_of, reserved_of};
use query_lang::{
    FaultKind, MAX_QUERY, Mark, Names, Piece, QueryError, QueryFault, Span, Token, TokenKind,
};
use std::alloc::{AllocError, Global};

fn is_blank_at(b: u8) -> bool
    ensures { result ≡ is_blank b }
{
    matches!(b, b' ' | b'\t' | b'\n' | b'\r')
}

/// How many of the first bytes are those of a word.
fn word_len(bytes: &[u8]) -> usize
    ensures { result ≡ prefix_len is_word_byte bytes.now }
{
    bytes.iter().take_while(|b| is_in_word(**b)).count()
}

/// How many of the first bytes are digits.
fn digits_len(bytes: &[u8]) -> usize
    ensures { result ≡ prefix_len is_digit bytes.now }
{
    bytes.iter().take_while(|b| is_decimal_digit(**b)).count()
}

/// How many bytes there are before the end of the line.
fn line_len(bytes: &[u8]) -> usize
    ensures value { result ≡ prefix_len is_not_line_feed bytes.now }
    ensures within { result ≤ length bytes.now }
{
    bytes.iter().take_while(|b| **b != b'\n').count()
}

fn one_mark_at(b: u8) -> Option<Mark>
    ensures { result ≡ one_mark b }
{
    match b {
        b'(' => Some(Mark::OpenParen),
        b')' => Some(Mark::CloseParen),
        b'[' => Some(Mark::OpenBracket),
        b']' => Some(Mark::CloseBracket),
        b'{' => Some(Mark::OpenBrace),
        b'}' => Some(Mark::CloseBrace),
        b',' => Some(Mark::Comma),
        b';' => Some(Mark::Semicolon),
        b'=' => Some(Mark::Assign),
        b'<' => Some(Mark::Less),
        b'>' => Some(Mark::Greater),
        b'+' => Some(Mark::Plus),
        b'-' => Some(Mark::Minus),
        b'*' => Some(Mark::Times),
        b'/' => Some(Mark::Slash),
        b'%' => Some(Mark::Percent),
        b'&' => Some(Mark::And),
        b'|' => Some(Mark::Or),
        b'^' => Some(Mark::Xor),
        b'!' => Some(Mark::Bang),
        _ => None,
    }
}

fn two_mark_at(a: u8, b: u8) -> Option<Mark>
    ensures { result ≡ two_mark a b }
{
    match (a, b) {
        (b'=', b'=') => Some(Mark::Equal),
        (b'!', b'=') => Some(Mark::NotEqual),
        (b'<', b'=') => Some(Mark::LessOrEqual),
        (b'>', b'=') => Some(Mark::GreaterOrEqual),
        (b'<', b'<') => Some(Mark::ShiftLeft),
        (b'>', b'>') => Some(Mark::ShiftRight),
        (b'&', b'&') => Some(Mark::Both),
        (b'|', b'|') => Some(Mark::Either),
        _ => None,
    }
}

/// What a word is that begins with that many digits.
fn piece_of_word(w: &[u8], digits: usize) -> Piece
    requires digits { (k : ℕ) → k < digits → is_digit (slice_index w.now k) ≡ true }
    requires within { digits ≤ length w.now }
    ensures value { result ≡ word_piece w.now digits }
    ensures within { IsWithin result (length w.now) }
{
    if digits == w.len() {
        match number_of(w) {
            Some(n) => Piece::Token(TokenKind::Number(n), w.len()),
            None => Piece::Fault(FaultKind::NumberTooLarge, 0),
        }
    } else if is_text(w, b"5tuple") {
        Piece::Token(TokenKind::FiveTuple, w.len())
    } else if digits == 0 {
        match reserved_of(w) {
            Some(word) => Piece::Token(TokenKind::Word(word), w.len()),
            None => Piece::Name(w.len()),
        }
    } else {
        Piece::Fault(FaultKind::BadByte, digits)
    }
}

/// The longest mark that begins with these bytes.
fn piece_of_mark(a: u8, rest: &[u8]) -> Piece
    ensures value { result ≡ mark_at a rest.now }
    ensures within { IsWithin result (length rest.now + 1) }
{
    if let [b, ..] = rest {
        if let Some(mark) = two_mark_at(a, *b) {
            return Piece::Token(TokenKind::Mark(mark), 2);
        }
    }
    match one_mark_at(a) {
        Some(mark) => Piece::Token(TokenKind::Mark(mark), 1),
        None => Piece::Fault(FaultKind::BadByte, 0),
    }
}

/// What the text begins with.
fn piece_of(bytes: &[u8]) -> Piece
    requires { length bytes.now ≤ MAX_QUERY }
    ensures value { result ≡ piece bytes.now }
    ensures within { IsWithin result (length bytes.now) }
{
    let [first, rest @ ..] = bytes else {
        return Piece::Blank(0);
    };
    if is_blank_at(*first) {
        return Piece::Blank(1);
    }
    if *first == b'#' {
        return Piece::Blank(1 + line_len(rest));
    }
    if !is_in_word(*first) {
        return piece_of_mark(*first, rest);
    }
    let len = word_len(bytes);
    piece_of_word(&bytes[..len], digits_len(bytes))
}

/// The tokens of a text, the last of which is the end, and its names, whose numbers the tokens have.
#[derive(Drop)]
pub struct Lexed {
    pub tokens: Seq<Token>,
    pub names: Names,
}

fn token_from(kind: TokenKind, start: usize, end: usize) -> Token
    requires start { start ≤ MAX_QUERY }
    requires end { end ≤ MAX_QUERY }
    ensures { result ≡ token_at kind start end }
{
    let span = Span {
        start: start as u32,
        end: end as u32,
    };
    Token { kind, span }
}

/// A fault at a byte.
pub fn fault_from(kind: FaultKind, at: usize) -> QueryFault
    requires { at ≤ MAX_QUERY }
    ensures { result ≡ fault_at kind at }
{
    let span = Span {
        start: at as u32,
        end: at as u32,
    };
    QueryFault { kind, span }
}

/// Cuts a text into its tokens, and numbers its names by first appearance. Where a byte begins no token or a number is
/// too large, the first such fault is the answer.
pub fn cut_text(alloc: Global, text: &[u8]) -> Result<Lexed, QueryError>
    requires { length text.now ≤ MAX_QUERY }
    ensures { GivesTokens result (tokens_of text.now) }
{
    let mut tokens = Seq::new(alloc);
    let mut names = Names::new(alloc);
    let mut at: usize = 0;
    for _ in 0..text.len() {
        if at >= text.len() {
            break;
        }
        let rest = &text[at..];
        match piece_of(rest) {
            Piece::Blank(len) => at += len,
            Piece::Name(len) => {
                let id = names.number(&rest[..len])?;
                tokens.push(token_from(TokenKind::Name(id), at, at + len))?;
                at += len;
            }
            Piece::Token(kind, len) => {
                tokens.push(token_from(kind, at, at + len))?;
                at += len;
            }
            Piece::Fault(kind, len) => return Err(QueryError::Refused(fault_from(kind, at + len))),
        }
    }
    tokens.push(token_from(TokenKind::End, at, at))?;
    Ok(Lexed { tokens, names })
}
