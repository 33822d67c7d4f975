//! Lines, tokens, numbers and operands as they are read.

ghost use Rattle.std.specs.Prelude.{◌≡◌, ◌+◌, ◌<◌, ◌≤◌, if◌then◌else◌, ◌∷◌, [], true, length, MatchOption, IfSome, drop};
ghost use Rattle.std.specs.List.{list_all, slice_split};
ghost use Rattle.query_lang.specs.Lexis.{is_digit};
ghost use Rattle.plan_file.specs.Lexis as Lexis;
ghost use Rattle.plan_file.specs.Lexis.{is_byte, is_space, number_after, tokens, tokens_left};

use query_lang::Op;
use query_lang::lexis::{is_decimal_digit, is_text, number_of};

/// The bytes before the first one that is this byte, and those after it.
pub(crate) fn cut_at(byte: u8, text: &[u8]) -> Option<(&[u8], &[u8])>
    ensures place { IfSome result (λ parts. (length parts.0.now < length text.now)
        × (parts.1.now ≡ drop (length parts.0.now + 1) text.now)) }
    ensures size { IfSome result (λ parts. length parts.1.now < length text.now) }
    ensures parts { MatchOption result (slice_split (is_byte byte) text.now ≡ text.now ∷ [])
        (λ parts. slice_split (is_byte byte) text.now ≡ parts.0.now ∷ slice_split (is_byte byte) parts.1.now) }
{
    for (i, one) in text.iter().enumerate() {
        if *one == byte {
            return Some((&text[..i], &text[i + 1..]));
        }
    }
    None
}

/// The first token of a line, and what follows its space.
pub(crate) fn cut_at_space(line: &[u8]) -> Option<(&[u8], &[u8])>
    ensures size { IfSome result (λ parts. length parts.1.now < length line.now) }
    ensures parts { MatchOption result (slice_split is_space line.now ≡ line.now ∷ [])
        (λ parts. slice_split is_space line.now ≡ parts.0.now ∷ slice_split is_space parts.1.now) }
{
    cut_at(b' ', line)
}

/// The first token of a line, what follows it, and whether a space separates them.
pub(crate) fn first_token(line: &[u8]) -> (&[u8], &[u8], bool)
    ensures tokens { tokens line.now ≡ result.0.now ∷ tokens_left result.2 result.1.now }
    ensures size { length result.1.now + (if result.2 then 1 else 0) ≤ length line.now }
{
    match cut_at_space(line) {
        Some((token, rest)) => (token, rest, true),
        None => (line, line, false),
    }
}

fn all_digits(text: &[u8]) -> bool
    ensures { result ≡ list_all is_digit text.now }
{
    text.iter().all(|byte| is_decimal_digit(*byte))
}

/// A decimal number below 2^64 without leading zeros.
pub(crate) fn number(text: &[u8]) -> Option<u64>
    ensures { result ≡ Lexis.number text.now }
{
    match text {
        [] => None,
        [first, rest @ ..] => {
            if all_digits(text) && (rest.is_empty() || *first != b'0') {
                number_of(text)
            } else {
                None
            }
        }
    }
}

// The number after a first byte.
pub(crate) fn past(byte: u8, token: &[u8]) -> Option<u64>
    ensures { result ≡ number_after byte token.now }
{
    match token {
        [] => None,
        [first, rest @ ..] => { if *first == byte { number(rest) } else { None } }
    }
}

// The function with this name, where it is neither of arithmetic nor a comparison.
#[tactic(auto, unfolding(crate::specs::Lexis::other_named))]
fn other_named(token: &[u8]) -> Option<Op>
    ensures { result ≡ Lexis.other_named token.now }
{
    if is_text(token, b"both") {
        Some(Op::Both)
    } else if is_text(token, b"either") {
        Some(Op::Either)
    } else if is_text(token, b"max") {
        Some(Op::Max)
    } else if is_text(token, b"min") {
        Some(Op::Min)
    } else if is_text(token, b"sadd") {
        Some(Op::Sadd)
    } else if is_text(token, b"decay") {
        Some(Op::Decay)
    } else {
        None
    }
}

// The function with this name, where it is not of arithmetic.
#[tactic(auto, unfolding(crate::specs::Lexis::comparison_named))]
fn comparison_named(token: &[u8]) -> Option<Op>
    ensures { result ≡ Lexis.comparison_named token.now }
{
    if is_text(token, b"eq") {
        Some(Op::Eq)
    } else if is_text(token, b"ne") {
        Some(Op::Ne)
    } else if is_text(token, b"lt") {
        Some(Op::Lt)
    } else if is_text(token, b"le") {
        Some(Op::Le)
    } else if is_text(token, b"gt") {
        Some(Op::Gt)
    } else if is_text(token, b"ge") {
        Some(Op::Ge)
    } else {
        other_named(token)
    }
}

/// The function of two operands with this name.
#[tactic(auto, unfolding(crate::specs::Lexis::function_named))]
pub(crate) fn function_named(token: &[u8]) -> Option<Op>
    ensures { result ≡ Lexis.function_named token.now }
{
    if is_text(token, b"mul") {
        Some(Op::Mul)
    } else if is_text(token, b"div") {
        Some(Op::Div)
    } else if is_text(token, b"rem") {
        Some(Op::Rem)
    } else if is_text(token, b"add") {
        Some(Op::Add)
    } else if is_text(token, b"sub") {
        Some(Op::Sub)
    } else if is_text(token, b"shl") {
        Some(Op::Shl)
    } else if is_text(token, b"shr") {
        Some(Op::Shr)
    } else if is_text(token, b"and") {
        Some(Op::And)
    } else if is_text(token, b"xor") {
        Some(Op::Xor)
    } else if is_text(token, b"or") {
        Some(Op::Or)
    } else {
        comparison_named(token)
    }
}
