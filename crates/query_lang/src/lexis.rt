//! Bytes, words and numbers, as the texts of queries and of plans have them.

ghost use Rattle.std.specs.{Prelude.{◌≡◌, ℕ, ◌<◌, length, slice_index, true}, Char.digit_value, Str.{bytes_eq, Parse.digits_value}};
ghost use Rattle.query_lang.specs.Lexis.{is_word_byte, is_digit, reserved, below_limit};

use crate::token::Word;

/// Whether two texts are the same.
pub fn is_text(a: &[u8], b: &[u8]) -> bool
    ensures { result ≡ bytes_eq a.now b.now }
{
    a == b
}

/// Is it a letter, a digit or an underscore?
pub fn is_in_word(byte: u8) -> bool
    ensures { result ≡ is_word_byte byte }
{
    matches!(byte, b'0'..=b'9' | b'A'..=b'Z' | b'a'..=b'z' | b'_')
}

/// Is it a decimal digit?
pub fn is_decimal_digit(byte: u8) -> bool
    ensures { result ≡ is_digit byte }
{
    matches!(byte, b'0'..=b'9')
}

fn digit_of(byte: u8) -> u64
    requires { is_digit byte ≡ true }
    ensures value { result ≡ digit_value byte }
    ensures small { result < 10 }
{
    u64::from(byte - b'0')
}

/// The number that the digits write, where it is below 2 ^ 64.
pub fn number_of(digits: &[u8]) -> Option<u64>
    requires { (k : ℕ) → k < length digits.now → is_digit (slice_index digits.now k) ≡ true }
    ensures { result ≡ below_limit (digits_value 10 digits.now) }
{
    let mut n: u64 = 0;
    for d in digits {
        let digit = digit_of(*d);
        if n > (u64::MAX - digit) / 10 {
            return None;
        }
        n = n * 10 + digit;
    }
    Some(n)
}

/// The reserved word that a text is.
#[tactic(auto, unfolding(crate::specs::Lexis::reserved))]
pub fn reserved_of(word: &[u8]) -> Option<Word>
    ensures { result ≡ reserved word.now }
{
    if is_text(word, b"def") {
        Some(Word::Def)
    } else if is_text(word, b"if") {
        Some(Word::If)
    } else if is_text(word, b"else") {
        Some(Word::Else)
    } else if is_text(word, b"emit") {
        Some(Word::Emit)
    } else if is_text(word, b"filter") {
        Some(Word::Filter)
    } else if is_text(word, b"map") {
        Some(Word::Map)
    } else if is_text(word, b"zip") {
        Some(Word::Zip)
    } else if is_text(word, b"groupby") {
        Some(Word::Groupby)
    } else if is_text(word, b"final") {
        Some(Word::Final)
    } else if is_text(word, b"print") {
        Some(Word::Print)
    } else if is_text(word, b"join") {
        Some(Word::Join)
    } else if is_text(word, b"top") {
        Some(Word::Top)
    } else if is_text(word, b"max") {
        Some(Word::Max)
    } else if is_text(word, b"min") {
        Some(Word::Min)
    } else if is_text(word, b"sadd") {
        Some(Word::Sadd)
    } else if is_text(word, b"decay") {
        Some(Word::Decay)
    } else if is_text(word, b"infinity") {
        Some(Word::Infinity)
    } else if is_text(word, b"mark") {
        Some(Word::Mark)
    } else if is_text(word, b"epoch") {
        Some(Word::Epoch)
    } else if is_text(word, b"epochs") {
        Some(Word::Epochs)
    } else {
        None
    }
}
