//! Numbers in the fields of a trace.

ghost use Rattle.std.specs.Prelude.{◌≡◌, ◌+◌, ◌*◌, ◌^◌, ◌==◌, ◌<◌, ◌≤◌, ◌∷◌, [], drop, length, take, IfNone, IfSome, MatchOption, Some};
ghost use Rattle.std.specs.List.{slice_split};
ghost use Rattle.trace_reader.specs.Blocks.{IsFront};
ghost use Rattle.trace_reader.specs.Numbers as Numbers;
ghost use Rattle.trace_reader.specs.Numbers.{decimal_word, is_dot, number_below, octet_word, quad_word, without_blanks};
ghost use Rattle.trace_reader.specs.Numbers.{without_first_blanks, without_last_blanks, word_of_text};

use crate::blocks::{eight, with_four};
use marple_base::Field;

fn is_blank(byte: u8) -> bool
    ensures { result ≡ Numbers.is_field_blank byte }
{
    byte == b' ' || byte == b'\t'
}

fn first_kept(text: &[u8]) -> usize
    ensures value { drop result text.now ≡ without_first_blanks text.now }
    ensures bound { result ≤ length text.now }
{
    for i in 0..text.len() {
        if !is_blank(text[i]) {
            return i;
        }
    }
    text.len()
}

// The place where the blanks at the end begin.
fn kept_end(text: &[u8]) -> usize
    ensures value { take result text.now ≡ without_last_blanks text.now }
    ensures bound { result ≤ length text.now }
{
    let len = text.len();
    for k in 0..len {
        if !is_blank(text[len - k - 1]) {
            return len - k;
        }
    }
    0
}

/// A text without the spaces and tabs at its ends.
pub fn trimmed(text: &[u8]) -> &[u8]
    ensures { result.now ≡ without_blanks text.now }
{
    let rest = &text[first_kept(text)..];
    &rest[..kept_end(rest)]
}

// One more digit at the end of a number, where the number still fits.
fn with_digit(number: u64, digit: u64) -> Option<u64>
    requires { digit < 10 }
    ensures some { IfSome result (λ n. (n ≡ number * 10 + digit) × (n < 2 ^ 64)) }
    ensures none { IfNone result (2 ^ 64 ≤ number * 10 + digit) }
{
    number.checked_mul(10)?.checked_add(digit)
}

// A number of 1 to 19 digits, which always fits, of which the first were read.
#[inline(always)]
fn rest_of_digits(text: &[u8], read: usize, front: u64) -> Option<u64>
    requires front { IsFront text.now read front }
    requires within { read ≤ length text.now }
    requires some { 0 < length text.now }
    requires few { length text.now ≤ 19 }
    ensures { result ≡ number_below 19 (10 ^ 19) text.now }
{
    let mut number = front;
    for i in read..text.len() {
        let byte = text[i];
        if !byte.is_ascii_digit() {
            return None;
        }
        number = number * 10 + u64::from(byte - b'0');
    }
    Some(number)
}

// The same, digit by digit.
#[cold]
#[inline(never)]
fn digit_by_digit(text: &[u8]) -> Option<u64>
    requires some { 0 < length text.now }
    requires few { length text.now ≤ 19 }
    ensures { result ≡ number_below 19 (10 ^ 19) text.now }
{
    rest_of_digits(text, 0, 0)
}

// The same, with the first eight or four digits read at once. Each case has a separate loop, which is shorter than one loop
// for all of them.
#[inline(always)]
fn digits(text: &[u8]) -> Option<u64>
    requires some { 0 < length text.now }
    requires few { length text.now ≤ 19 }
    ensures { result ≡ number_below 19 (10 ^ 19) text.now }
{
    if text.len() >= 8 {
        return match eight(text) {
            Some(front) => rest_of_digits(text, 8, front),
            None => digit_by_digit(text),
        };
    }
    if text.len() >= 4 {
        return match with_four(text, 0, 0) {
            Some(front) => rest_of_digits(text, 4, front),
            None => digit_by_digit(text),
        };
    }
    rest_of_digits(text, 0, 0)
}

// A number of 1 to 20 digits. Only the last of 20 can pass the most that fits.
fn decimal(text: &[u8]) -> Option<u64>
    ensures { result ≡ decimal_word text.now }
{
    if text.is_empty() || text.len() > 20 {
        return None;
    }
    if text.len() < 20 {
        return digits(text);
    }
    let Some(front) = digits(&text[..19]) else {
        return None;
    };
    let last = text[19];
    if !last.is_ascii_digit() {
        return None;
    }
    with_digit(front, u64::from(last - b'0'))
}

// A number of 1 to 3 digits that is at most 255.
fn octet(text: &[u8]) -> Option<u64>
    ensures value { result ≡ octet_word text.now }
    ensures small { IfSome result (λ n. n < 256) }
{
    if text.len() > 3 {
        return None;
    }
    match decimal(text) {
        Some(number) if number < 256 => Some(number),
        _ => None,
    }
}

// The text before the first dot, and the text after it.
fn cut_at_dot(text: &[u8]) -> Option<(&[u8], &[u8])>
    ensures { MatchOption result (slice_split is_dot text.now ≡ text.now ∷ []) (λ parts. slice_split is_dot text.now
        ≡ parts.0.now ∷ slice_split is_dot parts.1.now) }
{
    for (i, byte) in text.iter().enumerate() {
        if *byte == b'.' {
            return Some((&text[..i], &text[i + 1..]));
        }
    }
    None
}

// Four numbers separated by dots, the first the most significant byte.
fn quad(text: &[u8]) -> Option<u64>
    ensures { result ≡ quad_word text.now }
{
    let (first, rest) = cut_at_dot(text)?;
    let (second, rest) = cut_at_dot(rest)?;
    let (third, fourth) = cut_at_dot(rest)?;
    if let Some(_) = cut_at_dot(fourth) {
        return None;
    }
    let first = octet(first)?;
    let second = octet(second)?;
    let third = octet(third)?;
    let fourth = octet(fourth)?;
    Some(((first * 256 + second) * 256 + third) * 256 + fourth)
}

// The word of a text without blanks at its ends, if it is in the field's form.
fn trimmed_word(field: Field, text: &[u8]) -> Option<u64>
    ensures { result ≡ word_of_text field text.now }
{
    if let Some(number) = decimal(text) {
        return Some(number);
    }
    match field {
        Field::SrcIp | Field::DstIp => quad(text),
        Field::Tout if text == b"inf".as_slice() => Some(u64::MAX),
        _ => None,
    }
}

// The word of a field's text without the blanks at its ends, if that is in the field's form.
#[cold]
#[inline(never)]
fn word_with_blanks(field: Field, text: &[u8]) -> Option<u64>
    ensures { result ≡ word_of_text field (without_blanks text.now) }
{
    trimmed_word(field, trimmed(text))
}

// A number of 1 to 19 digits, which most texts are.
#[inline(always)]
fn plain_number(text: &[u8]) -> Option<u64>
    ensures { IfSome result (λ n. decimal_word text.now ≡ Some n) }
{
    if text.is_empty() || text.len() > 19 {
        return None;
    }
    digits(text)
}

/// The word of a field's text without the blanks at its ends, if that is in the field's form.
#[inline(always)]
pub fn word(field: Field, text: &[u8]) -> Option<u64>
    ensures { result ≡ word_of_text field (without_blanks text.now) }
{
    if let Some(number) = plain_number(text) {
        return Some(number);
    }
    word_with_blanks(field, text)
}
