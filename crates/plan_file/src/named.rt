//! Lines with a word, a name and an operand or a number, as they are read.

ghost use Rattle.std.specs.{Prelude.{◌≡◌, ◌≤◌, ◌∷◌, [], List, ℕ, true, false, codes, length, MatchOption}, List.list_all};
ghost use Rattle.query_lang.specs.Lexis.{is_word_byte};
ghost use Rattle.plan_file.specs.Finding.{Finds};
ghost use Rattle.plan_file.specs.Lexis as Lexis;
ghost use Rattle.plan_file.specs.{Lexis.tokens, Named.{IsNamedNumber, IsNamedOperand, IsOneNumber, IsOneOperand}};

use crate::lexis::{cut_at_space, number};
use crate::operations::operand;
use marple_base::Field;
use query_lang::lexis::{is_decimal_digit, is_in_word, is_text, reserved_of};
use stage_plan::{Operand, PlanOp};

fn all_words(text: &[u8]) -> bool
    ensures { result ≡ list_all is_word_byte text.now }
{
    text.iter().all(|byte| is_in_word(*byte))
}

/// A name: letters, digits and underscores, with no digit first, and no reserved word.
pub(crate) fn is_name(token: &[u8]) -> bool
    ensures { result ≡ Lexis.is_name token.now }
{
    match token {
        [] => false,
        [first, ..] => {
            all_words(token) && !is_decimal_digit(*first) && reserved_of(token).is_none()
        }
    }
}

// What follows a first word.
pub(crate) fn after_word<'a>(word: &[u8], line: &'a [u8]) -> Option<&'a [u8]>
    ensures { MatchOption result ((t : List ℕ) → (ts : List (List ℕ)) → tokens line.now ≡ word.now ∷ t ∷ ts
        → ⊥) (λ rest. tokens line.now ≡ word.now ∷ tokens rest.now) }
{
    let (first, rest) = cut_at_space(line)?;
    if is_text(first, word) {
        Some(rest)
    } else {
        None
    }
}

pub(crate) fn two_tokens(line: &[u8]) -> Option<(&[u8], &[u8])>
    ensures { MatchOption result ((a b : List ℕ) → tokens line.now ≡ a ∷ b ∷ []
        → ⊥) (λ r. tokens line.now ≡ r.0.now ∷ r.1.now ∷ []) }
{
    let (first, second) = cut_at_space(line)?;
    match cut_at_space(second) {
        Some(_) => None,
        None => Some((first, second)),
    }
}

fn one_token(line: &[u8]) -> Option<&[u8]>
    ensures { MatchOption result ((a : List ℕ) → tokens line.now ≡ a ∷ [] → ⊥) (λ r. tokens line.now ≡ r.now ∷ []) }
{
    match cut_at_space(line) {
        Some(_) => None,
        None => Some(line),
    }
}

/// The number of a line that has this word and a number.
pub(crate) fn one_number(word: &[u8], line: &[u8]) -> Option<u64>
    ensures { Finds result (IsOneNumber word.now line.now) }
{
    number(one_token(after_word(word, line)?)?)
}

/// The operand of a line that has this word and an operand.
pub(crate) fn one_operand(
    fields: &[Field],
    ops: &[PlanOp],
    word: &[u8],
    line: &[u8],
) -> Option<Operand>
    requires few { length ops.now ≤ 32768 }
    ensures { Finds result (IsOneOperand fields.now ops.now word.now line.now) }
{
    operand(fields, ops, one_token(after_word(word, line)?)?)
}

/// The name and the operand of a line that has this word, a name and an operand.
pub(crate) fn named_operand<'a>(
    fields: &[Field],
    ops: &[PlanOp],
    word: &[u8],
    line: &'a [u8],
) -> Option<(&'a [u8], Operand)>
    requires few { length ops.now ≤ 32768 }
    ensures { MatchOption result ((name : List ℕ) → (v : Operand)
        → IsNamedOperand fields.now ops.now word.now line.now name v
        → ⊥) (λ r. IsNamedOperand fields.now ops.now word.now line.now r.0.now r.1) }
{
    let (name, token) = two_tokens(after_word(word, line)?)?;
    if !is_name(name) {
        return None;
    }
    Some((name, operand(fields, ops, token)?))
}

/// The name and the number of a line that has this word, a name and a number.
pub(crate) fn named_number<'a>(word: &[u8], line: &'a [u8]) -> Option<(&'a [u8], u64)>
    ensures { MatchOption result ((name : List ℕ) → (n : ℕ) → IsNamedNumber word.now line.now name n
        → ⊥) (λ r. IsNamedNumber word.now line.now r.0.now r.1) }
{
    let (name, token) = two_tokens(after_word(word, line)?)?;
    if !is_name(name) {
        return None;
    }
    Some((name, number(token)?))
}

/// Whether a line is the first line of a plan.
pub(crate) fn is_first_line(line: &[u8]) -> bool
    ensures yes { result ≡ true → tokens line.now ≡ codes "marple-plan" ∷ codes "1" ∷ [] }
    ensures no { result ≡ false → tokens line.now ≡ codes "marple-plan" ∷ codes "1" ∷ [] → ⊥ }
{
    match two_tokens(line) {
        Some((word, version)) => is_text(word, b"marple-plan") && is_text(version, b"1"),
        None => false,
    }
}
