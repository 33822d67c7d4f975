//! What one token is: a mark, a reserved word, a name or a number.

ghost use Rattle.std.specs.Prelude.{◌≡◌, [], ◌∷◌, nat_eq};
ghost use Rattle.query_grammar.specs.{Kinds.{among, kind_number, mark_number, word_number}, Parser.next_is};

use query_lang::{Mark, Token, TokenKind, Word};

/// Is it this mark?
pub fn is_mark(kind: TokenKind, wanted: Mark) -> bool
    ensures { result ≡ nat_eq (kind_number kind) (mark_number wanted) }
{
    kind == TokenKind::Mark(wanted)
}

/// Is it this reserved word?
pub fn is_word(kind: TokenKind, wanted: Word) -> bool
    ensures { result ≡ nat_eq (kind_number kind) (word_number wanted) }
{
    kind == TokenKind::Word(wanted)
}

/// Is it a name?
pub fn is_name(kind: TokenKind) -> bool
    ensures { result ≡ nat_eq (kind_number kind) 0 }
{
    matches!(kind, TokenKind::Name(_))
}

/// Is it a number?
pub fn is_number(kind: TokenKind) -> bool
    ensures { result ≡ nat_eq (kind_number kind) 1 }
{
    matches!(kind, TokenKind::Number(_))
}

/// Whether this mark comes next.
pub fn at_mark(wanted: Mark, rest: &[Token]) -> bool
    ensures { result ≡ next_is (among (mark_number wanted ∷ [])) rest.now }
{
    matches!(rest, [first, ..] if is_mark(first.kind, wanted))
}

/// Whether this word comes next.
pub fn at_word(wanted: Word, rest: &[Token]) -> bool
    ensures { result ≡ next_is (among (word_number wanted ∷ [])) rest.now }
{
    matches!(rest, [first, ..] if is_word(first.kind, wanted))
}

/// Whether a name comes next.
pub fn at_name(rest: &[Token]) -> bool
    ensures { result ≡ next_is (among (0 ∷ [])) rest.now }
{
    matches!(rest, [first, ..] if is_name(first.kind))
}

/// Whether a number comes next.
pub fn at_number(rest: &[Token]) -> bool
    ensures { result ≡ next_is (among (1 ∷ [])) rest.now }
{
    matches!(rest, [first, ..] if is_number(first.kind))
}
