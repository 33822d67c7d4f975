//! Where the statements of a fold begin and end.

use query_lang::{Mark, Span, Token, TokenKind, Word};

// Whether no statement goes on after the token.
fn divides(kind: TokenKind) -> bool {
    matches!(
        kind,
        TokenKind::Mark(Mark::OpenBrace)
            | TokenKind::Mark(Mark::CloseBrace)
            | TokenKind::Mark(Mark::Semicolon)
            | TokenKind::Word(Word::Else)
    )
}

// Whether the token is the last one of a statement.
fn closes(kind: TokenKind) -> bool {
    matches!(kind, TokenKind::Mark(Mark::Semicolon))
}

/// The statement that a byte of a fold's body is in, of the tokens of a text: an assignment with its semicolon, or `if` with its
/// condition.
pub fn statement_at(tokens: &[Token], at: u32) -> Span {
    let mut found = Span { start: at, end: at };
    let mut is_begun = false;
    for token in tokens {
        let span = token.span;
        if divides(token.kind) {
            if span.start > at {
                if closes(token.kind) {
                    found.end = span.end;
                }
                return found;
            }
            is_begun = false;
        } else {
            if !is_begun {
                found.start = span.start;
                is_begun = true;
            }
            found.end = span.end;
        }
    }
    found
}
