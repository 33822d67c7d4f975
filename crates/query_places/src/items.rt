//! Where each item of a query begins and ends.

use marple_base::Seq;
use query_lang::{Mark, Span, Token, TokenKind};
use std::alloc::{AllocError, Global};

// How many braces are open after a token.
fn braces_after(open: u32, kind: TokenKind) -> u32 {
    match kind {
        TokenKind::Mark(Mark::OpenBrace) => open.saturating_add(1),
        TokenKind::Mark(Mark::CloseBrace) => open.saturating_sub(1),
        _ => open,
    }
}

// Whether a token that leaves this many braces open ends an item.
fn is_last(kind: TokenKind, open: u32) -> bool {
    open == 0
        && matches!(
            kind,
            TokenKind::Mark(Mark::CloseBrace) | TokenKind::Mark(Mark::Semicolon)
        )
}

/// The spans of the items of these tokens: a fold ends with its last brace, and the others with their semicolon.
pub fn item_spans(alloc: Global, tokens: &[Token]) -> Result<Seq<Span>, AllocError> {
    let mut spans = Seq::new(alloc);
    let mut open = 0;
    let mut start = None;
    for token in tokens {
        let first = match start {
            Some(first) => first,
            None => token.span.start,
        };
        open = braces_after(open, token.kind);
        if is_last(token.kind, open) {
            spans.push(Span {
                start: first,
                end: token.span.end,
            })?;
            start = None;
        } else {
            start = Some(first);
        }
    }
    Ok(spans)
}
