//! The tokens that may stand at the place of a fault of the grammar: those with which the text is read further.

ghost use Rattle.std.specs.Prelude.{◌≡◌, ◌+◌, ◌<◌, ◌≤◌, ◌++◌, [], ◌∷◌, filter, length, take, IfOk};
ghost use Rattle.query_facts.specs.Expected.{expected_after, expected_of, goes_on, is_beyond, trial_text};

use crate::tokens::{all_kinds, spelling};
use marple_base::Seq;
use query_lang::{FaultKind, QueryError, QueryFault, TokenKind};
use query_parser::parse;
use std::alloc::{AllocError, Global};

// The text of these bytes and a token.
fn trial_text(alloc: Global, front: &[u8], kind: TokenKind) -> Result<Vec<u8>, AllocError>
    ensures { IfOk result (λ text. text.items ≡ trial_text front.now kind) }
{
    let mut text = Vec::from_slice(alloc, front)?;
    text.push(b'\n')?;
    text.extend_from_slice(spelling(kind))?;
    Ok(text)
}

// Whether a fault says nothing against a token at this byte.
fn is_beyond(at: usize, fault: QueryFault) -> bool
    ensures { result ≡ is_beyond at fault.kind fault.span.start }
{
    match fault.kind {
        FaultKind::QueryTooLong => false,
        FaultKind::UnexpectedToken => at < fault.span.start as usize,
        _ => true,
    }
}

// Whether some query goes on so after these bytes.
fn goes_on(alloc: Global, front: &[u8], kind: TokenKind) -> Result<bool, AllocError>
    ensures { IfOk result (λ goes. goes ≡ goes_on front.now kind) }
{
    let text = trial_text(alloc, front, kind)?;
    match parse(alloc, text.as_slice()) {
        Ok(_query) => Ok(true),
        Err(QueryError::Refused(fault)) => Ok(is_beyond(front.len() + 1, fault)),
        Err(QueryError::Memory) => Err(AllocError),
    }
}

// Those of these tokens with which some query goes on.
fn expected_among(
    alloc: Global,
    front: &[u8],
    kinds: &[TokenKind],
) -> Result<Seq<TokenKind>, AllocError>
    ensures { IfOk result (λ found. found ≡ filter (goes_on front.now) kinds.now) }
{
    let mut found = Seq::new(alloc);
    for kind in kinds {
        if goes_on(alloc, front, *kind)? {
            found.push(*kind)?;
        }
    }
    Ok(found)
}

// The tokens with which some query goes on.
fn expected_after(alloc: Global, front: &[u8]) -> Result<Seq<TokenKind>, AllocError>
    ensures { IfOk result (λ kinds. kinds ≡ expected_after front.now) }
{
    expected_among(alloc, front, all_kinds())
}

// The first bytes of a text.
fn front_of(text: &[u8], count: usize) -> &[u8]
    ensures { result.now ≡ take count text.now }
{
    if count < text.len() {
        return &text[..count];
    }
    text
}

/// The tokens that may stand at a fault of a text, where a token is the fault.
pub(crate) fn expected_of(
    alloc: Global,
    text: &[u8],
    fault: QueryFault,
) -> Result<Seq<TokenKind>, AllocError>
    ensures { IfOk result (λ kinds. kinds ≡ expected_of text.now fault) }
{
    match fault.kind {
        FaultKind::UnexpectedToken => expected_after(
            alloc,
            front_of(text, fault.span.start as usize),
        ),
        _ => Ok(Seq::new(alloc)),
    }
}
