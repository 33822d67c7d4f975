//! A text that is read again, for the places in it.

use fold_class::Algebra;
use marple_base::Seq;
use query_facts::{FoldFacts, items_before};
use query_lang::{FoldDef, Item, MAX_QUERY, Name, Query, QueryError, Span, Token};
use query_parser::{Lexed, cut_text, parse};
use query_places::{
    Cause, Place, Spoilt, item_spans, losses_of, not_additive, not_linear, not_monotone, place_at,
};
use std::alloc::{AllocError, Global};

/// A text that is read: its tokens, its items, and where each of them stands.
#[derive(Drop)]
pub(crate) struct ReadText {
    pub(crate) tokens: Seq<Token>,
    pub(crate) query: Query,
    pub(crate) spans: Seq<Span>,
}

/// The variables that keep a fold from being linear by sums, by maxima, and monotone; and what keeps it from being additive.
#[derive(Drop)]
pub(crate) struct FoldCauses {
    pub(crate) sums: Seq<Spoilt>,
    pub(crate) maxima: Seq<Spoilt>,
    pub(crate) order: Seq<Spoilt>,
    pub(crate) adding: Option<Cause>,
}

// The query of a text, where it is read.
fn query_of(alloc: Global, text: &[u8]) -> Result<Option<Query>, AllocError> {
    match parse(alloc, text) {
        Ok(query) => Ok(Some(query)),
        Err(QueryError::Refused(_)) => Ok(None),
        Err(QueryError::Memory) => Err(AllocError),
    }
}

// The tokens of a text.
fn tokens_of(alloc: Global, text: &[u8]) -> Result<Seq<Token>, AllocError> {
    if text.len() > MAX_QUERY {
        return Ok(Seq::new(alloc));
    }
    match cut_text(alloc, text) {
        Ok(Lexed { tokens, names: _ }) => Ok(tokens),
        Err(QueryError::Refused(_)) => Ok(Seq::new(alloc)),
        Err(QueryError::Memory) => Err(AllocError),
    }
}

/// A text that is read, with the places of its items.
pub(crate) fn read_text(alloc: Global, text: &[u8]) -> Result<Option<ReadText>, AllocError> {
    let Some(query) = query_of(alloc, text)? else {
        return Ok(None);
    };
    let tokens = tokens_of(alloc, text)?;
    let spans = item_spans(alloc, tokens.as_slice())?;
    Ok(Some(ReadText {
        tokens,
        query,
        spans,
    }))
}

// What spoils a fold whose variables with a depth are these.
fn causes_of(alloc: Global, d: &FoldDef, history: &[u8]) -> Result<FoldCauses, AllocError> {
    Ok(FoldCauses {
        sums: not_linear(alloc, Algebra::Sums, d, history)?,
        maxima: not_linear(alloc, Algebra::Maxima, d, history)?,
        order: not_monotone(alloc, d)?,
        adding: not_additive(d),
    })
}

// What spoils each fold of these items.
fn all_causes(
    alloc: Global,
    items: &[Item],
    folds: &[FoldFacts],
) -> Result<Seq<FoldCauses>, AllocError> {
    let mut all = Seq::new(alloc);
    for item in items {
        if let Item::Fold(d) = item {
            if let Some(facts) = folds.get(all.len()) {
                all.push(causes_of(alloc, d, facts.history.as_slice())?)?;
            }
        }
    }
    Ok(all)
}

/// What an accepted text says besides its facts: what spoils its folds, in order, and the places where the infinity of a dropped
/// packet is reckoned with.
#[derive(Drop)]
pub(crate) struct Remarks {
    pub(crate) causes: Seq<FoldCauses>,
    pub(crate) losses: Seq<Name>,
}

/// The remarks on a text that is read.
pub(crate) fn remarks_on(
    alloc: Global,
    text: &Option<ReadText>,
    folds: &[FoldFacts],
) -> Result<Remarks, AllocError> {
    match text {
        Some(read) => {
            let causes = all_causes(alloc, read.query.items.as_slice(), folds)?;
            let losses = losses_of(alloc, &read.query)?;
            Ok(Remarks { causes, losses })
        }
        None => Ok(Remarks {
            causes: Seq::new(alloc),
            losses: Seq::new(alloc),
        }),
    }
}

/// What stands at a byte, and the number of its item.
pub(crate) fn place_of(text: &Option<ReadText>, at: u32) -> Option<(usize, Place)> {
    match text {
        Some(read) => {
            let items = read.query.items.as_slice();
            let number = items_before(items, at);
            match items.get(number) {
                Some(item) => Some((number, place_at(item, at))),
                None => None,
            }
        }
        None => None,
    }
}
