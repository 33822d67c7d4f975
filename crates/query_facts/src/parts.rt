//! How a trace may be split into parts that run by themselves.

ghost use Rattle.std.specs.Prelude.{◌≡◌, ◌+◌, ◌^◌, ◌<◌, All, length, slice_get, IfOk};
ghost use Rattle.net_laws.specs.Fields.{names_field, makes_field};
ghost use Rattle.net_wide.specs.Combining.{adds};
ghost use Rattle.query_lang.specs.Folds.{IsValidFold};
ghost use Rattle.query_facts.specs.Parts.{place_has_field, all_have, keeps, shared_among, shared_fields, is_top, is_top_table, reads_top};
ghost use Rattle.query_facts.specs.Parts.{blocks, first_blocked, first_needed, adds_at, first_not_additive, by_or, unless_blocked, sums_by};
ghost use Rattle.query_facts.specs.Parts.{parts_of};

use crate::needs::{groupbys, is_in, needed_groupbys, needed_tables};
use marple_base::{Field, Seq};
use net_laws::{makes_field, names_field};
use query_lang::{Span, TypedFinal, TypedFinalOp, TypedFold, TypedOp, TypedQuery, TypedStream};
use std::alloc::{AllocError, Global};

/// Why a trace can't be split for a query.
#[derive(Clone, Copy, PartialEq, Eq)]
pub enum Unsplit {
    /// A final groups rows of a table, which may be of several parts.
    FinalGroupby,
    /// A final is made from a `top`, which has the best rows of the whole and not of a part.
    FinalOfTop,
    /// No field is a key of every needed groupby, and this groupby's fold isn't additive.
    NotAdditive,
    /// No field is a key of every needed groupby; the folds add, but a final reads tables of the whole.
    FinalOfSums,
}

/// How a trace may be split: by these fields, which are keys of every needed groupby; into any pieces, since states add; or
/// not, by the reason at this place.
#[derive(Drop)]
pub enum Parts {
    By(Seq<Field>),
    Sums,
    No(Unsplit, Span),
}

// Whether the stream at a place has a column of the field's name.
fn has_field(q: &TypedQuery, field: Field, place: usize) -> bool
    ensures { result ≡ place_has_field q.now field place }
{
    match q.streams.as_slice().get(place) {
        Some(one) => names_field(field, &q.names, one.columns.as_slice()),
        None => false,
    }
}

// Whether all streams at these places have a column of the field's name.
fn all_have(q: &TypedQuery, places: &[usize], field: Field) -> bool
    ensures { result ≡ all_have q.now places.now field }
{
    for place in places {
        if !has_field(q, field, *place) {
            return false;
        }
    }
    true
}

// Whether a partition by the field keeps the keys of the groupbys at these places.
fn keeps(q: &TypedQuery, places: &[usize], field: Field) -> bool
    ensures { result ≡ keeps q.now places.now field }
{
    !makes_field(field, &q.names, q.streams.as_slice()) && all_have(q, places, field)
}

// Those of these fields.
fn shared_among(
    alloc: Global,
    q: &TypedQuery,
    places: &[usize],
    fields: &[Field],
) -> Result<Seq<Field>, AllocError>
    ensures { IfOk result (λ found. found ≡ shared_among q.now places.now fields.now) }
{
    let mut found = Seq::new(alloc);
    for field in fields {
        if keeps(q, places, *field) {
            found.push(*field)?;
        }
    }
    Ok(found)
}

// All such fields.
#[tactic(auto, unfolding(crate::specs::Parts::shared_fields))]
fn shared_fields(alloc: Global, q: &TypedQuery, places: &[usize]) -> Result<Seq<Field>, AllocError>
    ensures { IfOk result (λ fields. fields ≡ shared_fields q.now places.now) }
{
    shared_among(alloc, q, places, &Field::ALL)
}

// Whether a final is a `top`.
fn is_top(op: &TypedFinalOp) -> bool
    ensures { result ≡ is_top op.now }
{
    match op {
        TypedFinalOp::Top(_, _, _) => true,
        _ => false,
    }
}

// Whether the table with this number is that of a `top`.
fn is_top_table(q: &TypedQuery, groups: usize, number: usize) -> bool
    ensures { result ≡ is_top_table q.now groups number }
{
    if number < groups {
        return false;
    }
    match q.finals.as_slice().get(number - groups) {
        Some(one) => is_top(&one.op),
        None => false,
    }
}

// Whether a final reads the table of a `top`.
fn reads_top(q: &TypedQuery, groups: usize, op: &TypedFinalOp) -> bool
    ensures { result ≡ reads_top q.now groups op.now }
{
    match op {
        TypedFinalOp::Filter(input, _) => is_top_table(q, groups, usize::from(*input)),
        TypedFinalOp::Map(input, _) => is_top_table(q, groups, usize::from(*input)),
        TypedFinalOp::Group(input, _, _, _) => is_top_table(q, groups, usize::from(*input)),
        TypedFinalOp::Join(left, right) => {
            is_top_table(q, groups, usize::from(*left))
                || is_top_table(q, groups, usize::from(*right))
        }
        TypedFinalOp::Top(input, _, _) => is_top_table(q, groups, usize::from(*input)),
    }
}

// Why the parts don't give a final.
fn blocks(q: &TypedQuery, groups: usize, op: &TypedFinalOp) -> Option<Unsplit>
    ensures { result ≡ blocks q.now groups op.now }
{
    if let TypedFinalOp::Group(_, _, _, _) = op {
        return Some(Unsplit::FinalGroupby);
    }
    if reads_top(q, groups, op) {
        return Some(Unsplit::FinalOfTop);
    }
    None
}

// The first of the needed finals that the parts don't give; the first final has this number.
fn first_blocked(
    q: &TypedQuery,
    groups: usize,
    needs: &[usize],
    number: usize,
    finals: &[TypedFinal],
) -> Option<(Unsplit, Span)>
    requires { number + length finals.now < 2 ^ 64 }
    ensures { result ≡ first_blocked q.now groups needs.now number finals.now }
{
    match finals {
        [] => None,
        [one, rest @ ..] => {
            if is_in(needs, number) {
                if let Some(why) = blocks(q, groups, &one.op) {
                    return Some((why, one.name.span));
                }
            }
            first_blocked(q, groups, needs, number + 1, rest)
        }
    }
}

// The place of the first needed final.
fn first_needed(needs: &[usize], number: usize, finals: &[TypedFinal]) -> Option<Span>
    requires { number + length finals.now < 2 ^ 64 }
    ensures { result ≡ first_needed needs.now number finals.now }
{
    match finals {
        [] => None,
        [one, rest @ ..] => {
            if is_in(needs, number) {
                return Some(one.name.span);
            }
            first_needed(needs, number + 1, rest)
        }
    }
}

// Whether the fold with this number is there and additive.
fn adds(folds: &[TypedFold], number: u16) -> bool
    requires { All IsValidFold folds.now }
    ensures { result ≡ adds (slice_get folds.now number) }
{
    match folds.get(number as usize) {
        Some(f) => fold_code::is_additive(f),
        None => false,
    }
}

// Whether a stream is no groupby's, or one of a fold that is additive.
fn adds_at(q: &TypedQuery, one: &TypedStream) -> bool
    requires { All IsValidFold q.now.folds }
    ensures { result ≡ adds_at q.now one.now.op }
{
    match &one.op {
        TypedOp::Group(_, _, number, _) => adds(q.folds.as_slice(), *number),
        _ => true,
    }
}

// The place of the first of the groupbys at these places whose fold isn't additive.
fn first_not_additive(q: &TypedQuery, places: &[usize]) -> Option<Span>
    requires { All IsValidFold q.now.folds }
    ensures { result ≡ first_not_additive q.now places.now }
{
    match places {
        [] => None,
        [place, rest @ ..] => {
            if let Some(one) = q.streams.as_slice().get(*place) {
                if !adds_at(q, one) {
                    return Some(one.name.span);
                }
            }
            first_not_additive(q, rest)
        }
    }
}

// By these fields, if there are any.
#[tactic(auto, using(crate::proofs::PartFacts::some_fields))]
fn by_or(fields: Seq<Field>, others: Parts) -> Parts
    ensures { result ≡ by_or fields others }
{
    if fields.is_empty() {
        return others;
    }
    Parts::By(fields)
}

// Not, if a final is blocked.
fn unless_blocked(blocked: Option<(Unsplit, Span)>, others: Parts) -> Parts
    ensures { result ≡ unless_blocked blocked others }
{
    match blocked {
        Some((why, span)) => Parts::No(why, span),
        None => others,
    }
}

// By sums, where all states add and no final is needed.
fn sums_by(apart: Option<Span>, needed: Option<Span>) -> Parts
    ensures { result ≡ sums_by apart needed }
{
    match apart {
        Some(span) => Parts::No(Unsplit::NotAdditive, span),
        None => match needed {
            Some(span) => Parts::No(Unsplit::FinalOfSums, span),
            None => Parts::Sums,
        },
    }
}

/// How a trace may be split for a query: by all fields that are keys of every needed groupby and that no `map` makes; if there
/// are none, by sums.
pub(crate) fn parts_of(alloc: Global, q: &TypedQuery) -> Result<Parts, AllocError>
    requires valid { All IsValidFold q.now.folds }
    requires streams { length q.now.streams < 65536 }
    requires finals { length q.now.finals < 65536 }
    ensures { IfOk result (λ parts. parts ≡ parts_of q.now) }
{
    let groups = groupbys(q.streams.as_slice());
    let finals = q.finals.as_slice();
    let needs = needed_tables(alloc, q)?;
    let places = needed_groupbys(alloc, needs.as_slice(), q.streams.as_slice())?;
    let blocked = first_blocked(q, groups, needs.as_slice(), groups, finals);
    let fields = shared_fields(alloc, q, places.as_slice())?;
    let apart = first_not_additive(q, places.as_slice());
    let sums = sums_by(apart, first_needed(needs.as_slice(), groups, finals));
    Ok(unless_blocked(blocked, by_or(fields, sums)))
}
