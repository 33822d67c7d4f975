//! Where an expression reckons with the infinity of a dropped packet.

use crate::expressions::reads;
use crate::known::{Known, is_infinity, leaves_out};
use marple_base::Seq;
use query_lang::{Expr, Name, Op};
use std::alloc::AllocError;

// Whether an operator orders two words.
fn orders(op: Op) -> bool {
    matches!(op, Op::Lt | Op::Le | Op::Gt | Op::Ge)
}

// Whether an operator makes something else of infinity: not where it compares it with infinity.
fn spoils(op: Op, one: &Expr, other: &Expr) -> bool {
    if orders(op) {
        return !is_infinity(one) && !is_infinity(other);
    }
    matches!(op, Op::Add | Op::Sub | Op::Mul)
}

/// Adds a place, where it isn't there.
pub(crate) fn add_place(places: &mut Seq<Name>, place: Name) -> Result<(), AllocError> {
    for one in places.as_slice() {
        if one.span.start == place.span.start {
            return Ok(());
        }
    }
    places.push(place)?;
    Ok(())
}

// The places of a name: where `tout` went into it, and its own, where it stands inside of what spoils it.
fn of_name(
    name: Name,
    known: &Known,
    inside: bool,
    places: &mut Seq<Name>,
) -> Result<(), AllocError> {
    for loss in known.spoilt.as_slice() {
        if loss.id == name.id {
            add_place(places, loss.place)?;
        }
    }
    if inside && known.comes_from_time(name.id) {
        add_place(places, name)?;
    }
    Ok(())
}

/// Where `tout` is read in a sum, a difference, a product or a comparison by order, or went into one before. `dropped` says
/// whether the packet may be one that was dropped.
pub(crate) fn places_in(
    e: &Expr,
    known: &Known,
    dropped: bool,
    inside: bool,
    places: &mut Seq<Name>,
) -> Result<(), AllocError> {
    if !dropped {
        return Ok(());
    }
    let times = known.times.as_slice();
    match e {
        Expr::Number(_, _) => Ok(()),
        Expr::Named(name) => of_name(*name, known, inside, places),
        Expr::Not(_, inner) => places_in(inner.get(), known, dropped, inside, places),
        Expr::Binary(op, _, left, right) => {
            let one = left.get();
            let other = right.get();
            if matches!(op, Op::Both | Op::Either) {
                let truth = matches!(op, Op::Both);
                places_in(one, known, !leaves_out(other, truth, times), false, places)?;
                return places_in(other, known, !leaves_out(one, truth, times), false, places);
            }
            let within = inside || spoils(*op, one, other);
            places_in(one, known, dropped, within, places)?;
            places_in(other, known, dropped, within, places)
        }
        Expr::Call(_, _, operands) => {
            for operand in operands.as_slice() {
                places_in(operand, known, dropped, inside, places)?;
            }
            Ok(())
        }
    }
}

/// Whether an expression reads `tout`, or what is made of it.
pub(crate) fn reads_time(e: &Expr, known: &Known) -> bool {
    for id in known.times.as_slice() {
        if reads(e, *id) {
            return true;
        }
    }
    for id in known.made.as_slice() {
        if reads(e, *id) {
            return true;
        }
    }
    false
}
