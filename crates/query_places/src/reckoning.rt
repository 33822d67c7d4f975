//! Where a query reckons with `tout` though dropped packets, whose `tout` is infinity, aren't left out before.

use crate::fold_losses::in_fold;
use crate::known::{Known, Loss, add, is_among, leaves_out};
use crate::losses::{add_place, places_in, reads_time};
use marple_base::Seq;
use query_lang::{Column, Expr, FinalOp, FoldDef, Item, Key, Name, Names, Query, StreamOp};
use std::alloc::{AllocError, Global};

// The names of keys; those of `5tuple` are never `tout`.
fn names_of_keys(alloc: Global, keys: &[Key]) -> Result<Seq<u32>, AllocError> {
    let mut ids = Seq::new(alloc);
    for key in keys {
        if let Key::Named(name) = key {
            ids.push(name.id)?;
        }
    }
    Ok(ids)
}

// The fold of a name.
fn fold_named(items: &[Item], id: u32) -> Option<&FoldDef> {
    for item in items {
        if let Item::Fold(d) = item {
            if d.name.id == id {
                return Some(d);
            }
        }
    }
    None
}

// What is known of a groupby.
fn grouped(
    alloc: Global,
    items: &[Item],
    known: &Known,
    keys: &[Key],
    fold: Name,
    places: &mut Seq<Name>,
) -> Result<Known, AllocError> {
    let ids = names_of_keys(alloc, keys)?;
    if known.dropped {
        for loss in known.spoilt.as_slice() {
            if is_among(loss.id, ids.as_slice()) {
                add_place(places, loss.place)?;
            }
        }
    }
    let mut of_keys = known.named(alloc, ids.as_slice())?;
    if let Some(d) = fold_named(items, fold.id) {
        let kept = in_fold(alloc, d, known, places)?;
        for id in kept.as_slice() {
            add(&mut of_keys.times, *id)?;
        }
    }
    Ok(of_keys)
}

// Adds what is known of a column of this value.
fn add_column(
    alloc: Global,
    made: &mut Known,
    known: &Known,
    column: &Column,
) -> Result<(), AllocError> {
    let id = column.name.id;
    let mut places = Seq::new(alloc);
    places_in(&column.value, known, known.dropped, false, &mut places)?;
    if !places.is_empty() {
        for place in places.as_slice() {
            made.spoilt.push(Loss { id, place: *place })?;
        }
        return Ok(());
    }
    match &column.value {
        Expr::Named(name) if is_among(name.id, known.times.as_slice()) => add(&mut made.times, id),
        value if known.dropped && reads_time(value, known) => add(&mut made.made, id),
        _ => Ok(()),
    }
}

// What is known of a map. A stream's columns count where they are used, and a table's as they are printed.
fn mapped(
    alloc: Global,
    known: &Known,
    columns: &[Column],
    is_final: bool,
    places: &mut Seq<Name>,
) -> Result<Known, AllocError> {
    let mut made = known.copy(alloc)?;
    for column in columns {
        if is_final {
            places_in(&column.value, known, known.dropped, false, places)?;
        }
        add_column(alloc, &mut made, known, column)?;
    }
    Ok(made)
}

// What is known of a filter.
fn filtered(
    alloc: Global,
    known: &Known,
    condition: &Expr,
    places: &mut Seq<Name>,
) -> Result<Known, AllocError> {
    places_in(condition, known, known.dropped, false, places)?;
    let mut kept = known.copy(alloc)?;
    kept.dropped = known.dropped && !leaves_out(condition, true, known.times.as_slice());
    Ok(kept)
}

// What is known of a packet that is in both streams, or of a row of both tables.
fn joined(alloc: Global, one: &Known, other: &Known) -> Result<Known, AllocError> {
    let mut both = one.copy(alloc)?;
    both.join(other)?;
    both.dropped = one.dropped && other.dropped;
    Ok(both)
}

// A stream or a table, and what is known of it.
#[derive(Drop)]
struct Source {
    id: u32,
    known: Known,
}

// What is known of the stream or table of a name.
fn known_of(alloc: Global, sources: &[Source], id: u32) -> Result<Known, AllocError> {
    for source in sources {
        if source.id == id {
            return source.known.copy(alloc);
        }
    }
    Ok(Known::nothing(alloc))
}

fn known_stream(
    alloc: Global,
    items: &[Item],
    sources: &[Source],
    op: &StreamOp,
    places: &mut Seq<Name>,
) -> Result<Known, AllocError> {
    match op {
        StreamOp::Filter(input, condition) => {
            let known = known_of(alloc, sources, input.id)?;
            filtered(alloc, &known, condition, places)
        }
        StreamOp::Map(input, columns) => {
            let known = known_of(alloc, sources, input.id)?;
            mapped(alloc, &known, columns.as_slice(), false, places)
        }
        StreamOp::Zip(one, other) => {
            let left = known_of(alloc, sources, one.id)?;
            let right = known_of(alloc, sources, other.id)?;
            joined(alloc, &left, &right)
        }
        StreamOp::Group(input, keys, fold) => {
            let known = known_of(alloc, sources, input.id)?;
            grouped(alloc, items, &known, keys.as_slice(), *fold, places)
        }
    }
}

fn known_final(
    alloc: Global,
    items: &[Item],
    sources: &[Source],
    op: &FinalOp,
    places: &mut Seq<Name>,
) -> Result<Known, AllocError> {
    match op {
        FinalOp::Filter(input, condition) => {
            let known = known_of(alloc, sources, input.id)?;
            filtered(alloc, &known, condition, places)
        }
        FinalOp::Map(input, columns) => {
            let known = known_of(alloc, sources, input.id)?;
            mapped(alloc, &known, columns.as_slice(), true, places)
        }
        FinalOp::Group(input, keys, fold) => {
            let known = known_of(alloc, sources, input.id)?;
            grouped(alloc, items, &known, keys.as_slice(), *fold, places)
        }
        FinalOp::Join(one, other) => {
            let left = known_of(alloc, sources, one.id)?;
            let right = known_of(alloc, sources, other.id)?;
            joined(alloc, &left, &right)
        }
        FinalOp::Top(input, _, _, _) => known_of(alloc, sources, input.id),
    }
}

// The number of the name with this text, and one that no name has where there is none, or more of them than a query has.
fn number_of(names: &Names, text: &[u8]) -> u32 {
    if names.len() < 65536 {
        names.find(text)
    } else {
        u32::MAX
    }
}

// The stream of all packets, whose `tout` may be infinity.
fn packets(alloc: Global, q: &Query) -> Result<Source, AllocError> {
    let mut known = Known::nothing(alloc);
    known.times.push(number_of(&q.names, b"tout"))?;
    Ok(Source {
        id: number_of(&q.names, b"pktstream"),
        known,
    })
}

/// The places of `tout`, or of what is made of it, where a dropped packet's infinity is reckoned with.
pub fn losses_of(alloc: Global, q: &Query) -> Result<Seq<Name>, AllocError> {
    let mut places = Seq::new(alloc);
    let mut sources = Seq::new(alloc);
    sources.push(packets(alloc, q)?)?;
    let items = q.items.as_slice();
    for item in items {
        let made = match item {
            Item::Stream(d) => {
                let known = known_stream(alloc, items, sources.as_slice(), &d.op, &mut places)?;
                Some(Source {
                    id: d.name.id,
                    known,
                })
            }
            Item::Final(d) => {
                let known = known_final(alloc, items, sources.as_slice(), &d.op, &mut places)?;
                Some(Source {
                    id: d.name.id,
                    known,
                })
            }
            Item::Fold(_) | Item::Print(_) => None,
        };
        if let Some(source) = made {
            sources.push(source)?;
        }
    }
    Ok(places)
}
