//! Where a fold reckons with the infinity of dropped packets, and which of its variables hold it.

use crate::known::{Known, add, leaves_out};
use crate::losses::{places_in, reads_time};
use marple_base::Seq;
use query_lang::{FoldDef, Name, Stmt};
use std::alloc::{AllocError, Global};

// The places in a statement.
fn in_statement(
    s: &Stmt,
    known: &Known,
    dropped: bool,
    places: &mut Seq<Name>,
) -> Result<(), AllocError> {
    match s {
        Stmt::Emit(_) => Ok(()),
        Stmt::Assign(_, value) => places_in(value, known, dropped, false, places),
        Stmt::If(condition, then, otherwise) => {
            places_in(condition, known, dropped, false, places)?;
            let times = known.times.as_slice();
            let then_dropped = dropped && !leaves_out(condition, true, times);
            let else_dropped = dropped && !leaves_out(condition, false, times);
            'then_block: for inner in then.as_slice() {
                in_statement(inner, known, then_dropped, places)?;
            }
            'else_block: for inner in otherwise.as_slice() {
                in_statement(inner, known, else_dropped, places)?;
            }
            Ok(())
        }
    }
}

// Adds to `kept` the variables that a statement gives `tout`, or what is made of it.
fn keep_in(
    alloc: Global,
    s: &Stmt,
    known: &Known,
    dropped: bool,
    kept: &mut Seq<u32>,
) -> Result<(), AllocError> {
    match s {
        Stmt::Emit(_) => Ok(()),
        Stmt::Assign(target, value) => {
            if dropped && reads_time(value, known) {
                let mut places = Seq::new(alloc);
                places_in(value, known, dropped, false, &mut places)?;
                if places.is_empty() {
                    add(kept, target.id)?;
                }
            }
            Ok(())
        }
        Stmt::If(condition, then, otherwise) => {
            let times = known.times.as_slice();
            let then_dropped = dropped && !leaves_out(condition, true, times);
            let else_dropped = dropped && !leaves_out(condition, false, times);
            'then_block: for inner in then.as_slice() {
                keep_in(alloc, inner, known, then_dropped, kept)?;
            }
            'else_block: for inner in otherwise.as_slice() {
                keep_in(alloc, inner, known, else_dropped, kept)?;
            }
            Ok(())
        }
    }
}

// The variables of a fold that hold `tout`, or what is made of it, of a packet that may have been dropped. Each round finds
// one more at least, so there are no more of them than variables.
fn kept_after(alloc: Global, d: &FoldDef, known: &Known) -> Result<Seq<u32>, AllocError> {
    let mut kept = Seq::new(alloc);
    for _state in d.states.as_slice() {
        let mut more = known.copy(alloc)?;
        for id in kept.as_slice() {
            add(&mut more.times, *id)?;
        }
        let dropped = more.dropped;
        for s in d.body.as_slice() {
            keep_in(alloc, s, &more, dropped, &mut kept)?;
        }
    }
    Ok(kept)
}

// The names of arguments.
fn names_of(alloc: Global, args: &[Name]) -> Result<Seq<u32>, AllocError> {
    let mut ids = Seq::new(alloc);
    for arg in args {
        ids.push(arg.id)?;
    }
    Ok(ids)
}

/// The places in a fold's body, and what its variables hold then.
pub(crate) fn in_fold(
    alloc: Global,
    d: &FoldDef,
    known: &Known,
    places: &mut Seq<Name>,
) -> Result<Seq<u32>, AllocError> {
    let arguments = names_of(alloc, d.args.as_slice())?;
    let inside = known.named(alloc, arguments.as_slice())?;
    for s in d.body.as_slice() {
        in_statement(s, &inside, inside.dropped, places)?;
    }
    let kept = kept_after(alloc, d, &inside)?;
    for id in kept.as_slice() {
        let mut alone = Known::nothing(alloc);
        alone.times.push(*id)?;
        for s in d.body.as_slice() {
            in_statement(s, &alone, true, places)?;
        }
    }
    Ok(kept)
}
