//! The steps that finals take, beside those of the groupbys, compared with sums that were worked out from the rules of
//! counting.
//!
//! A final takes a step for each operation of an expression, for each word of a key or of arguments that is read out of a
//! row's columns, for each word that is compared, and for each word of a row that is written. A `map` and a `join` take one
//! more for each value that is copied before, and a `groupby` the steps of its fold's body. A `top` takes two for the rank of
//! each row, and four for its two comparisons.

use crate::call::sources::COUNT;
use crate::call::{Outside, compare};
use crate::count::steps_of;
use marple_base::Text;
use std::alloc::{AllocError, Global};
use std::process::Abort;

/// Two groupbys of the five packets. Each has three rows, of one word of a key and one value: the packets of a source, 2, 2 and 1,
/// and the sums of it.
const GROUPS: &[u8] =
    b"def count([c], []) { c = c + 1; } def total([s], [srcip]) { s = s + srcip; } \
def sum([n], [c]) { n = n + c; } r = groupby(pktstream, [srcip], count); t = groupby(pktstream, [srcip], total); ";

/// Finals that are printed, and the steps that they take.
const FINALS: &[(&str, u64)] = &[
    // 1 operation for each row, and two rows of 1 word of the key and 1 value
    ("final f = filter(r, c > 1); print f;", 3 * 1 + 2 * (1 + 1)),
    // of each row 1 value copied, 1 operation and 1 new value, and then 1 word of the key and 2 values
    (
        "final f = map(r, [d = c + 1]); print f;",
        3 * (1 + 1 + 1 + (1 + 2)),
    ),
    // of each row 1 word of the key, 1 argument, and a run of the body: 1 mask + 3 nodes + 2 for the assignment
    (
        "final f = groupby(r, [srcip], sum); print f;",
        3 * (1 + 1 + (1 + 3 + 2)),
    ),
    // of each row 2 words of its rank and 4 compared, and one row of 1 word of the key and 1 value
    ("final f = top(r, c, 1); print f;", 3 * (2 + 4) + (1 + 1)),
    // the first row compares 1 word with 1 row and the others with 2 rows each; of each row 1 word of the key compared with
    // that of the row that was found, 2 values copied, and then 1 word of the key and 2 values
    (
        "final f = join(r, t); print f;",
        (1 + 2 + 2) + 3 * (1 + 2 + (1 + 2)),
    ),
];

// The steps of a run of the query that ends in this text after the groupbys.
fn steps_with(rt: &impl Abort, alloc: Global, ending: &str) -> Result<u64, AllocError> {
    let mut query = Text::from_slice(alloc, GROUPS)?;
    query.push_slice(ending.as_bytes())?;
    let outside = Outside {
        query: query.as_slice(),
        ..COUNT
    };
    steps_of(rt, alloc, &outside)
}

#[test]
fn finals_take_their_steps(rt: HostRuntime) -> Result<(), AllocError> {
    let alloc = rt.alloc();
    let without = steps_with(&rt, alloc, "print r;")?;
    for (text, counted) in FINALS {
        let steps = steps_with(&rt, alloc, text)?;
        compare(&rt, steps.saturating_sub(without), *counted, text);
    }
    Ok(())
}
