//! How many steps small events take, compared with sums that were worked out from the rules of counting.
//!
//! Where the plan has operations, a packet takes a step for each register, the fourteen fields and the operations; else its
//! words are read where they stand. Where the groupby takes it, it takes one for each word of the key and of the arguments
//! that is read out of the registers, for each word of the key that is hashed, for each word that is compared with a key of
//! the bucket, up to the first that differs, and for each way of the bucket that is moved, from the front to that of the
//! key. A new key is written, and its entry is opened; where the bucket is full, the key and the entry that go are written
//! into the pipe before. Then the row is absorbed. The sums have these parts in this order, with the key and the entry that
//! go before the ways.
//!
//! One run of a fold's body takes a step for the mask of the whole body, for each node of an expression, and for each of the
//! two masks of an `if`, and two for an assignment: the choice of its value, and the variable.
//!
//! The entry of a linear fold has the number of logged rows, the log, the history and the map. All but the log is written
//! where it is opened. A row that is logged takes the history read and written, a run of the body, the arguments and the
//! number. In a translation each later row takes the history and the last column of the map read and written, and a run of
//! the body. In any other linear fold it takes, for each column of the map, a part of each variable, a run of the body and
//! the words of the column, then the history, a product for each element of the map and each linear variable, and the
//! words of the map.
//!
//! An eviction writes the key and the entry into the pipe, and takes one for the bucket that has a key less. At a merge the
//! body is run on each logged row of the entry, which stays in the pipe until then; where the log is full, each linear
//! variable is read, has a product with each of them, is copied and is written, and the history is written. In a translation
//! without a history each variable is moved at once. What the store does to find the key isn't counted.

ghost use Rattle.std.specs.Prelude.{◌<◌, ◌≤◌};

use crate::compare::same;
use crate::counter::{Counting, counted};
use crate::direct::QUERY;
use crate::one_bucket::Event::{self, Evict, Merge, Packet, Sweep};
use crate::one_bucket::OneBucket;
use epoch_entry::Entries;
use marple_base::Steps;
use std::alloc::Global;
use std::process::Abort;
use std::sync::ledger::Ledger;
use std::test::Fail;

/// An event, and the steps that it takes.
struct Counted(Event, u64);

/// A query with one groupby, and events in sequence, each with the steps that it takes. The pipe has room for one record.
#[derive(Clone, Copy)]
struct Case {
    name: &'static str,
    query: &'static [u8],
    events: &'static [Counted],
}

/// A translation without a history, after a filter of two operations: the comparison, and whether there is a packet and it
/// holds. So there are 14 + 2 registers. The body takes 1 + 3 + 2 steps. The entry has 1 + 2 words, which are all written
/// where it is opened, and a row takes 1 read + 6 + 1 written.
const FILTERED: Case = Case {
    name: "filtered",
    query: b"def count([c],[]) { c = c + 1; } f = filter(pktstream, pkt_len < 1000); r = groupby(f, [srcip], count); print r;",
    events: &[
        // a new key: 16 registers + 1 word of the key + 1 of it hashed + 1 way + 1 word of the key written + 3 of the entry
        // + 8 for the row
        Counted(Packet(1, 100), 16 + 1 + 1 + 1 + 1 + 3 + 8),
        // a key that is there: 16 registers + 1 word of the key + 1 hashed + 1 compared + 1 way + 8 for the row
        Counted(Packet(1, 100), 16 + 1 + 1 + 1 + 1 + 8),
        // one that evicts: 16 registers + 1 word of the key + 1 hashed + 1 compared + 1 word of the other key and 3 of its
        // entry into the pipe + 1 way + 1 word of the key written + 3 of the entry + 8 for the row
        Counted(Packet(2, 100), 16 + 1 + 1 + 1 + (1 + 3) + 1 + 1 + 3 + 8),
        // 1 variable moved
        Counted(Merge, 1),
        // a packet that the filter drops: 16 registers
        Counted(Packet(3, 1000), 16),
        // 1 word of the key and 3 of the entry into the pipe + 1 for the bucket that has a key less
        Counted(Evict, (1 + 3) + 1),
        // the pipe is full, and no epoch is open: a merge
        Counted(Sweep, 1),
        // nothing is left
        Counted(Evict, 0),
        Counted(Merge, 0),
        Counted(Sweep, 0),
        // the same new key, and the same eviction by a packet
        Counted(Packet(1, 100), 31),
        Counted(Packet(2, 100), 36),
        // the pipe is full before the eviction and after it: a merge + an eviction + a merge
        Counted(Sweep, 1 + 5 + 1),
    ],
};

/// The same fold without a filter, by two words of a key, so that no register is written and a row takes 8. The bucket has
/// two ways.
const TWO_WAYS: Case = Case {
    name: "two ways",
    query: b"def count([c],[]) { c = c + 1; } r = groupby(pktstream, [srcip, pkt_len], count); print r;",
    events: &[
        // a new key
        Counted(Packet(1, 100), 2 + 2 + 1 + 2 + 3 + 8),
        // a key that differs in its second word
        Counted(Packet(1, 200), 2 + 2 + 2 + 2 + 2 + 3 + 8),
        // the key that is found second, after 2 words that are compared with the other key
        Counted(Packet(1, 100), 2 + 2 + (2 + 2) + 2 + 8),
        // it is found first
        Counted(Packet(1, 100), 2 + 2 + 2 + 1 + 8),
        // a key that differs from both in its first word, and evicts the last one
        Counted(Packet(2, 100), 2 + 2 + (1 + 1) + (2 + 3) + 2 + 2 + 3 + 8),
        // a full pipe and two open epochs: three merges and two evictions
        Counted(Sweep, 3 * 1 + 2 * ((2 + 3) + 1)),
        // a new key, and then an eviction and a merge by themselves
        Counted(Packet(1, 100), 2 + 2 + 1 + 2 + 3 + 8),
        Counted(Evict, (2 + 3) + 1),
        Counted(Merge, 1),
    ],
};

/// Two linear variables that aren't only moved, and one that is remembered. The body takes 1 + (3 + 2) for its condition,
/// (3 + 2) and (1 + 2) and (5 + 2) for assignments, so 21. The entry has 1 + 1 logged + 1 remembered + 2 * 3 words.
const COMPOSED: Case = Case {
    name: "composed",
    query: QUERY,
    events: &[
        // a new key, whose row is logged: 2 for the history + 21 + 1 argument + 1 for the number
        Counted(
            Packet(1, 4),
            1 + 1 + 1 + 1 + 1 + (1 + 1 + 6) + (2 + 21 + 1 + 1),
        ),
        // the log is full: 3 columns of 3 parts, 21 and 2 words + 1 of the history + 6 elements with 2 products each
        // + 6 words of the map
        Counted(
            Packet(1, 4),
            1 + 1 + 1 + 1 + 1 + 3 * (3 + 21 + 2) + 1 + 6 * 2 + 6,
        ),
        // it evicts, and its row is logged
        Counted(Packet(2, 4), 1 + 1 + 1 + 1 + (1 + 9) + 1 + 1 + 8 + 25),
        // 21 for the logged row + 2 variables read + 4 products
        // + 2 copied + 2 written + 1 of the history
        Counted(Merge, 21 + 2 + 4 + 2 + 2 + 1),
        Counted(Evict, (1 + 9) + 1),
    ],
};

/// A translation that looks two rows back, with two arguments. The body takes 1 + (5 + 2) + (1 + 2) + (1 + 2) steps. The
/// entry has 1 + 2 * 2 logged + 2 remembered + 2 words.
const MOVED: Case = Case {
    name: "moved",
    query: b"def gaps([s, a, b],[tin, tout]) { s = s + tout - a; a = b; b = tin; } r = groupby(pktstream, [srcip], gaps); print r;",
    events: &[
        // a new key, whose row is logged: 2 * 2 for the history + 14 + 2 arguments + 1 for the number
        Counted(
            Packet(1, 4),
            1 + 2 + 1 + 1 + 1 + (1 + 2 + 2) + (4 + 14 + 2 + 1),
        ),
        // the second row is logged too
        Counted(Packet(1, 4), 1 + 2 + 1 + 1 + 1 + 21),
        // the log is full: 4 for the history + 1 element read + 14 + 1 written
        Counted(Packet(1, 4), 1 + 2 + 1 + 1 + 1 + (4 + 1 + 14 + 1)),
        // it evicts, and its row is logged
        Counted(Packet(2, 4), 1 + 2 + 1 + 1 + (1 + 9) + 1 + 1 + 5 + 21),
        // a full log: 2 * 14 for the logged rows + 1 variable read
        // + 1 product + 1 copied + 1 written + 2 of the history
        Counted(Merge, 2 * 14 + 1 + 1 + 1 + 1 + 2),
        Counted(Evict, (1 + 9) + 1),
        // a log of one row: 14 for the row
        Counted(Merge, 14),
    ],
};

/// A fold that isn't linear. The body takes 1 + (5 + 2) steps, and the entry is the state of one word, which a merge takes.
const OTHER: Case = Case {
    name: "other",
    query: b"def avg([e],[qsize]) { e = decay(e, 3) + qsize; } r = groupby(pktstream, [srcip], avg); print r;",
    events: &[
        // a new key, with a run of the body for its row, and the same again
        Counted(Packet(1, 4), 1 + 1 + 1 + 1 + 1 + 1 + 1 + (5 + 2)),
        Counted(Packet(1, 4), 1 + 1 + 1 + 1 + 1 + 8),
        Counted(Evict, (1 + 1) + 1),
        Counted(Merge, 1),
    ],
};

/// The bounds of the same fold: three states side by side.
const BOUNDS: Case = Case {
    name: "bounds",
    events: &[
        // a new key, and the same again
        Counted(Packet(1, 4), 1 + 1 + 1 + 1 + 1 + 3 + 3 * 8),
        Counted(Packet(1, 4), 1 + 1 + 1 + 1 + 1 + 3 * 8),
        Counted(Evict, (1 + 3) + 1),
        Counted(Merge, 3),
    ],
    ..OTHER
};

/// Maxima, whose elements have two words, of a variable that isn't only moved. The body takes 1 + (5 + 2) steps. The entry
/// has 1 + 2 * 2 words.
const COMPOSED_MAXIMA: Case = Case {
    name: "composed maxima",
    query: b"def peak([p],[qsize]) { p = max(sadd(p, 3), qsize); } r = groupby(pktstream, [srcip], peak); print r;",
    events: &[
        // a new key: of the row 2 columns of 1 part, 8 and 2 words + 2 elements with 1 product each + 4 words of the map
        Counted(
            Packet(1, 4),
            1 + 1 + 1 + 1 + 1 + 5 + 2 * (1 + 8 + 2) + 2 + 4,
        ),
        // it is there
        Counted(Packet(1, 4), 1 + 1 + 1 + 1 + 1 + 28),
        Counted(Evict, (1 + 5) + 1),
        Counted(Merge, 1 + 1 + 1 + 1),
    ],
};

/// Maxima that only move the variable. The body takes 1 + (3 + 2) steps, and the entry has 1 + 2 * 2 words.
const MOVED_MAXIMA: Case = Case {
    name: "moved maxima",
    query: b"def deepest([m],[qsize]) { m = max(m, qsize); } r = groupby(pktstream, [srcip], deepest); print r;",
    events: &[
        // a new key: of the row 1 word of the state from the map + 6 + 2 words of an element
        Counted(Packet(1, 4), 1 + 1 + 1 + 1 + 1 + 5 + (1 + 6 + 2)),
        // it is there
        Counted(Packet(1, 4), 1 + 1 + 1 + 1 + 1 + 9),
        Counted(Evict, (1 + 5) + 1),
        Counted(Merge, 1),
    ],
};

/// The cases of entries for folds whose bucket has one way.
const OF_ONE_WAY: [Case; 6] = [
    FILTERED,
    COMPOSED,
    MOVED,
    OTHER,
    COMPOSED_MAXIMA,
    MOVED_MAXIMA,
];

// Makes the events of a case, each of which takes exactly its steps.
fn make_all<const WAYS: usize, L: Ledger>(
    rt: &impl Abort,
    one: &mut OneBucket<WAYS>,
    case: &Case,
    steps: &mut Steps<L>,
) -> Result<(), Fail> {
    for (i, counted) in case.events.iter().enumerate() {
        let before = steps.shown();
        let _has_ended = one.make(rt, counted.0, steps)?;
        let taken = steps.shown().saturating_sub(before);
        same(rt, case.name, (i, taken), (i, counted.1));
    }
    Ok(())
}

// The same of a new pipeline, with entries for this.
fn compare<const WAYS: usize, L: Ledger>(
    rt: &impl Abort,
    alloc: Global,
    case: &Case,
    entries: Entries,
    steps: &mut Steps<L>,
) -> Result<(), Fail>
    requires some_ways { 0 < WAYS }
    requires few_ways { WAYS ≤ 65536 }
{
    let mut one = OneBucket::<WAYS>::new(alloc, case.query, entries, 1)?;
    make_all(rt, &mut one, case, steps)
}

/// The same of each case.
pub fn compare_cases<L: Ledger>(
    rt: &impl Abort,
    alloc: Global,
    steps: &mut Steps<L>,
) -> Result<(), Fail> {
    compare::<2, L>(rt, alloc, &TWO_WAYS, Entries::Folds, steps)?;
    compare::<1, L>(rt, alloc, &BOUNDS, Entries::Bounds, steps)?;
    for case in &OF_ONE_WAY {
        compare::<1, L>(rt, alloc, case, Entries::Folds, steps)?;
    }
    Ok(())
}

#[test]
fn events_take_their_steps(rt: HostRuntime) -> Result<(), Fail> {
    counted(&rt, rt.alloc(), Counting::Events)
}
