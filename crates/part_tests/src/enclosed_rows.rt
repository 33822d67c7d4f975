//! What is shown of a pipeline for bounds after packets, evictions and merges in no order of a trace, compared with bounds that
//! were worked out by hand.

ghost use Rattle.std.specs.Prelude.{◌≡◌};
ghost use Rattle.epoch_entry.specs.declared.purpose.Entries.TheVariants.{Bounds};

use crate::compare::{holds, same};
use crate::counter::{Counting, counted};
use crate::one_bucket::{Event, OneBucket};
use enclosed_query::enclosed;
use enclosure_folds::{BoundsTable, Enclosed};
use epoch_entry::Entries;
use marple_base::{Seq, Steps};
use std::alloc::Global;
use std::process::Abort;
use std::sync::ledger::Ledger;
use std::test::Fail;

/// A moving average of lengths that is at most 100. A greater state stays at least as great.
const QUERY: &[u8] = b"def avg([e],[pkt_len]) { e = min(sadd(decay(e, 3), pkt_len), 100); } \
r = groupby(pktstream, [srcip], avg); print r;";

/// Events of one bucket of one way. Source 1 has three epochs, of lengths 10, 40 and 8. Source 2 has two, of 20 and 200, and the
/// first of them waits in the pipe while two others come after it. Source 3 has one, of 5.
const EVENTS: [Event; 15] = [
    Event::Packet(1, 10),
    // it evicts source 1, whose epoch is merged at once
    Event::Packet(2, 20),
    Event::Merge,
    // it evicts source 2, and an eviction comes before the next packet
    Event::Packet(1, 40),
    Event::Evict,
    Event::Packet(1, 8),
    // it evicts source 1
    Event::Packet(3, 5),
    // the oldest two of three records
    Event::Merge,
    Event::Merge,
    // it evicts source 3
    Event::Packet(2, 200),
    Event::Evict,
    Event::Merge,
    Event::Merge,
    Event::Merge,
    // nothing is left
    Event::Merge,
];

/// A source, its number of epochs and its bounds.
struct Row(u64, u64, u64, u64);

/// Each source with its number of epochs and its bounds. Those of source 1 are the last epoch's from the least state, 0, and from
/// the greatest, of which any is taken to 100: the fold over all its packets is 10, then 9 + 40, then 43 + 8. Source 2's
/// last packet leads every state to 100. Source 3 has one epoch, so both are its state.
const ROWS: &[Row] = &[Row(1, 3, 8, 100), Row(2, 2, 100, 100), Row(3, 1, 5, 5)];

// The table has the rows that were worked out.
fn compare_rows(rt: &impl Abort, table: &BoundsTable) {
    same(rt, "the epochs of all sources", table.epochs, 6);
    same(rt, "the rows", table.rows.len(), ROWS.len());
    for (at, &Row(source, epochs, low, high)) in ROWS.iter().enumerate() {
        let row = table.rows.get(at);
        same(rt, "a source", row.key.as_slice(), &[source]);
        same(rt, "its epochs", row.epochs, epochs);
        same(rt, "its lower bound", row.low.as_slice(), &[low]);
        same(rt, "its upper bound", row.high.as_slice(), &[high]);
    }
}

// There is one table, of bounds.
fn compare_shown(rt: &impl Abort, shown: &Seq<Enclosed>) {
    same(rt, "the tables", shown.len(), 1);
    match shown.get(0) {
        Enclosed::Bounds(table) => compare_rows(rt, table),
        Enclosed::Linear(_) => panic!(rt; "the fold isn't linear"),
    }
}

// Makes the events, and shows the bounds.
fn make_all<L: Ledger>(
    rt: &impl Abort,
    alloc: Global,
    one: &mut OneBucket<1>,
    steps: &mut Steps<L>,
) -> Result<(), Fail>
    requires { one.old.pipeline.entries ≡ Bounds }
{
    for event in &EVENTS {
        let _has_ended = one.make(rt, *event, steps)?;
    }
    holds(rt, "all is merged", one.pipeline.drained());
    let shown = enclosed(alloc, &one.pipeline)?;
    compare_shown(rt, &shown);
    Ok(())
}

/// The same of a new pipeline, with pipes for four records.
pub fn compare<L: Ledger>(
    rt: &impl Abort,
    alloc: Global,
    steps: &mut Steps<L>,
) -> Result<(), Fail> {
    let mut one = OneBucket::<1>::new(alloc, QUERY, Entries::Bounds, 4)?;
    make_all(rt, alloc, &mut one, steps)
}

#[test]
fn bounds_hold_after_any_events(rt: HostRuntime) -> Result<(), Fail> {
    counted(&rt, rt.alloc(), Counting::Bounds)
}
