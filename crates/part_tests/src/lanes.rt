//! A lane under every order of seven events, beside what the definition says of its keys.
ghost use Rattle.std.specs.Prelude.{◌<◌, ◌≤◌};

use crate::compare::{holds, same};
use crate::counter::{Counting, counted};
use crate::direct::{QUERY, TwoKeys};
use crate::one_bucket::{Event, OneBucket, exact_rows};
use epoch_entry::Entries;
use marple_base::Steps;
use std::alloc::{AllocError, Global};
use std::process::Abort;
use std::sync::ledger::Ledger;
use std::test::Fail;

/// The lengths of the packets among the seven events.
const LENGTHS: [u64; 7] = [4, 4, 9, 9, 4, 9, 4];

// The event of a number below 4, whose packet has this length.
fn event_of(number: u32, length: u64) -> Event {
    match number {
        0 => Event::Packet(1, length),
        1 => Event::Packet(2, length),
        2 => Event::Evict,
        _ => Event::Merge,
    }
}

// The seven events that a number has as its digits to the base 4, and after them evictions and merges that close and merge
// all epochs; and how many of the events are packets.
fn listed(number: u32) -> ([Event; 15], u32) {
    let mut rest = number;
    let mut events = [Event::Merge; 15];
    let mut packets = 0u32;
    for i in 0..7 {
        events[i] = event_of(rest % 4, LENGTHS[i]);
        if let Event::Packet(_, _) = events[i] {
            packets = packets.saturating_add(1);
        }
        rest /= 4;
    }
    events[7] = Event::Evict;
    events[8] = Event::Evict;
    (events, packets)
}

// The rows of the only table.
fn rows_of<const WAYS: usize>(
    rt: &impl Abort,
    alloc: Global,
    one: &OneBucket<WAYS>,
) -> Result<Vec<u64>, AllocError> {
    holds(rt, "all is merged", one.pipeline.drained());
    let tables = one.pipeline.close()?;
    same(rt, "the tables", tables.len(), 1);
    exact_rows(rt, alloc, tables.get(0))
}

// Makes events of a lane, and the same of the keys. Then the lane has the rows of the definition.
fn make_all<const WAYS: usize, L: Ledger>(
    rt: &impl Abort,
    alloc: Global,
    one: &mut OneBucket<WAYS>,
    events: &[Event; 15],
    steps: &mut Steps<L>,
) -> Result<(), Fail> {
    let mut keys = TwoKeys::new();
    for event in events {
        let has_ended = one.make(rt, *event, steps)?;
        same(
            rt,
            "whether an epoch ended",
            has_ended,
            keys.make(*event, WAYS),
        );
        same(rt, "the lanes", one.pipeline.lanes(), 1);
        same(rt, "the open epochs", one.pipeline.held(0), keys.held());
    }
    let rows = rows_of(rt, alloc, one)?;
    let direct = keys.rows(alloc)?;
    same(rt, "the rows", rows.as_slice(), direct.as_slice());
    Ok(())
}

// The same of a new lane.
fn compare<const WAYS: usize, L: Ledger>(
    rt: &impl Abort,
    alloc: Global,
    events: &[Event; 15],
    steps: &mut Steps<L>,
) -> Result<(), Fail>
    requires some_ways { 0 < WAYS }
    requires few_ways { WAYS ≤ 65536 }
{
    let mut one = OneBucket::<WAYS>::new(alloc, QUERY, Entries::Folds, 6)?;
    make_all(rt, alloc, &mut one, events, steps)
}

/// Compares after each list of seven events with five packets, for one way and for two.
pub fn compare_lists<L: Ledger>(
    rt: &impl Abort,
    alloc: Global,
    steps: &mut Steps<L>,
) -> Result<(), Fail> {
    let mut lists = 0u32;
    for number in 0..16_384 {
        let (events, packets) = listed(number);
        if packets == 5 {
            compare::<1, L>(rt, alloc, &events, steps)?;
            compare::<2, L>(rt, alloc, &events, steps)?;
            lists = lists.saturating_add(1);
        }
    }
    // the places of the packets among seven, their keys, and what each other event is
    same(rt, "the lists", lists, 21 * 32 * 4);
    Ok(())
}

#[test]
fn every_interleaving_gives_the_folds_of_all_packets(rt: HostRuntime) -> Result<(), Fail> {
    counted(&rt, rt.alloc(), Counting::Lists)
}
