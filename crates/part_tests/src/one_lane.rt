//! One lane, driven by its own calls, compared with a table that was worked out by hand.

ghost use Rattle.std.specs.Prelude.{◌≡◌, IfOk, length};
ghost use Rattle.fold_class.specs.Program.{IsProgram};

use crate::compare::{holds, same};
use crate::counter::{Counting, counted};
use crate::fold_programs::{HASH, program_of};
use crate::one_bucket::exact_rows;
use epoch_entry::{AnyEpochs, EpochKind};
use final_queries::{Table, TableKind};
use fold_class::FoldProgram;
use marple_base::{Seq, Steps, Text};
use query_lang::Class;
use std::alloc::{AllocError, Global};
use std::process::Abort;
use std::sync::ledger::Ledger;
use std::test::Fail;
use switch_core::{Lane, Merged};

/// A packet's key and its length.
struct Turn(u64, u64);

/// Two keys in turn with lengths, so that in a bucket of one way each packet but the first evicts the other key.
const TURNS: [Turn; 4] = [Turn(1, 1), Turn(2, 9), Turn(1, 2), Turn(2, 0)];

// The packets, and an eviction of the one epoch that is open after them.
fn take_turns<K: EpochKind, const WAYS: usize, L: Ledger>(
    rt: &impl Abort,
    lane: &mut Lane<K, WAYS>,
    steps: &mut Steps<L>,
)
    requires { lane.old.cache.key_words ≡ 1 }
    ensures { lane.new.cache.key_words ≡ 1 }
{
    for &Turn(key, length) in &TURNS {
        holds(rt, "ready for a packet", lane.ready());
        same(rt, "the arguments", lane.kind().args_words(), 1);
        lane.packet(&[key], &[length], steps);
    }
    same(rt, "the records in the pipe", lane.piped(), 3);
    same(rt, "the open epochs", lane.held(), 1);
    holds(rt, "ready for an eviction", lane.ready());
    lane.invariant();
    holds(rt, "an eviction", lane.evict(0, steps));
}

/// The merges of four records, after which the pipe is empty.
const MERGES: &[Merged] = &[
    Merged::Done,
    Merged::Done,
    Merged::Done,
    Merged::Done,
    Merged::Empty,
];

// Merges all records.
fn merge_all<K: EpochKind, const WAYS: usize, L: Ledger>(
    rt: &impl Abort,
    lane: &mut Lane<K, WAYS>,
    steps: &mut Steps<L>,
) -> Result<(), AllocError>
    requires { lane.old.cache.key_words ≡ 1 }
    ensures { lane.new.cache.key_words ≡ 1 }
{
    for (record, merged) in MERGES.iter().enumerate() {
        same(
            rt,
            "a record and its merge",
            (record, lane.merge(steps)?),
            (record, *merged),
        );
    }
    Ok(())
}

// A sequence of one name.
fn one_name(alloc: Global, name: &[u8]) -> Result<Seq<Text>, AllocError>
    ensures { IfOk result (λ names. length names ≡ 1) }
{
    let mut names = Seq::new(alloc);
    names.push(Text::from_slice(alloc, name)?)?;
    Ok(names)
}

// The table of a lane's closed epochs, which has a row for each key.
fn close<K: EpochKind, const WAYS: usize>(
    rt: &impl Abort,
    alloc: Global,
    lane: &Lane<K, WAYS>,
) -> Result<Table, AllocError>
    requires { lane.now.cache.key_words ≡ 1 }
{
    holds(rt, "all is merged", lane.drained());
    holds(rt, "a row for each key", !lane.kind().row_per_epoch());
    let name = Text::from_slice(alloc, b"r")?;
    let keys = one_name(alloc, b"srcip")?;
    let states = one_name(alloc, b"h")?;
    lane.close(name, keys, states, Class::Linear, 0)
}

// The rows of a lane's closed epochs are those that were worked out.
fn compare_rows<K: EpochKind, const WAYS: usize>(
    rt: &impl Abort,
    alloc: Global,
    lane: &Lane<K, WAYS>,
) -> Result<(), AllocError>
    requires { lane.now.cache.key_words ≡ 1 }
{
    let table = close(rt, alloc, lane)?;
    let kind = TableKind::Group(Class::Linear, 0, 4);
    same(rt, "the kind", table.kind, kind);
    let rows = exact_rows(rt, alloc, &table)?;
    // key 1 with lengths 1 and 2, and key 2 with 9 and 0, each in two epochs; merged the other way round, key 1 has 63
    let expected = [1, 2, 1 * 31 + 2, 2, 2, 9 * 31 + 0];
    same(rt, "the rows", rows.as_slice(), &expected);
    Ok(())
}

// The packets, an eviction after them and the merges of all records, after which the lane has those rows.
fn make_turns<K: EpochKind, const WAYS: usize, L: Ledger>(
    rt: &impl Abort,
    alloc: Global,
    lane: &mut Lane<K, WAYS>,
    steps: &mut Steps<L>,
) -> Result<(), AllocError>
    requires { lane.old.cache.key_words ≡ 1 }
{
    take_turns(rt, lane, steps);
    merge_all(rt, lane, steps)?;
    compare_rows(rt, alloc, lane)
}

// A lane for the entries of a fold's program, with keys of one word, one bucket, and a pipe for four records.
fn made_lane(
    rt: &impl Abort,
    alloc: Global,
    program: FoldProgram,
) -> Result<Lane<AnyEpochs, 1>, AllocError>
    requires { IsProgram program }
    ensures { IfOk result (λ lane. lane.cache.key_words ≡ 1) }
{
    let kind = AnyEpochs::of(program);
    holds(rt, "a small entry", kind.entry_words() < 512);
    Lane::new(alloc, kind, 1, 1, 4)
}

/// The same of a new lane for a fold that hashes the lengths.
pub fn compare_turns<L: Ledger>(
    rt: &impl Abort,
    alloc: Global,
    steps: &mut Steps<L>,
) -> Result<(), Fail> {
    let mut lane = made_lane(rt, alloc, program_of(alloc, HASH)?)?;
    Ok(make_turns(rt, alloc, &mut lane, steps)?)
}

#[test]
fn a_lane_merges_the_epochs_of_two_keys(rt: HostRuntime) -> Result<(), Fail> {
    counted(&rt, rt.alloc(), Counting::Turns)
}
