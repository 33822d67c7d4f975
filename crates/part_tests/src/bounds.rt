//! The most steps that a packet takes, by plans whose bound was worked out by hand.
//!
//! A packet takes at most a step for each register, the fourteen fields and the operations of the plan, and at each groupby
//! those that follow. A fold of s variables and K keys takes 2 * (K + 1) for each way, (s + 1) runs of its body, s * s *
//! (s + 1) products, six times the most words of an entry with its key, and two for each key and argument.

ghost use Rattle.std.specs.Prelude.{◌<◌, ◌≤◌};

use crate::compare::same;
use crate::one_bucket::OneBucket;
use epoch_entry::Entries;
use std::alloc::Global;
use std::test::Fail;

/// Packets by their source. A run of the body takes 3 nodes + 4 for the statement + 1, and an entry with its key has at most
/// 1 word of the key, 2 of a map, 1 variable and 2 more.
const COUNT: &[u8] =
    b"def count([c],[]) { c = c + 1; } r = groupby(pktstream, [srcip], count); print r;";

/// The same of packets that were long on the way. The operations are the difference, the two comparisons, their conjunction
/// and the filter.
const COUNT_OF_LATE: &[u8] = b"def count([c],[]) { c = c + 1; }\n\
    m = map(pktstream, [lat = tout - tin]);\n\
    f = filter(m, lat > 100 && qsize > 3);\n\
    r = groupby(f, [srcip], count);\n\
    print r;\n";

// The bound of a query's plan, over buckets of these ways.
fn bound_of<const WAYS: usize>(alloc: Global, query: &[u8]) -> Result<u64, Fail>
    requires some_ways { 0 < WAYS }
    requires few_ways { WAYS ≤ 65536 }
{
    let one = OneBucket::<WAYS>::new(alloc, query, Entries::Folds, 1)?;
    Ok(one.pipeline.bound())
}

#[test]
fn bounds_of_packets(rt: HostRuntime) -> Result<(), Fail> {
    // 14 registers + 2 * 2 for a way + 2 * 8 + 2 + 6 * 6 + 2
    same(
        &rt,
        "packets by source",
        bound_of::<1>(rt.alloc(), COUNT)?,
        74,
    );
    // 14 + 5 registers + 8 * 2 * 2 for the ways + 2 * 8 + 2 + 6 * 6 + 2
    same(
        &rt,
        "late packets",
        bound_of::<8>(rt.alloc(), COUNT_OF_LATE)?,
        107,
    );
    Ok(())
}
