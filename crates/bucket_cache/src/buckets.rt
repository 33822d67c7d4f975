//! One of the buckets whose parts are stored one after another.

ghost use Rattle.std.specs.Prelude.{◌≡◌, ◌+◌, ◌-◌, ◌<◌, ◌≤◌, length, take, false, slice_set};
ghost use Rattle.bucket_cache.specs.{Buckets.has_key, FlatBuckets.{lists_in, list_in, AreBuckets}};
ghost use Rattle.bucket_cache.specs.Touches.{Touches, IsLeast, IsNotFirst, with_pair_first, touch_cost, replace_cost};

use crate::bucket::Touch;
use crate::ways::{replace_way, touch_ways};
use marple_base::Steps;
use std::sync::ledger::Ledger;

/// Brings the key to the front of a bucket where it is there or where a place is free. The first pair has another key: so
/// many words were compared to see it.
/// `used` has a number for each bucket, `order` its `ways`, and `words` the words of their keys.
#[inline(always)]
#[tactic(auto, using(crate::proofs::LentBuckets::bounded))]
pub fn touch_bucket<L: Ledger>(
    bucket: usize,
    ways: usize,
    used: &mut [u32],
    order: &mut [u16],
    words: &mut [u64],
    key: &[u64],
    compared: usize,
    steps: &mut Steps<L>,
) -> Touch
    requires range { bucket < length used.old }
    requires buckets { AreBuckets ways (length key.now) used.old order.old words.old }
    requires other { IsNotFirst key.now (list_in ways (length key.now) used.old order.old words.old bucket) }
    requires compared { compared ≤ length key.now }
    ensures buckets { AreBuckets ways (length key.now) used.new order.new words.new }
    ensures touched { Touches ways key.now (list_in ways (length key.now) used.old order.old words.old bucket) result
        (list_in ways (length key.now) used.new order.new words.new bucket) }
    ensures rest { lists_in ways (length key.now) used.new order.new words.new
        ≡ slice_set (lists_in ways (length key.now) used.old order.old words.old) bucket
        (list_in ways (length key.now) used.new order.new words.new bucket) }
    ensures steps { steps.old ≤ steps.new }
    ensures cost { steps.new ≤ steps.old + touch_cost ways (length key.now) result }
{
    let first = bucket * ways;
    let width = ways * key.len();
    let start = bucket * width;
    touch_ways(
        first,
        &mut used[bucket],
        &mut order[first..first + ways],
        &mut words[start..start + width],
        key,
        compared,
        steps,
    )
}

/// Gives the least recently used place of a full bucket to the key.
/// `used` has a number for each bucket, `order` its `ways`, and `words` the words of their keys.
#[tactic(auto, using(crate::proofs::LentBuckets::bounded))]
pub fn replace_in_bucket<L: Ledger>(
    bucket: usize,
    ways: usize,
    used: &[u32],
    order: &mut [u16],
    words: &mut [u64],
    key: &[u64],
    steps: &mut Steps<L>,
) -> usize
    requires range { bucket < length used.now }
    requires buckets { AreBuckets ways (length key.now) used.now order.old words.old }
    requires full { length (list_in ways (length key.now) used.now order.old words.old bucket) ≡ ways }
    requires absent { has_key key.now (list_in ways (length key.now) used.now order.old words.old bucket) ≡ false }
    ensures buckets { AreBuckets ways (length key.now) used.now order.new words.new }
    ensures place { IsLeast (list_in ways (length key.now) used.now order.old words.old bucket) result }
    ensures pairs { let old = list_in ways (length key.now) used.now order.old words.old bucket in
        lists_in ways (length key.now) used.now order.new words.new
        ≡ slice_set (lists_in ways (length key.now) used.now order.old words.old) bucket
        (with_pair_first key.now result (take (length old - 1) old)) }
    ensures cost { steps.new ≡ steps.old + replace_cost ways (length key.now) }
{
    let first = bucket * ways;
    let width = ways * key.len();
    let start = bucket * width;
    let _used = used;
    replace_way(
        first,
        &mut order[first..first + ways],
        &mut words[start..start + width],
        key,
        steps,
    )
}
