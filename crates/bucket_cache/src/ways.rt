//! The ways of one bucket: their order by recent use, with free ways at the end, and the words of their keys.

ghost use Rattle.std.specs.Prelude.{◌≡◌, ℕ, ◌+◌, ◌-◌, ◌*◌, ◌<◌, ◌≤◌, length, take, slice_index, slice_index_or, slice_set, IfSome, IfNone};
ghost use Rattle.std.specs.Prelude.{true, false, All, []};
ghost use Rattle.epoch_model.specs.Keys.{key_eq};
ghost use Rattle.bucket_cache.specs.{Slices.at_front, Buckets.{pairs_at, has_key, way_keys, IsBucket}};
ghost use Rattle.bucket_cache.specs.Touches.{Touches, IsLeast, IsNotFirst, with_pair_first, touch_cost, replace_cost};

use crate::bucket::Touch;
use crate::slices;
use marple_base::{Steps, copy_words};
use std::sync::ledger::Ledger;

// Where the key is among the ways in use after the first one, which has another key: so many words were compared to see it.
#[inline(always)]
fn find_key<L: Ledger>(
    order: &[u16],
    used: usize,
    words: &[u64],
    key: &[u64],
    mut compared: usize,
    steps: &mut Steps<L>,
) -> Option<usize>
    requires within { used ≤ length order.now }
    requires ways { All (λ way. way < length order.now) order.now }
    requires flat { length words.now ≡ length order.now * length key.now }
    requires other { 0 < used → key_eq
        (slice_index_or (way_keys key.now order.now words.now) (slice_index order.now 0) []) key.now ≡ false }
    requires compared { compared ≤ length key.now }
    ensures found { IfSome result (λ at. at < used) }
    ensures same { IfSome result (λ at. key_eq
        (slice_index_or (way_keys key.now order.now words.now) (slice_index order.now at) []) key.now ≡ true) }
    ensures none { IfNone result ((at : ℕ) → at < used
        → key_eq (slice_index_or (way_keys key.now order.now words.now) (slice_index order.now at) []) key.now ≡ false) }
    ensures steps { steps.old ≤ steps.new }
    ensures cost { steps.new ≤ steps.old + used * length key.now }
{
    if used == 0 {
        return None;
    }
    for i in 1..used {
        let held = slices::row(words, key.len(), order[i] as usize);
        let (same, more) = slices::compare(held, key);
        compared += more;
        if same {
            steps.tick_many(compared as u64);
            return Some(i);
        }
    }
    steps.tick_many(compared as u64);
    None
}

/// Moves a way to the front and gives it the key. Returns the way.
fn put<L: Ledger>(
    order: &mut [u16],
    words: &mut [u64],
    at: usize,
    key: &[u64],
    steps: &mut Steps<L>,
) -> usize
    requires within { at < length order.old }
    requires ways { All (λ way. way < length order.old) order.old }
    requires flat { length words.old ≡ length order.old * length key.now }
    ensures way { result ≡ slice_index order.old at }
    ensures moved { order.new ≡ at_front at order.old }
    ensures keys { way_keys key.now order.old words.new ≡ slice_set (way_keys key.now order.old words.old) result key.now }
    ensures cost { steps.new ≡ steps.old + (at + 1) + length key.now }
{
    let way = slices::way_at(order.len(), order, at);
    slices::move_to_front(order, at, steps);
    let start = way * key.len();
    copy_words(key, &mut words[start..start + key.len()], steps);
    way
}

/// Brings the key to the front of the ways in use where it is there or where a way is free. The first way in use has another
/// key: so many words were compared to see it.
#[inline(always)]
pub fn touch_ways<L: Ledger>(
    first: usize,
    used: &mut u32,
    order: &mut [u16],
    words: &mut [u64],
    key: &[u64],
    compared: usize,
    steps: &mut Steps<L>,
) -> Touch
    requires bucket { IsBucket first (length key.now) used.old order.old (way_keys key.now order.old words.old) }
    requires flat { length words.old ≡ length order.old * length key.now }
    requires other { IsNotFirst key.now (pairs_at first (way_keys key.now order.old words.old) (take used.old order.old)) }
    requires compared { compared ≤ length key.now }
    ensures bucket { IsBucket first (length key.now) used.new order.new (way_keys key.now order.old words.new) }
    ensures touched { Touches (length order.old) key.now
        (pairs_at first (way_keys key.now order.old words.old) (take used.old order.old)) result
        (pairs_at first (way_keys key.now order.old words.new) (take used.new order.new)) }
    ensures steps { steps.old ≤ steps.new }
    ensures cost { steps.new ≤ steps.old + touch_cost (length order.old) (length key.now) result }
{
    match find_key(order, *used as usize, words, key, compared, steps) {
        Some(at) => {
            let way = slices::way_at(order.len(), order, at);
            slices::move_to_front(order, at, steps);
            Touch::Hit(first + way)
        }
        None => {
            if (*used as usize) < order.len() {
                let way = put(order, words, *used as usize, key, steps);
                *used += 1;
                Touch::Free(first + way)
            } else {
                let way = slices::way_at(order.len(), order, *used as usize - 1);
                Touch::Full(first + way)
            }
        }
    }
}

/// Gives the least recently used way of a full bucket to the key.
pub fn replace_way<L: Ledger>(
    first: usize,
    order: &mut [u16],
    words: &mut [u64],
    key: &[u64],
    steps: &mut Steps<L>,
) -> usize
    requires bucket { IsBucket first (length key.now) (length order.old) order.old (way_keys key.now order.old words.old) }
    requires flat { length words.old ≡ length order.old * length key.now }
    requires absent { has_key key.now (pairs_at first (way_keys key.now order.old words.old) (take (length order.old) order.old)) ≡ false }
    ensures bucket { IsBucket first (length key.now) (length order.old) order.new (way_keys key.now order.old words.new) }
    ensures place { IsLeast (pairs_at first (way_keys key.now order.old words.old) (take (length order.old) order.old)) result }
    ensures pairs { let old = pairs_at first (way_keys key.now order.old words.old) (take (length order.old) order.old) in
        pairs_at first (way_keys key.now order.old words.new) (take (length order.old) order.new)
        ≡ with_pair_first key.now result (take (length old - 1) old) }
    ensures cost { steps.new ≡ steps.old + replace_cost (length order.old) (length key.now) }
{
    let last = order.len() - 1;
    let way = put(order, words, last, key, steps);
    first + way
}
