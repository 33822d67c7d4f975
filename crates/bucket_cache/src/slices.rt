//! Small work on slices, counted word by word.

ghost use Rattle.std.specs.Prelude.{◌≡◌, ◌+◌, ◌*◌, ◌<◌, ◌≤◌, length, take, drop, slice_index};
ghost use Rattle.epoch_model.specs.Keys.{key_eq};
ghost use Rattle.bucket_cache.specs.Slices.{at_front};

use marple_base::Steps;
use std::sync::ledger::Ledger;

/// Whether two keys of one length are equal, and how many of their words were looked at.
#[inline(always)]
pub fn compare(a: &[u64], b: &[u64]) -> (bool, usize)
    requires { length a.now ≡ length b.now }
    ensures answer { result.0 ≡ key_eq a.now b.now }
    ensures looked { result.1 ≤ length a.now }
{
    for i in 0..a.len() {
        if a[i] != b[i] {
            return (false, i + 1);
        }
    }
    (true, a.len())
}

/// The way at a place in the order of so many ways. Where there is only one, it is known and not read, since it may be far.
#[inline(always)]
pub fn way_at(ways: usize, order: &[u16], at: usize) -> usize
    requires within { at < length order.now }
    requires below { slice_index order.now at < ways }
    ensures { result ≡ slice_index order.now at }
{
    if ways == 1 { 0 } else { order[at] as usize }
}

/// Moves an element to the front, and those before it one place back. Where there is only one, nothing is read.
pub fn move_to_front<L: Ledger>(order: &mut [u16], at: usize, steps: &mut Steps<L>)
    requires { at < length order.old }
    ensures moved { order.new ≡ at_front at order.old }
    ensures cost { steps.new ≡ steps.old + (at + 1) }
{
    if order.len() == 1 {
        steps.tick();
        return;
    }
    let mut carried = order[at];
    for i in 0..at + 1 {
        let next = order[i];
        order[i] = carried;
        carried = next;
    }
    steps.tick_many(at as u64 + 1);
}

/// The sum of the first word and the last one, 0 where there are none.
#[inline(always)]
pub fn sum_of_ends(words: &[u64]) -> u64 {
    let count = words.len();
    if count == 0 {
        return 0;
    }
    words[0].wrapping_add(words[count - 1])
}

/// One of the rows of this width, which are stored one after another.
pub fn row(words: &[u64], width: usize, at: usize) -> &[u64]
    requires { at * width + width ≤ length words.now }
    ensures { result.now ≡ take width (drop (at * width) words.now) }
{
    let start = at * width;
    &words[start..start + width]
}
