//! Rows that lie far from one another, fetched side by side.

ghost use Rattle.std.specs.Prelude.{◌≡◌};

use crate::keys::Keys;
use crate::order::Place;
use crate::states::States;
use crate::store::Merged;
use std::alloc::AllocError;
use table_rows::Rows;

// The number of rows that are fetched side by side.
const ROWS_AT_ONCE: usize = 64;

// The sum of the first word and the last one, 0 where there are none.
fn sum_of_ends(words: &[u64]) -> u64 {
    let count = words.len();
    if count == 0 {
        return 0;
    }
    words[0].wrapping_add(words[count - 1])
}

// A sum of the words at the ends of the states of the rows at these places, and of how often their keys were merged.
fn sum_of_states(merged: &[Merged], states: &States, places: &[Place]) -> u64 {
    let mut sum = 0u64;
    for place in places {
        let at = place.at as usize;
        let of = place.of as usize;
        if at < states.len() && of < merged.len() {
            sum = sum
                .wrapping_add(sum_of_ends(states.row(at)))
                .wrapping_add(merged[of].epochs);
        }
    }
    sum
}

// A sum of the words at the ends of the keys of the rows at these places. A place has the only word of a key.
fn sum_of_keys(keys: &Keys, places: &[Place]) -> u64 {
    let mut sum = 0u64;
    if keys.width() == 1 {
        return sum;
    }
    for place in places {
        let of = place.of as usize;
        if of < keys.len() {
            sum = sum.wrapping_add(sum_of_ends(keys.key(of)));
        }
    }
    sum
}

// Reads words of the rows at the first of these places, so many of them.
#[inline(never)]
fn fetch_few(
    made: &mut Rows,
    keys: &Keys,
    merged: &[Merged],
    states: &States,
    places: &[Place],
) -> Result<(), AllocError>
    ensures { made.new ≡ made.old }
{
    let few = &places[..places.len().min(ROWS_AT_ONCE)];
    let sum = sum_of_states(merged, states, few).wrapping_add(sum_of_keys(keys, few));
    let more = if sum == 0 { 1 } else { 0 };
    made.reserve(0, more)
}

/// Reads words of the row at a place of these and of the rows after it, once for so many of them, before rows are made of them
/// one by one. To add a row takes so long that the words of the next one would be asked for only when its own have come; reads
/// that follow one another wait together, first those of states, and then those of keys. The sum of what was read has to decide
/// something, or nothing would be read: whether a little more memory is taken.
#[inline(always)]
pub fn fetch_next(
    made: &mut Rows,
    keys: &Keys,
    merged: &[Merged],
    states: &States,
    places: &[Place],
    next: usize,
) -> Result<(), AllocError>
    ensures { made.new ≡ made.old }
{
    if next % ROWS_AT_ONCE != 0 {
        return Ok(());
    }
    if next >= places.len() {
        return Ok(());
    }
    fetch_few(made, keys, merged, states, &places[next..])
}
