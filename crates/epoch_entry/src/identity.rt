// The map that keeps each word.

ghost use Rattle.std.specs.Prelude.{◌≡◌, ℕ, ◌+◌, ◌*◌, ◌<◌, ◌≤◌, length};
ghost use Rattle.coeff_algebra.specs.Maps.{stored_at, table_of};
ghost use Rattle.epoch_entry.specs.Identity.{unit_at};

use coeff_algebra::{Coeff, store_at};
use marple_base::Steps;
use query_lang::MAX_STATES;
use std::sync::ledger::Ledger;

// Zeros at all places of a map.
fn zeros_into<C: Coeff>(places: usize, map: &mut [u64])
    requires map { length map.old ≡ places * C.WORDS }
    ensures { (p : ℕ) → p < places → stored_at C.WORDS map.new p ≡ C.words C.elements.zero }
{
    for place in 0..places {
        store_at(map, place, C::zero());
    }
}

// `map` becomes the map of dimension n that takes each variable to itself: zeros, and ones on the diagonal.
pub(crate) fn identity_into<C: Coeff, L: Ledger>(n: usize, map: &mut [u64], steps: &mut Steps<L>)
    requires size { n ≤ MAX_STATES }
    requires map { length map.old ≡ n * (n + 1) * C.WORDS }
    ensures entries { (i j : ℕ) → i < n → j ≤ n → table_of C.from_words C.WORDS n map.new i j ≡ unit_at C.elements i j }
    ensures steps { steps.new ≡ steps.old + n * (n + 1) * C.WORDS }
{
    zeros_into::<C>(n * (n + 1), map);
    for row in 0..n {
        store_at(map, row * (n + 1) + row, C::one());
    }
    steps.tick_many(map.len() as u64);
}
