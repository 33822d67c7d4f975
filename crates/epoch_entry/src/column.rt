// The last column of a map, as words of a state.

ghost use Rattle.std.specs.Prelude.{◌≡◌, ◌≢◌, ℕ, ◌+◌, ◌*◌, ◌<◌, ◌≤◌, length, slice_index, All};
ghost use Rattle.coeff_algebra.specs.Maps.{stored_entry, table_of};
ghost use Rattle.epoch_entry.specs.Shape.{IsAscending};

use coeff_algebra::{Coeff, load_at, store_at};
use marple_base::Steps;
use query_lang::MAX_STATES;
use std::sync::ledger::Ledger;

// Writes the words of the column to the linear variables of a state. The other variables stay.
pub(crate) fn column_to_state<C: Coeff, L: Ledger>(
    linear: &[u8],
    map: &[u64],
    state: &mut [u64],
    steps: &mut Steps<L>,
)
    requires map { length map.now ≡ length linear.now * (length linear.now + 1) * C.WORDS }
    requires few { length linear.now ≤ MAX_STATES }
    requires inside { All (λ v. v < length state.old) linear.now }
    requires ascending { IsAscending linear.now }
    ensures written { (i : ℕ) → i < length linear.now → slice_index state.new (slice_index linear.now i)
        ≡ C.elements.to_word (table_of C.from_words C.WORDS (length linear.now) map.now i (length linear.now)) }
    ensures others { (v : ℕ) → ((i : ℕ) → i < length linear.now → slice_index linear.now i ≢ v)
        → slice_index state.new v ≡ slice_index state.old v }
    ensures steps { steps.new ≡ steps.old + length linear.now }
{
    let dimension = linear.len();
    for (row, v) in linear.iter().enumerate() {
        let element: C = load_at(map, row * (dimension + 1) + dimension);
        state[*v as usize] = element.to_word();
        steps.tick();
    }
}

// Adds the elements of the column to the linear variables of a state. The other variables stay.
pub(crate) fn add_column<C: Coeff, L: Ledger>(
    linear: &[u8],
    map: &[u64],
    state: &mut [u64],
    steps: &mut Steps<L>,
)
    requires map { length map.now ≡ length linear.now * (length linear.now + 1) * C.WORDS }
    requires few { length linear.now ≤ MAX_STATES }
    requires inside { All (λ v. v < length state.old) linear.now }
    requires ascending { IsAscending linear.now }
    ensures added { (i : ℕ) → i < length linear.now → slice_index state.new (slice_index linear.now i)
        ≡ C.elements.to_word (C.elements.add (C.elements.embed (slice_index state.old (slice_index linear.now i)))
        (table_of C.from_words C.WORDS (length linear.now) map.now i (length linear.now))) }
    ensures others { (v : ℕ) → ((i : ℕ) → i < length linear.now → slice_index linear.now i ≢ v)
        → slice_index state.new v ≡ slice_index state.old v }
    ensures steps { steps.new ≡ steps.old + length linear.now }
{
    let dimension = linear.len();
    for (row, v) in linear.iter().enumerate() {
        let addend: C = load_at(map, row * (dimension + 1) + dimension);
        let before: C = C::embed(state[*v as usize]);
        state[*v as usize] = before.add(addend).to_word();
    }
    steps.tick_many(dimension as u64);
}

// Writes the linear variables of a state into the column. The other columns stay.
pub(crate) fn state_to_column<C: Coeff, L: Ledger>(
    linear: &[u8],
    state: &[u64],
    map: &mut [u64],
    steps: &mut Steps<L>,
)
    requires map { length map.old ≡ length linear.now * (length linear.now + 1) * C.WORDS }
    requires few { length linear.now ≤ MAX_STATES }
    requires inside { All (λ v. v < length state.now) linear.now }
    ensures written { (i : ℕ) → i < length linear.now → stored_entry C.WORDS (length linear.now) map.new i (length linear.now)
        ≡ C.words (C.elements.embed (slice_index state.now (slice_index linear.now i))) }
    ensures others { (i c : ℕ) → i < length linear.now → c < length linear.now
        → stored_entry C.WORDS (length linear.now) map.new i c ≡ stored_entry C.WORDS (length linear.now) map.old i c }
    ensures steps { steps.new ≡ steps.old + length linear.now * C.WORDS }
{
    let dimension = linear.len();
    for (row, v) in linear.iter().enumerate() {
        let element: C = C::embed(state[*v as usize]);
        store_at(map, row * (dimension + 1) + dimension, element);
        steps.tick_many(C::WORDS as u64);
    }
}
