//! Affine maps on words: for each row, the elements that the state is multiplied with, and then the one that is added.

ghost use Rattle.std.specs.Prelude.{◌≡◌, ◌≢◌, ℕ, ◌+◌, ◌*◌, ◌<◌, ◌≤◌, length, slice_index};
ghost use Rattle.coeff_algebra.specs.Maps.{stored_at, stored_entry, element_at, table_of, sum_below, map_compose, map_apply};

use crate::coeff::Coeff;
use marple_base::{Steps, copy_words};
use std::sync::ledger::Ledger;

/// The element at a place.
pub fn load_at<C: Coeff>(words: &[u64], place: usize) -> C
    requires inside { place * C.WORDS + C.WORDS ≤ length words.now }
    ensures { result ≡ element_at C.from_words C.WORDS words.now place }
{
    let start = place * C::WORDS;
    C::load(&words[start..start + C::WORDS])
}

/// A new element at a place. The words at the other places stay.
pub fn store_at<C: Coeff>(words: &mut [u64], place: usize, element: C)
    requires inside { place * C.WORDS + C.WORDS ≤ length words.old }
    ensures here { stored_at C.WORDS words.new place ≡ C.words element }
    ensures others { (other : ℕ) → other ≢ place → stored_at C.WORDS words.new other ≡ stored_at C.WORDS words.old other }
{
    let start = place * C::WORDS;
    element.store(&mut words[start..start + C::WORDS]);
}

// The sum of the products of a row of `later` with a column of `earlier`.
fn dot<C: Coeff, L: Ledger>(
    n: usize,
    later: &[u64],
    row: usize,
    earlier: &[u64],
    column: usize,
    steps: &mut Steps<L>,
) -> C
    requires later { length later.now ≡ n * (n + 1) * C.WORDS }
    requires earlier { length earlier.now ≡ n * (n + 1) * C.WORDS }
    requires row { row < n }
    requires column { column ≤ n }
    ensures value { result ≡ sum_below C.elements n
        (λ k. C.elements.mul (table_of C.from_words C.WORDS n later.now row k) (table_of C.from_words C.WORDS n earlier.now k column)) }
    ensures steps { steps.new ≡ steps.old + n }
{
    let mut sum = C::zero();
    for k in 0..n {
        let left: C = load_at(later, row * (n + 1) + k);
        let right: C = load_at(earlier, k * (n + 1) + column);
        sum = sum.add(left.mul(right));
        steps.tick();
    }
    sum
}

// One row of the composed map.
fn compose_row<C: Coeff, L: Ledger>(
    n: usize,
    row: usize,
    later: &[u64],
    earlier: &[u64],
    scratch: &mut [u64],
    steps: &mut Steps<L>,
)
    requires later { length later.now ≡ n * (n + 1) * C.WORDS }
    requires earlier { length earlier.now ≡ n * (n + 1) * C.WORDS }
    requires room { length scratch.old ≡ n * (n + 1) * C.WORDS }
    requires row { row < n }
    ensures entries { (j : ℕ) → j ≤ n
        → stored_entry C.WORDS n scratch.new row j
        ≡ C.words (map_compose C.elements n (table_of C.from_words C.WORDS n later.now)
        (table_of C.from_words C.WORDS n earlier.now) row j) }
    ensures before { (p : ℕ) → p < row * (n + 1) → stored_at C.WORDS scratch.new p ≡ stored_at C.WORDS scratch.old p }
    ensures steps { steps.new ≡ steps.old + (n + 1) * n }
{
    for column in 0..n + 1 {
        let products: C = dot(n, later, row, earlier, column, steps);
        let element = if column == n {
            let constant: C = load_at(later, row * (n + 1) + n);
            products.add(constant)
        } else {
            products
        };
        store_at(scratch, row * (n + 1) + column, element);
    }
}

/// `earlier` becomes the map that applies the old `earlier` first and `later` after it. `scratch` may hold anything.
pub fn compose_into<C: Coeff, L: Ledger>(
    n: usize,
    later: &[u64],
    earlier: &mut [u64],
    scratch: &mut [u64],
    steps: &mut Steps<L>,
)
    requires later { length later.now ≡ n * (n + 1) * C.WORDS }
    requires earlier { length earlier.old ≡ n * (n + 1) * C.WORDS }
    requires room { length scratch.old ≡ n * (n + 1) * C.WORDS }
    ensures words { (i j : ℕ) → i < n → j ≤ n
        → stored_entry C.WORDS n earlier.new i j
        ≡ C.words (map_compose C.elements n (table_of C.from_words C.WORDS n later.now)
        (table_of C.from_words C.WORDS n earlier.old) i j) }
    ensures composed { (i j : ℕ) → i < n → j ≤ n
        → table_of C.from_words C.WORDS n earlier.new i j
        ≡ map_compose C.elements n (table_of C.from_words C.WORDS n later.now) (table_of C.from_words C.WORDS n earlier.old) i j }
    ensures steps { steps.new ≡ steps.old + n * ((n + 1) * n) + n * (n + 1) * C.WORDS }
{
    for row in 0..n {
        compose_row::<C, L>(n, row, later, earlier, scratch, steps);
    }
    copy_words(scratch, earlier, steps);
}

// What a row of the map gives at the state's words, as a word.
fn row_word<C: Coeff, L: Ledger>(
    n: usize,
    map: &[u64],
    row: usize,
    state: &[u64],
    steps: &mut Steps<L>,
) -> u64
    requires map { length map.now ≡ n * (n + 1) * C.WORDS }
    requires state { length state.now ≡ n }
    requires row { row < n }
    ensures value { result ≡ C.elements.to_word
        (map_apply C.elements n (table_of C.from_words C.WORDS n map.now) (λ j. C.elements.embed (slice_index state.now j)) row) }
    ensures steps { steps.new ≡ steps.old + n }
{
    let mut products = C::zero();
    for j in 0..n {
        let left: C = load_at(map, row * (n + 1) + j);
        products = products.add(left.mul(C::embed(state[j])));
        steps.tick();
    }
    let constant: C = load_at(map, row * (n + 1) + n);
    products.add(constant).to_word()
}

/// `state` becomes the map applied to its words, read as words again. `scratch` may hold anything.
pub fn apply_into<C: Coeff, L: Ledger>(
    n: usize,
    map: &[u64],
    state: &mut [u64],
    scratch: &mut [u64],
    steps: &mut Steps<L>,
)
    requires map { length map.now ≡ n * (n + 1) * C.WORDS }
    requires state { length state.old ≡ n }
    requires room { length scratch.old ≡ n * (n + 1) * C.WORDS }
    ensures applied { (i : ℕ) → i < n
        → slice_index state.new i ≡ C.elements.to_word
        (map_apply C.elements n (table_of C.from_words C.WORDS n map.now) (λ j. C.elements.embed (slice_index state.old j)) i) }
    ensures steps { steps.new ≡ steps.old + n * n + n }
{
    'rows: for row in 0..n {
        scratch[row] = row_word::<C, L>(n, map, row, state, steps);
    }
    copy_words(&scratch[..n], state, steps);
}
