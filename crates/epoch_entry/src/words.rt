// Words at places of a state, with a step for each that is written. And that numbers of 64 bits are words.

ghost use Rattle.std.specs.Prelude.{◌≡◌, ◌≢◌, ℕ, ◌+◌, ◌<◌, length, map, slice_index, All};
ghost use Rattle.query_lang.specs.Words.{AreWords};
ghost use Rattle.fold_class.specs.Step.{words_at};
ghost use Rattle.epoch_entry.specs.Shape.{IsAscending};

use marple_base::Steps;
use std::sync::ledger::Ledger;

// The words of a state at some places, in this order.
pub(crate) fn gather<L: Ledger>(state: &[u64], places: &[u8], to: &mut [u64], steps: &mut Steps<L>)
    requires inside { All (λ v. v < length state.now) places.now }
    requires room { length to.old ≡ length places.now }
    ensures words { to.new ≡ words_at state.now places.now }
    ensures steps { steps.new ≡ steps.old + length places.now }
{
    for (at, v) in places.iter().enumerate() {
        to[at] = state[*v as usize];
        steps.tick();
    }
}

// Writes words to some places of a state. The words at the other places stay.
pub(crate) fn scatter<L: Ledger>(
    words: &[u64],
    places: &[u8],
    state: &mut [u64],
    steps: &mut Steps<L>,
)
    requires inside { All (λ v. v < length state.old) places.now }
    requires ascending { IsAscending places.now }
    requires words { length words.now ≡ length places.now }
    ensures written { (i : ℕ) → i < length places.now → slice_index state.new (slice_index places.now i) ≡ slice_index words.now i }
    ensures others { (v : ℕ) → ((i : ℕ) → i < length places.now → slice_index places.now i ≢ v)
        → slice_index state.new v ≡ slice_index state.old v }
    ensures steps { steps.new ≡ steps.old + length places.now }
{
    for (at, v) in places.iter().enumerate() {
        state[*v as usize] = words[at];
        steps.tick();
    }
}

// Numbers of 64 bits are words.
pub(crate) fn words_known(words: &[u64])
    ensures { AreWords words.now }
{
    let _words = words;
}
