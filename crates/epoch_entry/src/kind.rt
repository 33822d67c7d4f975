//! What an entry is to a cache.

ghost use Rattle.std.specs.Prelude.{◌≡◌, ℕ, ◌+◌, ◌≤◌, Bool, true, List, [], ◌∷◌, ◌++◌, length, fold};
ghost use Rattle.epoch_model.specs.{Keys.ArgRow, Tables.Folding};
ghost use Rattle.epoch_entry.specs.Kinds.{Sizes, MayTake};

use marple_base::Steps;
use std::sync::ledger::Ledger;

/// A kind of entry: fixed words that represent the argument rows of an open epoch, and that can be merged into a
/// stored state once the epoch is closed. No call takes memory.
pub trait EpochKind: Drop {
    /// The numbers of words of an argument row, an entry, a state and the scratch room.
    ghost sizes: { Self → Sizes };

    /// The step from a state and an argument row to a state, the initial state, and whether each epoch has a row.
    ghost folding: { Self → Folding };

    /// An entry represents a list of argument rows.
    ghost stands: { Self → List ℕ → List ArgRow → Type 0 };

    /// The most steps that opening an entry takes.
    ghost open_bound: { Self → ℕ };

    /// The most steps that absorbing a row takes.
    ghost absorb_bound: { Self → ℕ };

    /// The most steps that merging an entry takes.
    ghost merge_bound: { Self → ℕ };

    fn args_words(&self) -> usize
        ensures { result ≡ (sizes self.now).args };

    fn entry_words(&self) -> usize
        ensures { result ≡ (sizes self.now).entry };

    fn state_words(&self) -> usize
        ensures { result ≡ (sizes self.now).state };

    fn scratch_words(&self) -> usize
        ensures { result ≡ (sizes self.now).scratch };

    /// Whether each epoch has a separate row in the store.
    fn row_per_epoch(&self) -> bool
        ensures { result ≡ (folding self.now).row_per_epoch };

    /// Writes the initial state.
    fn initial(&self, state: &mut [u64])
        requires { length state.old ≡ (sizes self.now).state }
        ensures { state.new ≡ (folding self.now).initial };

    /// Makes the entry represent no rows.
    fn open<L: Ledger>(&self, entry: &mut [u64], steps: &mut Steps<L>)
        requires { length entry.old ≡ (sizes self.now).entry }
        ensures opened { stands self.now entry.new [] }
        ensures steps { steps.old ≤ steps.new }
        ensures cost { steps.new ≤ steps.old + open_bound self.now };

    /// Makes the entry represent one row more.
    fn absorb<L: Ledger>(
        &self,
        entry: &mut [u64],
        args: &[u64],
        scratch: &mut [u64],
        steps: &mut Steps<L>,
    )
        requires entry { length entry.old ≡ (sizes self.now).entry }
        requires args { length args.now ≡ (sizes self.now).args }
        requires scratch { length scratch.old ≡ (sizes self.now).scratch }
        ensures absorbed { (rows : List ArgRow) → stands self.now entry.old rows → stands self.now entry.new (rows ++ args.now ∷ []) }
        ensures steps { steps.old ≤ steps.new }
        ensures cost { steps.new ≤ steps.old + absorb_bound self.now };

    /// Folds the rows that the entry represents into a state; where each epoch has a row, into the initial one.
    fn merge<L: Ledger>(
        &self,
        entry: &[u64],
        state: &mut [u64],
        scratch: &mut [u64],
        steps: &mut Steps<L>,
    )
        requires entry { length entry.now ≡ (sizes self.now).entry }
        requires state { length state.old ≡ (sizes self.now).state }
        requires scratch { length scratch.old ≡ (sizes self.now).scratch }
        ensures merged { (rows : List ArgRow) → stands self.now entry.now rows → MayTake (folding self.now) state.old
            → state.new ≡ fold (folding self.now).step state.old rows }
        ensures steps { steps.old ≤ steps.new }
        ensures cost { steps.new ≤ steps.old + merge_bound self.now };
}
