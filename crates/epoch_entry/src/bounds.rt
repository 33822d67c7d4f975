// The entries that bound a fold.

ghost use Rattle.std.specs.Prelude.{◌≡◌, ℕ, ◌+◌, ◌*◌, ◌<◌, ◌≤◌, length};
ghost use Rattle.fold_class.specs.Program.{IsProgram, IsProgramOf};
ghost use Rattle.epoch_entry.specs.Shape.{IsShaped};

use crate::kind::EpochKind;
use crate::triple::{run_three, start_three, write_three};
use fold_class::FoldProgram;
use marple_base::{Steps, copy_words};
use std::sync::ledger::Ledger;

/// Entries that are three states of the fold in sequence, run side by side: from the initial state, from zeros and
/// from the greatest words. Where such an epoch is merged, its states become a separate row.
#[derive(Drop)]
pub struct BoundsEpochs {
    program: FoldProgram,
    ghost sound: { IsProgram program },
    ghost shape: { IsShaped program },
}

impl BoundsEpochs {
    ghost use Rattle.query_lang.specs.declared.fold.TypedFold.{TypedFold};
    ghost use Rattle.epoch_entry.specs.{Bounds.IsBoundsKindOf, Foldings.merge_bound};

    /// The entries of the bounds of a program's fold.
    pub fn of(program: FoldProgram) -> BoundsEpochs
        requires { IsProgram program }
        ensures program { result.program ≡ program }
        ensures kind { (f : TypedFold) → IsProgramOf f program
            → IsBoundsKindOf f (⟦<BoundsEpochs as EpochKind>⟧.sizes result) (⟦<BoundsEpochs as EpochKind>⟧.folding result)
            (⟦<BoundsEpochs as EpochKind>⟧.open_bound result) (⟦<BoundsEpochs as EpochKind>⟧.absorb_bound result) }
        ensures merge { (f : TypedFold) → IsProgramOf f program → ⟦<BoundsEpochs as EpochKind>⟧.merge_bound result ≤ merge_bound f }
    {
        BoundsEpochs { program }
    }
}

impl EpochKind for BoundsEpochs {
    ghost use Rattle.epoch_entry.specs.Bounds.{bounds_sizes, bounds_folding, BoundsStand, bounds_open, bounds_absorb, bounds_merge};

    ghost sizes = { λ k. bounds_sizes k.program };

    ghost folding = { λ k. bounds_folding k.program };

    ghost stands = { λ k. BoundsStand k.program };

    ghost open_bound = { λ k. bounds_open k.program };

    ghost absorb_bound = { λ k. bounds_absorb k.program };

    ghost merge_bound = { λ k. bounds_merge k.program };

    fn args_words(&self) -> usize {
        self.program.layout.args as usize
    }

    fn entry_words(&self) -> usize {
        self.program.layout.initial.len() * 3
    }

    fn state_words(&self) -> usize {
        self.program.layout.initial.len() * 3
    }

    fn scratch_words(&self) -> usize {
        self.program.code.scratch_words()
    }

    fn row_per_epoch(&self) -> bool {
        true
    }

    fn initial(&self, state: &mut [u64]) {
        write_three(self.program.layout.initial.as_slice(), state);
    }

    fn open<L: Ledger>(&self, entry: &mut [u64], steps: &mut Steps<L>) {
        start_three(self.program.layout.initial.as_slice(), entry, steps);
    }

    fn absorb<L: Ledger>(
        &self,
        entry: &mut [u64],
        args: &[u64],
        scratch: &mut [u64],
        steps: &mut Steps<L>,
    ) {
        run_three(&self.program.code, entry, args, scratch, steps);
    }

    fn merge<L: Ledger>(
        &self,
        entry: &[u64],
        state: &mut [u64],
        _scratch: &mut [u64],
        steps: &mut Steps<L>,
    ) {
        copy_words(entry, state, steps);
    }
}
