// The entries of any fold.

ghost use Rattle.std.specs.Prelude.{◌≡◌, ℕ, ◌+◌, ◌<◌, ◌≤◌, length};
ghost use Rattle.fold_class.specs.Program.{IsProgram, IsProgramOf};
ghost use Rattle.epoch_entry.specs.Shape.{IsShaped};

use crate::kind::EpochKind;
use fold_class::FoldProgram;
use marple_base::{Steps, copy_words};
use std::sync::ledger::Ledger;

/// Entries that are the fold's state, from the initial state on. Where such an epoch is merged, its state becomes a
/// separate row.
#[derive(Drop)]
pub struct OtherEpochs {
    program: FoldProgram,
    ghost sound: { IsProgram program },
    ghost shape: { IsShaped program },
}

impl OtherEpochs {
    ghost use Rattle.query_lang.specs.declared.{fold.TypedFold.TypedFold, typed.Class.Class};
    ghost use Rattle.epoch_entry.specs.Foldings.{IsKindOf, merge_bound};

    /// The entries of a program's fold.
    pub fn of(program: FoldProgram) -> OtherEpochs
        requires { IsProgram program }
        ensures program { result.program ≡ program }
        ensures kind { (f : TypedFold) → IsProgramOf f program → program.class ≡ Class.Other
            → IsKindOf f (⟦<OtherEpochs as EpochKind>⟧.sizes result) (⟦<OtherEpochs as EpochKind>⟧.folding result)
            (⟦<OtherEpochs as EpochKind>⟧.open_bound result) (⟦<OtherEpochs as EpochKind>⟧.absorb_bound result) }
        ensures merge { (f : TypedFold) → IsProgramOf f program → ⟦<OtherEpochs as EpochKind>⟧.merge_bound result ≤ merge_bound f }
    {
        OtherEpochs { program }
    }
}

impl EpochKind for OtherEpochs {
    ghost use Rattle.epoch_entry.specs.Entries.{other_sizes, other_folding, OtherStands, other_open, other_absorb, other_merge};

    ghost sizes = { λ k. other_sizes k.program };

    ghost folding = { λ k. other_folding k.program };

    ghost stands = { λ k. OtherStands k.program };

    ghost open_bound = { λ k. other_open k.program };

    ghost absorb_bound = { λ k. other_absorb k.program };

    ghost merge_bound = { λ k. other_merge k.program };

    fn args_words(&self) -> usize {
        self.program.layout.args as usize
    }

    fn entry_words(&self) -> usize {
        self.program.layout.initial.len()
    }

    fn state_words(&self) -> usize {
        self.program.layout.initial.len()
    }

    fn scratch_words(&self) -> usize {
        self.program.code.scratch_words()
    }

    fn row_per_epoch(&self) -> bool {
        true
    }

    fn initial(&self, state: &mut [u64]) {
        state.copy_from_slice(self.program.layout.initial.as_slice());
    }

    fn open<L: Ledger>(&self, entry: &mut [u64], steps: &mut Steps<L>) {
        copy_words(self.program.layout.initial.as_slice(), entry, steps);
    }

    fn absorb<L: Ledger>(
        &self,
        entry: &mut [u64],
        args: &[u64],
        scratch: &mut [u64],
        steps: &mut Steps<L>,
    ) {
        self.program.code.exec(entry, args, scratch, steps);
    }

    fn merge<L: Ledger>(
        &self,
        entry: &[u64],
        state: &mut [u64],
        _scratch: &mut [u64],
        steps: &mut Steps<L>,
    ) {
        copy_words(entry, state, steps);
    }
}
