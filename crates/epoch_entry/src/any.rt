// The kind of a program's entries, by its class and algebra and by what they are for.

ghost use Rattle.std.specs.Prelude.{◌≡◌, ◌≤◌};
ghost use Rattle.fold_class.specs.Program.{IsProgram, IsProgramOf};

use crate::bounds::BoundsEpochs;
use crate::kind::EpochKind;
use crate::linear::LinearEpochs;
use crate::other::OtherEpochs;
use crate::purpose::Entries;
use coeff_algebra::{MaxPlus64, Wrapping64};
use fold_class::{Algebra, FoldProgram};
use marple_base::Steps;
use query_lang::Class;
use std::sync::ledger::Ledger;

/// Entries of a fold of any class: linear by sums, linear by maxima, any other, or those of its bounds.
pub enum AnyEpochs {
    Linear(LinearEpochs<Wrapping64>),
    Maxima(LinearEpochs<MaxPlus64>),
    Other(OtherEpochs),
    Bounds(BoundsEpochs),
}

// The same for entries of each kind.
macro_rules! of_its_kind {
    ($entries:ident, $kind:pat => $does:expr) => {
        match $entries {
            AnyEpochs::Linear($kind) => $does,
            AnyEpochs::Maxima($kind) => $does,
            AnyEpochs::Other($kind) => $does,
            AnyEpochs::Bounds($kind) => $does,
        }
    };
}

impl Drop for AnyEpochs {
    fn drop(self) {
        of_its_kind!(self, _ => {})
    }
}

impl AnyEpochs {
    ghost use Rattle.query_lang.specs.declared.fold.TypedFold.{TypedFold};
    ghost use Rattle.epoch_entry.specs.{Foldings.{IsKindOf, merge_bound}, Programs.program_in, Purposes.IsKindFor};

    /// The entries of a program's fold: their sizes, what they are folded to and their bounds on steps are the fold's.
    pub fn of(program: FoldProgram) -> AnyEpochs
        requires { IsProgram program }
        ensures program { program_in result ≡ program }
        ensures kind { (f : TypedFold) → IsProgramOf f program
            → IsKindOf f (⟦<AnyEpochs as EpochKind>⟧.sizes result) (⟦<AnyEpochs as EpochKind>⟧.folding result)
            (⟦<AnyEpochs as EpochKind>⟧.open_bound result) (⟦<AnyEpochs as EpochKind>⟧.absorb_bound result) }
        ensures merge { (f : TypedFold) → IsProgramOf f program → ⟦<AnyEpochs as EpochKind>⟧.merge_bound result ≤ merge_bound f }
    {
        match program.class {
            Class::Linear => match program.algebra {
                Algebra::Sums => AnyEpochs::Linear(LinearEpochs::of(program)),
                Algebra::Maxima => AnyEpochs::Maxima(LinearEpochs::of(program)),
            },
            Class::Other => AnyEpochs::Other(OtherEpochs::of(program)),
        }
    }

    /// The entries of a program's fold for a purpose. For bounds a linear fold has its own entries, and any other those of
    /// its bounds.
    pub fn for_entries(entries: Entries, program: FoldProgram) -> AnyEpochs
        requires { IsProgram program }
        ensures program { program_in result ≡ program }
        ensures kind { (f : TypedFold) → IsProgramOf f program
            → IsKindFor entries f (⟦<AnyEpochs as EpochKind>⟧.sizes result) (⟦<AnyEpochs as EpochKind>⟧.folding result)
            (⟦<AnyEpochs as EpochKind>⟧.open_bound result) (⟦<AnyEpochs as EpochKind>⟧.absorb_bound result) }
        ensures merge { (f : TypedFold) → IsProgramOf f program → ⟦<AnyEpochs as EpochKind>⟧.merge_bound result ≤ merge_bound f }
    {
        match entries {
            Entries::Folds => AnyEpochs::of(program),
            Entries::Bounds => match program.class {
                Class::Linear => AnyEpochs::of(program),
                Class::Other => AnyEpochs::Bounds(BoundsEpochs::of(program)),
            },
        }
    }
}

impl EpochKind for AnyEpochs {
    ghost use Rattle.epoch_entry.specs.Programs.{meaning_in};

    ghost sizes = { λ a. (meaning_in a).sizes };

    ghost folding = { λ a. (meaning_in a).folding };

    ghost stands = { λ a. (meaning_in a).stands };

    ghost open_bound = { λ a. (meaning_in a).open_bound };

    ghost absorb_bound = { λ a. (meaning_in a).absorb_bound };

    ghost merge_bound = { λ a. (meaning_in a).merge_bound };

    fn args_words(&self) -> usize {
        of_its_kind!(self, kind => kind.args_words())
    }

    fn entry_words(&self) -> usize {
        of_its_kind!(self, kind => kind.entry_words())
    }

    fn state_words(&self) -> usize {
        of_its_kind!(self, kind => kind.state_words())
    }

    fn scratch_words(&self) -> usize {
        of_its_kind!(self, kind => kind.scratch_words())
    }

    fn row_per_epoch(&self) -> bool {
        of_its_kind!(self, kind => kind.row_per_epoch())
    }

    fn initial(&self, state: &mut [u64]) {
        of_its_kind!(self, kind => kind.initial(state))
    }

    fn open<L: Ledger>(&self, entry: &mut [u64], steps: &mut Steps<L>) {
        of_its_kind!(self, kind => kind.open(entry, steps))
    }

    #[inline(always)]
    fn absorb<L: Ledger>(
        &self,
        entry: &mut [u64],
        args: &[u64],
        scratch: &mut [u64],
        steps: &mut Steps<L>,
    ) {
        of_its_kind!(self, kind => kind.absorb(entry, args, scratch, steps))
    }

    fn merge<L: Ledger>(
        &self,
        entry: &[u64],
        state: &mut [u64],
        scratch: &mut [u64],
        steps: &mut Steps<L>,
    ) {
        of_its_kind!(self, kind => kind.merge(entry, state, scratch, steps))
    }
}
