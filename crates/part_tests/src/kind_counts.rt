//! How many steps the calls of each kind of entry take by themselves, compared with sums that were worked out from the rules
//! of counting, which `counts.rt` gives.

ghost use Rattle.std.specs.Prelude.{◌≡◌, length};

use crate::compare::{ROOM, fitting, same};
use crate::counter::{Counting, counted};
use crate::fold_programs::{AVERAGE, DEEPEST, HASH, OUT_OF_SEQUENCE, PEAK, TWO_STEPS, program_of};
use epoch_entry::{AnyEpochs, Entries, EpochKind};
use marple_base::Steps;
use std::alloc::Global;
use std::process::Abort;
use std::sync::ledger::Ledger;
use std::test::Fail;

/// A fold, what its entries are for, and the steps of opening one, of each row that it then absorbs in sequence, and of
/// merging it after those.
#[derive(Clone, Copy)]
struct Case {
    fold: &'static [u8],
    entries: Entries,
    open: u64,
    rows: &'static [u64],
    merge: u64,
}

const CASES: [Case; 7] = [
    // sums of one variable, by a product: 1 + (5 + 2) for a run of the body. The entry has the number of logged rows and 2
    // words of the map. A row takes 2 columns of 1 part, 8 and 1 word + 2 elements with 1 product each + 2 words of the map
    Case {
        fold: HASH,
        entries: Entries::Folds,
        open: 1 + 2,
        rows: &[2 * (1 + 8 + 1) + 2 + 2, 24],
        merge: 1 + 1 + 1 + 1,
    },
    // a translation that remembers a word: 1 + (3 + 2) + (3 + 2) + (3 + 2) for a run of the body. The entry has the number, 2
    // words of the log, 1 of the history and 2 of the map. The first row is logged: 2 for the history + 16 + 2 arguments + 1
    // for the number. The second takes 2 for the history + 1 element read + 16 + 1 written. A merge takes 16 for the logged
    // row + 1 variable read + 1 product + 1 copied + 1 written + 1 of the history
    Case {
        fold: OUT_OF_SEQUENCE,
        entries: Entries::Folds,
        open: 1 + 1 + 2,
        rows: &[2 + 16 + 2 + 1, 2 + 1 + 16 + 1],
        merge: 16 + 1 + 1 + 1 + 1 + 1,
    },
    // a translation that looks two rows back: 1 + (5 + 2) + (1 + 2) + (1 + 2) for a run of the body. Both rows are logged: 4
    // for the history + 14 + 1 argument + 1 for the number; the third takes 4 for the history + 1 + 14 + 1. A merge takes 14
    // for each logged row + 4 for the variable + 2 of the history
    Case {
        fold: TWO_STEPS,
        entries: Entries::Folds,
        open: 1 + 2 + 2,
        rows: &[4 + 14 + 1 + 1, 20, 4 + 1 + 14 + 1],
        merge: 2 * 14 + 4 + 2,
    },
    // maxima that only move the variable: 1 + (3 + 2) for a run of the body. A row takes 1 word of the state + 6 + 2 words of
    // an element. A merge moves 1 variable
    Case {
        fold: DEEPEST,
        entries: Entries::Folds,
        open: 1 + 2 * 2,
        rows: &[1 + 6 + 2, 9],
        merge: 1,
    },
    // other maxima: 1 + (5 + 2) for a run of the body. A row takes 2 columns of 1 part, 8 and 2 words + 2 elements with 1
    // product each + 4 words of the map
    Case {
        fold: PEAK,
        entries: Entries::Folds,
        open: 1 + 2 * 2,
        rows: &[2 * (1 + 8 + 2) + 2 + 4, 28],
        merge: 1 + 1 + 1 + 1,
    },
    // a fold that isn't linear: 1 + (5 + 2) for a run of the body, on the one word of its entry
    Case {
        fold: AVERAGE,
        entries: Entries::Folds,
        open: 1,
        rows: &[1 + (5 + 2), 8],
        merge: 1,
    },
    // its bounds: three states
    Case {
        fold: AVERAGE,
        entries: Entries::Bounds,
        open: 3,
        rows: &[3 * 8, 3 * 8],
        merge: 3,
    },
];

// Absorbs rows of zeros: each takes its steps.
fn compare_rows<K: EpochKind, L: Ledger>(
    rt: &impl Abort,
    kind: &K,
    entry: &mut [u64],
    args: &[u64],
    scratch: &mut [u64],
    rows: &[u64],
    steps: &mut Steps<L>,
)
    requires entry { length entry.old ≡ (K.sizes kind.now).entry }
    requires args { length args.now ≡ (K.sizes kind.now).args }
    requires scratch { length scratch.old ≡ (K.sizes kind.now).scratch }
{
    for row in rows {
        let before = steps.shown();
        kind.absorb(entry, args, scratch, steps);
        same(rt, "a row", steps.shown().saturating_sub(before), *row);
    }
}

// Opens an entry, absorbs rows of zeros and merges it into the initial state: each call takes its steps.
fn compare<K: EpochKind, L: Ledger>(rt: &impl Abort, kind: &K, case: &Case, steps: &mut Steps<L>) {
    let (mut entry, mut scratch, mut state) = ([0; ROOM], [0; ROOM], [0; ROOM]);
    let entry = &mut entry[..fitting(rt, kind.entry_words())];
    let scratch = &mut scratch[..fitting(rt, kind.scratch_words())];
    let state = &mut state[..fitting(rt, kind.state_words())];
    let args = &[0; ROOM][..fitting(rt, kind.args_words())];
    let before = steps.shown();
    kind.open(entry, steps);
    same(
        rt,
        "opening",
        steps.shown().saturating_sub(before),
        case.open,
    );
    compare_rows(rt, kind, entry, args, scratch, case.rows, steps);
    kind.initial(state);
    let before = steps.shown();
    kind.merge(entry, state, scratch, steps);
    same(
        rt,
        "the merge",
        steps.shown().saturating_sub(before),
        case.merge,
    );
}

/// The same of the entries of each case.
pub fn compare_cases<L: Ledger>(
    rt: &impl Abort,
    alloc: Global,
    steps: &mut Steps<L>,
) -> Result<(), Fail> {
    for case in &CASES {
        let kind = AnyEpochs::for_entries(case.entries, program_of(alloc, case.fold)?);
        compare(rt, &kind, case, steps);
    }
    Ok(())
}

#[test]
fn calls_of_entries_take_their_steps(rt: HostRuntime) -> Result<(), Fail> {
    counted(&rt, rt.alloc(), Counting::Entries)
}
