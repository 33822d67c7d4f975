// One run of a fold's code on the words of an entry.

ghost use Rattle.std.specs.Prelude.{◌≡◌, ℕ, ◌+◌, ◌*◌, ◌<◌, ◌≤◌, length};
ghost use Rattle.fold_code.specs.Meaning.{code_steps, code_scratch};
ghost use Rattle.epoch_entry.specs.{Entries.{history_words, map_words, run_steps, scratch_words}, Absorbing.{Remembers, Moves}};
ghost use Rattle.epoch_entry.specs.Shape.{IsShaped};

use crate::column::{column_to_state, state_to_column};
use crate::words::{gather, scatter};
use coeff_algebra::Coeff;
use fold_class::FoldProgram;
use marple_base::Steps;
use std::sync::ledger::Ledger;

// Runs the code on the history, whatever the linear variables are. `state` and `run` may hold anything.
pub(crate) fn step_history<L: Ledger>(
    program: &FoldProgram,
    history: &mut [u64],
    args: &[u64],
    state: &mut [u64],
    run: &mut [u64],
    steps: &mut Steps<L>,
)
    requires shape { IsShaped program.now }
    requires history { length history.old ≡ history_words program.now }
    requires args { length args.now ≡ program.now.layout.args }
    requires state { length state.old ≡ length program.now.layout.initial }
    requires run { length run.old ≡ code_scratch program.now.code }
    ensures remembers { Remembers program.now args.now history.old history.new }
    ensures cost { steps.new ≡ steps.old + (2 * history_words program.now + code_steps program.now.code) }
{
    let places = program.layout.history.as_slice();
    scatter(history, places, state, steps);
    program.code.exec(state, args, run, steps);
    gather(state, places, history, steps);
}

// Runs the code on the history and on the last column of the map, and writes both back. `scratch` may hold anything.
// Not inlined, since an entry with one variable needs few of the registers that this uses.
#[inline(never)]
pub(crate) fn step_column<C: Coeff, L: Ledger>(
    program: &FoldProgram,
    history: &mut [u64],
    map: &mut [u64],
    args: &[u64],
    scratch: &mut [u64],
    steps: &mut Steps<L>,
)
    requires shape { IsShaped program.now }
    requires history { length history.old ≡ history_words program.now }
    requires map { length map.old ≡ map_words C.WORDS program.now }
    requires args { length args.now ≡ program.now.layout.args }
    requires scratch { length scratch.old ≡ scratch_words C.WORDS program.now }
    ensures moves { Moves C.elements C.from_words C.WORDS program.now args.now history.old map.old history.new map.new }
    ensures steps { steps.old ≤ steps.new }
    ensures cost { steps.new ≤ steps.old + run_steps C.WORDS program.now }
{
    let (state, rest) = scratch.split_at_mut(program.layout.initial.len());
    let run = &mut rest[..program.code.scratch_words()];
    let linear = program.layout.linear.as_slice();
    let places = program.layout.history.as_slice();
    scatter(history, places, state, steps);
    column_to_state::<C, L>(linear, map, state, steps);
    program.code.exec(state, args, run, steps);
    gather(state, places, history, steps);
    state_to_column::<C, L>(linear, state, map, steps);
}
