// The log of an entry: the first argument rows of its epoch.

ghost use Rattle.std.specs.Prelude.{◌≡◌, ◌≢◌, ℕ, ◌+◌, ◌*◌, ◌<◌, ◌≤◌, length, fold};
ghost use Rattle.coeff_algebra.specs.Maps.{stored_at};
ghost use Rattle.fold_code.specs.Meaning.{Code, code_step, code_steps, code_scratch};
ghost use Rattle.epoch_entry.specs.Entries.{logged_rows};

use fold_code::FoldCode;
use marple_base::{Steps, copy_words};
use std::sync::ledger::Ledger;

// Writes a row into the log, at its number.
pub(crate) fn log_args<L: Ledger>(row: usize, args: &[u64], log: &mut [u64], steps: &mut Steps<L>)
    requires { row * length args.now + length args.now ≤ length log.old }
    ensures here { stored_at (length args.now) log.new row ≡ args.now }
    ensures others { (other : ℕ) → other ≢ row
        → stored_at (length args.now) log.new other ≡ stored_at (length args.now) log.old other }
    ensures steps { steps.new ≡ steps.old + length args.now }
{
    let start = row * args.len();
    copy_words(args, &mut log[start..start + args.len()], steps);
}

// Runs the code on the first rows of the log.
pub(crate) fn replay<L: Ledger>(
    code: &FoldCode,
    rows: usize,
    log: &[u64],
    state: &mut [u64],
    scratch: &mut [u64],
    steps: &mut Steps<L>,
)
    requires states { length state.old ≡ code.now.states }
    requires log { rows * code.now.args ≤ length log.now }
    requires room { length scratch.old ≡ code_scratch code.now }
    ensures state { state.new ≡ fold (code_step code.now) state.old (logged_rows code.now.args rows log.now) }
    ensures steps { steps.old ≤ steps.new }
    ensures cost { steps.new ≡ steps.old + rows * code_steps code.now }
{
    let args = code.args();
    for row in 0..rows {
        code.exec(state, &log[row * args..row * args + args], scratch, steps);
    }
}
