// Three states of a fold in sequence.

ghost use Rattle.std.specs.Prelude.{◌≡◌, ◌+◌, ◌*◌, length};
ghost use Rattle.fold_code.specs.Meaning.{code_step, code_steps, code_scratch};
ghost use Rattle.epoch_entry.specs.Triples.{step_beside, start_beside};

use fold_code::FoldCode;
use marple_base::Steps;
use std::sync::ledger::Ledger;

// A state, as many zeros, and as many greatest words.
pub(crate) fn write_three(initial: &[u64], triple: &mut [u64])
    requires { length triple.old ≡ length initial.now * 3 }
    ensures { triple.new ≡ start_beside (length initial.now) initial.now }
{
    let (first, rest) = triple.split_at_mut(initial.len());
    let (low, high) = rest.split_at_mut(initial.len());
    first.copy_from_slice(initial);
    low.fill(0);
    high.fill(u64::MAX);
}

// The same, with a step for each word.
pub(crate) fn start_three<L: Ledger>(initial: &[u64], triple: &mut [u64], steps: &mut Steps<L>)
    requires { length triple.old ≡ length initial.now * 3 }
    ensures words { triple.new ≡ start_beside (length initial.now) initial.now }
    ensures steps { steps.new ≡ steps.old + length initial.now * 3 }
{
    write_three(initial, triple);
    steps.tick_many(triple.len() as u64);
}

// One run of the code on each of three states. Not inlined, since other kinds of entries need few of its registers.
#[inline(never)]
pub(crate) fn run_three<L: Ledger>(
    code: &FoldCode,
    triple: &mut [u64],
    args: &[u64],
    scratch: &mut [u64],
    steps: &mut Steps<L>,
)
    requires states { length triple.old ≡ code.now.states * 3 }
    requires arguments { length args.now ≡ code.now.args }
    requires room { length scratch.old ≡ code_scratch code.now }
    ensures step { triple.new ≡ step_beside (code_step code.now) code.now.states triple.old args.now }
    ensures steps { steps.new ≡ steps.old + code_steps code.now * 3 }
{
    let states = code.states();
    let (first, rest) = triple.split_at_mut(states);
    let (low, high) = rest.split_at_mut(states);
    code.exec(first, args, scratch, steps);
    code.exec(low, args, scratch, steps);
    code.exec(high, args, scratch, steps);
}
