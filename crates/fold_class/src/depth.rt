//! Which variables have a depth, and how deep a fold is.

ghost use Rattle.std.specs.Prelude.{◌≡◌, ℕ, ◌<◌, ◌≤◌, Bool, true, false, not, ◌&&◌, ◌||◌, length, slice_get};
ghost use Rattle.query_lang.specs.Folds.{IsValidFold, fold_states};
ghost use Rattle.fold_class.specs.{Tables.all_below, Depth.{fold_reads, is_within, is_history, IsDepth}};
ghost use Rattle.fold_class.specs.Walk.{kinds_in, is_other, flag_in};

use crate::class::Kind;
use crate::operators::Reads;
use crate::walk::walk_block;
use query_lang::{MAX_STATES, TypedFold};

// A kind for each variable: Other where the old value of variable u reaches it.
fn readers_of(f: &TypedFold, u: usize) -> [Kind; MAX_STATES]
    requires valid { IsValidFold f.now }
    requires variable { u < fold_states f.now }
    ensures { (v : ℕ) → is_other (kinds_in result v) ≡ fold_reads f.now v u }
{
    let mut kinds = [Kind::Pure; MAX_STATES];
    kinds[u] = Kind::Other;
    walk_block(&Reads, &mut kinds, f.body.as_slice());
    kinds
}

// Clears the flag of each variable that is Other.
fn strike(flags: &mut [bool], kinds: &[Kind])
    requires { length flags.old ≡ length kinds.now }
    ensures { (v : ℕ) → v < length flags.old
        → flag_in flags.new v ≡ (flag_in flags.old v && not (is_other (kinds_in kinds.now v))) }
{
    for (v, kind) in kinds.iter().enumerate() {
        if let Kind::Other = kind {
            flags[v] = false;
        }
    }
}

// By the variables up to some depth, those up to one more: a variable is among them if all variables that it reads were.
fn next_round(f: &TypedFold, within: &[bool]) -> [bool; MAX_STATES]
    requires valid { IsValidFold f.now }
    requires size { length within.now ≡ MAX_STATES }
    ensures { (v : ℕ) → v < fold_states f.now
        → flag_in result v ≡ all_below (fold_states f.now) (λ u. not (fold_reads f.now v u) || flag_in within.now u) }
{
    let mut next = [true; MAX_STATES];
    for u in 0..f.state_names.len() {
        if !within[u] {
            let readers = readers_of(f, u);
            strike(&mut next, &readers);
        }
    }
    next
}

// The same in place.
fn advance(f: &TypedFold, within: &mut [bool])
    requires valid { IsValidFold f.now }
    requires size { length within.old ≡ MAX_STATES }
    ensures { (v : ℕ) → v < fold_states f.now
        → flag_in within.new v ≡ all_below (fold_states f.now) (λ u. not (fold_reads f.now v u) || flag_in within.old u) }
{
    let next = next_round(f, within);
    within.copy_from_slice(&next);
}

/// Which variables have a depth.
pub(crate) fn history_of(f: &TypedFold) -> [bool; MAX_STATES]
    requires { IsValidFold f.now }
    ensures { (v : ℕ) → v < fold_states f.now → flag_in result v ≡ is_history f.now v }
{
    let mut within = [false; MAX_STATES];
    for _round in 0..f.state_names.len() {
        advance(f, &mut within);
    }
    within
}

// Whether each flag that is set for the first variables is set in other flags too.
fn covers(states: usize, flags: &[bool], others: &[bool]) -> bool
    requires size { states ≤ length flags.now }
    requires others { states ≤ length others.now }
    ensures { result ≡ all_below states (λ v. not (flag_in flags.now v) || flag_in others.now v) }
{
    let mut all = true;
    for v in 0..states {
        all = all && (!flags[v] || others[v]);
    }
    all
}

/// The least number that no variable's depth exceeds.
pub(crate) fn depth_of(f: &TypedFold, history: &[bool]) -> u8
    requires valid { IsValidFold f.now }
    requires size { length history.now ≡ MAX_STATES }
    requires history { (v : ℕ) → v < fold_states f.now → flag_in history.now v ≡ is_history f.now v }
    ensures { IsDepth f.now result }
{
    let mut within = [false; MAX_STATES];
    let states = f.state_names.len();
    for depth in 0..states {
        if covers(states, history, &within) {
            return depth as u8;
        }
        advance(f, &mut within);
    }
    states as u8
}
