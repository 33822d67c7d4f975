//! Whether the operators of a walk keep each variable of a fold from being Other.

ghost use Rattle.std.specs.Prelude.{◌≡◌, ℕ, ◌≤◌, nat_lt, if◌then◌else◌, length};
ghost use Rattle.query_lang.specs.Folds.{IsValidFold};
ghost use Rattle.fold_class.specs.Kinds as Kinds;
ghost use Rattle.fold_class.specs.{Kinds.is_no_other, Tables.all_below, Walk.{kinds_in, flag_in}};

use crate::class::Kind;
use crate::operators::Operators;
use crate::walk::walk_block;
use query_lang::{MAX_STATES, TypedFold};

// The kind of a variable at the start of a body.
fn start_kind(is_fixed: bool) -> Kind
    ensures { result ≡ (if is_fixed then Kind.Pure else Kind.Affine) }
{
    if is_fixed { Kind::Pure } else { Kind::Affine }
}

// The kinds at the start of a body: Pure for a fixed variable, and Affine for the others.
fn first_kinds(states: usize, fixed: &[bool]) -> [Kind; MAX_STATES]
    requires size { length fixed.now ≡ MAX_STATES }
    requires few { states ≤ MAX_STATES }
    ensures { (s : ℕ) → kinds_in result s
        ≡ (if nat_lt s states then (if flag_in fixed.now s then Kind.Pure else Kind.Affine) else Kind.Pure) }
{
    let mut kinds = [Kind::Pure; MAX_STATES];
    for v in 0..states {
        kinds[v] = start_kind(fixed[v]);
    }
    kinds
}

// Whether none of the first variables is Other.
fn none_other(states: usize, kinds: &[Kind]) -> bool
    requires { states ≤ length kinds.now }
    ensures { result ≡ all_below states (λ v. is_no_other (kinds_in kinds.now v)) }
{
    let mut none = true;
    for v in 0..states {
        if let Kind::Other = kinds[v] {
            none = false;
        }
    }
    none
}

/// Whether no variable of a fold is Other after its body, by these operators, from Pure for each fixed variable and each
/// argument and Affine for each other variable. There is a flag for each of eight variables.
pub fn has_no_other<O: Operators>(operators: &O, f: &TypedFold, fixed: &[bool]) -> bool
    requires valid { IsValidFold f.now }
    requires size { length fixed.now ≡ MAX_STATES }
    ensures { result ≡ Kinds.has_no_other (O.roles operators.now) (flag_in fixed.now) f.now }
{
    let states = f.state_names.len();
    let mut kinds = first_kinds(states, fixed);
    walk_block(operators, &mut kinds, f.body.as_slice());
    none_other(states, &kinds)
}
