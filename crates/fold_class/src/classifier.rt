//! The class of a fold, and its program.

ghost use Rattle.std.specs.Prelude.{◌≡◌, ℕ, ◌<◌, length, IfOk};
ghost use Rattle.query_lang.specs.Folds.{IsValidFold, fold_states};
ghost use Rattle.fold_code.specs.Meaning.{IsCodeOf};
ghost use Rattle.fold_class.specs.{Depth.is_history, Kinds.{is_linear_by, class_of, algebra_of}, Walk.flag_in};
ghost use Rattle.fold_class.specs.Program.{IsRowsOf, IsLayoutOf, IsProgramOf};

use crate::class::Algebra;
use crate::depth::{depth_of, history_of};
use crate::kept::has_no_other;
use crate::layout::{Layout, Places, places_of};
use crate::program::FoldProgram;
use crate::rows::AffineRows;
use crate::translation::is_translation;
use fold_code::{FoldCode, compile};
use marple_base::Seq;
use query_lang::{Class, MAX_STATES, TypedFold};
use std::alloc::{AllocError, Global};

// Whether a fold is linear by the sums and products of an algebra.
fn is_linear(f: &TypedFold, algebra: Algebra, history: &[bool]) -> bool
    requires valid { IsValidFold f.now }
    requires size { length history.now ≡ MAX_STATES }
    requires history { (v : ℕ) → v < fold_states f.now → flag_in history.now v ≡ is_history f.now v }
    ensures { result ≡ is_linear_by algebra f.now }
{
    has_no_other(&algebra, f, history)
}

// The class of a fold and its algebra.
fn class_and_algebra(f: &TypedFold, history: &[bool]) -> (Class, Algebra)
    requires valid { IsValidFold f.now }
    requires size { length history.now ≡ MAX_STATES }
    requires history { (v : ℕ) → v < fold_states f.now → flag_in history.now v ≡ is_history f.now v }
    ensures class { result.0 ≡ class_of f.now }
    ensures algebra { result.1 ≡ algebra_of f.now }
{
    if is_linear(f, Algebra::Sums, history) {
        (Class::Linear, Algebra::Sums)
    } else if is_linear(f, Algebra::Maxima, history) {
        (Class::Linear, Algebra::Maxima)
    } else {
        (Class::Other, Algebra::Sums)
    }
}

// The rows of a fold.
fn rows_of(
    alloc: Global,
    f: &TypedFold,
    algebra: Algebra,
    history: &[bool],
) -> Result<AffineRows, AllocError>
    requires valid { IsValidFold f.now }
    requires algebra { algebra ≡ algebra_of f.now }
    requires size { length history.now ≡ MAX_STATES }
    requires history { (v : ℕ) → v < fold_states f.now → flag_in history.now v ≡ is_history f.now v }
    ensures { IfOk result (λ rows. IsRowsOf f.now rows) }
{
    let code = compile(alloc, f)?;
    let places = places_of(alloc, f, history)?;
    let Places {
        linear,
        history,
        origins,
    } = places;
    Ok(AffineRows::new(code, algebra, origins, linear, history))
}

// The layout of a fold.
fn layout_of(alloc: Global, f: &TypedFold, history: &[bool]) -> Result<Layout, AllocError>
    requires valid { IsValidFold f.now }
    requires size { length history.now ≡ MAX_STATES }
    requires history { (v : ℕ) → v < fold_states f.now → flag_in history.now v ≡ is_history f.now v }
    ensures { IfOk result (λ layout. IsLayoutOf f.now layout) }
{
    let initial = Seq::from_vec(f.initial.as_slice().to_vec(alloc)?);
    let places = places_of(alloc, f, history)?;
    let Places {
        linear,
        history,
        origins: _,
    } = places;
    Ok(Layout {
        linear,
        history,
        initial,
        args: f.arg_names.len() as u8,
        nodes: f.nodes,
        statements: f.statements,
    })
}

/// The program of a fold: its class, the algebra of its maps, whether it is a translation, its depth, its code and its layout,
/// and for a linear fold the rows of one step.
pub fn classify(alloc: Global, f: &TypedFold, code: FoldCode) -> Result<FoldProgram, AllocError>
    requires valid { IsValidFold f.now }
    requires code { IsCodeOf f.now code }
    ensures { IfOk result (λ program. IsProgramOf f.now program) }
{
    let history = history_of(f);
    let depth = depth_of(f, &history);
    let (class, algebra) = class_and_algebra(f, &history);
    let rows = rows_of(alloc, f, algebra, &history)?;
    let layout = layout_of(alloc, f, &history)?;
    let moves = is_translation(f, algebra, layout.history.as_slice());
    Ok(FoldProgram {
        class,
        algebra,
        moves,
        depth,
        code,
        rows,
        layout,
    })
}
