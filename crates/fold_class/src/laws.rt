//! Laws of depth and class, and of translations.

ghost use Rattle.std.specs.Prelude.{◌≡◌, ◌≤◌, ◌<◌, ◌↔◌, ℕ, ◌+◌, ◌%◌, ◌^◌, max, true, false, List, length, slice_index};
ghost use Rattle.query_lang.specs.{Words.AreWords, declared.fold.TypedFold.TypedFold, Folds.{IsValidFold, fold_states, body, folded}};
ghost use Rattle.fold_code.specs.Additive.{is_additive};
ghost use Rattle.fold_class.specs.{Depth.{IsHistory, is_history, IsDepth, depth_of}, Kinds.{class_of, algebra_of}};
ghost use Rattle.fold_class.specs.{declared.class.Algebra.{Algebra as AlgebraOf}, Step.{history_places, words_at}};
ghost use Rattle.fold_class.specs.Translations.{SameHistory, AreAlikeStates, AreMoved, HasZeros};

use crate::class::Algebra;
use query_lang::Class;

/// After as many rows as the fold's depth, its history is the same from any two states.
pub fn history_forgets()
    ensures { (f : TypedFold) (depth : ℕ) (xs ys : List ℕ) (rows : List (List ℕ)) → IsValidFold f → IsDepth f depth
        → length xs ≡ fold_states f → length ys ≡ fold_states f → depth ≤ length rows
        → words_at (folded f xs rows) (history_places f) ≡ words_at (folded f ys rows) (history_places f) }
{}

/// A variable has a depth exactly if it has one that is at most the number of variables.
pub fn rounds_find_each_depth()
    ensures { (f : TypedFold) (v : ℕ) → v < fold_states f → IsHistory f v ↔ (is_history f v ≡ true) }
{}

/// A valid fold has one depth.
pub fn depth_is_found()
    ensures { (f : TypedFold) (d : ℕ) → IsValidFold f → IsDepth f d → d ≡ depth_of f }
{}

/// A fold that is linear by maxima is less deep than it has variables: one whose variables all have a depth is linear by sums.
pub fn maxima_are_shallower()
    ensures { (f : TypedFold) (d : ℕ) → IsValidFold f → algebra_of f ≡ Algebra.Maxima → IsDepth f d → d < fold_states f }
{}

/// An additive fold is linear by sums, and none of its variables has a depth.
pub fn additive_is_linear()
    ensures class { (f : TypedFold) → IsValidFold f → is_additive f ≡ true → class_of f ≡ Class.Linear }
    ensures algebra { (f : TypedFold) → IsValidFold f → is_additive f ≡ true → algebra_of f ≡ Algebra.Sums }
    ensures depth { (f : TypedFold) → IsValidFold f → is_additive f ≡ true → IsDepth f 0 }
{}

/// The history after one step depends on the history and the arguments alone.
pub fn history_steps_alone()
    ensures { (f : TypedFold) (args xs ys : List ℕ) → IsValidFold f → length xs ≡ fold_states f → length ys ≡ fold_states f
        → SameHistory f xs ys → SameHistory f (body f xs args) (body f ys args) }
{}

/// If the linear variables of one state are those of another, moved by the words of a table, they still are after one step of a
/// translation. One by sums adds the same to both, and one by maxima takes the greater of each and the same word.
pub fn step_translates()
    ensures moves { (algebra : AlgebraOf) (f : TypedFold) (table : ℕ → ℕ) (args xs ys : List ℕ) → AreAlikeStates algebra f xs ys
        → AreMoved algebra f table xs ys → AreMoved algebra f table (body f xs args) (body f ys args) }
    ensures sums { (f : TypedFold) (args xs ys : List ℕ) (v : ℕ) → AreAlikeStates Algebra.Sums f xs ys → v < fold_states f
        → is_history f v ≡ false
        → (slice_index (body f xs args) v + slice_index ys v) % 2 ^ 64 ≡ (slice_index (body f ys args) v + slice_index xs v) % 2 ^ 64 }
    ensures maxima { (f : TypedFold) (args xs ys : List ℕ) (v : ℕ) → AreAlikeStates Algebra.Maxima f xs ys → v < fold_states f
        → is_history f v ≡ false
        → (b : ℕ) × (slice_index (body f xs args) v ≡ max (slice_index xs v) b)
        × (slice_index (body f ys args) v ≡ max (slice_index ys v) b) }
{}

/// The same for any number of rows. So the fold over rows from a state is that state, moved by the fold over them from zeros
/// with the state's history.
pub fn rows_translate()
    ensures moves { (algebra : AlgebraOf) (f : TypedFold) (table : ℕ → ℕ) (rows : List (List ℕ)) (xs ys : List ℕ)
        → AreAlikeStates algebra f xs ys → AreMoved algebra f table xs ys → AreMoved algebra f table (folded f xs rows) (folded f ys rows) }
    ensures from_zeros { (algebra : AlgebraOf) (f : TypedFold) (rows : List (List ℕ)) (zeros state : List ℕ)
        → AreAlikeStates algebra f zeros state → AreWords state → HasZeros f zeros
        → AreMoved algebra f (slice_index state) (folded f zeros rows) (folded f state rows) }
{}
