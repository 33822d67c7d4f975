//! Laws of monotone folds.

ghost use Rattle.std.specs.Prelude.{◌≡◌, ℕ, true, false, List, [], ◌∷◌, All, ◌++◌, length};
ghost use Rattle.query_lang.specs.{declared.fold.TypedFold.TypedFold, Words.AreWords};
ghost use Rattle.query_lang.specs.Folds.{IsValidFold, fold_states, body, folded, initial_state};
ghost use Rattle.enclosure_folds.specs.{Kinds.is_monotone, States.IsAtMost, MonotoneExamples.{decayed_sum, clamped, wrapping_sum}};
ghost use Rattle.enclosure_folds.specs.MonotoneExamples.{shifted_left, choice_by_argument, choice_by_state, overwritten, IsFound};
ghost use Rattle.enclosure_folds.specs.MonotoneExamples.{AreBounds};
ghost use Rattle.epoch_entry.specs.Bounds.{least_state, greatest_state};

/// One step of a monotone fold keeps the order of states, word by word.
pub fn step_keeps_order()
    ensures { (f : TypedFold) (low high args : List ℕ) → IsValidFold f → is_monotone f ≡ true → length low ≡ fold_states f
        → IsAtMost low high → IsAtMost (body f low args) (body f high args) }
{}

/// So do any number of steps.
pub fn rows_keep_order()
    ensures { (f : TypedFold) (low high : List ℕ) (rows : List (List ℕ)) → IsValidFold f → is_monotone f ≡ true
        → length low ≡ fold_states f → IsAtMost low high → IsAtMost (folded f low rows) (folded f high rows) }
{}

/// A monotone fold of all rows lies between its folds of the last rows from the least state and from the greatest.
pub fn last_rows_enclose()
    ensures low { (f : TypedFold) (earlier last : List (List ℕ)) → IsValidFold f → is_monotone f ≡ true
        → IsAtMost (folded f (least_state f) last) (folded f (initial_state f) (earlier ++ last)) }
    ensures high { (f : TypedFold) (earlier last : List (List ℕ)) → IsValidFold f → is_monotone f ≡ true
        → AreWords (initial_state f) → All AreWords earlier
        → IsAtMost (folded f (initial_state f) (earlier ++ last)) (folded f (greatest_state f) last) }
{}

/// Where the two are equal, they are the fold of all rows.
pub fn equal_bounds_are_exact()
    ensures { (f : TypedFold) (earlier last : List (List ℕ)) → IsValidFold f → is_monotone f ≡ true
        → AreWords (initial_state f) → All AreWords earlier
        → folded f (least_state f) last ≡ folded f (greatest_state f) last
        → folded f (initial_state f) (earlier ++ last) ≡ folded f (least_state f) last }
{}

/// Small folds, computed from the definitions.
pub fn small_folds()
    ensures decayed_sum { IsFound 1 decayed_sum true }
    ensures clamped { IsFound 1 clamped true }
    ensures wrapping_sum { IsFound 1 wrapping_sum false }
    ensures shifted_left { IsFound 1 shifted_left false }
    ensures choice_by_argument { IsFound 1 choice_by_argument true }
    ensures choice_by_state { IsFound 2 choice_by_state false }
    ensures overwritten { IsFound 1 overwritten true }
    ensures within { AreBounds decayed_sum (8 ∷ []) (8 ∷ []) (9223372036854775816 ∷ []) }
    ensures exact { AreBounds clamped (20 ∷ []) (10 ∷ []) (10 ∷ []) }
{}
