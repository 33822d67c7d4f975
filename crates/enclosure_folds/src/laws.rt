//! Laws of bounds.

ghost use Rattle.std.specs.Prelude.{◌≡◌, ℕ, ◌<◌, true, false, List, map, filter, length, All};
ghost use Rattle.query_lang.specs.{declared.fold.TypedFold.TypedFold, Words.AreWords};
ghost use Rattle.query_lang.specs.Folds.{IsValidFold, fold_states, folded, initial_state};
ghost use Rattle.epoch_model.specs.{Keys.{Key, ArgRow}, Epochs.{Use, Geometry, is_use_of}, Tables.{Folding, epoch_rows, key_rows}};
ghost use Rattle.epoch_entry.specs.{Kinds.Sizes, Bounds.{bounds_after, IsBoundsKindOf}};
ghost use Rattle.enclosure_folds.specs.{Kinds.is_monotone, MonotoneExamples.{decayed_sum, clamped}};
ghost use Rattle.enclosure_folds.specs.Examples.{AreKeyBounds, one_epoch, two_epochs};
ghost use Rattle.enclosure_folds.specs.Bounds.{low_bound, high_bound, is_exact, Encloses, RowsEnclose, all_rows};
ghost use Rattle.enclosure_folds.specs.{BoundsTables.ExactTablesAreRead, Check.NoFaultMeansBounds};
ghost use Rattle.enclosure_folds.specs.{Closed.{ClosedBoundsEnclose, ClosedTablesGiveBounds, ClosedTablesHold}, Shown.TablesGiveBounds};
ghost use Rattle.enclosure_folds.specs.KeyBounds.{EpochRowsGiveBounds, KeyBoundsEnclose, TriplesGiveWholeTables};

use final_queries::{alike_foldings_make_one_table, group_tables_are_read};

/// By the row lists of a key's epochs: the bounds of a monotone fold enclose its fold over all rows of the key.
pub fn epochs_enclose()
    ensures { (f : TypedFold) (lists : List (List ArgRow)) → IsValidFold f → is_monotone f ≡ true
        → AreWords (initial_state f) → All AreWords (all_rows lists) → 0 < length lists
        → Encloses (low_bound (fold_states f) (map (bounds_after f) lists))
        (high_bound (fold_states f) (map (bounds_after f) lists)) (folded f (initial_state f) (all_rows lists)) }
{}

/// By the table rows that a kind of entries of the fold's bounds gives for these lists.
pub fn rows_enclose()
    ensures { (f : TypedFold) (sizes : Sizes) (folding : Folding) (opening absorbing : ℕ) (key : Key) (count number : ℕ)
        (lists : List (List ArgRow)) → IsValidFold f → IsBoundsKindOf f sizes folding opening absorbing
        → is_monotone f ≡ true → AreWords (initial_state f) → All AreWords (all_rows lists) → 0 < length lists
        → RowsEnclose (fold_states f) (epoch_rows folding key count number lists) (folded f (initial_state f) (all_rows lists)) }
{}

/// By the table of a trace: the rows of a key that has a use bound the fold over the rows of all its uses.
pub fn table_rows_enclose()
    ensures { (f : TypedFold) (sizes : Sizes) (folding : Folding) (opening absorbing : ℕ) (g : Geometry) (uses : List Use)
        (key : Key) → IsValidFold f → IsBoundsKindOf f sizes folding opening absorbing → is_monotone f ≡ true
        → AreWords (initial_state f) → All AreWords (map (λ u. u.row) (filter (is_use_of key) uses))
        → 0 < length (filter (is_use_of key) uses)
        → RowsEnclose (fold_states f) (key_rows folding g uses key)
        (folded f (initial_state f) (map (λ u. u.row) (filter (is_use_of key) uses))) }
{}

/// Bounds are marked exact exactly where they are equal.
pub fn exact_bounds_are_equal()
    ensures equal { (low high : List ℕ) → is_exact low high ≡ true → low ≡ high }
    ensures exact { (low : List ℕ) → is_exact low low ≡ true }
{}

/// The bounds of keys of two small folds, computed from the definitions.
pub fn small_bounds()
    ensures decayed_twice { AreKeyBounds decayed_sum (two_epochs 8 8) 8 9223372036854775816 false }
    ensures decayed_once { AreKeyBounds decayed_sum (one_epoch 0) 0 0 true }
    ensures clamped_twice { AreKeyBounds clamped (two_epochs 12 20) 10 10 true }
    ensures clamped_once { AreKeyBounds clamped (one_epoch 3) 3 3 true }
{}

/// The table whose rows are those of the epochs of a groupby, by entries for a fold's bounds, gives the groupby's table of bounds.
pub fn epoch_rows_give_bounds()
    ensures { EpochRowsGiveBounds }
{}

/// The bounds of each key of a groupby's table enclose the fold of a monotone fold over the rows of all uses of the
/// key, word by word, and where they are equal both are that fold.
pub fn key_bounds_enclose()
    ensures { KeyBoundsEnclose }
{}

/// The table of bounds that a table of three states gives has the words that its names say.
pub fn triples_give_whole_tables()
    ensures { TriplesGiveWholeTables }
{}

/// The table of a groupby's uses by entries for bounds gives what is shown of the groupby: the table of a linear fold,
/// or the table of bounds of any other.
pub fn tables_give_bounds()
    ensures { TablesGiveBounds }
{
    alike_foldings_make_one_table();
    group_tables_are_read();
}

/// The table of any closed epochs by entries for bounds may be shown, and gives what is shown of them: the table of a linear
/// fold, or the table of bounds of any other.
pub fn closed_tables_give_bounds()
    ensures { ClosedTablesGiveBounds }
{
    alike_foldings_make_one_table();
}

/// After any events that leave no epoch open, in whatever order packets, evictions and merges came: the bounds of each key
/// enclose the fold of a monotone fold over the rows of all its packets, word by word, and where they are equal both are
/// that fold.
pub fn closed_bounds_enclose()
    ensures { ClosedBoundsEnclose }
{}

/// After such events what is shown of the closed epochs of a linear or monotone fold holds over the rows of all packets:
/// values are the fold over the rows of their key, and bounds enclose it.
pub fn closed_tables_hold()
    ensures { ClosedTablesHold }
{
    alike_foldings_make_one_table();
}

/// Each groupby of a query in which the check finds no fault has a linear fold or a monotone one.
pub fn no_fault_means_bounds()
    ensures { NoFaultMeansBounds }
{}

/// Finals may read the rows of a table of bounds that are exact, where the keys ascend.
pub fn exact_tables_are_read()
    ensures { ExactTablesAreRead }
{}
