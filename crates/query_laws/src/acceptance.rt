//! Laws that say which texts are accepted and why a text is refused, in the words of the grammar, the rules and the depths.

ghost use Rattle.query_laws.specs.{ByRules.{AcceptedByRules, AcceptedOnce, RefusedByRules}, FinalExamples.FinalExamples};
ghost use Rattle.query_laws.specs.{FoldExamples.FoldExamples, ItemExamples.ItemExamples};
ghost use Rattle.query_laws.specs.TypingExamples.{ExpressionExamples, StreamExamples};

/// A text is accepted with a typed form exactly where a query derives from it, the rules give the query that form, and no
/// operation of the form needs a stage past the 64th.
pub fn accepted_by_rules()
    ensures { AcceptedByRules }
{}

/// A text is accepted with one typed form at most.
pub fn accepted_once()
    ensures { AcceptedOnce }
{}

/// A text is refused with a fault that is the first of the grammar; or that says what an item asks that isn't so, or that
/// nothing is printed; or that is at a stream that is too deep. It is refused with none where it is accepted.
pub fn refused_by_rules()
    ensures { RefusedByRules }
{}

/// Small expressions, streams, folds, finals and items, typed and refused: a row for each operator and each kind of node, a
/// filter on a fold's state, a mapped column beside the packet's field of its name, an `emit` under a condition on a state,
/// a join by other keys, a ninth key, a name that is taken, a 33rd binding, and a table that is printed twice.
pub fn small_forms()
    ensures expressions { ExpressionExamples }
    ensures streams { StreamExamples }
    ensures folds { FoldExamples }
    ensures finals { FinalExamples }
    ensures items { ItemExamples }
{}
