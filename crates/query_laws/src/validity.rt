//! Laws of accepted texts, with no premise but that the text is accepted.

ghost use Rattle.query_laws.specs.ValidLaws.{AcceptedAreValid, AcceptedStartAsWords, NumbersAreWords};

/// Each number in the query of a text is a word, whatever the text.
pub fn numbers_are_words()
    ensures { NumbersAreWords }
{}

/// Each accepted text has a valid typed form: what it names is there, and the limits are kept.
pub fn accepted_are_valid()
    ensures { AcceptedAreValid }
{}

/// The state variables of an accepted text's folds start as words.
pub fn accepted_start_as_words()
    ensures { AcceptedStartAsWords }
{}
