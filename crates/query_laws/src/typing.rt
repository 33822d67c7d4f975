//! Laws of the rules: what the checks give is exactly what the rules give.

ghost use Rattle.query_laws.specs.TypingLaws.{ConditionsAgree, FaultsHaveNoForm, FinalsAgree, FoldsAgree, HasOneTypedForm, QueriesAgree};
ghost use Rattle.query_laws.specs.TypingLaws.{StreamsAgree, WordsAgree};

/// An expression is a word by the rules exactly where the check gives it a tree, the same one, whatever states are hidden.
pub fn words_agree()
    ensures { WordsAgree }
{}

/// The same of conditions.
pub fn conditions_agree()
    ensures { ConditionsAgree }
{}

/// A fold has a typed form by the rules exactly where the check gives it, the same one.
pub fn folds_agree()
    ensures { FoldsAgree }
{}

/// What a stream's operator makes after some items by the rules is what the check makes of it.
pub fn streams_agree()
    ensures { StreamsAgree }
{}

/// The same of a final's operator.
pub fn finals_agree()
    ensures { FinalsAgree }
{}

/// A query has a typed form by the rules exactly where the check gives it, the same one.
pub fn queries_agree()
    ensures { QueriesAgree }
{}

/// A query has one typed form at most.
pub fn one_typed_form()
    ensures { HasOneTypedForm }
{}

/// A query in which the check finds a fault has no typed form.
pub fn faults_have_no_form()
    ensures { FaultsHaveNoForm }
{}
