//! Laws of faults: where a query's fault is and what it says, in the words of the rules.

ghost use Rattle.query_laws.specs.FaultLaws.{UnknownNames, StatesOnLine, NamesTaken, WrongKinds, WrongArities, BadConstants, OverLimits};
ghost use Rattle.query_laws.specs.FaultLaws.{NothingsPrinted, OnlyTheseKinds, DemandsAreRules};

/// What a fault of each kind says. Except *NothingPrinted*, it is in the first item that has no typed form after those
/// before it, and says what is asked there and isn't so.
pub fn faults_break_rules()
    ensures unknown_name { UnknownNames }
    ensures state_on_line { StatesOnLine }
    ensures name_taken { NamesTaken }
    ensures wrong_kind { WrongKinds }
    ensures wrong_arity { WrongArities }
    ensures bad_constant { BadConstants }
    ensures over_limit { OverLimits }
    ensures nothing_printed { NothingsPrinted }
    ensures no_other { OnlyTheseKinds }
{}

/// An item has a typed form after others exactly where all that it asks is so. So whatever a fault says isn't so leaves the
/// item without a form, and nothing else does: a filter on a fold's state, say, or a key that is given twice.
pub fn demands_are_rules()
    ensures { DemandsAreRules }
{}
