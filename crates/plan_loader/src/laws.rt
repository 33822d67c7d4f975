//! Laws of the texts of plans.

ghost use Rattle.plan_loader.specs.{Faults.OnePlanFault, Loaded.{BodiesAreRead, TextsSayOne}};

/// The statements of a body are read from its tokens.
pub fn bodies_are_read()
    ensures { BodiesAreRead }
{}

/// A text says at most one thing.
pub fn texts_say_one()
    ensures { TextsSayOne }
{}

/// A text has one fault at most.
pub fn one_plan_fault()
    ensures { OnePlanFault }
{}
