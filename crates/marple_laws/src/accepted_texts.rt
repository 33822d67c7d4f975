//! Laws of accepted texts, their plans and the texts of their plans.

ghost use Rattle.marple_laws.specs.AcceptedPlans.{AcceptedHavePlanTexts, AcceptedHavePlans, AcceptedLoadAsQueries};

/// The query of each accepted text has a plan, which definitions give: it takes of each packet what the query's groupbys take, with
/// the programs of their folds.
pub fn accepted_have_plans()
    ensures { AcceptedHavePlans }
{}

/// The query of each accepted text without finals has a plan's text: its groupbys have different names by the rule, its folds
/// begin with words, it prints something and nothing twice, and the text has at most 2,097,152 bytes.
pub fn accepted_have_plan_texts()
    ensures { AcceptedHavePlanTexts }
{}

/// The text of its plan is valid, and all that it says reads what the query reads and prints what the query prints.
pub fn accepted_compile_and_run()
    ensures { AcceptedLoadAsQueries }
{}
