//! What the commands with checks of their own refuse of a query that is accepted.

ghost use Rattle.std.specs.Prelude.{◌≡◌};
ghost use Rattle.query_lang.specs.TypedQueries.{IsValidQuery};
ghost use Rattle.stage_plan.specs.Planned.{IsPlanOf};
ghost use Rattle.query_facts.specs.Facts.{command_faults};

use enclosure_folds::enclose_check;
use net_wide::net_check;
use plan_writer::final_in_plan;
use query_lang::{QueryFault, TypedQuery};
use stage_plan::Plan;

/// The fault that each of these commands finds, and `None` where it takes the query.
#[derive(Clone, Copy)]
pub struct Commands {
    pub net: Option<QueryFault>,
    pub enclose: Option<QueryFault>,
    pub compile: Option<QueryFault>,
}

/// What the commands find.
pub(crate) fn command_faults(q: &TypedQuery, p: &Plan) -> Commands
    requires valid { IsValidQuery q.now }
    requires plan { IsPlanOf q.now p.now }
    ensures { result ≡ command_faults q.now }
{
    Commands {
        net: net_check(q),
        enclose: enclose_check(q, p),
        compile: final_in_plan(q),
    }
}
