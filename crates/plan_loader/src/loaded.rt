//! A plan that is read.

use marple_base::Seq;
use stage_plan::Plan;

/// The plan of a text, and the numbers of the groupbys that are printed, in the order of their lines.
#[derive(Drop)]
pub struct LoadedPlan {
    pub plan: Plan,
    pub prints: Seq<u16>,
}
