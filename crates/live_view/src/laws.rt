//! What a view has of a running trace.

ghost use Rattle.live_view.specs.Laws.{RowListsAreSeen, ViewsEndTheTrace};

use epoch_model::{
    machines_are_well_formed, packets_follow_the_trace, sweeps_reach_the_end,
    taken_uses_are_in_trace,
};

/// A view has the row lists of each key: those of its closed epochs, and then that of its open one.
pub fn row_lists_are_seen()
    ensures { RowListsAreSeen }
{
    machines_are_well_formed();
}

/// A view after some packets is what the end of the trace would be, if it ended with them.
pub fn views_end_the_trace()
    ensures { ViewsEndTheTrace }
{
    packets_follow_the_trace();
    sweeps_reach_the_end();
    taken_uses_are_in_trace();
}
