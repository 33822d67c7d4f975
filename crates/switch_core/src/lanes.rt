//! Lanes side by side.

ghost use Rattle.std.specs.{Prelude.{◌≡◌, ◌+◌, ◌≤◌, sum_by, OnOk, OnErr}, List.list_all};
ghost use Rattle.switch_core.specs.{Closing.is_drained, PlanLanes.{AreKept, LanesBreakOff, LanesMake}};
ghost use Rattle.switch_core.specs.PlanLanes.{lane_is_ready, lane_upkeep_cost, upkeeps_at};

use crate::fetching::read_stores;
use crate::lane::Lane;
use crate::upkeep::Upkeep;
use epoch_entry::AnyEpochs;
use marple_base::Steps;
use std::alloc::AllocError;
use std::sync::ledger::Ledger;

/// Whether every pipe has room for a record.
pub fn all_ready<const WAYS: usize>(lanes: &[Lane<AnyEpochs, WAYS>]) -> bool
    ensures { result ≡ list_all lane_is_ready lanes.now }
{
    for lane in lanes {
        if !lane.ready() {
            return false;
        }
    }
    true
}

/// Does what is due at each lane, lane by lane. A query mostly has one groupby, for which there is nothing to fetch and no loop.
/// What several lanes fetch is kept in `room`, of which no word means anything.
#[inline(always)]
pub fn keep_lanes<const WAYS: usize, L: Ledger>(
    lanes: &mut [Lane<AnyEpochs, WAYS>],
    upkeep: Upkeep,
    room: &mut [u64],
    steps: &mut Steps<L>,
) -> Result<(), AllocError>
    ensures makes { OnOk result (LanesMake WAYS (upkeeps_at upkeep lanes.old) lanes.old lanes.new) }
    ensures breaks_off { OnErr result (LanesBreakOff WAYS upkeep lanes.old lanes.new) }
    ensures left { OnOk result (AreKept upkeep lanes.new) }
    ensures steps { steps.old ≤ steps.new }
    ensures cost { steps.new ≤ steps.old + sum_by (lane_upkeep_cost upkeep) lanes.old }
{
    if lanes.len() == 1 {
        let lane = &mut lanes[0];
        return lane.keep_up(upkeep, steps);
    }
    read_stores(upkeep, lanes, room);
    for i in 0..lanes.len() {
        let lane = &mut lanes[i];
        lane.keep_up(upkeep, steps)?;
    }
    Ok(())
}

/// Whether all caches and pipes are empty.
pub fn all_drained<const WAYS: usize>(lanes: &[Lane<AnyEpochs, WAYS>]) -> bool
    ensures { result ≡ list_all (λ lane. is_drained lane.cache lane.pipe) lanes.now }
{
    for lane in lanes {
        if !lane.drained() {
            return false;
        }
    }
    true
}
