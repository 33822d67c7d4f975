//! What happens for one packet.

ghost use Rattle.std.specs.{Prelude.{◌≡◌, ◌≤◌, ℕ, suc, OnOk, true}, List.list_all};
ghost use Rattle.epoch_model.specs.{Driving.{after_packet, event_of}, Epochs.is_refresh, Machine.{Machine, empty_buckets}};
ghost use Rattle.stage_plan.specs.Planned.{taken};
ghost use Rattle.switch_core.specs.PlanLanes.{PipelineMakes, PipelineView, lane_is_ready, upkeeps_at};
ghost use Rattle.trace_drive.specs.{Clocks.HasCounted, Follows.{FollowsBy, Keeps}, Turns.{MakesTurn, lag_at}};

use crate::clock::Clock;
use epoch_model::events_keep_alike;
use marple_base::{Packet, Steps};
use std::alloc::AllocError;
use std::sync::ledger::Ledger;
use switch_core::{Pipeline, Upkeep};

// The sweep after a packet, and then a merge of each lane where the lag is over. Apart, since few packets are followed by a sweep.
#[cold]
#[inline(never)]
fn sweep_after<const WAYS: usize, L: Ledger>(
    pipeline: &mut Pipeline<WAYS>,
    lag_over: bool,
    steps: &mut Steps<L>,
) -> Result<(), AllocError>
    ensures follows { OnOk result ((after : ℕ → Machine) → FollowsBy after pipeline.old
        → FollowsBy (λ i. empty_buckets pipeline.old.buckets (after i)) pipeline.new) }
    ensures makes { OnOk result ((swept : PipelineView)
        × PipelineMakes WAYS (upkeeps_at Upkeep.Sweep pipeline.old.lanes) pipeline.old swept
        × PipelineMakes WAYS (lag_at lag_over swept) swept pipeline.new) }
    ensures keeps { OnOk result (Keeps pipeline.old pipeline.new) }
    ensures merged { OnOk result (lag_over ≡ true → list_all lane_is_ready pipeline.new.lanes ≡ true) }
    ensures steps { steps.old ≤ steps.new }
{
    events_keep_alike();
    pipeline.sweep(steps)?;
    if !lag_over {
        return Ok(());
    }
    pipeline.keep_up(Upkeep::Lag, steps)
}

/// A packet, for which full pipes make room before, and then the sweep and the merges that are due by the clocks.
#[inline(always)]
pub fn turn<const WAYS: usize, L: Ledger>(
    pipeline: &mut Pipeline<WAYS>,
    refreshes: &mut Clock,
    lags: &mut Clock,
    packet: &Packet,
    steps: &mut Steps<L>,
) -> Result<(), AllocError>
    requires refreshes { (number : ℕ) × HasCounted number refreshes.old }
    requires lags { (number : ℕ) × HasCounted number lags.old }
    ensures follows { OnOk result ((number : ℕ) (after : ℕ → Machine) → HasCounted number refreshes.old
        → FollowsBy after pipeline.old
        → FollowsBy (λ i. after_packet (record {
          buckets = pipeline.old.buckets;
          ways = WAYS;
          refresh = refreshes.old.every;
        }) (suc number) (event_of (taken pipeline.old.plan i packet.now.words)) (after i)) pipeline.new) }
    ensures turns { OnOk result ((refreshed lagged : ℕ) → HasCounted refreshed refreshes.old → HasCounted lagged lags.old
        → MakesTurn WAYS packet.now.words (is_refresh refreshes.old.every (suc refreshed)) (is_refresh lags.old.every (suc lagged))
        pipeline.old pipeline.new) }
    ensures keeps { OnOk result (Keeps pipeline.old pipeline.new) }
    ensures merged { OnOk result ((number : ℕ) → HasCounted number lags.old → is_refresh lags.old.every (suc number) ≡ true
        → list_all lane_is_ready pipeline.new.lanes ≡ true) }
    ensures refreshes { (number : ℕ) → HasCounted number refreshes.old → HasCounted (suc number) refreshes.new }
    ensures lags { (number : ℕ) → HasCounted number lags.old → HasCounted (suc number) lags.new }
    ensures every { (refreshes.new.every ≡ refreshes.old.every) × (lags.new.every ≡ lags.old.every) }
    ensures steps { steps.old ≤ steps.new }
{
    events_keep_alike();
    let refresh_now = refreshes.is_due();
    let lag_over = lags.is_due();
    pipeline.keep_up(Upkeep::Room, steps)?;
    pipeline.packet(packet, steps);
    if refresh_now {
        return sweep_after(pipeline, lag_over, steps);
    }
    if lag_over {
        return pipeline.keep_up(Upkeep::Lag, steps);
    }
    Ok(())
}
