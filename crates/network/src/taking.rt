//! What a groupby takes of a packet, at one front.

ghost use Rattle.std.specs.Prelude.{◌≡◌, ◌+◌, ◌<◌, ◌≤◌, length};
ghost use Rattle.epoch_model.specs.Driving.{event_of};
ghost use Rattle.backing_store.specs.Store.{Store};
ghost use Rattle.stage_plan.specs.{Planned.{registers_of, wiring_at}, Registers.taken_at};
ghost use Rattle.switch_core.specs.{FrontEvents.with_store, PlanLanes.lane_cost};
ghost use Rattle.network.specs.Events.{LaneCarries};

use epoch_entry::{AnyEpochs, EpochKind};
use marple_base::Steps;
use stage_plan::Plan;
use std::sync::ledger::Ledger;
use switch_core::Front;

/// Makes the packet event of what the groupby takes from these registers, if it takes anything. No store changes.
pub fn take_use<const WAYS: usize, L: Ledger>(
    plan: &Plan,
    group: u32,
    registers: &[u64],
    front: &mut Front<AnyEpochs, WAYS>,
    key: &mut [u64],
    args: &mut [u64],
    steps: &mut Steps<L>,
)
    requires group { group < length plan.now.groups }
    requires registers { length registers.now ≡ registers_of plan.now }
    requires ready { length front.old.pipe.records < front.old.pipe.places }
    requires key { length (wiring_at plan.now group).keys ≡ front.old.cache.key_words }
    requires args { length (wiring_at plan.now group).args ≡ (⟦<AnyEpochs as EpochKind>⟧.sizes front.old.kind).args }
    requires key_room { length (wiring_at plan.now group).keys ≤ length key.old }
    requires args_room { length (wiring_at plan.now group).args ≤ length args.old }
    ensures carries { (store : Store) → LaneCarries WAYS (event_of (taken_at (wiring_at plan.now group) registers.now))
        (with_store front.old store) (with_store front.new store) }
    ensures steps { steps.old ≤ steps.new }
    ensures cost { (store : Store) → steps.new ≤ steps.old + lane_cost WAYS (with_store front.old store) }
{
    if plan.present(group, registers) {
        let wiring = plan.wiring(group);
        let key = &mut key[..wiring.keys.len()];
        let args = &mut args[..wiring.args.len()];
        plan.key_into(group, registers, key, steps);
        plan.args_into(group, registers, args, steps);
        front.packet(key, args, steps);
    }
}
