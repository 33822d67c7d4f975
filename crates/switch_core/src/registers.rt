//! The registers of a packet: where a plan has no operations, the packet's words are all of them.

ghost use Rattle.std.specs.Prelude.{◌≡◌, ◌≢◌, ◌+◌, ◌≤◌, length};
ghost use Rattle.stage_plan.specs.Planned.{registers_of as count_of, packet_registers};

use marple_base::{Packet, Steps};
use stage_plan::Plan;
use std::sync::ledger::Ledger;

/// Fills the registers of a packet, if the plan has operations.
pub fn fill_registers<L: Ledger>(
    plan: &Plan,
    packet: &Packet,
    registers: &mut [u64],
    steps: &mut Steps<L>,
)
    requires { length registers.old ≡ count_of plan.now }
    ensures row { length plan.now.ops ≢ 0 → registers.new ≡ packet_registers plan.now packet.now.words }
    ensures steps { steps.old ≤ steps.new }
    ensures cost { steps.new ≤ steps.old + count_of plan.now }
    ensures none { length plan.now.ops ≡ 0 → steps.new ≡ steps.old }
{
    if plan.operations() != 0 {
        plan.row(packet, registers, steps);
    }
}

/// The registers of a packet, of those that were filled.
pub fn registers_of<'a>(plan: &Plan, packet: &'a Packet, filled: &'a [u64]) -> &'a [u64]
    requires room { length filled.now ≡ count_of plan.now }
    requires row { length plan.now.ops ≢ 0 → filled.now ≡ packet_registers plan.now packet.now.words }
    ensures row { result.now ≡ packet_registers plan.now packet.now.words }
    ensures length { length result.now ≡ count_of plan.now }
{
    if plan.operations() == 0 {
        &packet.words
    } else {
        filled
    }
}
