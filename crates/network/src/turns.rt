//! The calls that make the events which a trace needs, in their order: those of a packet's turn, and those of the end.

ghost use Rattle.std.specs.{Prelude.{◌≡◌, ◌+◌, ◌<◌, ◌≤◌, true, OnOk, OnErr}, List.list_all};
ghost use Rattle.network.specs.{Groups.group_is_drained, Events.is_ready_at, Networks.turn_cost};
ghost use Rattle.network.specs.Running.{MergingBreaksOff, NetworkRuns, RunBreaksOff, RunsWithMerges, all_evictions, turn_events};

use crate::network::Network;
use marple_base::{Packet, Steps};
use std::alloc::AllocError;
use std::sync::ledger::Ledger;
use switch_core::Upkeep;

impl<const WAYS: usize> Network<WAYS> {
    /// A packet of a switch with the merges around it: first each lane whose pipe is full merges a record, then comes the
    /// packet, and then, where the lag is over, each lane merges a record. Only a store needs memory, for a new key. When
    /// out of memory, only the first of these events were made.
    pub fn turn<L: Ledger>(
        &mut self,
        at: u32,
        packet: &Packet,
        lag_over: bool,
        steps: &mut Steps<L>,
    ) -> Result<(), AllocError>
        requires { at < self.old.switches }
        ensures runs { OnOk result (NetworkRuns WAYS (turn_events at packet.now.words lag_over self.old) self.old self.new) }
        ensures breaks_off { OnErr result (RunBreaksOff WAYS (turn_events at packet.now.words lag_over self.old) self.old self.new) }
        ensures merged { OnOk result (lag_over ≡ true → list_all (is_ready_at at) self.new.groups ≡ true) }
        ensures steps { steps.old ≤ steps.new }
        ensures cost { steps.new ≤ steps.old + turn_cost WAYS at self.old }
    {
        self.invariant();
        self.keep_up(at, Upkeep::Room, steps)?;
        self.packet(at, packet, steps);
        if !lag_over {
            return Ok(());
        }
        self.keep_up(at, Upkeep::Lag, steps)
    }

    /// Closes all open epochs of all switches and merges all that are closed: switch by switch and groupby by groupby, each
    /// bucket in ascending order. When out of memory, only the first of these evictions were made, and merges among them.
    pub fn drain<L: Ledger>(&mut self, steps: &mut Steps<L>) -> Result<(), AllocError>
        ensures runs { OnOk result (RunsWithMerges WAYS (all_evictions self.old) self.old self.new) }
        ensures breaks_off { OnErr result (MergingBreaksOff WAYS (all_evictions self.old) self.old self.new) }
        ensures drained { OnOk result (list_all group_is_drained self.new.groups ≡ true) }
        ensures steps { steps.old ≤ steps.new }
    {
        self.invariant();
        for at in 0..self.switches() {
            self.keep_up(at, Upkeep::Sweep, steps)?;
            self.keep_up(at, Upkeep::Rest, steps)?;
        }
        Ok(())
    }
}
