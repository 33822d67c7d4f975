//! The packets of a trace, each at its switch.

ghost use Rattle.std.specs.Prelude.{◌≡◌, ◌+◌, ◌<◌, ◌≤◌, ℕ, suc, List, [], ◌∷◌, ◌++◌, None, Some, length, slice_get, IfErr, IfOk, OnOk};
ghost use Rattle.network.specs.{Networks.{IsNetwork, KeepsNetwork}, Running.NetworkStands};
ghost use Rattle.net_wide.specs.{NetTables.switch_in, Numbering.{switch_number, with_switch}};
ghost use Rattle.epoch_model.specs.Epochs.{is_refresh};
ghost use Rattle.trace_drive.specs.{Clocks.HasCounted, Drives.words_of};
ghost use Rattle.trace_reader.specs.{Faults.IfRefused, declared.fault.TraceFault.TheVariants.{TooManySwitches as SwitchFault}};
ghost use Rattle.driven_net.specs.{Follows.NetFollows, Lags.{AreLagClocks, CountsAt, HaveCounted}, NetTraces.fault_ahead};
ghost use Rattle.driven_net.specs.Turns.{MakesTurn, MakesTurns, Meets, known_after};

use marple_base::{FIELDS, Field, Packet, Seq, Steps};
use net_wide::number_switch;
use network::{Network, runs_follow_events};
use std::alloc::{AllocError, Global};
use std::sync::ledger::Ledger;
use trace_drive::Clock;
use trace_reader::{MAX_RECORDS, Trace, TraceAnswer, TraceFault};

// The number of a packet's switch. A switch that is new gets caches and pipes, unless it is the 65th.
fn switch_at<const WAYS: usize, L: Ledger>(
    network: &mut Network<WAYS>,
    known: &mut Seq<u64>,
    switch: u64,
    number: u32,
    steps: &mut Steps<L>,
) -> Result<u32, TraceAnswer>
    requires switches { network.old.switches ≡ length known.old }
    ensures at { IfOk result (λ at. switch_number known.old switch ≡ Some at) }
    ensures known { OnOk result (known.new ≡ with_switch known.old switch) }
    ensures switches { OnOk result (network.new.switches ≡ length known.new) }
    ensures keeps { OnOk result (KeepsNetwork network.old network.new) }
    ensures meets { OnOk result (Meets WAYS known.old switch network.old network.new) }
    ensures follows { OnOk result ((packets : List (List ℕ)) (f : NetFollows WAYS known.old packets network.old)
        → (n : NetFollows WAYS known.new packets network.new) × (n.events ≡ f.events)) }
    ensures refused { IfErr result (λ answer. IfRefused answer (λ fault.
        (fault ≡ SwitchFault number) × (switch_number known.old switch ≡ None))) }
    ensures steps { steps.old ≤ steps.new }
{
    network.invariant();
    let before = known.len();
    let numbered = match number_switch(known, switch, steps) {
        Ok(numbered) => numbered,
        Err(AllocError) => return Err(TraceAnswer::Memory),
    };
    let Some(at) = numbered else {
        return Err(TraceAnswer::Refused(TraceFault::TooManySwitches(number)));
    };
    if at as usize == before {
        match network.add_switch() {
            Ok(()) => {}
            Err(AllocError) => return Err(TraceAnswer::Memory),
        }
    }
    Ok(at)
}

// Counts a packet of a switch, and says whether the switch's lag is over with it.
fn is_due(clocks: &mut [Clock], at: usize) -> bool
    requires at { at < 64 }
    requires clocks { (lag : ℕ) × AreLagClocks lag clocks.old }
    ensures clocks { (lag : ℕ) → AreLagClocks lag clocks.old → AreLagClocks lag clocks.new }
    ensures counts { CountsAt at clocks.old clocks.new }
    ensures is_due { (lag number : ℕ) (clock : Clock) → AreLagClocks lag clocks.old → slice_get clocks.old at ≡ Some clock
        → HasCounted number clock → result ≡ is_refresh lag (suc number) }
{
    let clock = &mut clocks[at];
    clock.is_due()
}

fn take_one<const WAYS: usize, L: Ledger>(
    network: &mut Network<WAYS>,
    known: &mut Seq<u64>,
    clocks: &mut [Clock],
    packet: &Packet,
    number: u32,
    steps: &mut Steps<L>,
) -> Result<(), TraceAnswer>
    requires switches { network.old.switches ≡ length known.old }
    requires clocks { (lag : ℕ) × AreLagClocks lag clocks.old }
    ensures known { OnOk result (known.new ≡ with_switch known.old (switch_in packet.now.words)) }
    ensures numbered { OnOk result ((at : ℕ) × (switch_number known.old (switch_in packet.now.words) ≡ Some at)) }
    ensures keeps { OnOk result (KeepsNetwork network.old network.new) }
    ensures follows { OnOk result ((lag : ℕ) (packets : List (List ℕ)) (f : NetFollows WAYS known.old packets network.old)
        → AreLagClocks lag clocks.old → HaveCounted f.events clocks.old
        → (n : NetFollows WAYS known.new (packets ++ packet.now.words ∷ []) network.new) × HaveCounted n.events clocks.new) }
    ensures turn { OnOk result ((lag : ℕ) (packets : List (List ℕ)) (f : NetFollows WAYS known.old packets network.old)
        → AreLagClocks lag clocks.old → HaveCounted f.events clocks.old → known.old ≡ known_after [] packets
        → MakesTurn WAYS lag packets packet.now.words network.old network.new) }
    ensures clocks { (lag : ℕ) → AreLagClocks lag clocks.old → AreLagClocks lag clocks.new }
    ensures refused { IfErr result (λ answer. IfRefused answer (λ fault.
        (fault ≡ SwitchFault number) × (switch_number known.old (switch_in packet.now.words) ≡ None))) }
    ensures steps { steps.old ≤ steps.new }
{
    runs_follow_events();
    let at = switch_at(network, known, packet.get(Field::Switch), number, steps)?;
    let lag_over = is_due(clocks, at as usize);
    match network.turn(at, packet, lag_over, steps) {
        Ok(()) => Ok(()),
        Err(AllocError) => Err(TraceAnswer::Memory),
    }
}

/// Takes all packets of a trace, each at its switch: the network's switches are those of the packets, in the order of
/// their first packets. A lane of the packet's switch whose pipe is full merges a record before the packet, and after every
/// `lag` packets of a switch each of its lanes merges one.
pub(crate) fn take_all<const WAYS: usize, L: Ledger>(
    alloc: Global,
    network: Network<WAYS>,
    lag: u32,
    trace: Trace<'_>,
    steps: &mut Steps<L>,
) -> Result<Network<WAYS>, TraceAnswer>
    requires switches { network.switches ≡ 0 }
    requires fresh { NetworkStands WAYS network [] }
    requires few { length trace.packets ≤ MAX_RECORDS }
    ensures accepted { IfOk result (λ found. fault_ahead trace.entry ≡ None) }
    ensures follows { IfOk result (λ found. (known : List ℕ) × NetFollows WAYS known (words_of trace.entry.packets) found) }
    ensures turns { IfOk result (MakesTurns WAYS lag [] (words_of trace.entry.packets) network.entry) }
    ensures keeps { IfOk result (KeepsNetwork network.entry) }
    ensures known { IfOk result (IsNetwork WAYS) }
    ensures refused { IfErr result (λ answer. IfRefused answer (λ fault. fault_ahead trace.entry ≡ Some fault)) }
    ensures steps { steps.old ≤ steps.new }
{
    let mut trace = trace;
    let mut network = network;
    let mut known = Seq::new(alloc);
    let mut clocks = [Clock::new(lag); 64];
    let mut packet = Packet { words: [0; FIELDS] };
    let mut number = 0;
    'packets: while trace.next_into(&mut packet)? {
        number += 1;
        take_one(
            &mut network,
            &mut known,
            &mut clocks,
            &packet,
            number,
            steps,
        )?;
    }
    network.invariant();
    Ok(network)
}
