//! A query over the packets of a trace's bytes, with caches of one number of ways.

ghost use Rattle.std.specs.{Prelude.{◌≡◌, ◌≤◌, ℕ, List, None, Some, [], length, IfErr, IfOk, OnOk}, Io.KnownBytes.Appends};
ghost use Rattle.query_lang.specs.{declared.typed.TypedQuery.TypedQuery, TypedQueries.IsValidQuery};
ghost use Rattle.stage_plan.specs.Planned.{IsPlanOf};
ghost use Rattle.trace_drive.specs.{Answers.BreaksOff, Drives.words_of};
ghost use Rattle.trace_reader.specs.Faults.{IfRefused};
ghost use Rattle.net_wide.specs.{Combining.net_fault, NetTables.net_text, NetLaws.TellsSwitches};
ghost use Rattle.command_line.specs.Command.{IsNetSetting, ways_number};
ghost use Rattle.switch_core.specs.FrontParts.{AreSizes};
ghost use Rattle.network.specs.{Groups.AllHavePlaces, Networks.NetworkView, Running.NetworkStands};
ghost use Rattle.driven_net.specs.{Follows.NetFollows, Turns.MakesTurns};
ghost use Rattle.driven_net.specs.NetTraces.{fault_ahead, net_packets, net_reads, net_trace_fault};

use crate::ending::{end_tables, write_text};
use crate::taking::take_all;
use accepted_query::AcceptedQuery;
use command_line::NetSetting;
use marple_base::{Field, FieldSet, Sink, Steps};
use network::Network;
use stage_plan::Plan;
use std::alloc::{AllocError, Global};
use std::sync::ledger::Ledger;
use trace_drive::{RunError, read_packets_are_few, read_packets_are_whole};
use trace_reader::{MAX_RECORDS, Trace, TraceAnswer, open_trace};

// The fields that a plan reads, and the switch.
fn net_reads(plan: &Plan) -> FieldSet
    ensures { (q : TypedQuery) → IsPlanOf q plan.now → result ≡ net_reads q }
{
    plan.reads().with(Field::Switch)
}

// The plan's network after all packets of the trace, with caches and pipes of the setting's sizes.
fn network_after<const WAYS: usize, L: Ledger>(
    alloc: Global,
    setting: NetSetting,
    plan: Plan,
    trace: Trace<'_>,
    steps: &mut Steps<L>,
) -> Result<Network<WAYS>, TraceAnswer>
    requires sizes { AreSizes WAYS setting.buckets setting.pipe }
    requires few { length trace.packets ≤ MAX_RECORDS }
    ensures accepted { IfOk result (λ network. fault_ahead trace.entry ≡ None) }
    ensures plan { IfOk result (λ network. network.plan ≡ plan) }
    ensures buckets { IfOk result (λ network. network.buckets ≡ setting.buckets) }
    ensures pipe_places { IfOk result (λ network. AllHavePlaces setting.pipe network.groups) }
    ensures follows { IfOk result (λ network. (known : List ℕ) × NetFollows WAYS known (words_of trace.entry.packets) network) }
    ensures turns { IfOk result (λ network. (fresh : NetworkView) × (fresh.switches ≡ 0) × NetworkStands WAYS fresh []
        × MakesTurns WAYS setting.lag [] (words_of trace.entry.packets) fresh network) }
    ensures refused { IfErr result (λ answer. IfRefused answer (λ fault. fault_ahead trace.entry ≡ Some fault)) }
    ensures steps { steps.old ≤ steps.new }
{
    let fresh = match Network::<WAYS>::new(alloc, plan, setting.buckets, setting.pipe) {
        Ok(fresh) => fresh,
        Err(AllocError) => return Err(TraceAnswer::Memory),
    };
    take_all(alloc, fresh, setting.lag, trace, steps)
}

/// Runs a query over the packets of a trace's bytes, with caches of `WAYS` ways, and writes what it prints at the end.
pub(crate) fn run_with<const WAYS: usize, O: Sink, L: Ledger>(
    alloc: Global,
    setting: NetSetting,
    query: AcceptedQuery,
    bytes: &[u8],
    out: &mut O,
    steps: &mut Steps<L>,
) -> Result<(), RunError>
    requires setting { IsNetSetting setting }
    requires ways { ways_number setting.ways ≡ WAYS }
    requires valid { IsValidQuery query.typed }
    requires plan { IsPlanOf query.typed query.plan }
    requires combines { net_fault query.typed ≡ None }
    requires tells { TellsSwitches query.typed }
    ensures accepted { OnOk result (net_trace_fault bytes.now query.typed ≡ None) }
    ensures written { OnOk result (Appends (O.taken out.old) (O.taken out.new)
        (net_text query.typed setting.buckets (ways_number setting.ways) (words_of (net_packets bytes.now query.typed)))) }
    ensures breaks_off { IfErr result (BreaksOff O.taken O.faults
        (net_text query.typed setting.buckets (ways_number setting.ways) (words_of (net_packets bytes.now query.typed)))
        (net_trace_fault bytes.now query.typed) out.old out.new) }
    ensures out_later { O.faults out.old ≤ O.faults out.new }
    ensures steps { steps.old ≤ steps.new }
{
    read_packets_are_whole();
    read_packets_are_few();
    let trace = open_trace(alloc, bytes, net_reads(&query.plan))?;
    let AcceptedQuery { typed, plan } = query;
    let network = network_after::<WAYS, L>(alloc, setting, plan, trace, steps)?;
    let tables = end_tables(&typed, network, steps)?;
    write_text(alloc, &typed, tables, out, steps)
}
