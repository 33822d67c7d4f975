//! A query over the packets of several switches.

ghost use Rattle.std.specs.{Prelude.{◌≡◌, ◌≤◌, None, IfErr, OnOk}, Io.KnownBytes.Appends};
ghost use Rattle.query_lang.specs.TypedQueries.{IsValidQuery};
ghost use Rattle.stage_plan.specs.Planned.{IsPlanOf};
ghost use Rattle.trace_drive.specs.{Answers.BreaksOff, Drives.words_of};
ghost use Rattle.net_wide.specs.{Combining.net_fault, NetTables.net_text, NetLaws.TellsSwitches};
ghost use Rattle.command_line.specs.Command.{IsNetSetting, ways_number};
ghost use Rattle.driven_net.specs.NetTraces.{net_packets, net_trace_fault};

use crate::ways::run_with;
use accepted_query::AcceptedQuery;
use command_line::{NetSetting, Ways};
use marple_base::{Sink, Steps};
use std::alloc::Global;
use std::sync::ledger::Ledger;
use trace_drive::RunError;

/// Runs a query over the packets of a trace's bytes, where each value of `switch` has separate caches and pipes and all
/// of them share one store for each groupby, and writes what the query prints at the end. A trace with a fault in what
/// the query reads, or with a 65th switch, is refused, and nothing is written before the end.
pub fn net_over_trace<O: Sink, L: Ledger>(
    alloc: Global,
    setting: NetSetting,
    query: AcceptedQuery,
    bytes: &[u8],
    out: &mut O,
    steps: &mut Steps<L>,
) -> Result<(), RunError>
    requires setting { IsNetSetting setting }
    requires valid { IsValidQuery query.typed }
    requires plan { IsPlanOf query.typed query.plan }
    requires combines { net_fault query.typed ≡ None }
    requires tells { TellsSwitches query.typed }
    ensures accepted { OnOk result (net_trace_fault bytes.now query.typed ≡ None) }
    ensures written { OnOk result (Appends (O.taken out.old) (O.taken out.new)
        (net_text query.typed setting.buckets (ways_number setting.ways) (words_of (net_packets bytes.now query.typed)))) }
    ensures breaks_off { IfErr result (BreaksOff O.taken O.faults
        (net_text query.typed setting.buckets (ways_number setting.ways) (words_of (net_packets bytes.now query.typed)))
        (net_trace_fault bytes.now query.typed) out.old out.new) }
    ensures out_later { O.faults out.old ≤ O.faults out.new }
    ensures steps { steps.old ≤ steps.new }
{
    match setting.ways {
        Ways::One => run_with::<1, O, L>(alloc, setting, query, bytes, out, steps),
        Ways::Two => run_with::<2, O, L>(alloc, setting, query, bytes, out, steps),
        Ways::Four => run_with::<4, O, L>(alloc, setting, query, bytes, out, steps),
        Ways::Eight => run_with::<8, O, L>(alloc, setting, query, bytes, out, steps),
        Ways::Sixteen => run_with::<16, O, L>(alloc, setting, query, bytes, out, steps),
        Ways::ThirtyTwo => run_with::<32, O, L>(alloc, setting, query, bytes, out, steps),
    }
}
