//! A query over the switches of a network.
ghost use Rattle.std.specs.Prelude.{◌≤◌, Some};
ghost use Rattle.marple_base.specs.Inputs.{IsClosed};
ghost use Rattle.command_line.specs.Command.{IsNetSetting};
ghost use Rattle.marple_cli.specs.{Call.LosesWhatIsRead, Ends.{Ends, status_of}};

use command_answers::{Check, Status, query_for, read_trace};
use command_line::{Command, NetSetting};
use driven_net::net_over_trace;
use marple_base::{Inputs, Sink, Steps, Which};
use std::alloc::Global;
use std::sync::ledger::Ledger;

/// Writes the tables of a query over a trace, where each switch has caches of its own and all of them share one store.
pub fn run_network<I: Inputs, O: Sink, L: Ledger>(
    alloc: Global,
    setting: NetSetting,
    inputs: &mut I,
    out: &mut O,
    steps: &mut Steps<L>,
) -> Result<(), Status>
    requires setting { IsNetSetting setting }
    requires query_closed { IsClosed (I.input inputs.old Which.Query) }
    requires trace_closed { IsClosed (I.input inputs.old Which.Trace) }
    ensures ends { Ends O.taken O.faults (Command.Net setting) (I.input inputs.old) (I.input inputs.new) out.old out.new
        (status_of result) }
    ensures lost { LosesWhatIsRead (Some (Command.Net setting)) (I.input inputs.old) (I.input inputs.new) }
    ensures query_later { (I.input inputs.old Which.Query).faults ≤ (I.input inputs.new Which.Query).faults }
    ensures trace_later { (I.input inputs.old Which.Trace).faults ≤ (I.input inputs.new Which.Trace).faults }
    ensures out_later { O.faults out.old ≤ O.faults out.new }
    ensures steps { steps.old ≤ steps.new }
{
    let query = query_for(alloc, inputs, Check::Switches)?;
    let bytes = match read_trace(alloc, inputs) {
        Ok(bytes) => bytes,
        Err(status) => {
            drop(query);
            return Err(status);
        }
    };
    net_over_trace(alloc, setting, query, bytes.as_slice(), out, steps)?;
    Ok(())
}
