//! The trial's query over generated packets.
ghost use Rattle.std.specs.Prelude.{◌≤◌, Some};
ghost use Rattle.marple_base.specs.{Inputs.Input, declared.inputs.Which.{Which as AnyWhich}};
ghost use Rattle.command_line.specs.Command.{IsGeneration, IsSetting};
ghost use Rattle.marple_cli.specs.{Driven.DrivenAfter, Ends.{Ends, status_of}};

use crate::generate::CAPACITY;
use accepted_query::AcceptedQuery;
use command_answers::{Status, accept_trial};
use command_line::{Command, Generation, Setting};
use marple_base::{Sink, Steps};
use query_run::{Driven, Report, run_over_made};
use queue_sim::simulate;
use std::alloc::{AllocError, Global};
use std::sync::ledger::Ledger;

/// Writes the tables of the trial's query over packets that the generator makes. No input is opened.
pub fn trial<O: Sink, L: Ledger>(
    alloc: Global,
    generation: Generation,
    setting: Setting,
    out: &mut O,
    driven: &mut Option<Driven>,
    steps: &mut Steps<L>,
) -> Result<(), Status>
    requires generation { IsGeneration generation }
    requires setting { IsSetting setting }
    ensures ends { (inputs : AnyWhich → Input)
        → Ends O.taken O.faults (Command.Trial generation setting) inputs inputs out.old out.new (status_of result) }
    ensures driven { (inputs : AnyWhich → Input)
        → DrivenAfter (Some (Command.Trial generation setting)) inputs driven.old driven.new (status_of result) }
    ensures out_later { O.faults out.old ≤ O.faults out.new }
    ensures steps { steps.old ≤ steps.new }
{
    let query = accept_trial(alloc)?;
    let made = match simulate(alloc, generation.packets, generation.start, CAPACITY) {
        Ok(made) => made,
        Err(AllocError) => {
            drop(query);
            return Err(Status::Memory);
        }
    };
    let AcceptedQuery { typed, plan } = query;
    let report = Report::of_query(typed);
    let ran = run_over_made(alloc, setting, &report, plan, made, out, steps);
    drop(report);
    let left = ran?;
    *driven = Some(left);
    Ok(())
}
