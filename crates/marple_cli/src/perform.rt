//! The commands.
ghost use Rattle.std.specs.Prelude.{◌≡◌, ◌≤◌, Some, false};
ghost use Rattle.marple_base.specs.Inputs.{IsClosed};
ghost use Rattle.command_line.specs.Command.{IsCommand};
ghost use Rattle.marple_cli.specs.{Call.LosesWhatIsRead, Driven.DrivenAfter, Ends.{Ends, status_of}, Output.takes};

use crate::compile::compile;
use crate::generate::generate;
use crate::reporting::report_over;
use crate::staging::write_stages;
use crate::switches::run_network;
use crate::trial::trial;
use accepted_query::AcceptedQuery;
use command_answers::{Check, Status, query_for, read_plan_text, read_query};
use command_line::Command;
use marple_base::{Inputs, Sink, Steps, Which};
use plan_loader::LoadedPlan;
use query_run::{Driven, Report};
use std::alloc::Global;
use std::sync::ledger::Ledger;

/// Performs the command.
pub fn perform<I: Inputs, O: Sink, L: Ledger>(
    alloc: Global,
    command: Command,
    inputs: &mut I,
    out: &mut O,
    driven: &mut Option<Driven>,
    steps: &mut Steps<L>,
) -> Result<(), Status>
    requires command { IsCommand command }
    requires closed { (which : _) → IsClosed (I.input inputs.old which) }
    ensures ends { Ends O.taken O.faults command (I.input inputs.old) (I.input inputs.new) out.old out.new (status_of result) }
    ensures kept { (which : _) → takes command which ≡ false → I.input inputs.new which ≡ I.input inputs.old which }
    ensures driven { DrivenAfter (Some command) (I.input inputs.old) driven.old driven.new (status_of result) }
    ensures lost { LosesWhatIsRead (Some command) (I.input inputs.old) (I.input inputs.new) }
    ensures query_later { (I.input inputs.old Which.Query).faults ≤ (I.input inputs.new Which.Query).faults }
    ensures trace_later { (I.input inputs.old Which.Trace).faults ≤ (I.input inputs.new Which.Trace).faults }
    ensures out_later { O.faults out.old ≤ O.faults out.new }
    ensures steps { steps.old ≤ steps.new }
{
    match command {
        Command::Run(setting, every) => {
            let query = read_query(alloc, inputs)?;
            let AcceptedQuery { typed, plan } = query;
            let report = Report::of_query(typed);
            let ran = report_over(alloc, setting, every, report, plan, inputs, out, steps)?;
            *driven = Some(ran);
            Ok(())
        }
        Command::Plan(ways) => write_stages(alloc, ways, inputs, out),
        Command::Gen(generation) => generate(alloc, generation, out),
        Command::Trial(made, setting) => trial(alloc, made, setting, out, driven, steps),
        Command::Net(setting) => run_network(alloc, setting, inputs, out, steps),
        Command::Enclose(setting) => {
            let checked = query_for(alloc, inputs, Check::Bounds)?;
            let AcceptedQuery { typed, plan } = checked;
            let report = Report::of_bounds(typed);
            let bounded = report_over(alloc, setting, 0, report, plan, inputs, out, steps)?;
            drop(bounded);
            Ok(())
        }
        Command::Compile => compile(alloc, inputs, out),
        Command::RunPlan(setting) => {
            let loaded = read_plan_text(alloc, inputs)?;
            let LoadedPlan { plan, prints } = loaded;
            let report = Report::of_plan(prints);
            let left = report_over(alloc, setting, 0, report, plan, inputs, out, steps)?;
            *driven = Some(left);
            Ok(())
        }
    }
}
