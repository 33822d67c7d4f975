//! The second program as one call.

ghost use Rattle.std.specs.{Prelude.{◌≡◌, ◌≢◌, ◌≤◌, ◌↔◌, All, [], None, Some}, Io.KnownBytes.Appends};
ghost use Rattle.marple_base.specs.{Faults.Rose, Inputs.IsClosed, Sink.TakesFront};
ghost use Rattle.trace_ranges.specs.Ranges.{within};
ghost use Rattle.trace_split.specs.Traces.{NoneFell, OneRose, faults_of};
ghost use Rattle.tools_cli.specs.{Call.{IsAfterQuery, IsOfFacts, WhereFacts, WhereSplit, asked_by}, Complaint.tool_complaint};
ghost use Rattle.tools_cli.specs.Ends.{AreTexts, IsAcceptedWith, IsBeforeTraces, IsFirstFault, IsRefusedFor, IsSplit, SplitEnds};
ghost use Rattle.tools_cli.specs.{Ends.{TakeFrontsOf, split_by}, FactsEnds.{FactsEnd, GivesFacts}};

use crate::command::{ToolCommand, command_of};
use crate::complaint::complain_of;
use crate::facts::facts;
use crate::split::split;
use crate::status::{ToolStatus, status_of};
use marple_base::{Inputs, Sink, Steps, Which};
use std::alloc::Global;
use std::sync::ledger::Ledger;
use trace_ranges::Ranged;
use trace_split::Parts;

// Finds the command that the words ask for, or none, and performs it.
fn answer<I: Inputs, T: Inputs, P: Parts, O: Sink, L: Ledger>(
    alloc: Global,
    words: &[String],
    inputs: &mut I,
    traces: &mut [Ranged<T>],
    parts: &mut P,
    out: &mut O,
    steps: &mut Steps<L>,
) -> ToolStatus
    requires query_closed { IsClosed (I.input inputs.old Which.Query) }
    requires traces_closed { All (λ trace. IsClosed (T.input trace.inputs Which.Trace)) traces.old }
    ensures usage { (result ≡ ToolStatus.Usage) ↔ (asked_by words.now ≡ None) }
    ensures ok { result ≡ ToolStatus.Ok → WhereSplit (asked_by words.now) (λ setting. IsAcceptedWith (I.input inputs.old Which.Query).left
        (IsSplit (AreTexts T.input traces.old setting) (P.taken parts.old) (P.taken parts.new) setting)) }
    ensures facts { result ≡ ToolStatus.Ok
        → WhereFacts (asked_by words.now) (GivesFacts (I.input inputs.old Which.Query).left (O.taken out.old) (O.taken out.new)) }
    ensures fronts { result ≢ ToolStatus.Ok → WhereSplit (asked_by words.now) (λ setting. TakeFrontsOf
        (I.input inputs.old Which.Query).left (AreTexts T.input traces.old setting) (P.taken parts.old) (P.taken parts.new) setting) }
    ensures ends { result ≢ ToolStatus.Ok → WhereSplit (asked_by words.now) (λ setting.
        SplitEnds (I.input inputs.old Which.Query).left (AreTexts T.input traces.old setting)
        (I.input inputs.old Which.Query).faults (I.input inputs.new Which.Query).faults
        (faults_of (within T.input) traces.old) (faults_of (within T.input) traces.new) (P.faults parts.old) (P.faults parts.new) result) }
    ensures facts_end { result ≢ ToolStatus.Ok → WhereFacts (asked_by words.now)
        (FactsEnd (I.input inputs.old Which.Query).faults (I.input inputs.new Which.Query).faults (O.faults out.old) (O.faults out.new)
        result) }
    ensures untouched { IsBeforeTraces result → (traces.new ≡ traces.old) × (parts.new ≡ parts.old) }
    ensures only_facts { WhereFacts (asked_by words.now) ((traces.new ≡ traces.old) × (parts.new ≡ parts.old)) }
    ensures no_facts { asked_by words.now ≢ Some ToolCommand.Facts → out.new ≡ out.old }
    ensures query_later { (I.input inputs.old Which.Query).faults ≤ (I.input inputs.new Which.Query).faults }
    ensures traces_later { NoneFell (faults_of (within T.input) traces.old) (faults_of (within T.input) traces.new) }
    ensures parts_later { P.faults parts.old ≤ P.faults parts.new }
    ensures out_later { O.faults out.old ≤ O.faults out.new }
    ensures steps { steps.old ≤ steps.new }
{
    match command_of(words) {
        Some(ToolCommand::Split(setting)) => {
            status_of(split(alloc, setting, inputs, traces, parts, steps))
        }
        Some(ToolCommand::Facts) => status_of(facts(alloc, inputs, out)),
        None => ToolStatus::Usage,
    }
}

/// Does what the words of a command line ask for, over any inputs and sinks: the query is that of `inputs`, the traces, or a range of
/// one, are split one after the other, and facts are written to `out`. A status other than `Ok` writes one line to `err`.
pub fn marple_tools<I: Inputs, T: Inputs, P: Parts, O: Sink, E: Sink, L: Ledger>(
    alloc: Global,
    words: &[String],
    inputs: &mut I,
    traces: &mut [Ranged<T>],
    parts: &mut P,
    out: &mut O,
    err: &mut E,
    steps: &mut Steps<L>,
) -> ToolStatus
    requires query_closed { IsClosed (I.input inputs.old Which.Query) }
    requires traces_closed { All (λ trace. IsClosed (T.input trace.inputs Which.Trace)) traces.old }

    // The words.
    ensures usage { (result ≡ ToolStatus.Usage) ↔ (asked_by words.now ≡ None) }

    // Success.
    ensures ok { result ≡ ToolStatus.Ok → WhereSplit (asked_by words.now) (λ setting. IsAcceptedWith (I.input inputs.old Which.Query).left
        (IsSplit (AreTexts T.input traces.old setting) (P.taken parts.old) (P.taken parts.new) setting)) }
    ensures facts { result ≡ ToolStatus.Ok
        → WhereFacts (asked_by words.now) (GivesFacts (I.input inputs.old Which.Query).left (O.taken out.old) (O.taken out.new)) }

    // Faults.
    ensures query_fault { result ≡ ToolStatus.InputFault Which.Query
        → Rose (I.input inputs.old Which.Query).faults (I.input inputs.new Which.Query).faults }
    ensures trace_fault { result ≡ ToolStatus.InputFault Which.Trace
        → OneRose (faults_of (within T.input) traces.old) (faults_of (within T.input) traces.new) }
    ensures parts_fault { result ≡ ToolStatus.OutputFault
        → WhereSplit (asked_by words.now) (λ _. Rose (P.faults parts.old) (P.faults parts.new)) }
    ensures out_fault { result ≡ ToolStatus.OutputFault → WhereFacts (asked_by words.now) (Rose (O.faults out.old) (O.faults out.new)) }

    // Refusals.
    ensures query_refused { (fault : _) → result ≡ ToolStatus.QueryRefused fault
        → IsRefusedFor (I.input inputs.old Which.Query).left fault }
    ensures field_needed { result ≡ ToolStatus.FieldNeeded → IsAcceptedWith (I.input inputs.old Which.Query).left (λ q. split_by q ≡ []) }
    ensures trace_refused { (fault : _) → result ≡ ToolStatus.TraceRefused fault → WhereSplit (asked_by words.now) (λ setting.
        IsAcceptedWith (I.input inputs.old Which.Query).left (IsFirstFault (AreTexts T.input traces.old setting) fault)) }
    ensures query_first { IsAfterQuery result
        → WhereSplit (asked_by words.now) (λ _. IsAcceptedWith (I.input inputs.old Which.Query).left (λ q. split_by q ≢ [])) }
    ensures facts_take_all { WhereFacts (asked_by words.now) (IsOfFacts result) }

    // What was written by then.
    ensures fronts { result ≢ ToolStatus.Ok → WhereSplit (asked_by words.now) (λ setting. TakeFrontsOf
        (I.input inputs.old Which.Query).left (AreTexts T.input traces.old setting) (P.taken parts.old) (P.taken parts.new) setting) }
    ensures not_written { IsBeforeTraces result → parts.new ≡ parts.old }
    ensures not_reached { IsBeforeTraces result → traces.new ≡ traces.old }
    ensures only_facts { WhereFacts (asked_by words.now) ((traces.new ≡ traces.old) × (parts.new ≡ parts.old)) }
    ensures no_facts { asked_by words.now ≢ Some ToolCommand.Facts → out.new ≡ out.old }

    // Complaints. A fault of `err` changes no status.
    ensures complaint_front { TakesFront (E.taken err.old) (E.taken err.new) (tool_complaint result) }
    ensures complaint_whole { (Rose (E.faults err.old) (E.faults err.new) → ⊥)
        → Appends (E.taken err.old) (E.taken err.new) (tool_complaint result) }

    // Counts never fall.
    ensures query_later { (I.input inputs.old Which.Query).faults ≤ (I.input inputs.new Which.Query).faults }
    ensures traces_later { NoneFell (faults_of (within T.input) traces.old) (faults_of (within T.input) traces.new) }
    ensures parts_later { P.faults parts.old ≤ P.faults parts.new }
    ensures out_later { O.faults out.old ≤ O.faults out.new }
    ensures err_later { E.faults err.old ≤ E.faults err.new }
    ensures steps { steps.old ≤ steps.new }
{
    let status = answer(alloc, words, inputs, traces, parts, out, steps);
    let _ = complain_of(err, status);
    status
}
