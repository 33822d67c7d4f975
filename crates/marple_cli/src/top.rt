//! The top call: all that the program does, over any inputs and sinks.
ghost use Rattle.std.specs.{Prelude.{◌≡◌, ◌≤◌, ◌↔◌, ◌⊎◌, None, Some}, Io.KnownBytes.Appends};
ghost use Rattle.marple_base.specs.{Faults.Rose, Inputs.IsClosed, Sink.TakesFront};
ghost use Rattle.marple_cli.specs.Call.{IsBeforeOutput, IsBeforeTrace, IsQuiet, Takes, WhereQueryTold, WhereTold, WritesFront};
ghost use Rattle.marple_cli.specs.{Call.{LosesWhatIsRead, WritesOutput, asked_by}, Driven.DrivenAfter, Ends.Answers};
ghost use Rattle.marple_cli.specs.Output.{IsAccepted, refusal, trace_refusal, defined_text};
ghost use Rattle.command_answers.specs.Complaint.{complaint};

use crate::perform::perform;
use command_answers::{Status, complain};
use command_line::command_of;
use marple_base::{Inputs, Sink, Steps, Which};
use query_run::Driven;
use std::alloc::Global;
use std::sync::ledger::Ledger;

// Finds the command that the words ask for, or none, and performs it.
fn answer<I: Inputs, O: Sink, L: Ledger>(
    alloc: Global,
    words: &[String],
    inputs: &mut I,
    out: &mut O,
    driven: &mut Option<Driven>,
    steps: &mut Steps<L>,
) -> Status
    requires closed { (which : _) → IsClosed (I.input inputs.old which) }
    ensures answers { Answers O.taken O.faults (I.input inputs.old) (I.input inputs.new) out.old out.new
        (asked_by words.now) result }
    ensures lost { LosesWhatIsRead (asked_by words.now) (I.input inputs.old) (I.input inputs.new) }
    ensures driven { DrivenAfter (asked_by words.now) (I.input inputs.old) driven.old driven.new result }
    ensures query_later { (I.input inputs.old Which.Query).faults ≤ (I.input inputs.new Which.Query).faults }
    ensures trace_later { (I.input inputs.old Which.Trace).faults ≤ (I.input inputs.new Which.Trace).faults }
    ensures out_later { O.faults out.old ≤ O.faults out.new }
    ensures steps { steps.old ≤ steps.new }
{
    let Some(command) = command_of(words) else {
        return Status::Usage;
    };
    match perform(alloc, command, inputs, out, driven, steps) {
        Ok(()) => Status::Ok,
        Err(status) => status,
    }
}

/// Does what the words of a command line ask for, over any inputs and sinks. The text goes to `out`, and a status other
/// than `Ok` writes one line to `err`. `driven` takes the working parts of a run that answers `Ok`.
pub fn marple<I: Inputs, O: Sink, E: Sink, L: Ledger>(
    alloc: Global,
    words: &[String],
    inputs: &mut I,
    out: &mut O,
    err: &mut E,
    driven: &mut Option<Driven>,
    steps: &mut Steps<L>,
) -> Status
    requires query_closed { IsClosed (I.input inputs.old Which.Query) }
    requires trace_closed { IsClosed (I.input inputs.old Which.Trace) }

    // The words.
    ensures usage { (result ≡ Status.Usage) ↔ (asked_by words.now ≡ None) }

    // Success.
    ensures ok { result ≡ Status.Ok
        → WhereTold (asked_by words.now) (I.input inputs.old) (WritesOutput (O.taken out.old) (O.taken out.new)) }
    ensures complete { WhereTold (asked_by words.now) (I.input inputs.old) (λ command query trace.
        IsAccepted command query trace
        → IsQuiet command (I.input inputs.old) (I.input inputs.new) (O.faults out.old) (O.faults out.new) →
        (result ≡ Status.Ok) ⊎ (result ≡ Status.Memory)) }

    // Faults.
    ensures input_fault { (which : _) → result ≡ Status.InputFault which →
        Takes (asked_by words.now) which × Rose (I.input inputs.old which).faults (I.input inputs.new which).faults }
    ensures trace_fault { result ≡ Status.InputFault Which.Trace →
        WhereQueryTold (asked_by words.now) (I.input inputs.old) (λ command query. refusal command query ≡ None) }
    ensures output_fault { result ≡ Status.OutputFault → Rose (O.faults out.old) (O.faults out.new) }

    // Refusals.
    ensures query_refused { (fault : _) → result ≡ Status.QueryRefused fault →
        Takes (asked_by words.now) Which.Query
        × WhereQueryTold (asked_by words.now) (I.input inputs.old) (λ command query. refusal command query
        ≡ Some fault) }
    ensures refuses_query { (fault : _) →
        WhereQueryTold (asked_by words.now) (I.input inputs.old) (λ command query. refusal command query ≡ Some fault →
        (result ≡ Status.QueryRefused fault) ⊎ (result ≡ Status.InputFault Which.Query) ⊎ (result ≡ Status.Memory)) }
    ensures trace_refused { (fault : _) → result ≡ Status.TraceRefused fault →
        Takes (asked_by words.now) Which.Trace
        × WhereQueryTold (asked_by words.now) (I.input inputs.old) (λ command query. refusal command query ≡ None)
        × WhereTold (asked_by words.now) (I.input inputs.old)
        (λ command query trace. trace_refusal command query trace ≡ Some fault) }
    ensures refuses_trace { (fault : _) →
        WhereTold (asked_by words.now) (I.input inputs.old) (λ command query trace.
        refusal command query ≡ None → trace_refusal command query trace ≡ Some fault →
        (result ≡ Status.TraceRefused fault) ⊎ ((which : _) × (result ≡ Status.InputFault which)) ⊎ (result ≡ Status.Memory)) }

    // What was written by then.
    ensures untouched { IsBeforeOutput result → out.new ≡ out.old }
    ensures output_front { result ≡ Status.OutputFault
        → WhereTold (asked_by words.now) (I.input inputs.old) (WritesFront (O.taken out.old) (O.taken out.new)) }
    ensures memory_front { result ≡ Status.Memory
        → WhereTold (asked_by words.now) (I.input inputs.old) (λ command query trace.
        TakesFront (O.taken out.old) (O.taken out.new) (defined_text command query trace)) }
    ensures memory_query { (fault : _) → result ≡ Status.Memory →
        WhereQueryTold (asked_by words.now) (I.input inputs.old) (λ command query. refusal command query
        ≡ Some fault → out.new ≡ out.old) }

    // Inputs that aren't operands, or weren't reached.
    ensures no_operand { (which : _) → (Takes (asked_by words.now) which → ⊥)
        → I.input inputs.new which ≡ I.input inputs.old which }
    ensures not_reached { IsBeforeTrace result → I.input inputs.new Which.Trace ≡ I.input inputs.old Which.Trace }
    ensures query_first { (fault : _) →
        WhereQueryTold (asked_by words.now) (I.input inputs.old) (λ command query. refusal command query ≡ Some fault →
        I.input inputs.new Which.Trace ≡ I.input inputs.old Which.Trace) }
    ensures lost { LosesWhatIsRead (asked_by words.now) (I.input inputs.old) (I.input inputs.new) }

    // Complaints. A fault of `err` changes no status.
    ensures complaint_front { TakesFront (E.taken err.old) (E.taken err.new) (complaint result) }
    ensures complaint_whole { (Rose (E.faults err.old) (E.faults err.new) → ⊥)
        → Appends (E.taken err.old) (E.taken err.new) (complaint result) }

    // Counts never fall.
    ensures query_later { (I.input inputs.old Which.Query).faults ≤ (I.input inputs.new Which.Query).faults }
    ensures trace_later { (I.input inputs.old Which.Trace).faults ≤ (I.input inputs.new Which.Trace).faults }
    ensures out_later { O.faults out.old ≤ O.faults out.new }
    ensures err_later { E.faults err.old ≤ E.faults err.new }

    ensures driven { DrivenAfter (asked_by words.now) (I.input inputs.old) driven.old driven.new result }
    ensures steps { steps.old ≤ steps.new }
{
    let status = answer(alloc, words, inputs, out, driven, steps);
    let _ = complain(err, status);
    status
}
