//! Calls of `marple` over inputs and a sink that never fail.

ghost use Rattle.std.specs.Prelude.{◌≡◌, ◌⊎◌};
ghost use Rattle.marple_base.specs.{Inputs.IsClosed, Sound.sound_input};
ghost use Rattle.marple_cli.specs.{Call.{WhereTold, asked_by}, Output.IsAccepted};

use command_answers::Status;
use marple_base::{Inputs, Sink, SoundInputs, SoundSink, Steps, Which};
use marple_cli::marple;
use query_run::Driven;
use std::alloc::Global;
use std::sync::ledger::Ledger;

/// Over inputs that never fail no call ends in a fault of an input, whatever its words and its output.
pub fn over_sound_inputs<O: Sink, E: Sink, L: Ledger>(
    alloc: Global,
    words: &[String],
    inputs: &mut SoundInputs<'_>,
    out: &mut O,
    err: &mut E,
    driven: &mut Option<Driven>,
    steps: &mut Steps<L>,
) -> Status
    requires query_closed { IsClosed (sound_input inputs.old Which.Query) }
    requires trace_closed { IsClosed (sound_input inputs.old Which.Trace) }
    ensures { (which : _) → result ≡ Status.InputFault which → ⊥ }
{
    marple(alloc, words, inputs, out, err, driven, steps)
}

/// With an output that never fails no call ends in a fault of the output, whatever its words and its inputs.
pub fn into_a_sound_sink<I: Inputs, E: Sink, L: Ledger>(
    alloc: Global,
    words: &[String],
    inputs: &mut I,
    out: &mut SoundSink,
    err: &mut E,
    driven: &mut Option<Driven>,
    steps: &mut Steps<L>,
) -> Status
    requires query_closed { IsClosed (I.input inputs.old Which.Query) }
    requires trace_closed { IsClosed (I.input inputs.old Which.Trace) }
    ensures { result ≡ Status.OutputFault → ⊥ }
{
    marple(alloc, words, inputs, out, err, driven, steps)
}

/// With both, a call whose operands are accepted ends well, or for want of memory.
pub fn sound_call<E: Sink, L: Ledger>(
    alloc: Global,
    words: &[String],
    inputs: &mut SoundInputs<'_>,
    out: &mut SoundSink,
    err: &mut E,
    driven: &mut Option<Driven>,
    steps: &mut Steps<L>,
) -> Status
    requires query_closed { IsClosed (sound_input inputs.old Which.Query) }
    requires trace_closed { IsClosed (sound_input inputs.old Which.Trace) }
    ensures input_fault { (which : _) → result ≡ Status.InputFault which → ⊥ }
    ensures output_fault { result ≡ Status.OutputFault → ⊥ }
    ensures complete { WhereTold (asked_by words.now) (sound_input inputs.old) (λ command query trace.
        IsAccepted command query trace → (result ≡ Status.Ok) ⊎ (result ≡ Status.Memory)) }
{
    marple(alloc, words, inputs, out, err, driven, steps)
}
