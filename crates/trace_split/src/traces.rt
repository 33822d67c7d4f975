//! Traces, one after the other, split into parts.

ghost use Rattle.std.specs.Prelude.{◌≡◌, ◌<◌, ◌≤◌, ◌++◌, [], All, List, ℕ, IfErr, IsErrOf, None, OnErr, OnOk, Some};
ghost use Rattle.marple_base.specs.{Faults.Rose, Inputs.IsClosed, declared.field.Packet.{Packet as AnyPacket}};
ghost use Rattle.part_texts.specs.Texts.{part_text};
ghost use Rattle.trace_pieces.specs.{Faults.trace_fault_of, Wholes.{all_packets, first_fault}};
ghost use Rattle.trace_split.specs.{Faults.IfSplitRefused, Hashes.by_hash, Holding.{TakeFronts, TakeTexts, Taken}};
ghost use Rattle.trace_split.specs.PartTexts.{HoldsPackets, SameSetting, is_setting, parts_of, texts_of};
ghost use Rattle.trace_split.specs.Traces.{AreLeft, NoneFell, OneRose, fault_of_all, faults_of, packets_of_all};

use crate::fault::SplitError;
use crate::parts::Parts;
use crate::split::send_all;
use crate::splitting::Splitting;
use crate::texts::PartTexts;
use marple_base::{FieldSet, Inputs, Steps, Which};
use std::alloc::Global;
use std::sync::ledger::Ledger;

// How many bytes of a trace are held at once, unless a record is longer.
const HELD: usize = 524_288;

// Opens a trace and sends all its packets to their parts.
fn send_trace<I: Inputs, P: Parts, L: Ledger>(
    alloc: Global,
    trace: &mut I,
    held: usize,
    reads: FieldSet,
    texts: &mut PartTexts,
    parts: &mut P,
    steps: &mut Steps<L>,
) -> Result<(), SplitError>
    requires closed { IsClosed (I.input trace.old Which.Trace) }
    requires held { 3 ≤ held }
    requires setting { is_setting texts.old }
    ensures same { SameSetting texts.old texts.new }
    ensures whole { OnOk result ((bytes : List ℕ) → (I.input trace.old Which.Trace).left ≡ Some bytes → first_fault bytes reads ≡ None) }
    ensures sent { OnOk result ((bytes : List ℕ) (first : Taken) (before : List AnyPacket)
        → (I.input trace.old Which.Trace).left ≡ Some bytes
        → HoldsPackets first (P.taken parts.old) texts.old before
        → HoldsPackets first (P.taken parts.new) texts.new (before ++ all_packets bytes reads)) }
    ensures refused { IfErr result (λ error. IfSplitRefused error (λ found. (bytes : List ℕ) → (I.input trace.old Which.Trace).left ≡ Some bytes
        → first_fault bytes reads ≡ Some (trace_fault_of found))) }
    ensures fronts { OnErr result ((bytes : List ℕ) (first : Taken) (before : List AnyPacket)
        → (I.input trace.old Which.Trace).left ≡ Some bytes
        → HoldsPackets first (P.taken parts.old) texts.old before
        → TakeFronts (parts_of texts.old) first (P.taken parts.new) (texts_of texts.old (before ++ all_packets bytes reads))) }
    ensures input_failed { IsErrOf result SplitError.InputFault
        → Rose (I.input trace.old Which.Trace).faults (I.input trace.new Which.Trace).faults }
    ensures output_failed { IsErrOf result SplitError.OutputFault → Rose (P.faults parts.old) (P.faults parts.new) }
    ensures input_later { (I.input trace.old Which.Trace).faults ≤ (I.input trace.new Which.Trace).faults }
    ensures output_later { P.faults parts.old ≤ P.faults parts.new }
    ensures steps { steps.old ≤ steps.new }
{
    if trace.open(Which::Trace).is_err() {
        return Err(SplitError::InputFault);
    }
    send_all(alloc, trace, held, reads, texts, parts, steps)
}

// Sends all packets of the traces to their parts.
fn send_traces<I: Inputs, P: Parts, L: Ledger>(
    alloc: Global,
    traces: &mut [I],
    held: usize,
    reads: FieldSet,
    texts: &mut PartTexts,
    parts: &mut P,
    steps: &mut Steps<L>,
) -> Result<(), SplitError>
    requires closed { All (λ trace. IsClosed (I.input trace Which.Trace)) traces.old }
    requires held { 3 ≤ held }
    requires setting { is_setting texts.old }
    ensures same { SameSetting texts.old texts.new }
    ensures whole { OnOk result ((all : List (List ℕ)) → AreLeft I.input traces.old all → fault_of_all all reads ≡ None) }
    ensures sent { OnOk result ((all : List (List ℕ)) (first : Taken) → AreLeft I.input traces.old all
        → HoldsPackets first (P.taken parts.old) texts.old []
        → HoldsPackets first (P.taken parts.new) texts.new (packets_of_all all reads)) }
    ensures refused { IfErr result (λ error. IfSplitRefused error (λ found. (all : List (List ℕ)) → AreLeft I.input traces.old all
        → fault_of_all all reads ≡ Some (trace_fault_of found))) }
    ensures fronts { OnErr result ((all : List (List ℕ)) (first : Taken) → AreLeft I.input traces.old all
        → HoldsPackets first (P.taken parts.old) texts.old []
        → TakeFronts (parts_of texts.old) first (P.taken parts.new) (texts_of texts.old (packets_of_all all reads))) }
    ensures input_failed { IsErrOf result SplitError.InputFault → OneRose (faults_of I.input traces.old) (faults_of I.input traces.new) }
    ensures output_failed { IsErrOf result SplitError.OutputFault → Rose (P.faults parts.old) (P.faults parts.new) }
    ensures input_later { NoneFell (faults_of I.input traces.old) (faults_of I.input traces.new) }
    ensures output_later { P.faults parts.old ≤ P.faults parts.new }
    ensures steps { steps.old ≤ steps.new }
{
    for i in 0..traces.len() {
        send_trace(alloc, &mut traces[i], held, reads, texts, parts, steps)?;
    }
    Ok(())
}

/// Splits traces as `split_traces` does, where so many bytes of a trace are held at once, unless a record is longer.
pub fn split_held<I: Inputs, P: Parts, L: Ledger>(
    alloc: Global,
    traces: &mut [I],
    held: usize,
    reads: FieldSet,
    splitting: &Splitting,
    parts: &mut P,
    steps: &mut Steps<L>,
) -> Result<(), SplitError>
    requires closed { All (λ trace. IsClosed (I.input trace Which.Trace)) traces.old }
    requires some { 0 < splitting.now.parts }
    requires held { 3 ≤ held }
    ensures whole { OnOk result ((all : List (List ℕ)) → AreLeft I.input traces.old all → fault_of_all all reads ≡ None) }
    ensures ok { OnOk result ((all : List (List ℕ)) → AreLeft I.input traces.old all
        → TakeTexts splitting.now.parts (P.taken parts.old) (P.taken parts.new)
        (λ n. part_text reads (by_hash splitting.now) n (packets_of_all all reads))) }
    ensures refused { IfErr result (λ error. IfSplitRefused error (λ found. (all : List (List ℕ)) → AreLeft I.input traces.old all
        → fault_of_all all reads ≡ Some (trace_fault_of found))) }
    ensures fronts { OnErr result ((all : List (List ℕ)) → AreLeft I.input traces.old all
        → TakeFronts splitting.now.parts (P.taken parts.old) (P.taken parts.new)
        (λ n. part_text reads (by_hash splitting.now) n (packets_of_all all reads))) }
    ensures input_failed { IsErrOf result SplitError.InputFault → OneRose (faults_of I.input traces.old) (faults_of I.input traces.new) }
    ensures output_failed { IsErrOf result SplitError.OutputFault → Rose (P.faults parts.old) (P.faults parts.new) }
    ensures input_later { NoneFell (faults_of I.input traces.old) (faults_of I.input traces.new) }
    ensures output_later { P.faults parts.old ≤ P.faults parts.new }
    ensures steps { steps.old ≤ steps.new }
{
    let mut texts = PartTexts::new(alloc, reads, splitting)?;
    send_traces(alloc, traces, held, reads, &mut texts, parts, steps)?;
    texts.finish(parts)?;
    Ok(())
}

/// Splits traces of any length into parts, one trace after the other; each has a header of its own. The bytes of a trace are held
/// piece by piece, and those of a part wait until 64 KiB of them are written at once. Where it answers `Ok`, each part has taken
/// exactly the text of its packets; after an `Err` each has taken some first bytes of it.
pub fn split_traces<I: Inputs, P: Parts, L: Ledger>(
    alloc: Global,
    traces: &mut [I],
    reads: FieldSet,
    splitting: &Splitting,
    parts: &mut P,
    steps: &mut Steps<L>,
) -> Result<(), SplitError>
    requires closed { All (λ trace. IsClosed (I.input trace Which.Trace)) traces.old }
    requires some { 0 < splitting.now.parts }
    ensures whole { OnOk result ((all : List (List ℕ)) → AreLeft I.input traces.old all → fault_of_all all reads ≡ None) }
    ensures ok { OnOk result ((all : List (List ℕ)) → AreLeft I.input traces.old all
        → TakeTexts splitting.now.parts (P.taken parts.old) (P.taken parts.new)
        (λ n. part_text reads (by_hash splitting.now) n (packets_of_all all reads))) }
    ensures refused { IfErr result (λ error. IfSplitRefused error (λ found. (all : List (List ℕ)) → AreLeft I.input traces.old all
        → fault_of_all all reads ≡ Some (trace_fault_of found))) }
    ensures fronts { OnErr result ((all : List (List ℕ)) → AreLeft I.input traces.old all
        → TakeFronts splitting.now.parts (P.taken parts.old) (P.taken parts.new)
        (λ n. part_text reads (by_hash splitting.now) n (packets_of_all all reads))) }
    ensures input_failed { IsErrOf result SplitError.InputFault → OneRose (faults_of I.input traces.old) (faults_of I.input traces.new) }
    ensures output_failed { IsErrOf result SplitError.OutputFault → Rose (P.faults parts.old) (P.faults parts.new) }
    ensures input_later { NoneFell (faults_of I.input traces.old) (faults_of I.input traces.new) }
    ensures output_later { P.faults parts.old ≤ P.faults parts.new }
    ensures steps { steps.old ≤ steps.new }
{
    split_held(alloc, traces, HELD, reads, splitting, parts, steps)
}
