//! A trace, sent to its parts piece by piece.

ghost use Rattle.std.specs.Prelude.{◌≡◌, ◌≤◌, ◌+◌, ◌++◌, [], List, ℕ, IfErr, IfOk, IfSome, IsErrOf, None, OnErr, OnOk, Ok, Some, drop};
ghost use Rattle.std.specs.{Prelude.{length, option_map, take}, Io.KnownBytes.{Consumes, IsAtEnd}};
ghost use Rattle.marple_base.specs.{Faults.Rose, Inputs.IsOpen, declared.field.Packet.{Packet as AnyPacket}};
ghost use Rattle.trace_pieces.specs.{Faults.{after_records, trace_fault_of}, Machine.IsHead, Reads.Goes, Wholes.{all_packets, first_fault}};
ghost use Rattle.trace_split.specs.{Faults.IfSplitRefused, Holding.{TakeFronts, Taken}};
ghost use Rattle.trace_split.specs.PartTexts.{HoldsPackets, SameSetting, is_setting, parts_of, texts_of};

use crate::fault::SplitError;
use crate::parts::Parts;
use crate::piece::{PieceError, split_piece};
use crate::texts::PartTexts;
use marple_base::{FieldSet, Inputs, Steps, Which};
use std::alloc::{AllocError, Global};
use std::mem;
use std::sync::ledger::Ledger;
use trace_pieces::{fault_after, fill, head_end, last_cut};

// Reads until the first record is whole, and gives where it ends. There is no such place where all of the trace was read.
fn read_head<I: Inputs>(
    bytes: &mut Vec<u8>,
    held: usize,
    inputs: &mut I,
) -> Result<Option<usize>, SplitError>
    requires opened { IsOpen (I.input inputs.old Which.Trace) }
    requires held { 3 ≤ held }
    ensures goes { IfOk result (λ _. Goes (I.input inputs.old Which.Trace).left (I.input inputs.new Which.Trace).left
        bytes.old.items bytes.new.items) }
    ensures all { result ≡ Ok None → IsAtEnd (I.input inputs.new Which.Trace).left }
    ensures within { IfOk result (λ found. IfSome found (λ head. head ≤ length bytes.new.items)) }
    ensures head { IfOk result (λ found. IfSome found (λ head. IsHead (take head bytes.new.items))) }
    ensures opened { IsOpen (I.input inputs.new Which.Trace) }
    ensures no_refusal { IfErr result (λ error. IfSplitRefused error (λ _. ⊥)) }
    ensures no_output { IsErrOf result SplitError.OutputFault → ⊥ }
    ensures failed { IsErrOf result SplitError.InputFault
        → Rose (I.input inputs.old Which.Trace).faults (I.input inputs.new Which.Trace).faults }
    ensures later { (I.input inputs.old Which.Trace).faults ≤ (I.input inputs.new Which.Trace).faults }
    ensures query_kept { I.input inputs.new Which.Query ≡ I.input inputs.old Which.Query }
{
    let mut target = held;
    for _turn in 0..64u32 {
        if fill(bytes, target, inputs)? {
            return Ok(None);
        }
        if let Some(end) = head_end(bytes.as_slice()) {
            return Ok(Some(end));
        }
        target = target.saturating_mul(2);
    }
    Err(SplitError::Memory)
}

// Sends the packets of a piece to their parts, after so many packets, and gives how many there are then.
fn send<P: Parts, L: Ledger>(
    alloc: Global,
    piece: &[u8],
    reads: FieldSet,
    given: u64,
    texts: &mut PartTexts,
    parts: &mut P,
    steps: &mut Steps<L>,
) -> Result<u64, SplitError>
    requires { is_setting texts.old }
    ensures same { SameSetting texts.old texts.new }
    ensures whole { OnOk result (first_fault piece.now reads ≡ None) }
    ensures count { IfOk result (λ count. count ≡ given + length (all_packets piece.now reads)) }
    ensures sent { OnOk result ((first : Taken) (before : List AnyPacket) → HoldsPackets first (P.taken parts.old) texts.old before
        → HoldsPackets first (P.taken parts.new) texts.new (before ++ all_packets piece.now reads)) }
    ensures refused { IfErr result (λ error. IfSplitRefused error (λ found.
        option_map (after_records given) (first_fault piece.now reads) ≡ Some (trace_fault_of found))) }
    ensures fronts { OnErr result ((first : Taken) (before : List AnyPacket) → HoldsPackets first (P.taken parts.old) texts.old before
        → TakeFronts (parts_of texts.old) first (P.taken parts.new) (texts_of texts.old (before ++ all_packets piece.now reads))) }
    ensures no_input { IsErrOf result SplitError.InputFault → ⊥ }
    ensures failed { IsErrOf result SplitError.OutputFault → Rose (P.faults parts.old) (P.faults parts.new) }
    ensures later { P.faults parts.old ≤ P.faults parts.new }
    ensures steps { steps.old ≤ steps.new }
{
    match split_piece(alloc, piece, reads, texts, parts, steps) {
        Ok(more) => match given.checked_add(more) {
            Some(count) => Ok(count),
            None => Err(SplitError::Memory),
        },
        Err(PieceError::OutputFault) => Err(SplitError::OutputFault),
        Err(PieceError::Memory) => Err(SplitError::Memory),
        Err(PieceError::Refused(fault)) => match fault_after(given, fault) {
            Some(found) => Err(SplitError::Refused(found)),
            None => Err(SplitError::Memory),
        },
    }
}

// Takes the bytes from `head` to `end` away, with the room of `spare`.
fn cut_out(
    bytes: &mut Vec<u8>,
    spare: &mut Vec<u8>,
    head: usize,
    end: usize,
) -> Result<(), AllocError>
    requires ordered { head ≤ end }
    requires within { end ≤ length bytes.old.items }
    ensures { OnOk result (bytes.new.items ≡ take head bytes.old.items ++ drop end bytes.old.items) }
{
    spare.clear();
    spare.extend_from_slice(&bytes[..head])?;
    spare.extend_from_slice(&bytes[end..])?;
    mem::swap(bytes, spare);
    Ok(())
}

// Sends all packets of a trace to their parts. These first bytes were read, and their first record ends at `head`.
fn send_rest<I: Inputs, P: Parts, L: Ledger>(
    alloc: Global,
    inputs: &mut I,
    reads: FieldSet,
    mut bytes: Vec<u8>,
    head: usize,
    held: usize,
    texts: &mut PartTexts,
    parts: &mut P,
    steps: &mut Steps<L>,
) -> Result<(), SplitError>
    requires opened { IsOpen (I.input inputs.old Which.Trace) }
    requires within { head ≤ length bytes.items }
    requires head { IsHead (take head bytes.items) }
    requires setting { is_setting texts.old }
    ensures same { SameSetting texts.old texts.new }
    ensures whole { OnOk result ((rest : List ℕ) → (I.input inputs.old Which.Trace).left ≡ Some rest
        → first_fault (bytes.items ++ rest) reads ≡ None) }
    ensures sent { OnOk result ((rest : List ℕ) (first : Taken) (before : List AnyPacket)
        → (I.input inputs.old Which.Trace).left ≡ Some rest
        → HoldsPackets first (P.taken parts.old) texts.old before
        → HoldsPackets first (P.taken parts.new) texts.new (before ++ all_packets (bytes.items ++ rest) reads)) }
    ensures refused { IfErr result (λ error. IfSplitRefused error (λ found. (rest : List ℕ) → (I.input inputs.old Which.Trace).left ≡ Some rest
        → first_fault (bytes.items ++ rest) reads ≡ Some (trace_fault_of found))) }
    ensures fronts { OnErr result ((rest : List ℕ) (first : Taken) (before : List AnyPacket)
        → (I.input inputs.old Which.Trace).left ≡ Some rest
        → HoldsPackets first (P.taken parts.old) texts.old before
        → TakeFronts (parts_of texts.old) first (P.taken parts.new)
        (texts_of texts.old (before ++ all_packets (bytes.items ++ rest) reads))) }
    ensures input_failed { IsErrOf result SplitError.InputFault
        → Rose (I.input inputs.old Which.Trace).faults (I.input inputs.new Which.Trace).faults }
    ensures output_failed { IsErrOf result SplitError.OutputFault → Rose (P.faults parts.old) (P.faults parts.new) }
    ensures input_later { (I.input inputs.old Which.Trace).faults ≤ (I.input inputs.new Which.Trace).faults }
    ensures output_later { P.faults parts.old ≤ P.faults parts.new }
    ensures query_kept { I.input inputs.new Which.Query ≡ I.input inputs.old Which.Query }
    ensures steps { steps.old ≤ steps.new }
{
    let mut spare = Vec::new(alloc);
    let mut given = 0;
    let mut target = held;
    'pieces: for _turn in 0..u64::MAX {
        if fill(&mut bytes, head.saturating_add(target), inputs)? {
            send(alloc, bytes.as_slice(), reads, given, texts, parts, steps)?;
            return Ok(());
        }
        let own = bytes.as_slice();
        let cut = last_cut(&own[head..]);
        if cut == 0 {
            target = target.saturating_mul(2);
            continue;
        }
        given = send(alloc, &own[..head + cut], reads, given, texts, parts, steps)?;
        cut_out(&mut bytes, &mut spare, head, head + cut)?;
        target = held;
    }
    Err(SplitError::Memory)
}

/// Sends all packets of a trace to their parts. None of its bytes was read. So many are held at once, unless a record is longer.
pub(crate) fn send_all<I: Inputs, P: Parts, L: Ledger>(
    alloc: Global,
    inputs: &mut I,
    held: usize,
    reads: FieldSet,
    texts: &mut PartTexts,
    parts: &mut P,
    steps: &mut Steps<L>,
) -> Result<(), SplitError>
    requires opened { IsOpen (I.input inputs.old Which.Trace) }
    requires held { 3 ≤ held }
    requires setting { is_setting texts.old }
    ensures same { SameSetting texts.old texts.new }
    ensures whole { OnOk result ((trace : List ℕ) → (I.input inputs.old Which.Trace).left ≡ Some trace → first_fault trace reads ≡ None) }
    ensures sent { OnOk result ((trace : List ℕ) (first : Taken) (before : List AnyPacket)
        → (I.input inputs.old Which.Trace).left ≡ Some trace
        → HoldsPackets first (P.taken parts.old) texts.old before
        → HoldsPackets first (P.taken parts.new) texts.new (before ++ all_packets trace reads)) }
    ensures refused { IfErr result (λ error. IfSplitRefused error (λ found. (trace : List ℕ) → (I.input inputs.old Which.Trace).left ≡ Some trace
        → first_fault trace reads ≡ Some (trace_fault_of found))) }
    ensures fronts { OnErr result ((trace : List ℕ) (first : Taken) (before : List AnyPacket)
        → (I.input inputs.old Which.Trace).left ≡ Some trace
        → HoldsPackets first (P.taken parts.old) texts.old before
        → TakeFronts (parts_of texts.old) first (P.taken parts.new) (texts_of texts.old (before ++ all_packets trace reads))) }
    ensures input_failed { IsErrOf result SplitError.InputFault
        → Rose (I.input inputs.old Which.Trace).faults (I.input inputs.new Which.Trace).faults }
    ensures output_failed { IsErrOf result SplitError.OutputFault → Rose (P.faults parts.old) (P.faults parts.new) }
    ensures input_later { (I.input inputs.old Which.Trace).faults ≤ (I.input inputs.new Which.Trace).faults }
    ensures output_later { P.faults parts.old ≤ P.faults parts.new }
    ensures query_kept { I.input inputs.new Which.Query ≡ I.input inputs.old Which.Query }
    ensures steps { steps.old ≤ steps.new }
{
    let mut bytes = Vec::new(alloc);
    match read_head(&mut bytes, held, inputs)? {
        Some(head) => send_rest(alloc, inputs, reads, bytes, head, held, texts, parts, steps),
        None => {
            send(alloc, bytes.as_slice(), reads, 0, texts, parts, steps)?;
            Ok(())
        }
    }
}
