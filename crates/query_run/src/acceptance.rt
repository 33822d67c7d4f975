//! A trace that is accepted before its packets are taken.

ghost use Rattle.std.specs.Prelude.{◌≡◌, ◌*◌, ◌<◌, ◌≤◌, [], All, IfErr, IfOk, IfSome, None, OnOk, Some, length};
ghost use Rattle.trace_drive.specs.{Drives.{coming, fault_of}, Kept.{kept_of, kept_words}};
ghost use Rattle.query_run.specs.Accepting.{AreKept, AreUnread};
ghost use Rattle.trace_reader.specs.{Faults.IfRefused, Traces.{packets, trace_fault}};

use marple_base::{FIELDS, FieldSet, Packet};
use std::alloc::{AllocError, Global};
use trace_drive::{KeptPackets, Packets, read_packets_are_few, read_packets_are_kept};
use trace_reader::{MAX_RECORDS, Trace, TraceAnswer, open_trace};

// Reads what is left of a trace: it has no fault.
fn accept_rest(trace: &mut Trace) -> Result<(), TraceAnswer>
    ensures accepted { OnOk result (trace.old.fault ≡ None) }
    ensures refused { IfErr result (λ answer. IfRefused answer (λ fault. trace.old.fault ≡ Some fault)) }
{
    let mut packet = Packet { words: [0; FIELDS] };
    'packets: while trace.next_into(&mut packet)? {}
    Ok(())
}

// No packets yet, of which these fields will be kept.
fn none_kept(alloc: Global, reads: FieldSet) -> Result<KeptPackets, TraceAnswer>
    ensures ok { IfOk result (λ kept. kept ≡ record { fields = reads; packets = [] }) }
    ensures err { IfErr result (λ answer. answer ≡ TraceAnswer.Memory) }
{
    match KeptPackets::new(alloc, reads) {
        Ok(kept) => Ok(kept),
        Err(AllocError) => Err(TraceAnswer::Memory),
    }
}

// Reads what is left of a trace, and keeps its packets. Where they take more words than so many, none are kept, and packets
// of the trace may be left.
fn keep_rest(
    alloc: Global,
    reads: FieldSet,
    trace: &mut Trace,
    most_words: usize,
) -> Result<Option<KeptPackets>, TraceAnswer>
    requires read { All (λ packet. kept_of reads packet ≡ packet) trace.old.packets }
    requires few { length trace.old.packets ≤ MAX_RECORDS }
    ensures kept { IfOk result (λ found. IfSome found (λ kept. kept.packets ≡ trace.old.packets)) }
    ensures accepted { IfOk result (λ found. IfSome found (λ kept. trace.old.fault ≡ None)) }
    ensures within { IfOk result (λ found. IfSome found (λ kept. kept_words kept ≤ most_words)) }
    ensures beyond { IfOk result (λ found. found ≡ None
        → most_words < kept_words (record { fields = reads; packets = trace.old.packets })) }
    ensures fault { OnOk result (trace.new.fault ≡ trace.old.fault) }
    ensures refused { IfErr result (λ answer. IfRefused answer (λ fault. trace.old.fault ≡ Some fault)) }
{
    let mut kept = none_kept(alloc, reads)?;
    let mut packet = Packet { words: [0; FIELDS] };
    'packets: while trace.next_into(&mut packet)? {
        if let Err(AllocError) = kept.push(&packet) {
            return Err(TraceAnswer::Memory);
        }
        if kept.word_count() > most_words {
            return Ok(None);
        }
    }
    Ok(Some(kept))
}

// Reads a trace to its end: it has no fault. Its packets are kept where they take at most twice the memory of its text.
fn read_ahead(
    alloc: Global,
    bytes: &[u8],
    reads: FieldSet,
) -> Result<Option<KeptPackets>, TraceAnswer>
    ensures kept { IfOk result (λ found. IfSome found (λ kept. kept.packets ≡ packets bytes.now reads)) }
    ensures within { IfOk result (λ found. IfSome found (λ kept. 8 * kept_words kept ≤ 2 * length bytes.now)) }
    ensures beyond { IfOk result (λ found. found ≡ None
        → 2 * length bytes.now < 8 * kept_words (record { fields = reads; packets = packets bytes.now reads })) }
    ensures accepted { OnOk result (trace_fault bytes.now reads ≡ None) }
    ensures refused { IfErr result (λ answer. IfRefused answer (λ fault. trace_fault bytes.now reads ≡ Some fault)) }
{
    read_packets_are_few();
    read_packets_are_kept();
    let mut trace = open_trace(alloc, bytes, reads)?;
    if let Some(kept) = keep_rest(alloc, reads, &mut trace, bytes.len() / 4)? {
        return Ok(Some(kept));
    }
    accept_rest(&mut trace)?;
    Ok(None)
}

/// The packets of a trace. Where a view is written after every N packets, the trace is read to its end first, so that what is
/// written comes from a trace that is accepted; it is read again only where its packets take more than twice the memory of its
/// text. With 0 nothing is read ahead, and nothing is kept.
pub(crate) fn opened_trace<'a>(
    alloc: Global,
    bytes: &'a [u8],
    reads: FieldSet,
    every: u32,
) -> Result<Packets<'a>, TraceAnswer>
    ensures all { IfOk result (λ given. coming given ≡ packets bytes.now reads) }
    ensures fault { IfOk result (λ given. fault_of given ≡ trace_fault bytes.now reads) }
    ensures accepted { IfOk result (λ given. 0 < every → trace_fault bytes.now reads ≡ None) }
    ensures kept { IfOk result (λ given. 0 < every
        → 8 * kept_words (record { fields = reads; packets = packets bytes.now reads }) ≤ 2 * length bytes.now → AreKept given) }
    ensures unread { IfOk result (λ given. every ≡ 0 → AreUnread given) }
    ensures refused { IfErr result (λ answer. IfRefused answer (λ fault. trace_fault bytes.now reads ≡ Some fault)) }
{
    if every > 0 {
        if let Some(kept) = read_ahead(alloc, bytes, reads)? {
            return Ok(Packets::Kept(kept, 0));
        }
    }
    let trace = open_trace(alloc, bytes, reads)?;
    Ok(Packets::Trace(trace))
}
