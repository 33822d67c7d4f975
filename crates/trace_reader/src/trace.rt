//! A trace, packet by packet.

ghost use Rattle.std.specs.Prelude.{◌≡◌, Err, IfErr, IfOk, IfSome, None, Ok, Some, false, is_ok, true};
ghost use Rattle.trace_reader.specs.{Traces.{opening, packets, trace_fault}, Faults.{IfRefused, IsEarly, IsLate}};
ghost use Rattle.trace_reader.specs.Upcoming.{Gives, IsAtEnd, IsAtFault, upcoming_of};

use crate::columns::Columns;
use crate::fault::{MAX_RECORDS, MAX_TRACE, TraceAnswer, TraceFault};
use crate::record::{columns, packet_into};
use crate::records::Records;
use marple_base::{FIELDS, FieldSet, Packet};
use std::alloc::{AllocError, Global};
use std::marker::Model;

// How far a trace is.
#[derive(Clone, Copy)]
enum Progress {
    Reading,
    Ended,
    Stopped(TraceAnswer),
}

/// A trace that is read packet by packet. Contracts see the packets that are still to come, the fault after them,
/// if there is one, and the answer that stopped the trace, if one did.
pub struct Trace<'a> {
    records: Records<'a>,
    width: usize,
    columns: Columns,
    given: u32,
    progress: Progress,
}

impl Drop for Trace<'_> {
    fn drop(self) {
        let Trace {
            records: _,
            width: _,
            columns: _,
            given: _,
            progress: _,
        } = self;
    }
}

impl<'a> Model for Trace<'a> {
    ghost use Rattle.trace_reader.specs.Upcoming.{Upcoming};

    ghost Value = { Upcoming };

    ghost use Rattle.trace_reader.specs.TraceView.{upcoming_in, IsSound};

    ghost view = { upcoming_in };

    ghost invariant = { IsSound };
}

/// Opens a trace of which some fields are read.
pub fn open_trace<'a>(
    alloc: Global,
    bytes: &'a [u8],
    reads: FieldSet,
) -> Result<Trace<'a>, TraceAnswer>
    ensures opened { IfOk result (λ trace. trace ≡ upcoming_of bytes.now reads) }
    ensures accepted { IfOk result (λ trace. is_ok (opening bytes.now reads) ≡ true) }
    ensures refused { IfErr result (λ answer. IfRefused answer (λ fault. trace_fault bytes.now reads ≡ Some fault)) }
    ensures opening { IfErr result (λ answer. IfRefused answer (λ fault. opening bytes.now reads ≡ Err fault)) }
    ensures early { IfErr result (λ answer. IfRefused answer IsEarly) }
{
    if bytes.len() > MAX_TRACE {
        return Err(TraceAnswer::Refused(TraceFault::TraceTooLong));
    }
    let mut records = Records::new(alloc, bytes);
    match records.next() {
        Err(AllocError) => Err(TraceAnswer::Memory),
        Ok(false) => Err(TraceAnswer::Refused(TraceFault::NoHeader)),
        Ok(true) => match columns(&records, reads) {
            Err(fault) => Err(TraceAnswer::Refused(fault)),
            Ok(columns) => match Columns::new(alloc, columns) {
                Err(AllocError) => Err(TraceAnswer::Memory),
                Ok(columns) => {
                    let width = records.len();
                    Ok(Trace {
                        records,
                        width,
                        columns,
                        given: 0,
                        progress: Progress::Reading,
                    })
                }
            },
        },
    }
}

impl<'a> Trace<'a> {
    /// The next packet, none at the end. Once it answers an error it answers the same from then on.
    pub fn next(&mut self) -> Result<Option<Packet>, TraceAnswer>
        ensures packet { IfOk result (λ found. IfSome found (λ packet. Gives self.old packet self.new)) }
        ensures end { result ≡ Ok None → IsAtEnd self.old × (self.new ≡ self.old) }
        ensures refused { IfErr result (λ answer. IfRefused answer (λ fault. IsAtFault self.old fault × IsAtFault self.new fault)) }
        ensures late { IfErr result (λ answer. IfRefused answer IsLate) }
        ensures stopped { IfErr result (λ answer. self.new.stopped ≡ Some answer) }
        ensures again { IfSome self.old.stopped (λ answer. result ≡ Err answer) }
    {
        let mut packet = Packet { words: [0; FIELDS] };
        if self.next_into(&mut packet)? {
            Ok(Some(packet))
        } else {
            Ok(None)
        }
    }

    /// The next packet into `packet`, and whether there was one: the same as `next`, with no copy of the packet.
    /// Where there is none, the words of `packet` are free.
    #[inline(always)]
    pub fn next_into(&mut self, packet: &mut Packet) -> Result<bool, TraceAnswer>
        ensures packet { result ≡ Ok true → Gives self.old packet.new self.new }
        ensures end { result ≡ Ok false → IsAtEnd self.old × (self.new ≡ self.old) }
        ensures refused { IfErr result (λ answer. IfRefused answer (λ fault. IsAtFault self.old fault × IsAtFault self.new fault)) }
        ensures late { IfErr result (λ answer. IfRefused answer IsLate) }
        ensures stopped { IfErr result (λ answer. self.new.stopped ≡ Some answer) }
        ensures again { IfSome self.old.stopped (λ answer. result ≡ Err answer) }
    {
        match self.progress {
            Progress::Stopped(answer) => return Err(answer),
            Progress::Ended => return Ok(false),
            Progress::Reading => {}
        }
        match self.records.next() {
            Err(AllocError) => {
                self.progress = Progress::Stopped(TraceAnswer::Memory);
                Err(TraceAnswer::Memory)
            }
            Ok(false) => {
                self.progress = Progress::Ended;
                Ok(false)
            }
            Ok(true) => {
                self.given += 1;
                match packet_into(&self.records, self.given, self.width, &self.columns, packet) {
                    Ok(()) => Ok(true),
                    Err(fault) => {
                        self.progress = Progress::Stopped(TraceAnswer::Refused(fault));
                        Err(TraceAnswer::Refused(fault))
                    }
                }
            }
        }
    }
}
