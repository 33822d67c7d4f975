//! Calls on a count whose inputs or outputs fail.

use crate::call::calls::SOUND;
use crate::call::sources::{COUNT, RUN, WHOLE};
use crate::call::{Outside, Seen, called, compare, compare_call};
use marple_base::{FailAt, Which};
use marple_cli::Status;
use std::alloc::{AllocError, Global};
use std::process::Abort;

/// The trace's first read.
const TRACE_READ: [FailAt; 1] = [FailAt {
    which: Which::Trace,
    call: 2,
}];

/// The count over packets from 1, 2 and 1, written in pieces of ten bytes.
const IN_TENS: Outside<'static> = Outside {
    trace: b"srcip\n1\n2\n1\n",
    most: 10,
    ..COUNT
};

/// What is seen of a call that cannot write after ten bytes.
const TEN_BYTES: Seen<'static> = Seen {
    status: Status::OutputFault,
    text: b"table r li",
    complaint: b"marple: cannot write\n",
};

/// What is seen of a call that cannot read the trace.
const NO_TRACE: Seen<'static> = Seen {
    status: Status::InputFault(Which::Trace),
    text: b"",
    complaint: b"marple: cannot read the trace\n",
};

/// Calls on the count, and what is seen of each.
const CALLS: &[(Outside<'static>, Seen<'static>)] = &[
    (COUNT, WHOLE),
    // an output with place for ten bytes takes ten
    (
        Outside {
            places: 10,
            ..COUNT
        },
        TEN_BYTES,
    ),
    // a second write that fails leaves ten bytes
    (
        Outside {
            failing_writes: &[2],
            ..IN_TENS
        },
        TEN_BYTES,
    ),
    // a trace that fails writes a complaint where that can be written
    (
        Outside {
            failing: &TRACE_READ,
            ..IN_TENS
        },
        NO_TRACE,
    ),
    (
        Outside {
            failing: &TRACE_READ,
            ..COUNT
        },
        NO_TRACE,
    ),
    (
        Outside {
            failing: &TRACE_READ,
            failing_complaints: &[1],
            ..COUNT
        },
        Seen {
            complaint: b"",
            ..NO_TRACE
        },
    ),
];

#[test]
fn calls_end_with_their_texts_and_complaints(rt: HostRuntime) -> Result<(), AllocError> {
    for (outside, seen) in CALLS {
        compare_call(&rt, rt.alloc(), RUN, outside, seen)?;
    }
    Ok(())
}

// Runs a query whose call of this number fails. The trace's first call is to fail too, and is the one after the program's.
fn compare_unopened(
    rt: &impl Abort,
    alloc: Global,
    sound: &Outside<'_>,
    call: u64,
) -> Result<(), AllocError> {
    let failing = [
        FailAt {
            which: Which::Query,
            call,
        },
        FailAt {
            which: Which::Trace,
            call: 1,
        },
    ];
    let outside = Outside {
        failing: &failing,
        ..*sound
    };
    let told = called(alloc, RUN, &outside)?;
    let refused = Status::InputFault(Which::Query);
    compare(rt, told.status, refused, "a query that cannot be read");
    assert!(rt; told.trace_fails, "at {call}");
    Ok(())
}

#[test]
fn the_trace_is_not_opened_where_the_query_cannot_be_read(
    rt: HostRuntime,
) -> Result<(), AllocError> {
    // opening the query, a read of all its bytes, and a read of none
    for call in 1..4u64 {
        compare_unopened(&rt, rt.alloc(), &COUNT, call)?;
        compare_unopened(&rt, rt.alloc(), SOUND, call)?;
    }
    Ok(())
}
