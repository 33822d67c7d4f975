//! Calls of the program whose inputs or outputs fail.

use crate::call::realistic::{QUERY, TABLES, TRACE, VIEWS};
use crate::call::{Outside, PLACES, Seen, compare_call};
use marple_base::{FailAt, Text, Which};
use marple_cli::Status;
use std::alloc::{AllocError, Global};
use std::process::Abort;

const RUN: &str = "run query trace";

/// The realistic run, where nothing fails.
pub const SOUND: &Outside<'static> = &Outside {
    query: QUERY,
    trace: TRACE,
    most: 4096,
    places: PLACES,
    failing: &[],
    failing_writes: &[],
    failing_complaints: &[],
};

/// What is seen of it.
const WHOLE: &Seen<'static> = &Seen {
    status: Status::Ok,
    text: TABLES,
    complaint: b"",
};

#[test]
fn each_call_of_an_input_fails(rt: HostRuntime) -> Result<(), AllocError> {
    for (which, complaint) in [
        (Which::Query, b"marple: cannot read the query\n".as_slice()),
        (Which::Trace, b"marple: cannot read the trace\n".as_slice()),
    ] {
        // opening, a read of all bytes, and a read of none; there is no fourth call
        for call in 1..5u64 {
            let outside = Outside {
                failing: &[FailAt { which, call }],
                ..*SOUND
            };
            let wanted = if call < 4 {
                Seen {
                    status: Status::InputFault(which),
                    text: b"",
                    complaint,
                }
            } else {
                *WHOLE
            };
            compare_call(&rt, rt.alloc(), RUN, &outside, &wanted)?;
        }
    }
    Ok(())
}

/// Lets a write fail, of a call that writes at most this many bytes at once.
fn fail_write(
    rt: &impl Abort,
    alloc: Global,
    line: &str,
    most: usize,
    write: u64,
    wanted: &Seen<'_>,
) -> Result<(), AllocError> {
    let outside = Outside {
        most,
        failing_writes: &[write],
        ..*SOUND
    };
    compare_call(rt, alloc, line, &outside, wanted)
}

/// Lets each write fail in turn, of a call that writes these pieces in sequence, in writes of at most this many bytes each.
/// There is no write after the last one.
fn fail_each_write(
    rt: &impl Abort,
    alloc: Global,
    line: &str,
    pieces: &[&[u8]],
    most: usize,
) -> Result<(), AllocError> {
    let mut before = Text::new(alloc);
    let mut write = 1u64;
    for piece in pieces {
        for part in piece.chunks(most.max(1)) {
            let wanted = Seen {
                status: Status::OutputFault,
                text: before.as_slice(),
                complaint: b"marple: cannot write\n",
            };
            fail_write(rt, alloc, line, most, write, &wanted)?;
            before.push_slice(part)?;
            write = write.saturating_add(1);
        }
    }
    let wanted = Seen {
        text: before.as_slice(),
        ..*WHOLE
    };
    fail_write(rt, alloc, line, most, write, &wanted)
}

/// Lines, the pieces that their calls write, and the most bytes of a write.
const WRITES: &[(&str, &[&[u8]], usize)] = &[
    (RUN, &[TABLES], 1),
    (RUN, &[TABLES], 10),
    (RUN, &[TABLES], 4096),
    ("run query trace --every 2", &VIEWS, 10),
    ("run query trace --every 2", &VIEWS, 4096),
];

#[test]
fn each_write_fails(rt: HostRuntime) -> Result<(), AllocError> {
    for (line, pieces, most) in WRITES {
        fail_each_write(&rt, rt.alloc(), line, pieces, *most)?;
    }
    Ok(())
}

#[test]
fn a_complaint_that_fails_changes_no_status(rt: HostRuntime) -> Result<(), AllocError> {
    let which = Which::Trace;
    let outside = Outside {
        failing: &[FailAt { which, call: 2 }],
        failing_complaints: &[1],
        ..*SOUND
    };
    let wanted = Seen {
        status: Status::InputFault(which),
        text: b"",
        complaint: b"",
    };
    compare_call(&rt, rt.alloc(), RUN, &outside, &wanted)
}
