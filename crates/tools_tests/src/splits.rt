//! Tests of splitting, over traces and parts in memory.

ghost use Rattle.std.specs.Prelude.{◌≡◌, ◌<◌, ◌≤◌, All};
ghost use Rattle.marple_base.specs.{Inputs.IsClosed, MemoryInputs.memory_input, declared.inputs.Which.TheVariants.Trace};

use crate::compare::{compare, compare_texts};
use crate::memory::{MemoryParts, traces_of};
use marple_base::{Field, FieldSet, MemoryInputs, Steps};
use std::alloc::{AllocError, Global};
use std::marker::Brand;
use std::process::Abort;
use std::sync::ledger::{Blank, Ledger};
use trace_pieces::WholeFault;
use trace_split::{SplitError, Splitting, split_held};

// How traces are read and written: so many bytes at once, calls that fail.
#[derive(Clone, Copy, Debug)]
struct Way {
    held: usize,
    parts: u32,
    most: usize,
    failing_read: u64,
    failing_write: u64,
}

const PLAIN: Way = Way {
    held: 64,
    parts: 1,
    most: 1000,
    failing_read: 0,
    failing_write: 0,
};

fn split_under<L: Ledger>(
    alloc: Global,
    traces: &mut [MemoryInputs],
    way: Way,
    parts: &mut MemoryParts,
    blank: Blank,
) -> Result<(), SplitError>
    requires closed { All (λ trace. IsClosed (memory_input trace Trace)) traces.old }
    requires name { blank.name ≡ L.name }
    requires share { blank.parts ≡ L.parts }
    requires whole { 0 < blank.parts }
    requires held { 3 ≤ way.held }
    requires some { 0 < way.parts }
{
    let mut steps = Steps::<L>::new(blank);
    let reads = FieldSet::EMPTY.with(Field::SrcIp).with(Field::Tout);
    let splitting = Splitting {
        by: FieldSet::EMPTY.with(Field::SrcIp),
        salt: 1,
        parts: way.parts,
    };
    split_held(
        alloc, traces, way.held, reads, &splitting, parts, &mut steps,
    )
}

// Splits traces by `srcip`, of which `srcip` and `tout` are read, with this answer: the texts of the parts.
fn split(
    rt: &impl Abort,
    alloc: Global,
    traces: &[&[u8]],
    way: Way,
    answer: Result<(), SplitError>,
) -> Result<Vec<Vec<u8>>, AllocError>
    requires held { 3 ≤ way.held }
    requires some { 0 < way.parts }
{
    let mut traces = traces_of(alloc, traces, way.failing_read)?;
    let mut parts = MemoryParts::new(alloc, way.parts, way.most, way.failing_write)?;
    let found = split_under::<Brand>(alloc, traces.as_mut_slice(), way, &mut parts, Blank::new(1));
    drop(traces);
    assert_eq!(rt; found, answer, "{way:?}");
    Ok(parts.texts)
}

// Splits traces into one part of this text, whatever is held at once, below this many bytes.
fn compare_splits(
    rt: &impl Abort,
    alloc: Global,
    traces: &[&[u8]],
    most: usize,
    wanted: &[u8],
) -> Result<(), AllocError> {
    for held in 3..most {
        let texts = split(rt, alloc, traces, Way { held, ..PLAIN }, Ok(()))?;
        compare(rt, texts.len(), 1, "the parts");
        for text in &texts {
            assert_eq!(rt; text.as_slice(), wanted, "{held}");
        }
    }
    Ok(())
}

// Traces, and the answer of splitting them.
type Answered<'a> = (&'a [&'a [u8]], Result<(), SplitError>);

// Splits traces with these answers, whatever is held at once, below this many bytes.
fn compare_answers(
    rt: &impl Abort,
    alloc: Global,
    cases: &[Answered<'_>],
    most: usize,
) -> Result<(), AllocError> {
    for held in 3..most {
        for (traces, answer) in cases {
            let _texts = split(rt, alloc, traces, Way { held, ..PLAIN }, *answer)?;
        }
    }
    Ok(())
}

const TRACE: &[u8] =
    b"\n\r\nnote,tout,srcip\r\n\"a\r\n\"\"b\",inf,10.0.0.1\rx,12, 010.0.0.2\t\n\n\n\"\",7,\"3\"";

const TEXT: &[u8] = b"srcip,tout\n167772161,inf\n167772162,12\n3,7\n";

// With quotes, ends of lines of each kind, blank lines, blanks, and no end of line at the end.
#[test]
fn reads_all(rt: HostRuntime) -> Result<(), AllocError> {
    compare_splits(&rt, rt.alloc(), &[TRACE], 100, TEXT)
}

// The same after a byte order mark.
#[test]
fn skips_a_mark(rt: HostRuntime) -> Result<(), AllocError> {
    let trace = b"\xEF\xBB\xBFsrcip,tout\n1,2\n3,4\n";
    let text = b"srcip,tout\n1,2\n3,4\n";
    compare_splits(&rt, rt.alloc(), &[trace], 20, text)
}

// Traces that each have a header of their own. A quote that is open where one ends isn't open in the next.
const SEVERAL: &[&[u8]] = &[
    b"srcip,tout,note\n5,1,x\n5,2,\"",
    b"note,tout,srcip\ny,3,5\nz,4,5\n",
    b"tout,srcip\n",
    b"\xEF\xBB\xBFtout,srcip\r\n6,7",
];

#[test]
fn splits_one_after_the_other(rt: HostRuntime) -> Result<(), AllocError> {
    let text = b"srcip,tout\n5,1\n5,2\n5,3\n5,4\n7,6\n";
    compare_splits(&rt, rt.alloc(), SEVERAL, 40, text)
}

// Of no trace each part has the header.
#[test]
fn splits_none(rt: HostRuntime) -> Result<(), AllocError> {
    let way = Way { parts: 2, ..PLAIN };
    let texts = split(&rt, rt.alloc(), &[], way, Ok(()))?;
    compare_texts(&rt, &texts, &[b"srcip,tout\n", b"srcip,tout\n"], "a header");
    Ok(())
}

// The first fault, by the number of its record in the whole trace.
const FAULTS: &[Answered<'static>] = &[
    (
        &[b"\n\n\r\n"],
        Err(SplitError::Refused(WholeFault::NoHeader)),
    ),
    (
        &[b"srcip\n1\n2\n"],
        Err(SplitError::Refused(WholeFault::FieldMissing(Field::Tout))),
    ),
    (
        &[b"srcip,srcip,tout\n1,1,1\n"],
        Err(SplitError::Refused(WholeFault::FieldTwice(Field::SrcIp))),
    ),
    (
        &[b"srcip,tout\n1,1\n2,2\n3\n4,4\n"],
        Err(SplitError::Refused(WholeFault::FieldCount(3))),
    ),
    (
        &[b"srcip,tout\n1,1\n2,2\n3,x\n4,4\n"],
        Err(SplitError::Refused(WholeFault::BadNumber(3, Field::Tout))),
    ),
    (&[b"srcip,tout\n1,1\n2,2\n3,3\n4,4\n"], Ok(())),
];

#[test]
fn refuses(rt: HostRuntime) -> Result<(), AllocError> {
    compare_answers(&rt, rt.alloc(), FAULTS, 40)
}

// Only at the head of a trace is it a mark: elsewhere it is no number.
const MARKED: &[Answered<'static>] = &[(
    &[b"srcip,tout\n1,2\n\xEF\xBB\xBF3,4\n"],
    Err(SplitError::Refused(WholeFault::BadNumber(2, Field::SrcIp))),
)];

#[test]
fn refuses_a_mark_elsewhere(rt: HostRuntime) -> Result<(), AllocError> {
    compare_answers(&rt, rt.alloc(), MARKED, 20)
}

const GOOD: &[u8] = b"srcip,tout\n1,1\n2,2\n";

const BAD: &[u8] = b"srcip,tout\nx\n";

// Each fault in the second trace, by the number of its record there; the third isn't reached.
const LATER_FAULTS: &[Answered<'static>] = &[
    (
        &[GOOD, b"", BAD],
        Err(SplitError::Refused(WholeFault::NoHeader)),
    ),
    (
        &[GOOD, b"tout\n1\n", BAD],
        Err(SplitError::Refused(WholeFault::FieldMissing(Field::SrcIp))),
    ),
    (
        &[GOOD, b"srcip,tout,tout\n", BAD],
        Err(SplitError::Refused(WholeFault::FieldTwice(Field::Tout))),
    ),
    (
        &[GOOD, b"tout,srcip\n1,1\n2\n", BAD],
        Err(SplitError::Refused(WholeFault::FieldCount(2))),
    ),
    (
        &[GOOD, b"tout,srcip\n1,2001:db8::1\n", BAD],
        Err(SplitError::Refused(WholeFault::BadNumber(1, Field::SrcIp))),
    ),
];

#[test]
fn refuses_the_second(rt: HostRuntime) -> Result<(), AllocError> {
    compare_answers(&rt, rt.alloc(), LATER_FAULTS, 30)
}

// Reads and writes that fail.
#[test]
fn faults(rt: HostRuntime) -> Result<(), AllocError> {
    for call in 1..5u64 {
        let way = Way {
            failing_read: call,
            ..PLAIN
        };
        let answer = if call == 4 {
            Ok(())
        } else {
            Err(SplitError::InputFault)
        };
        let _texts = split(&rt, rt.alloc(), &[b"srcip,tout\n1,1\n"], way, answer)?;
        let way = Way {
            failing_write: call,
            most: 10,
            ..PLAIN
        };
        let answer = if call > 2 {
            Ok(())
        } else {
            Err(SplitError::OutputFault)
        };
        let _texts = split(&rt, rt.alloc(), &[b"srcip,tout\n1,1\n"], way, answer)?;
    }
    Ok(())
}

// Each part has a header and the packets of its keys.
#[test]
fn parts(rt: HostRuntime) -> Result<(), AllocError> {
    let way = Way { parts: 3, ..PLAIN };
    let trace = b"srcip,tout\n1,1\n2,2\n1,3\n2,4\n5,6\n6,7\n7,8\n";
    let texts = split(&rt, rt.alloc(), &[trace], way, Ok(()))?;
    let mut all = 0;
    for text in &texts {
        assert!(rt; text.as_slice().starts_with(b"srcip,tout\n"));
        all = text.len().saturating_sub(11).saturating_add(all);
    }
    compare(&rt, all, 28, "the bytes of the packets");
    Ok(())
}
