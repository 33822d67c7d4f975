//! Tests of ranges of a trace.

use crate::calls::{COUNT, SPLIT, parts_of};
use crate::compare::compare;
use marple_base::Text;
use std::alloc::{AllocError, Global};
use std::process::Abort;

// Traces with ends of lines of each kind, blank lines, quotes, byte order marks, and parts of one.
const TRACES: &[&[u8]] = &[
    b"srcip\n1\n2\n3\n4\n",
    b"srcip\r\n1\r\n2\r\n3",
    b"srcip\r1\r2\r\r3\r",
    b"\n\r\nsrcip\n\n1\n\n\n2\n3",
    b"note,srcip\n\"a\nb\",1\n\"\r\n\"\"\n\",2\n\"\",3",
    b"\"no\nte\",srcip\nx,1\ny,2\n",
    b"\xEF\xBB\xBFsrcip\n1\n2\n",
    b"\xEF\xBB\xBF\n\"srcip\"\n\"1\"\n2",
    b"note,srcip\nx,1\ny,2\nz\",3\n\"open\n\",4\n",
    b"\xEF\xBBx,srcip\n1,2\n",
    b"\xEFx,srcip\n1,2\n",
    b"srcip",
];

// The records of `srcip` that calls by these lines write to a part, one after the other.
fn records(
    rt: &impl Abort,
    alloc: Global,
    lines: &[&str],
    trace: &[u8],
    part: usize,
) -> Result<Text, AllocError> {
    let mut records = Text::new(alloc);
    for line in lines {
        let texts = parts_of(rt, alloc, line, COUNT, &[trace], SPLIT)?;
        compare(rt, texts.len(), 2, line);
        if let Some(text) = texts.get(part) {
            let own = text.as_slice().strip_prefix(b"srcip\n");
            records.push_slice(own.unwrap_or(b"no header"))?;
        }
    }
    Ok(records)
}

// The ranges up to here and from here on have the records of the whole.
fn compare_at(
    rt: &impl Abort,
    alloc: Global,
    trace: &[u8],
    middle: usize,
    part: usize,
) -> Result<(), AllocError> {
    let end = trace.len().saturating_add(1);
    let first = format!(in alloc; "split q a --parts 2 --into out --range 0 {middle}")?;
    let second = format!(in alloc; "split --range {middle} {end} q a --parts 2 --into out")?;
    let whole = records(rt, alloc, &["split q a --parts 2 --into out"], trace, part)?;
    let both = records(rt, alloc, &[first.as_str(), second.as_str()], trace, part)?;
    compare(rt, both.as_slice(), whole.as_slice(), second.as_str());
    Ok(())
}

#[test]
fn splits_ranges(rt: HostRuntime) -> Result<(), AllocError> {
    for trace in TRACES {
        for middle in 0..trace.len().saturating_add(2) {
            for part in 0..2 {
                compare_at(&rt, rt.alloc(), trace, middle, part)?;
            }
        }
    }
    Ok(())
}

/// Ranges of a trace of three packets, and the records that begin in each. A quote goes on from before it.
const RANGES: &[(&str, &str)] = &[
    ("0 6", ""),
    ("0 7", "1\n"),
    ("7 9", "2\n"),
    ("7 10", "2\n"),
    ("7 11", "2\n3\n"),
    ("9 18446744073709551615", "3\n"),
    ("10 10", ""),
];

#[test]
fn splits_a_range(rt: HostRuntime) -> Result<(), AllocError> {
    let alloc = rt.alloc();
    for (range, text) in RANGES {
        let line = format!(in alloc; "split q a --parts 1 --into out --range {range}")?;
        let found = records(&rt, alloc, &[line.as_str()], b"srcip\n1\n2\n3\n", 0)?;
        compare(&rt, found.as_slice(), text.as_bytes(), range);
    }
    Ok(())
}
