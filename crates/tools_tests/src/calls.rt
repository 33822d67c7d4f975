//! Tests of the second program's call.

ghost use Rattle.std.specs.Prelude.{◌≡◌, ◌<◌, All, IfOk};
ghost use Rattle.marple_base.specs.{Inputs.IsClosed, MemoryInputs.memory_input, declared.inputs.Which.TheVariants.{Query, Trace}};

use crate::compare::{compare, compare_texts};
use crate::memory::{MemoryParts, ranged_traces_of};
use marple_base::{Field, MemoryInputs, MemorySink, Seq, Steps, Text};
use std::alloc::{AllocError, Global};
use std::marker::Brand;
use std::process::Abort;
use std::sync::ledger::{Blank, Ledger};
use tools_cli::{ToolStatus, marple_tools};
use trace_pieces::WholeFault;
use trace_ranges::Ranged;

pub(crate) const COUNT: &[u8] =
    b"def count([c],[]) { c = c + 1; }\nr = groupby(pktstream, [srcip], count);\nprint r;\n";

/// What is seen of a call: how it ended, what it wrote, and its complaint.
#[derive(Clone, Copy, Debug, PartialEq)]
pub(crate) struct Seen<'a> {
    pub(crate) status: ToolStatus,
    pub(crate) written: &'a [u8],
    pub(crate) complaint: &'a [u8],
}

/// How a call ended, standard output and standard error, and the texts of the parts.
#[derive(Drop)]
pub(crate) struct Told {
    pub(crate) status: ToolStatus,
    out: MemorySink,
    err: MemorySink,
    pub(crate) texts: Vec<Vec<u8>>,
}

impl Told {
    pub(crate) fn seen(&self) -> Seen<'_> {
        Seen {
            status: self.status,
            written: self.out.taken(),
            complaint: self.err.taken(),
        }
    }
}

fn words_of(alloc: Global, line: &str) -> Result<Vec<String>, AllocError> {
    let mut words = Vec::new(alloc);
    for word in line.split(' ') {
        words.push(String::from_str(alloc, word)?)?;
    }
    Ok(words)
}

fn call_under<L: Ledger>(
    alloc: Global,
    words: &[String],
    inputs: &mut MemoryInputs,
    traces: &mut [Ranged<MemoryInputs>],
    parts: &mut MemoryParts,
    out: &mut MemorySink,
    err: &mut MemorySink,
    blank: Blank,
) -> ToolStatus
    requires query { IsClosed (memory_input inputs.old Query) }
    requires closed { All (λ trace. IsClosed (memory_input trace.inputs Trace)) traces.old }
    requires name { blank.name ≡ L.name }
    requires share { blank.parts ≡ L.parts }
    requires whole { 0 < blank.parts }
{
    let mut steps = Steps::<L>::new(blank);
    marple_tools(alloc, words, inputs, traces, parts, out, err, &mut steps)
}

// The inputs of a query alone.
fn query_of(alloc: Global, query: &[u8]) -> Result<MemoryInputs, AllocError>
    ensures { IfOk result (λ inputs. IsClosed (memory_input inputs Query)) }
{
    let query = Text::from_slice(alloc, query)?;
    Ok(MemoryInputs::new(query, Text::new(alloc), Seq::new(alloc)))
}

/// Calls the program with the words of a line, a query, traces, and sinks for two parts.
pub(crate) fn called(
    alloc: Global,
    line: &str,
    query: &[u8],
    texts: &[&[u8]],
) -> Result<Told, AllocError> {
    called_failing(alloc, line, query, texts, Seq::new(alloc))
}

/// The same, where these writes to standard output fail.
pub(crate) fn called_failing(
    alloc: Global,
    line: &str,
    query: &[u8],
    texts: &[&[u8]],
    failing: Seq<u64>,
) -> Result<Told, AllocError> {
    let mut out = MemorySink::new(alloc, 100, 10_000, failing)?;
    let mut err = MemorySink::new(alloc, 1000, 1000, Seq::new(alloc))?;
    let words = words_of(alloc, line)?;
    let mut inputs = query_of(alloc, query)?;
    let mut traces = ranged_traces_of(alloc, texts)?;
    let mut parts = MemoryParts::new(alloc, 2, 1000, 0)?;
    let status = call_under::<Brand>(
        alloc,
        words.as_slice(),
        &mut inputs,
        traces.as_mut_slice(),
        &mut parts,
        &mut out,
        &mut err,
        Blank::new(1),
    );
    drop(traces);
    Ok(Told {
        status,
        out,
        err,
        texts: parts.texts,
    })
}

/// Calls the program as `called` does, of which this is seen: the texts of the parts.
pub(crate) fn parts_of(
    rt: &impl Abort,
    alloc: Global,
    line: &str,
    query: &[u8],
    traces: &[&[u8]],
    wanted: &Seen<'_>,
) -> Result<Vec<Vec<u8>>, AllocError> {
    let told = called(alloc, line, query, traces)?;
    compare(rt, told.seen(), *wanted, line);
    Ok(told.texts)
}

/// What is seen of a call that splits.
pub(crate) const SPLIT: &Seen<'static> = &Seen {
    status: ToolStatus::Ok,
    written: b"",
    complaint: b"",
};

const LINE: &str = "split q a b --parts 2 --into out";

// All packets of a key are in one part, also where a quote is open at the end of the first trace.
#[test]
fn splits_two_traces(rt: HostRuntime) -> Result<(), AllocError> {
    let traces: [&[u8]; 2] = [b"srcip,note\n5,x\n5,\"", b"srcip,note\n5,y\n5,z\n"];
    let texts = parts_of(&rt, rt.alloc(), LINE, COUNT, &traces, SPLIT)?;
    let (with, without): (&[u8], &[u8]) = (b"srcip\n5\n5\n5\n5\n", b"srcip\n");
    let is_first = texts.first().is_some_and(|text| text.len() > without.len());
    let wanted = if is_first {
        [with, without]
    } else {
        [without, with]
    };
    compare_texts(&rt, &texts, &wanted, LINE);
    Ok(())
}

/// Command lines that ask for nothing.
const BAD_LINES: &[&str] = &[
    "",
    "facts",
    "facts q more",
    "fact q",
    "Facts q",
    "split",
    "split q",
    "split q --parts 2 --into out",
    "split q a --parts 2",
    "split --parts 2 --into out a",
    "split q a --parts 2 --into out --parts 2",
    "split q a --into out --into out --parts 2",
    "split --salt 1 q a --parts 2 --into out --salt 2",
    "split q a --parts 2 --into out --slat 1",
    "split q --a --parts 2 --into out",
    "split q a --parts 0 --into out",
    "split q a --parts 65537 --into out",
    "split q a --parts 2 --into out --salt",
    "split q a --parts 2 --into out --salt 4294967296",
    "split q a --parts 2 --into out --salt -1",
    "split q a --parts 2 --into out --range",
    "split q a --parts 2 --into out --range 0",
    "split q a --parts 2 --into out --range 0 x",
    "split q a --parts 2 --into out --range 0 18446744073709551616",
    "split q a --parts 2 --into out --range 18446744073709551616 0",
    "split q a --parts 2 --into out --range 9 3",
    "split q a --parts 2 --into out --range 18446744073709551615 0",
    "split q a --range 0 5 --parts 2 --into out --range 5 9",
    "split q a b --parts 2 --into out --range 0 5",
];

/// What is seen of a call by one of them.
const USAGE: &Seen<'static> = &Seen {
    status: ToolStatus::Usage,
    written: b"",
    complaint: b"marple: bad command line\n",
};

#[test]
fn refuses_words(rt: HostRuntime) -> Result<(), AllocError> {
    for line in BAD_LINES {
        let texts = parts_of(&rt, rt.alloc(), line, COUNT, &[b"srcip\n1\n"], USAGE)?;
        compare_texts(&rt, &texts, &[b"", b""], line);
    }
    Ok(())
}

/// Command lines with options anywhere.
const LINES: &[&str] = &[
    "split q a --parts 2 --into out --salt 0",
    "split q a --parts 2 --into out --salt 4294967295",
    "split q a b c --parts 3 --into out",
    "split q a --into out --parts 2",
    "split q a --parts 2 --into out --salt 1 more",
    "split --salt 1 q --parts 2 a --into --parts b",
    "split --range 0 5 q --parts 2 a --into out",
    "split q a --parts 2 --into out --range 0 0",
    "split q a --parts 2 --into out --range 18446744073709551615 18446744073709551615",
];

#[test]
fn takes_options(rt: HostRuntime) -> Result<(), AllocError> {
    for line in LINES {
        let told = called(rt.alloc(), line, COUNT, &[])?;
        assert!(rt; told.status != ToolStatus::Usage, "{line}");
    }
    Ok(())
}

// The first fault of the traces, as `marple` complains of it.
#[test]
fn refuses_traces(rt: HostRuntime) -> Result<(), AllocError> {
    let wanted = Seen {
        status: ToolStatus::TraceRefused(WholeFault::BadNumber(1, Field::SrcIp)),
        written: b"",
        complaint: b"marple: trace: BadNumber(1,srcip)\n",
    };
    let traces: [&[u8]; 2] = [b"srcip\n1\n2\n", b"srcip\n2001:db8::1\n"];
    let _texts = parts_of(&rt, rt.alloc(), LINE, COUNT, &traces, &wanted)?;
    Ok(())
}

// A query that isn't accepted.
#[test]
fn refuses_a_query(rt: HostRuntime) -> Result<(), AllocError> {
    let told = called(rt.alloc(), LINE, b"print x;\n", &[b"srcip\n1\n"])?;
    let unknown: &[u8] = b"marple: query: UnknownName at 6\n";
    compare(&rt, told.seen().complaint, unknown, LINE);
    compare(&rt, told.status.number(), 4, LINE);
    Ok(())
}

/// A query by no field of which a trace may be split.
const TWO_KEYS: &[u8] =
    b"def count([c],[]) { c = c + 1; }\na = groupby(pktstream, [srcip], count);\nb = groupby(pktstream, [dstip], count);\n\
print a;\nprint b;\n";

#[test]
fn needs_a_field(rt: HostRuntime) -> Result<(), AllocError> {
    let wanted = Seen {
        status: ToolStatus::FieldNeeded,
        written: b"",
        complaint: b"marple: query: FieldNeeded\n",
    };
    let traces: [&[u8]; 1] = [b"srcip,dstip\n1,2\n"];
    let _texts = parts_of(&rt, rt.alloc(), LINE, TWO_KEYS, &traces, &wanted)?;
    compare(&rt, wanted.status.number(), 4, LINE);
    Ok(())
}
