//! One call of the program over inputs and sinks in memory, and below it what is called and calls that fail.

mod calls;
mod count_calls;
pub mod realistic;
pub mod sources;

ghost use Rattle.std.specs.Prelude.{◌≡◌, ◌<◌, IfOk};
ghost use Rattle.marple_base.specs.{Inputs.IsClosed, MemoryInputs.memory_input, declared.inputs.Which.TheVariants.{Query, Trace}};

use marple_base::{FailAt, Inputs, MemoryInputs, MemorySink, Seq, Steps, Text, Which};
use marple_cli::{Driven, Status, marple};
use std::alloc::{AllocError, Global};
use std::fmt::Debug;
use std::marker::Brand;
use std::process::Abort;
use std::sync::ledger::{Blank, Ledger};

/// The bytes that a sink has place for.
pub const PLACES: usize = 1_000_000;

/// What a call is made over: the bytes of its inputs, the most bytes of a write, which are at least one, the bytes that the
/// output has place for, and which calls fail.
#[derive(Clone, Copy)]
pub struct Outside<'a> {
    pub query: &'a [u8],
    pub trace: &'a [u8],
    pub most: usize,
    pub places: usize,
    pub failing: &'a [FailAt],
    pub failing_writes: &'a [u64],
    pub failing_complaints: &'a [u64],
}

/// What is seen of a call: how it ended, and what its sinks took.
#[derive(Clone, Copy, Debug, PartialEq)]
pub struct Seen<'a> {
    pub status: Status,
    pub text: &'a [u8],
    pub complaint: &'a [u8],
}

/// How a call ended, its sinks, and the steps that it counted.
#[derive(Drop)]
pub struct Told {
    pub status: Status,
    out: MemorySink,
    err: MemorySink,
    pub steps: u64,
    /// Whether the query couldn't be read, and then opening the trace after the call fails too.
    pub trace_fails: bool,
}

impl Told {
    pub fn seen(&self) -> Seen<'_> {
        Seen {
            status: self.status,
            text: self.out.taken(),
            complaint: self.err.taken(),
        }
    }
}

/// How a call ended, and the steps that it counted.
#[derive(Clone, Copy)]
struct Ended {
    status: Status,
    steps: u64,
}

/// The words of a command line, which blanks separate.
fn words_of(alloc: Global, line: &str) -> Result<Vec<String>, AllocError> {
    let mut words = Vec::new(alloc);
    for word in line.split(' ') {
        words.push(String::from_str(alloc, word)?)?;
    }
    Ok(words)
}

fn copied<T: Copy>(alloc: Global, items: &[T]) -> Result<Seq<T>, AllocError> {
    let mut copy = Seq::new(alloc);
    for item in items {
        copy.push(*item)?;
    }
    Ok(copy)
}

/// The words and the outside of a call.
#[derive(Drop)]
struct Parts {
    words: Vec<String>,
    inputs: MemoryInputs,
    out: MemorySink,
    err: MemorySink,
}

fn inputs_of(alloc: Global, outside: &Outside<'_>) -> Result<MemoryInputs, AllocError>
    ensures query { IfOk result (λ inputs. IsClosed (memory_input inputs Query)) }
    ensures trace { IfOk result (λ inputs. IsClosed (memory_input inputs Trace)) }
{
    let query = Text::from_slice(alloc, outside.query)?;
    let trace = Text::from_slice(alloc, outside.trace)?;
    let failing = copied(alloc, outside.failing)?;
    Ok(MemoryInputs::new(query, trace, failing))
}

fn sink_of(
    alloc: Global,
    most: usize,
    places: usize,
    failing: &[u64],
) -> Result<MemorySink, AllocError> {
    let failing = copied(alloc, failing)?;
    MemorySink::new(alloc, most.max(1), places, failing)
}

fn parts_of(alloc: Global, line: &str, outside: &Outside<'_>) -> Result<Parts, AllocError>
    ensures query { IfOk result (λ parts. IsClosed (memory_input parts.inputs Query)) }
    ensures trace { IfOk result (λ parts. IsClosed (memory_input parts.inputs Trace)) }
{
    let words = words_of(alloc, line)?;
    let inputs = inputs_of(alloc, outside)?;
    let out = sink_of(alloc, outside.most, outside.places, outside.failing_writes)?;
    let err = sink_of(alloc, outside.most, PLACES, outside.failing_complaints)?;
    Ok(Parts {
        words,
        inputs,
        out,
        err,
    })
}

fn run<L: Ledger>(
    alloc: Global,
    parts: &mut Parts,
    driven: &mut Option<Driven>,
    blank: Blank,
) -> Ended
    requires query { IsClosed (memory_input parts.old.inputs Query) }
    requires trace { IsClosed (memory_input parts.old.inputs Trace) }
    requires name { blank.name ≡ L.name }
    requires share { blank.parts ≡ L.parts }
    requires whole { 0 < blank.parts }
    ensures not_reached { result.status ≡ Status.InputFault Query → IsClosed (memory_input parts.new.inputs Trace) }
{
    let mut steps = Steps::<L>::new(blank);
    let status = marple(
        alloc,
        parts.words.as_slice(),
        &mut parts.inputs,
        &mut parts.out,
        &mut parts.err,
        driven,
        &mut steps,
    );
    Ended {
        status,
        steps: steps.shown(),
    }
}

// Opens the trace after a call that couldn't read the query: whether that fails.
fn fails_to_open(inputs: &mut MemoryInputs, status: Status) -> bool
    requires { status ≡ Status.InputFault Query → IsClosed (memory_input inputs.old Trace) }
{
    if status == Status::InputFault(Which::Query) {
        inputs.open(Which::Trace).is_err()
    } else {
        false
    }
}

/// Calls the program with the words of a line, where `driven` is what earlier calls left.
pub fn called_after(
    alloc: Global,
    line: &str,
    outside: &Outside<'_>,
    driven: &mut Option<Driven>,
) -> Result<Told, AllocError> {
    let mut parts = parts_of(alloc, line, outside)?;
    let ended = run::<Brand>(alloc, &mut parts, driven, Blank::new(1));
    let trace_fails = fails_to_open(&mut parts.inputs, ended.status);
    Ok(Told {
        status: ended.status,
        out: parts.out,
        err: parts.err,
        steps: ended.steps,
        trace_fails,
    })
}

/// Calls the program with the words of a line.
pub fn called(alloc: Global, line: &str, outside: &Outside<'_>) -> Result<Told, AllocError> {
    let mut driven = None;
    let told = called_after(alloc, line, outside, &mut driven);
    drop(driven);
    told
}

/// Ends the test unless what was found is what was wanted.
pub fn compare<T: Copy + Debug + PartialEq>(rt: &impl Abort, found: T, wanted: T, what: &str) {
    assert_eq!(rt; found, wanted, "{what}");
}

/// Calls the program with the words of a line, of which this is seen.
pub fn compare_call(
    rt: &impl Abort,
    alloc: Global,
    line: &str,
    outside: &Outside<'_>,
    wanted: &Seen<'_>,
) -> Result<(), AllocError> {
    let told = called(alloc, line, outside)?;
    compare(rt, told.seen(), *wanted, line);
    Ok(())
}
