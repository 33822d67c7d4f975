//! The outside in memory, counters and values: each call once with ample memory, and inputs and sinks of which one call
//! after the other fails.
use crate::compare::{holds, same};
use crate::counter::{Counting, counted};
use marple_base::{
    Boxed, FailAt, Failed, Field, FieldSet, Inputs, MemoryInputs, MemorySink, Packet, ReadAnswer,
    Seq, SoundInputs, SoundSink, Steps, Text, Which, decimal, read_input, write_all,
};
use std::alloc::{AllocError, Global};
use std::process::Abort;
use std::sync::ledger::Ledger;
use std::test::Fail;

/// A new counter shows how often it ticked.
pub fn compare_ticks<L: Ledger>(rt: &impl Abort, steps: &mut Steps<L>) {
    for _ in 0..5 {
        steps.tick();
    }
    same(rt, "a count", steps.shown(), 5);
}

#[test]
fn ticks(rt: HostRuntime) -> Result<(), Fail> {
    counted(&rt, rt.alloc(), Counting::Ticks)
}

/// What is tried on a trace of three bytes, the call that fails, the most bytes that are read, and those that are, if that
/// call isn't made.
struct Read(&'static str, u64, usize, Option<&'static [u8]>);

const READS: [Read; 7] = [
    // opening is call 1, the bytes come in call 2, and call 3 finds the end
    Read("opening fails", 1, 9, None),
    Read("the bytes fail", 2, 9, None),
    Read("the end fails", 3, 9, None),
    Read("no call fails", 4, 9, Some(b"abc")),
    Read("all bytes are wanted, and no end", 3, 3, Some(b"abc")),
    Read("two bytes are wanted", 3, 2, Some(b"ab")),
    Read("no byte is wanted", 2, 0, Some(b"")),
];

// These bytes were read, or a call failed.
fn compare_answer(
    rt: &impl Abort,
    name: &str,
    answer: &Result<Text, ReadAnswer>,
    bytes: Option<&[u8]>,
) {
    match (answer, bytes) {
        (Ok(text), Some(bytes)) => same(rt, name, text.as_slice(), bytes),
        (Err(ReadAnswer::Failed), None) => {}
        _ => holds(rt, name, false),
    }
}

fn compare_read(rt: &impl Abort, alloc: Global, read: &Read) -> Result<(), AllocError> {
    let &Read(name, call, limit, bytes) = read;
    let mut failing = Seq::new(alloc);
    failing.push(FailAt {
        which: Which::Trace,
        call,
    })?;
    let trace = Text::from_slice(alloc, b"abc")?;
    let mut inputs = MemoryInputs::new(Text::new(alloc), trace, failing);
    let answer = read_input(alloc, &mut inputs, Which::Trace, limit);
    compare_answer(rt, name, &answer, bytes);
    Ok(())
}

#[test]
fn inputs(rt: HostRuntime) -> Result<(), Fail> {
    for read in &READS {
        compare_read(&rt, rt.alloc(), read)?;
    }
    let mut sound = SoundInputs::new(b"query", b"trace");
    let answer = read_input(rt.alloc(), &mut sound, Which::Query, 9);
    compare_answer(&rt, "sound inputs", &answer, Some(b"query"));
    Ok(())
}

/// The failing write, the most bytes of a write, the places, and the bytes taken.
struct Write(u64, usize, usize, &'static [u8]);

const WRITES: [Write; 7] = [
    Write(9, 1, 3, b"abc"),
    Write(1, 1, 3, b""),
    Write(2, 1, 3, b"a"),
    Write(3, 1, 3, b"ab"),
    Write(9, 2, 2, b"ab"),
    Write(9, 5, 0, b""),
    Write(2, 5, 3, b"abc"),
];

// A sink takes its bytes of three, and says whether those are all.
fn compare_write(rt: &impl Abort, alloc: Global, write: &Write) -> Result<(), AllocError> {
    let &Write(call, most, places, taken) = write;
    holds(rt, "a write takes some bytes", 0 < most);
    let mut failing = Seq::new(alloc);
    failing.push(call)?;
    let mut sink = MemorySink::new(alloc, most, places, failing)?;
    let is_whole = write_all(&mut sink, b"abc").is_ok();
    same(rt, "the bytes taken", sink.taken(), taken);
    same(rt, "whether they are all", is_whole, taken.len() == 3);
    Ok(())
}

#[test]
fn sinks(rt: HostRuntime) -> Result<(), Fail> {
    for write in &WRITES {
        compare_write(&rt, rt.alloc(), write)?;
    }
    let is_whole = write_all(&mut SoundSink::new(), b"abc").is_ok();
    holds(&rt, "a sound sink takes all", is_whole);
    Ok(())
}

fn compare_decimal(
    rt: &impl Abort,
    alloc: Global,
    number: u64,
    digits: &[u8],
) -> Result<(), AllocError> {
    same(rt, "a decimal", decimal(alloc, number)?.as_slice(), digits);
    Ok(())
}

fn compare_text(rt: &impl Abort, alloc: Global) -> Result<(), AllocError> {
    let mut text = Text::new(alloc);
    text.push(b'a')?;
    text.push_slice(b"bc")?;
    same(rt, "the last byte", *text.get(2), b'c');
    same(rt, "the length of a text", text.len(), 3);
    Ok(())
}

fn compare_fields(rt: &impl Abort, alloc: Global) -> Result<(), AllocError> {
    let fields = FieldSet::EMPTY.with(Field::Switch).with(Field::QSize);
    let mut names = Seq::new(alloc);
    for field in &Field::ALL {
        if fields.has(*field) {
            names.push(field.name())?;
        }
    }
    same(rt, "the number of fields", names.len(), 2);
    same(rt, "the second field", names.as_slice()[1], b"qsize");
    Ok(())
}

fn compare_packet(rt: &impl Abort) {
    let packet = Packet {
        words: [0, 1, 2, 3, 4, 5, 6, 7, 8, 9, 10, 11, 12, 13],
    };
    same(rt, "a field of a packet", packet.get(Field::Tout), 12);
}

#[test]
fn values(rt: HostRuntime) -> Result<(), Fail> {
    same(
        &rt,
        "a value in a box",
        *Boxed::new(rt.alloc(), 7)?.get(),
        7,
    );
    compare_decimal(&rt, rt.alloc(), u64::MAX, b"18446744073709551615")?;
    compare_decimal(&rt, rt.alloc(), 0, b"0")?;
    compare_packet(&rt);
    compare_text(&rt, rt.alloc())?;
    Ok(compare_fields(&rt, rt.alloc())?)
}
