//! The steps that a run counts.

ghost use Rattle.std.specs.Prelude.{◌≡◌, ◌<◌, length};

use crate::call::sources::{COUNT, QUERY, RUN, SOURCES};
use crate::call::{Outside, called, compare};
use accepted_query::accept;
use epoch_entry::Entries;
use marple_base::{FIELDS, Field, Packet, Steps};
use marple_cli::Status;
use std::alloc::{AllocError, Global};
use std::marker::Brand;
use std::process::Abort;
use std::sync::ledger::{Blank, Ledger};
use switch_core::{Merged, Pipeline};

/// The steps of the run. Four packets are of a new key: 1 word of the key + 1 hashed + 1 way + 1 word of the key written + 3
/// of the entry + 8 for the row. Two of them take 1 more for a word that is compared and 4 for the key and the entry that
/// they evict. One is of a key that is there: 1 + 1 + 1 compared + 1 way + 8. A sweep evicts two more pairs, each in 4 + 1.
/// Each of the four records is merged in 1.
const STEPS: u64 = 4 * 15 + 2 * 5 + 12 + 2 * 5 + 4 * 1;

// A packet of this source.
fn packet_of(source: u64) -> Packet {
    let mut packet = Packet { words: [0; FIELDS] };
    packet.words[Field::SrcIp.number()] = source;
    packet
}

// A pipeline for the count with the sizes of the run: two buckets of one way, and room for 64 records in the pipe.
fn made_pipeline(rt: &impl Abort, alloc: Global) -> Result<Pipeline<1>, AllocError> {
    let Ok(accepted) = accept(alloc, QUERY) else {
        panic!(rt; "the query isn't accepted");
    };
    Pipeline::new(alloc, accepted.plan, Entries::Folds, 2, 64)
}

/// Ends the test unless the pipeline has one lane.
pub fn compare_lanes(rt: &impl Abort, pipeline: &Pipeline<1>)
    ensures { length pipeline.now.lanes ≡ 1 }
{
    assert_eq!(rt; pipeline.lanes(), 1);
}

// Merges a record of the only lane.
fn merge<L: Ledger>(
    rt: &impl Abort,
    pipeline: &mut Pipeline<1>,
    steps: &mut Steps<L>,
) -> Result<Merged, AllocError> {
    compare_lanes(rt, pipeline);
    pipeline.merge(0, steps)
}

// Each packet, and a merge after it, as a run makes them.
fn make_packets<L: Ledger>(
    rt: &impl Abort,
    pipeline: &mut Pipeline<1>,
    steps: &mut Steps<L>,
) -> Result<(), AllocError> {
    for source in &SOURCES {
        assert!(rt; pipeline.ready());
        pipeline.packet(&packet_of(*source), steps);
        let _merged = merge(rt, pipeline, steps)?;
    }
    Ok(())
}

// A sweep, and the merges of the two records that wait after it.
fn make_end<L: Ledger>(
    rt: &impl Abort,
    pipeline: &mut Pipeline<1>,
    steps: &mut Steps<L>,
) -> Result<(), AllocError> {
    pipeline.sweep(steps)?;
    for wanted in &[Merged::Done, Merged::Done, Merged::Empty] {
        compare(rt, merge(rt, pipeline, steps)?, *wanted, "a merge");
    }
    assert!(rt; pipeline.drained());
    Ok(())
}

// Makes the events of the run, of a new pipeline.
fn make_events<L: Ledger>(
    rt: &impl Abort,
    alloc: Global,
    steps: &mut Steps<L>,
) -> Result<(), AllocError> {
    let mut pipeline = made_pipeline(rt, alloc)?;
    make_packets(rt, &mut pipeline, steps)?;
    make_end(rt, &mut pipeline, steps)
}

// The steps of the events of the run.
fn steps_of_the_events<L: Ledger>(
    rt: &impl Abort,
    alloc: Global,
    blank: Blank,
) -> Result<u64, AllocError>
    requires name { blank.name ≡ L.name }
    requires parts { blank.parts ≡ L.parts }
    requires whole { 0 < blank.parts }
{
    let mut steps = Steps::<L>::new(blank);
    make_events(rt, alloc, &mut steps)?;
    Ok(steps.shown())
}

/// The steps that a run counts.
pub fn steps_of(rt: &impl Abort, alloc: Global, outside: &Outside<'_>) -> Result<u64, AllocError> {
    let told = called(alloc, RUN, outside)?;
    compare(rt, told.status, Status::Ok, RUN);
    Ok(told.steps)
}

#[test]
fn a_run_counts_the_steps_of_its_events(rt: HostRuntime) -> Result<(), AllocError> {
    let alloc = rt.alloc();
    let steps = steps_of_the_events::<Brand>(&rt, alloc, Blank::new(1))?;
    compare(&rt, steps, STEPS, "the steps of the events");
    compare(
        &rt,
        steps_of(&rt, alloc, &COUNT)?,
        steps,
        "the steps of the run",
    );
    Ok(())
}
