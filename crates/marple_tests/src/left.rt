//! The pipeline that a run leaves.

use crate::call::sources::{COUNT, ROWS, RUN, WHOLE};
use crate::call::{Seen, called_after, compare};
use crate::count::compare_lanes;
use final_queries::Table;
use marple_cli::{Driven, Status};
use std::alloc::{AllocError, Global};
use std::process::Abort;
use switch_core::Pipeline;

/// A run whose caches have a number of ways that no cache may have.
const BAD_RUN: &str = "run query trace --ways 3";

/// What is seen of it.
const REFUSED: &Seen<'static> = &Seen {
    status: Status::Usage,
    text: b"",
    complaint: b"marple: bad command line\n",
};

// There is one table, with the rows that were printed.
fn compare_tables(rt: &impl Abort, tables: &[Table]) {
    let [table] = tables else {
        panic!(rt; "{} tables", tables.len());
    };
    assert_eq!(rt; table.rows.len(), ROWS.len());
    for at in 0..ROWS.len() {
        let row = table.rows.get(at);
        let found = (row.key, row.mark, row.epochs, row.values);
        compare(rt, found, ROWS[at], "a row");
    }
}

// The pipeline has one lane, in which no epoch is open or waits, and the table that was printed.
fn compare_pipeline(rt: &impl Abort, pipeline: &Pipeline<1>) -> Result<(), AllocError> {
    compare_lanes(rt, pipeline);
    compare(rt, pipeline.held(0), 0, "the entries of the cache");
    assert!(rt; pipeline.drained());
    let tables = pipeline.close()?;
    compare_tables(rt, tables.as_slice());
    Ok(())
}

// The pipeline that the run leaves is there, of one way.
fn compare_left(rt: &impl Abort, driven: &Option<Driven>) -> Result<(), AllocError> {
    match driven {
        Some(Driven::Ways1(pipeline)) => compare_pipeline(rt, pipeline),
        _ => panic!(rt; "no pipeline of one way is left"),
    }
}

// A call, of which this is seen.
fn make_call(
    rt: &impl Abort,
    alloc: Global,
    line: &str,
    wanted: &Seen<'_>,
    driven: &mut Option<Driven>,
) -> Result<(), AllocError> {
    let told = called_after(alloc, line, &COUNT, driven)?;
    compare(rt, told.seen(), *wanted, line);
    Ok(())
}

// A bad call before a run, which leaves its pipeline, and one after it: each leaves what was there.
fn make_calls(
    rt: &impl Abort,
    alloc: Global,
    driven: &mut Option<Driven>,
) -> Result<(), AllocError> {
    make_call(rt, alloc, BAD_RUN, REFUSED, driven)?;
    assert!(rt; driven.is_none());
    make_call(rt, alloc, RUN, &WHOLE, driven)?;
    compare_left(rt, driven)?;
    make_call(rt, alloc, BAD_RUN, REFUSED, driven)?;
    compare_left(rt, driven)
}

// The same, where nothing is there before.
fn start_calls(rt: &impl Abort, alloc: Global) -> Result<(), AllocError> {
    let mut driven = None;
    let made = make_calls(rt, alloc, &mut driven);
    drop(driven);
    made
}

#[test]
fn only_a_run_that_ends_well_leaves_a_pipeline(rt: HostRuntime) -> Result<(), AllocError> {
    start_calls(&rt, rt.alloc())
}
