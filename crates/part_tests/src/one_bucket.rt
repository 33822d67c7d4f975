//! A pipeline of one bucket under one groupby, driven by its own calls.

ghost use Rattle.std.specs.Prelude.{◌≡◌, ◌<◌, ◌≤◌, IfOk};

use crate::compare::{holds, same};
use accepted_query::accept;
use epoch_entry::Entries;
use epoch_model::Mark;
use final_queries::Table;
use marple_base::{FIELDS, Field, Packet, Steps};
use std::alloc::{AllocError, Global};
use std::process::Abort;
use std::sync::ledger::Ledger;
use std::test::Fail;
use switch_core::Pipeline;

/// A pipeline of one bucket.
#[derive(Drop)]
pub struct OneBucket<const WAYS: usize> {
    pub pipeline: Pipeline<WAYS>,
    ghost one: { pipeline.buckets ≡ 1 },
}

/// An event of the only lane: a packet has this source and this length.
#[derive(Clone, Copy)]
pub enum Event {
    Packet(u64, u64),
    Evict,
    Merge,
    Sweep,
}

// The words of a packet that has only a source and a length.
fn packet_of(source: u64, length: u64) -> Packet {
    let mut packet = Packet { words: [0; FIELDS] };
    packet.words[Field::SrcIp.number()] = source;
    packet.words[Field::PktLen.number()] = length;
    packet
}

impl<const WAYS: usize> OneBucket<WAYS> {
    /// A pipeline for a query, with entries for this and pipes for `records` records.
    pub fn new(
        alloc: Global,
        query: &[u8],
        entries: Entries,
        records: u32,
    ) -> Result<OneBucket<WAYS>, Fail>
        requires some_ways { 0 < WAYS }
        requires few_ways { WAYS ≤ 65536 }
        requires some_records { 0 < records }
        requires few_records { records ≤ 65536 }
        ensures { IfOk result (λ one. one.pipeline.entries ≡ entries) }
    {
        let accepted = accept(alloc, query)?;
        let pipeline = Pipeline::<WAYS>::new(alloc, accepted.plan, entries, 1, records)?;
        Ok(OneBucket { pipeline })
    }

    /// Makes an event, which counts steps where it is a packet: whether it is an eviction that ended an epoch.
    pub fn make<L: Ledger>(
        &mut self,
        rt: &impl Abort,
        event: Event,
        steps: &mut Steps<L>,
    ) -> Result<bool, AllocError>
        ensures { self.new.pipeline.entries ≡ self.old.pipeline.entries }
    {
        same(rt, "the lanes", self.pipeline.lanes(), 1);
        match event {
            Event::Packet(source, length) => {
                holds(rt, "all lanes are ready", self.pipeline.ready());
                let before = steps.shown();
                self.pipeline.packet(&packet_of(source, length), steps);
                holds(rt, "a packet takes steps", before < steps.shown());
                Ok(false)
            }
            Event::Evict => {
                holds(rt, "the lane is ready", self.pipeline.lane_ready(0));
                Ok(self.pipeline.evict(0, 0, steps))
            }
            Event::Merge => {
                let _merged = self.pipeline.merge(0, steps)?;
                Ok(false)
            }
            Event::Sweep => {
                self.pipeline.sweep(steps)?;
                Ok(false)
            }
        }
    }
}

/// The rows of a table, which are all exact: each with its key, its number of epochs and its state.
pub fn exact_rows(rt: &impl Abort, alloc: Global, table: &Table) -> Result<Vec<u64>, AllocError> {
    let mut rows = Vec::new(alloc);
    for at in 0..table.rows.len() {
        let row = table.rows.get(at);
        same(rt, "the mark of a row", row.mark, Mark::Exact);
        for words in [row.key, &[row.epochs], row.values] {
            rows.extend_from_slice(words)?;
        }
    }
    Ok(rows)
}
