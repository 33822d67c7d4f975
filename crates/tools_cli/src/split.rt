//! Traces, split for a query.

ghost use Rattle.std.specs.Prelude.{◌≡◌, ◌≤◌, All, IfErr, OnErr, OnOk};
ghost use Rattle.marple_base.specs.Inputs.{IsClosed};
ghost use Rattle.trace_ranges.specs.Ranges.{within};
ghost use Rattle.trace_split.specs.Traces.{NoneFell, faults_of};
ghost use Rattle.tools_cli.specs.Ends.{AreTexts, IsAcceptedWith, IsBeforeTraces, IsSplit, SplitEnds, TakeFrontsOf};

use crate::command::SplitSetting;
use crate::fields::has_none;
use crate::status::ToolStatus;
use command_answers::{Status, read_query};
use marple_base::{Inputs, Steps, Which};
use split_fields::split_fields;
use std::alloc::Global;
use std::sync::ledger::Ledger;
use trace_ranges::{Ranged, begin_all};
use trace_split::{Parts, Splitting, split_traces};

/// Splits traces, or a range of each, into parts by the fields that each groupby of the query has as keys. A part has the columns that
/// the query reads.
pub(crate) fn split<I: Inputs, T: Inputs, P: Parts, L: Ledger>(
    alloc: Global,
    setting: SplitSetting,
    inputs: &mut I,
    traces: &mut [Ranged<T>],
    parts: &mut P,
    steps: &mut Steps<L>,
) -> Result<(), ToolStatus>
    requires some { 1 ≤ setting.parts }
    requires query_closed { IsClosed (I.input inputs.old Which.Query) }
    requires traces_closed { All (λ trace. IsClosed (T.input trace.inputs Which.Trace)) traces.old }
    ensures ok { OnOk result (IsAcceptedWith (I.input inputs.old Which.Query).left
        (IsSplit (AreTexts T.input traces.old setting) (P.taken parts.old) (P.taken parts.new) setting)) }
    ensures fronts { OnErr result (TakeFrontsOf (I.input inputs.old Which.Query).left (AreTexts T.input traces.old setting)
        (P.taken parts.old) (P.taken parts.new) setting) }
    ensures ends { IfErr result (SplitEnds (I.input inputs.old Which.Query).left (AreTexts T.input traces.old setting)
        (I.input inputs.old Which.Query).faults (I.input inputs.new Which.Query).faults
        (faults_of (within T.input) traces.old) (faults_of (within T.input) traces.new) (P.faults parts.old) (P.faults parts.new)) }
    ensures untouched { IfErr result (λ status. IsBeforeTraces status → (traces.new ≡ traces.old) × (parts.new ≡ parts.old)) }
    ensures query_later { (I.input inputs.old Which.Query).faults ≤ (I.input inputs.new Which.Query).faults }
    ensures traces_later { NoneFell (faults_of (within T.input) traces.old) (faults_of (within T.input) traces.new) }
    ensures parts_later { P.faults parts.old ≤ P.faults parts.new }
    ensures steps { steps.old ≤ steps.new }
{
    let query = match read_query(alloc, inputs) {
        Ok(query) => query,
        Err(status) => return Err(ToolStatus::of_query(status)),
    };
    let by = split_fields(&query.typed);
    let reads = query.plan.reads();
    drop(query);
    if has_none(by) {
        return Err(ToolStatus::FieldNeeded);
    }
    let salt = u64::from(setting.salt);
    let splitting = Splitting {
        by,
        salt,
        parts: setting.parts,
    };
    begin_all(traces, setting.range);
    split_traces(alloc, traces, reads, &splitting, parts, steps)?;
    Ok(())
}
