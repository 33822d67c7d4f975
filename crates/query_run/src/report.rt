//! What a run prints of the tables of its groupbys.

ghost use Rattle.std.specs.Prelude.{◌≡◌, ◌++◌, ◌≤◌, ℕ, List, None, IsErrOf, OnErr, OnOk};
ghost use Rattle.query_lang.specs.TypedQueries.{IsValidQuery};
ghost use Rattle.epoch_model.specs.Epochs.{Geometry};
ghost use Rattle.marple_base.specs.{Faults.Rose, Sink.TakesFront, Pieces.TakesAllBut, declared.field.FieldSet.FieldSet};
ghost use Rattle.enclosure_folds.specs.Check.{enclose_fault};
ghost use Rattle.enclosed_query.specs.{EnclosedTables.enclose_text, Holding.ShownHolds};
ghost use Rattle.plan_file.specs.declared.made.Made.{Made};
ghost use Rattle.plan_loader.specs.{Meaning.plan_output, Parts.{IsPlanFrom, IsSoundMade}};
ghost use Rattle.query_tables.specs.Tables.{query_text};
ghost use Rattle.stage_plan.specs.{Planned.IsPlanOf, Sound.PlanParts};
ghost use Rattle.trace_drive.specs.Drives.{words_of};
ghost use Rattle.trace_reader.specs.Traces.{packets};
ghost use Rattle.query_run.specs.Reports.{CanPrint, Reports, entries_for, printed_by};

use crate::laws::{ends_are_the_querys, ends_are_the_texts};
use crate::numbered::write_numbered;
use enclosed_query::{
    enclosed_tables_are_read, ends_give_enclosed_tables, shown_of, shown_tables_hold, starts_known,
    write_enclosed,
};
use enclosure_folds::triples_give_whole_tables;
use epoch_entry::Entries;
use final_queries::Table;
use marple_base::{Seq, Sink, Steps, TextBuffer, WriteError};
use query_lang::TypedQuery;
use query_tables::{query_tables_are_read, write_tables};
use std::alloc::Global;
use std::sync::ledger::Ledger;
use trace_drive::read_packets_are_words;

/// What a run prints of the tables of its groupbys: in each view of those of the packets so far, and at the end of those of
/// all packets.
#[derive(Drop)]
pub enum Report {
    /// Of a query: the tables of its groupbys and finals that it prints.
    Query(TypedQuery),
    /// Of a query where bounds are asked for: the tables of linear folds, the bounds of monotone folds over all packets of a
    /// key, and the tables that finals make of the rows that are exact.
    Bounds(TypedQuery),
    /// Of a plan that was read: the tables whose numbers its text prints.
    Plan(Seq<u16>),
}

impl Report {
    /// The report of a valid query. It prints what the query does, with every plan of the query.
    pub fn of_query(typed: TypedQuery) -> Report
        requires valid { IsValidQuery typed }
        ensures is { result ≡ Report.Query typed }
        ensures reports { (plan : PlanParts) → IsPlanOf typed plan → Reports result plan (query_text typed) }
    {
        ends_are_the_querys();
        query_tables_are_read();
        Report::Query(typed)
    }

    /// The report of a valid query whose folds are linear or monotone. It prints the bounds with every plan of the query, and
    /// what is shown holds over all packets of a trace, whatever the caches evict before its end.
    pub fn of_bounds(typed: TypedQuery) -> Report
        requires valid { IsValidQuery typed }
        requires bounded { enclose_fault typed ≡ None }
        ensures is { result ≡ Report.Bounds typed }
        ensures reports { (plan : PlanParts) → IsPlanOf typed plan → Reports result plan (enclose_text typed) }
        ensures holds { (g : Geometry) (bytes : List ℕ) (reads : FieldSet)
            → ShownHolds typed g (words_of (packets bytes reads)) }
    {
        ends_give_enclosed_tables();
        enclosed_tables_are_read();
        triples_give_whole_tables();
        shown_tables_hold();
        read_packets_are_words();
        starts_known(&typed);
        Report::Bounds(typed)
    }

    /// The report of a plan whose text prints the tables with these numbers. It prints what the text means.
    pub fn of_plan(prints: Seq<u16>) -> Report
        ensures is { result ≡ Report.Plan prints }
        ensures reports { (made : Made) (plan : PlanParts) → IsSoundMade made → IsPlanFrom made plan → prints ≡ made.prints
            → Reports result plan (plan_output made) }
    {
        ends_are_the_texts();
        Report::Plan(prints)
    }

    /// What the entries of the pipeline have to be for.
    pub fn entries(&self) -> Entries
        ensures { result ≡ entries_for self.now }
    {
        match self {
            Report::Query(_) | Report::Plan(_) => Entries::Folds,
            Report::Bounds(_) => Entries::Bounds,
        }
    }

    /// Writes what is printed of the tables of the groupbys, which come in the order of the plan, after the bytes that wait in
    /// the buffer. The last bytes wait there. After an `Err` the sink has some first bytes of what was to be written.
    pub(crate) fn print<O: Sink, L: Ledger>(
        &self,
        alloc: Global,
        tables: Seq<Table>,
        text: &mut TextBuffer,
        out: &mut O,
        steps: &mut Steps<L>,
    ) -> Result<(), WriteError>
        requires can_print { CanPrint self.now tables }
        ensures ok { OnOk result (TakesAllBut (O.taken out.old) (O.taken out.new) text.new (text.old ++ printed_by self.now tables)) }
        ensures err { OnErr result (TakesFront (O.taken out.old) (O.taken out.new) (text.old ++ printed_by self.now tables)) }
        ensures failed { IsErrOf result WriteError.Failed → Rose (O.faults out.old) (O.faults out.new) }
        ensures out_later { O.faults out.old ≤ O.faults out.new }
        ensures steps { steps.old ≤ steps.new }
    {
        match self {
            Report::Query(typed) => write_tables(alloc, typed, tables, text, out, steps),
            Report::Bounds(typed) => {
                let groups = shown_of(alloc, tables)?;
                write_enclosed(alloc, typed, groups, text, out, steps)
            }
            Report::Plan(prints) => write_numbered(prints.as_slice(), &tables, text, out),
        }
    }
}
