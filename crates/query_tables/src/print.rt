//! The printed tables.

ghost use Rattle.std.specs.Prelude.{◌≡◌, ◌+◌, ◌++◌, ◌≤◌, ◌<◌, All, length, map, flat_map, IfOk, IsErrOf, OnErr, OnOk};
ghost use Rattle.marple_base.specs.{Faults.Rose, Sink.TakesFront, Pieces.TakesAllBut};
ghost use Rattle.query_lang.specs.TypedQueries.{IsValidQuery, group_shape};
ghost use Rattle.query_lang.specs.{Streams.takings, TypedFinals.table_number};
ghost use Rattle.final_queries.specs.Finals.{IsTable, table_shape, with_finals};
ghost use Rattle.query_tables.specs.Tables.{printed, table_text_at};

use final_queries::{Table, run_final};
use marple_base::{Seq, Sink, Steps, TextBuffer, WriteError};
use query_lang::{MAX_GROUPBYS, PrintOf, TypedQuery};
use std::alloc::{AllocError, Global};
use std::sync::ledger::Ledger;
use table_printer::write_table;

/// The tables of the groupbys, followed by those of the finals, each made of the tables before it.
pub fn add_finals<L: Ledger>(
    alloc: Global,
    q: &TypedQuery,
    groups: Seq<Table>,
    steps: &mut Steps<L>,
) -> Result<Seq<Table>, AllocError>
    requires valid { IsValidQuery q.now }
    requires shapes { map table_shape groups ≡ map (group_shape q.now.folds) (takings q.now.streams) }
    requires tables { All IsTable groups }
    ensures tables { IfOk result (λ tables. tables ≡ with_finals q.now.names q.now.folds groups q.now.finals) }
    ensures read { IfOk result (All IsTable) }
    ensures count { IfOk result (λ tables. length tables ≡ length groups + length q.now.finals) }
    ensures steps { steps.old ≤ steps.new }
{
    let mut tables = groups;
    for one in q.finals.as_slice() {
        let made = run_final(alloc, one, &q.names, &q.folds, &tables, steps)?;
        tables.push(made)?;
    }
    Ok(tables)
}

/// The number of a printed table, where there are `groups` groupbys.
pub fn table_number(groups: usize, one: PrintOf) -> usize
    requires { groups ≤ MAX_GROUPBYS }
    ensures { result ≡ table_number groups one }
{
    match one {
        PrintOf::Group(number) => usize::from(number),
        PrintOf::Final(number) => groups + usize::from(number),
    }
}

// Writes the texts of the printed tables, in the order of the prints.
fn write_printed<O: Sink>(
    prints: &[PrintOf],
    groups: usize,
    tables: &Seq<Table>,
    text: &mut TextBuffer,
    out: &mut O,
) -> Result<(), WriteError>
    requires groups { groups ≤ MAX_GROUPBYS }
    requires prints { All (λ one. table_number groups one < length tables.now) prints.now }
    requires tables { All IsTable tables.now }
    ensures ok { OnOk result (TakesAllBut (O.taken out.old) (O.taken out.new) text.new
        (text.old ++ flat_map (λ one. table_text_at tables.now (table_number groups one)) prints.now)) }
    ensures err { OnErr result (TakesFront (O.taken out.old) (O.taken out.new)
        (text.old ++ flat_map (λ one. table_text_at tables.now (table_number groups one)) prints.now)) }
    ensures failed { IsErrOf result WriteError.Failed → Rose (O.faults out.old) (O.faults out.new) }
    ensures out_later { O.faults out.old ≤ O.faults out.new }
{
    for one in prints {
        write_table(text, tables.get(table_number(groups, *one)), out)?;
    }
    Ok(())
}

/// Writes what a query prints, after the bytes that wait in the buffer: the tables that it names, of its groupbys and finals,
/// in the order of its prints. `groups` are the tables of its groupbys. The last bytes wait in the buffer. After an `Err` the
/// sink has some first bytes of what was to be written.
pub fn write_tables<O: Sink, L: Ledger>(
    alloc: Global,
    q: &TypedQuery,
    groups: Seq<Table>,
    text: &mut TextBuffer,
    out: &mut O,
    steps: &mut Steps<L>,
) -> Result<(), WriteError>
    requires valid { IsValidQuery q.now }
    requires shapes { map table_shape groups ≡ map (group_shape q.now.folds) (takings q.now.streams) }
    requires tables { All IsTable groups }
    ensures ok { OnOk result (TakesAllBut (O.taken out.old) (O.taken out.new) text.new
        (text.old ++ printed q.now (with_finals q.now.names q.now.folds groups q.now.finals))) }
    ensures err { OnErr result (TakesFront (O.taken out.old) (O.taken out.new)
        (text.old ++ printed q.now (with_finals q.now.names q.now.folds groups q.now.finals))) }
    ensures failed { IsErrOf result WriteError.Failed → Rose (O.faults out.old) (O.faults out.new) }
    ensures out_later { O.faults out.old ≤ O.faults out.new }
    ensures steps { steps.old ≤ steps.new }
{
    let count = groups.len();
    let tables = add_finals(alloc, q, groups, steps)?;
    write_printed(q.prints.as_slice(), count, &tables, text, out)
}
