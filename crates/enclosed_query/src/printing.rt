//! What a query prints where bounds are asked for.

ghost use Rattle.std.specs.Prelude.{◌≡◌, ◌++◌, ◌<◌, ◌≤◌, All, [], ◌∷◌, length, map, flat_map, IfOk, IsErrOf, OnErr, OnOk};
ghost use Rattle.marple_base.specs.{Faults.Rose, Sink.TakesFront, Pieces.TakesAllBut};
ghost use Rattle.query_lang.specs.{TypedQueries.{IsValidQuery, group_shape}, Streams.takings, TypedFinals.table_number};
ghost use Rattle.final_queries.specs.Finals.{IsTable, table_shape};
ghost use Rattle.enclosed_query.specs.EnclosedTables.{enclosed_print, table_read};
ghost use Rattle.enclosed_query.specs.{Parts.{IsWholeIfThere, bounds_at, bounds_shown, text_at}, Reading.IsWhole};

use enclosure_folds::{BoundsTable, Enclosed, exact_rows, write_bounds};
use final_queries::Table;
use marple_base::{Seq, Sink, Steps, TextBuffer, WriteError};
use query_lang::{MAX_GROUPBYS, PrintOf, TypedQuery};
use query_tables::{add_finals, table_number};
use std::alloc::{AllocError, Global};
use std::sync::ledger::Ledger;
use table_printer::write_table;

// What is shown of groupbys: the tables that finals read, and the bounds that are shown instead of some of them.
#[derive(Drop)]
struct Parts {
    bounds: Seq<Option<BoundsTable>>,
    tables: Seq<Table>,
}

impl Parts {
    fn push(&mut self, alloc: Global, one: Enclosed) -> Result<(), AllocError>
        requires { IsWhole one }
        ensures bounds { OnOk result (self.new.bounds ≡ self.old.bounds ++ bounds_shown one ∷ []) }
        ensures tables { OnOk result (self.new.tables ≡ self.old.tables ++ table_read one ∷ []) }
    {
        match one {
            Enclosed::Linear(table) => {
                self.bounds.push(None)?;
                self.tables.push(table)
            }
            Enclosed::Bounds(bounds) => {
                self.tables.push(exact_rows(alloc, &bounds)?)?;
                self.bounds.push(Some(bounds))
            }
        }
    }
}

fn parts_of(alloc: Global, groups: Seq<Enclosed>) -> Result<Parts, AllocError>
    requires { All IsWhole groups }
    ensures bounds { IfOk result (λ parts. parts.bounds ≡ map bounds_shown groups) }
    ensures tables { IfOk result (λ parts. parts.tables ≡ map table_read groups) }
{
    let mut parts = Parts {
        bounds: Seq::new(alloc),
        tables: Seq::new(alloc),
    };
    for one in groups.into_vec() {
        parts.push(alloc, one)?;
    }
    Ok(parts)
}

// Writes the text of the table with this number.
fn write_at<O: Sink>(
    bounds: &Seq<Option<BoundsTable>>,
    tables: &Seq<Table>,
    number: usize,
    text: &mut TextBuffer,
    out: &mut O,
) -> Result<(), WriteError>
    requires number { number < length tables.now }
    requires bounds { All IsWholeIfThere bounds.now }
    requires tables { All IsTable tables.now }
    ensures ok { OnOk result
        (TakesAllBut (O.taken out.old) (O.taken out.new) text.new (text.old ++ text_at bounds.now tables.now number)) }
    ensures err { OnErr result
        (TakesFront (O.taken out.old) (O.taken out.new) (text.old ++ text_at bounds.now tables.now number)) }
    ensures failed { IsErrOf result WriteError.Failed → Rose (O.faults out.old) (O.faults out.new) }
    ensures out_later { O.faults out.old ≤ O.faults out.new }
{
    if number < bounds.len() {
        if let Some(shown) = bounds.get(number) {
            return write_bounds(text, shown, out);
        }
    }
    write_table(text, tables.get(number), out)
}

// Writes the texts of the printed tables, in the order of the prints.
fn write_printed<O: Sink>(
    prints: &[PrintOf],
    groups: usize,
    bounds: &Seq<Option<BoundsTable>>,
    tables: &Seq<Table>,
    text: &mut TextBuffer,
    out: &mut O,
) -> Result<(), WriteError>
    requires groups { groups ≤ MAX_GROUPBYS }
    requires prints { All (λ one. table_number groups one < length tables.now) prints.now }
    requires bounds { All IsWholeIfThere bounds.now }
    requires tables { All IsTable tables.now }
    ensures ok { OnOk result (TakesAllBut (O.taken out.old) (O.taken out.new) text.new
        (text.old ++ flat_map (λ one. text_at bounds.now tables.now (table_number groups one)) prints.now)) }
    ensures err { OnErr result (TakesFront (O.taken out.old) (O.taken out.new)
        (text.old ++ flat_map (λ one. text_at bounds.now tables.now (table_number groups one)) prints.now)) }
    ensures failed { IsErrOf result WriteError.Failed → Rose (O.faults out.old) (O.faults out.new) }
    ensures out_later { O.faults out.old ≤ O.faults out.new }
{
    for one in prints {
        write_at(bounds, tables, table_number(groups, *one), text, out)?;
    }
    Ok(())
}

/// Writes what a query prints, by what is shown of its groupbys, after the bytes that wait in the buffer: the tables that it
/// names, in the order of its prints. Finals read the table of a linear fold, and of a table of bounds the rows whose bounds are
/// equal. The last bytes wait in the buffer. After an `Err` the sink has some first bytes of what was to be written.
pub fn write_enclosed<O: Sink, L: Ledger>(
    alloc: Global,
    q: &TypedQuery,
    groups: Seq<Enclosed>,
    text: &mut TextBuffer,
    out: &mut O,
    steps: &mut Steps<L>,
) -> Result<(), WriteError>
    requires valid { IsValidQuery q.now }
    requires whole { All IsWhole groups }
    requires tables { All IsTable (map table_read groups) }
    requires shapes { map table_shape (map table_read groups) ≡ map (group_shape q.now.folds) (takings q.now.streams) }
    ensures ok { OnOk result (TakesAllBut (O.taken out.old) (O.taken out.new) text.new (text.old ++ enclosed_print q.now groups)) }
    ensures err { OnErr result (TakesFront (O.taken out.old) (O.taken out.new) (text.old ++ enclosed_print q.now groups)) }
    ensures failed { IsErrOf result WriteError.Failed → Rose (O.faults out.old) (O.faults out.new) }
    ensures out_later { O.faults out.old ≤ O.faults out.new }
    ensures steps { steps.old ≤ steps.new }
{
    let count = groups.len();
    let Parts { bounds, tables } = parts_of(alloc, groups)?;
    let tables = add_finals(alloc, q, tables, steps)?;
    write_printed(q.prints.as_slice(), count, &bounds, &tables, text, out)
}
