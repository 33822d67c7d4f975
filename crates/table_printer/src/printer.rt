//! Titles, headings and rows.
ghost use Rattle.std.specs.Prelude.{◌≡◌, ◌+◌, ◌-◌, ◌≤◌, ◌++◌, ◌∷◌, [], drop, length, map, take, codes, decimal, IsErrOf, OnErr, OnOk};
ghost use Rattle.marple_base.specs.{Faults.Rose, Sink.TakesFront, Pieces.TakesAllBut};
ghost use Rattle.table_rows.specs.LentRows.{row_of};
ghost use Rattle.table_printer.specs.TableText.{cells_joined, mark_text, epoch_text, numbers, table_line, group_parts, final_parts};
ghost use Rattle.table_printer.specs.{TableText.{row_parts, heading, lines_of, kind_text, title, table_text}, Parts.parts_from};

use crate::backwards::{ROOM, ROWS_AT_ONCE, lines_before};
use crate::parts::{push_names, push_number, push_part, push_word, push_words};
use crate::words::{class_word, mark_word};
use final_queries::{Mark, RowRef, Rows, Table, TableKind};
use marple_base::{Sink, Text, TextBuffer, WriteError};
use std::alloc::AllocError;

/// Writes the line that says what a table is.
fn push_title(text: &mut TextBuffer, table: &Table) -> Result<(), AllocError>
    ensures { OnOk result (text.new ≡ text.old ++ title table.now) }
{
    text.push_slice(b"table ")?;
    text.push_slice(table.name.as_slice())?;
    text.push(b' ')?;
    push_kind(text, table.kind, table.rows.len())?;
    text.push(b'\n')
}

fn push_kind(text: &mut TextBuffer, kind: TableKind, rows: usize) -> Result<(), AllocError>
    ensures { OnOk result (text.new ≡ text.old ++ kind_text kind rows) }
{
    match kind {
        TableKind::Group(class, depth, epochs) => {
            text.push_slice(class_word(class))?;
            text.push(b' ')?;
            push_number(text, u64::from(depth))?;
            text.push(b' ')?;
            push_number(text, epochs)
        }
        TableKind::Final => {
            text.push_slice(b"final ")?;
            push_number(text, rows as u64)
        }
    }
}

/// Writes the names of the three columns that every groupby's table has.
fn push_epoch_names(text: &mut TextBuffer, begins: bool) -> Result<(), AllocError>
    ensures { OnOk result (text.new ≡ text.old ++ parts_from begins (codes "mark" ∷ codes "epoch" ∷ codes "epochs" ∷ [])) }
{
    push_part(text, begins, b"mark")?;
    push_part(text, false, b"epoch")?;
    push_part(text, false, b"epochs")
}

/// Writes the heading of a groupby's table.
fn push_group_names(text: &mut TextBuffer, keys: &[Text], others: &[Text]) -> Result<(), AllocError>
    ensures { OnOk result (text.new
        ≡ text.old ++ cells_joined (keys.now ++ (codes "mark" ∷ codes "epoch" ∷ codes "epochs" ∷ []) ++ others.now)) }
{
    push_names(text, true, keys)?;
    push_epoch_names(text, keys.is_empty())?;
    push_names(text, false, others)?;
    Ok(())
}

/// Writes the names of the columns.
fn push_heading(text: &mut TextBuffer, table: &Table) -> Result<(), AllocError>
    requires { table.now.keys ≤ length table.now.columns }
    ensures { OnOk result (text.new ≡ text.old ++ table_line (heading table.now.kind table.now.keys table.now.columns)) }
{
    let columns = table.columns.as_slice();
    match table.kind {
        TableKind::Group(_, _, _) => {
            let (keys, others) = columns.split_at(usize::from(table.keys));
            push_group_names(text, keys, others)?;
        }
        TableKind::Final => push_names(text, true, columns)?,
    }
    text.push(b'\n')
}

/// Writes what a groupby's row says of its key's epochs.
fn push_epoch(text: &mut TextBuffer, begins: bool, row: &RowRef) -> Result<(), AllocError>
    ensures { OnOk result (text.new
        ≡ text.old ++ parts_from begins (mark_text row.now.mark ∷ epoch_text row.now.mark row.now.epoch
        ∷ decimal row.now.epochs ∷ [])) }
{
    if row.mark == Mark::Exact {
        push_part(text, begins, b"exact,*")?;
    } else {
        push_part(text, begins, mark_word(row.mark))?;
        push_word(text, false, row.epoch)?;
    }
    push_word(text, false, row.epochs)
}

// Writes a row part by part, however many it has.
fn push_row(text: &mut TextBuffer, kind: TableKind, row: &RowRef) -> Result<(), AllocError>
    ensures { OnOk result (text.new ≡ text.old ++ table_line (row_parts kind (row_of row.now))) }
{
    push_words(text, true, row.key)?;
    let mut begins = row.key.is_empty();
    if kind != TableKind::Final {
        push_epoch(text, begins, row)?;
        begins = false;
    }
    push_words(text, begins, row.values)?;
    text.push(b'\n')
}

// Writes rows one by one, from a place up to another one.
fn push_rows(
    text: &mut TextBuffer,
    kind: TableKind,
    rows: &Rows,
    from: usize,
    until: usize,
) -> Result<(), AllocError>
    requires { (from ≤ until) × (until ≤ length rows.now) }
    ensures { OnOk result (text.new ≡ text.old ++ lines_of kind (take (until - from) (drop from rows.now))) }
{
    'rows: for at in from..until {
        push_row(text, kind, &rows.get(at))?;
    }
    Ok(())
}

// Writes rows from a place up to another one, all of them at once where they are sure to fit into the room.
fn push_lines(
    text: &mut TextBuffer,
    kind: TableKind,
    rows: &Rows,
    from: usize,
    until: usize,
    room: &mut [u8],
) -> Result<(), AllocError>
    requires room { length room.old ≡ 16384 }
    requires rows { (from ≤ until) × (until ≤ length rows.now) × (until ≤ from + 16) }
    ensures text { OnOk result (text.new ≡ text.old ++ lines_of kind (take (until - from) (drop from rows.now))) }
    ensures room { length room.new ≡ 16384 }
{
    match lines_before(room, kind, rows, until, until - from) {
        Some(start) => text.push_slice(&room[start..]),
        None => push_rows(text, kind, rows, from, until),
    }
}

// Writes the two lines before the rows.
fn push_head(text: &mut TextBuffer, table: &Table) -> Result<(), AllocError>
    requires keys { table.now.keys ≤ length table.now.columns }
    ensures { OnOk result (text.new
        ≡ text.old ++ title table.now ++ table_line (heading table.now.kind table.now.keys table.now.columns)) }
{
    push_title(text, table)?;
    push_heading(text, table)
}

/// Writes the text of a table after the bytes that wait in the buffer: a line that says what it is, a heading, and a line for
/// each row. Its last bytes wait there. After an `Err` the sink has some first bytes of what was to be written.
pub fn write_table<O: Sink>(
    text: &mut TextBuffer,
    table: &Table,
    out: &mut O,
) -> Result<(), WriteError>
    requires keys { table.now.keys ≤ length table.now.columns }
    ensures ok { OnOk result (TakesAllBut (O.taken out.old) (O.taken out.new) text.new (text.old ++ table_text table.now)) }
    ensures err { OnErr result (TakesFront (O.taken out.old) (O.taken out.new) (text.old ++ table_text table.now)) }
    ensures failed { IsErrOf result WriteError.Failed → Rose (O.faults out.old) (O.faults out.new) }
    ensures out_later { O.faults out.old ≤ O.faults out.new }
{
    push_head(text, table)?;
    let mut room = [0u8; ROOM];
    let mut at = 0;
    'rows: while at < table.rows.len() {
        let until = at + (table.rows.len() - at).min(ROWS_AT_ONCE);
        push_lines(text, table.kind, &table.rows, at, until, &mut room)?;
        text.write_when_full(out)?;
        at = until;
    }
    Ok(())
}
