//! The text of tables of bounds.

ghost use Rattle.std.specs.Prelude.{◌≡◌, ◌<◌, ◌≤◌, ◌++◌, ◌∷◌, [], length, flat_map, codes, decimal, IsErrOf, OnErr, OnOk};
ghost use Rattle.marple_base.specs.{Faults.Rose, Sink.TakesFront, Pieces.TakesAllBut};
ghost use Rattle.table_printer.specs.TableText.{cells_continued, cells_joined, table_line, numbers};
ghost use Rattle.enclosure_folds.specs.BoundsTables.{IsBoundsTable, row_is_exact, mark_text, in_turn, bound_names, bounds_title};
ghost use Rattle.enclosure_folds.specs.BoundsTables.{bounds_heading, bounds_parts, bounds_text};

use crate::rows::is_exact;
use crate::table::{BoundsRow, BoundsTable};
use itoa::Buffer;
use marple_base::{Sink, Text, TextBuffer, WriteError};
use std::alloc::AllocError;

// Writes the decimal digits of a number.
fn push_number(text: &mut TextBuffer, n: u64) -> Result<(), AllocError>
    ensures { OnOk result (text.new ≡ text.old ++ decimal n) }
{
    let mut buffer = Buffer::new();
    text.push_slice(buffer.format(n).as_bytes())
}

// Writes one more part of a line, after a comma.
fn push_next(text: &mut TextBuffer, part: &[u8]) -> Result<(), AllocError>
    ensures { OnOk result (text.new ≡ text.old ++ 44 ∷ part.now) }
{
    text.push(b',')?;
    text.push_slice(part)
}

fn push_next_number(text: &mut TextBuffer, n: u64) -> Result<(), AllocError>
    ensures { OnOk result (text.new ≡ text.old ++ 44 ∷ decimal n) }
{
    text.push(b',')?;
    push_number(text, n)
}

// Writes more numbers into a line.
fn push_next_numbers(text: &mut TextBuffer, words: &[u64]) -> Result<(), AllocError>
    ensures { OnOk result (text.new ≡ text.old ++ cells_continued (numbers words.now)) }
{
    for word in words {
        push_next_number(text, *word)?;
    }
    Ok(())
}

// Writes more names into a line.
fn push_next_names(text: &mut TextBuffer, names: &[Text]) -> Result<(), AllocError>
    ensures { OnOk result (text.new ≡ text.old ++ cells_continued names.now) }
{
    for name in names {
        push_next(text, name.as_slice())?;
    }
    Ok(())
}

// Writes the numbers that begin a line.
fn push_numbers(text: &mut TextBuffer, words: &[u64]) -> Result<(), AllocError>
    ensures { OnOk result (text.new ≡ text.old ++ cells_joined (numbers words.now)) }
{
    if let Some((first, rest)) = words.split_first() {
        push_number(text, *first)?;
        push_next_numbers(text, rest)?;
    }
    Ok(())
}

// Writes the names that begin a line.
fn push_names(text: &mut TextBuffer, names: &[Text]) -> Result<(), AllocError>
    ensures { OnOk result (text.new ≡ text.old ++ cells_joined names.now) }
{
    if let Some((first, rest)) = names.split_first() {
        text.push_slice(first.as_slice())?;
        push_next_names(text, rest)?;
    }
    Ok(())
}

// Writes the bounds of each state in turn.
fn push_bounds(text: &mut TextBuffer, low: &[u64], high: &[u64]) -> Result<(), AllocError>
    requires { length low.now ≡ length high.now }
    ensures { OnOk result (text.new ≡ text.old ++ cells_continued (numbers (in_turn low.now high.now))) }
{
    for i in 0..low.len() {
        push_next_number(text, low[i])?;
        push_next_number(text, high[i])?;
    }
    Ok(())
}

// Writes the names of a state's columns.
fn push_state(text: &mut TextBuffer, name: &[u8]) -> Result<(), AllocError>
    ensures { OnOk result (text.new ≡ text.old ++ cells_continued (bound_names name.now)) }
{
    push_next(text, name)?;
    text.push_slice(b".lo")?;
    push_next(text, name)?;
    text.push_slice(b".hi")
}

fn push_states(text: &mut TextBuffer, names: &[Text]) -> Result<(), AllocError>
    ensures { OnOk result (text.new ≡ text.old ++ cells_continued (flat_map bound_names names.now)) }
{
    for name in names {
        push_state(text, name.as_slice())?;
    }
    Ok(())
}

// Writes the line that says what a table is.
fn push_title(text: &mut TextBuffer, t: &BoundsTable) -> Result<(), AllocError>
    ensures { OnOk result (text.new ≡ text.old ++ bounds_title t.now) }
{
    text.push_slice(b"table ")?;
    text.push_slice(t.name.as_slice())?;
    text.push_slice(b" bounds ")?;
    push_number(text, u64::from(t.depth))?;
    text.push(b' ')?;
    push_number(text, t.epochs)?;
    text.push(b'\n')
}

// Writes the names of the two columns that every table of bounds has.
fn push_own_names(text: &mut TextBuffer) -> Result<(), AllocError>
    ensures { OnOk result (text.new ≡ text.old ++ cells_continued (codes "mark" ∷ codes "epochs" ∷ [])) }
{
    push_next(text, b"mark")?;
    push_next(text, b"epochs")
}

// Writes the names of all columns.
fn push_columns(text: &mut TextBuffer, keys: &[Text], states: &[Text]) -> Result<(), AllocError>
    requires { 0 < length keys.now }
    ensures { OnOk result (text.new
        ≡ text.old ++ cells_joined (keys.now ++ (codes "mark" ∷ codes "epochs" ∷ []) ++ flat_map bound_names states.now)) }
{
    push_names(text, keys)?;
    push_own_names(text)?;
    push_states(text, states)?;
    Ok(())
}

fn mark_word(row: &BoundsRow) -> &'static [u8]
    ensures { result.now ≡ mark_text (row_is_exact row.now) }
{
    if is_exact(row) { b"exact" } else { b"within" }
}

fn push_row(text: &mut TextBuffer, row: &BoundsRow) -> Result<(), AllocError>
    requires key { 0 < length row.now.key }
    requires bounds { length row.now.low ≡ length row.now.high }
    ensures { OnOk result (text.new ≡ text.old ++ table_line (bounds_parts row.now)) }
{
    push_numbers(text, row.key.as_slice())?;
    push_next(text, mark_word(row))?;
    push_next_number(text, row.epochs)?;
    push_bounds(text, row.low.as_slice(), row.high.as_slice())?;
    text.push(b'\n')
}

// Writes the two lines before the rows.
fn push_head(text: &mut TextBuffer, t: &BoundsTable) -> Result<(), AllocError>
    requires { 0 < length t.now.key_names }
    ensures { OnOk result (text.new ≡ text.old ++ bounds_title t.now ++ table_line (bounds_heading t.now)) }
{
    push_title(text, t)?;
    push_columns(text, t.key_names.as_slice(), t.state_names.as_slice())?;
    text.push(b'\n')
}

/// Writes the text of a table of bounds after the bytes that wait in the buffer: a line that says what it is, a heading, and a
/// line for each row. Its last bytes wait there. After an `Err` the sink has some first bytes of what was to be written.
pub fn write_bounds<O: Sink>(
    text: &mut TextBuffer,
    t: &BoundsTable,
    out: &mut O,
) -> Result<(), WriteError>
    requires { IsBoundsTable t.now }
    ensures ok { OnOk result (TakesAllBut (O.taken out.old) (O.taken out.new) text.new (text.old ++ bounds_text t.now)) }
    ensures err { OnErr result (TakesFront (O.taken out.old) (O.taken out.new) (text.old ++ bounds_text t.now)) }
    ensures failed { IsErrOf result WriteError.Failed → Rose (O.faults out.old) (O.faults out.new) }
    ensures out_later { O.faults out.old ≤ O.faults out.new }
{
    push_head(text, t)?;
    for row in t.rows.as_slice() {
        push_row(text, row)?;
        text.write_when_full(out)?;
    }
    Ok(())
}
