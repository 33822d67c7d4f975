//! The text of a row, written into room from its last byte on, so that no number's length has to be known.
ghost use Rattle.std.specs.Prelude.{◌≡◌, ◌+◌, ◌-◌, ◌*◌, ◌≤◌, ◌++◌, ◌∷◌, [], IfSome, length, decimal, drop, take};
ghost use Rattle.table_rows.specs.LentRows.{row_of};
ghost use Rattle.table_printer.specs.TableText.{cells_continued, epoch_text, lines_of, mark_text, numbers, row_parts, table_line};

use crate::words::mark_word;
use final_queries::{Mark, RowRef, Rows, TableKind};
use itoa::write_digits;

/// The number of rows whose text is made at once.
pub const ROWS_AT_ONCE: usize = 16;

/// Room for the text of so many rows, 1,024 bytes for each.
pub const ROOM: usize = 16_384;

// The most columns of a row that is sure to fit: 21 bytes for each with its comma, 63 for what a groupby's row says of its
// key's epochs, and one for the end of the line.
const MOST_COLUMNS: usize = 40;

// Writes a comma and a number before a place, and returns where the comma is.
fn word_before(room: &mut [u8], end: usize, word: u64) -> usize
    requires { (21 ≤ end) × (end ≤ length room.old) }
    ensures start { (result ≤ end) × (end ≤ result + 21) }
    ensures written { drop result room.new ≡ cells_continued (decimal word ∷ []) ++ drop end room.old }
    ensures len { length room.new ≡ length room.old }
{
    let at = write_digits(word, room, end) - 1;
    room[at] = b',';
    at
}

// Writes words before a place, each with a comma before it, and returns where the first comma is.
fn words_before(room: &mut [u8], end: usize, words: &[u64]) -> usize
    requires { (21 * length words.now ≤ end) × (end ≤ length room.old) }
    ensures start { (result ≤ end) × (end ≤ result + 21 * length words.now) }
    ensures written { drop result room.new ≡ cells_continued (numbers words.now) ++ drop end room.old }
    ensures len { length room.new ≡ length room.old }
{
    let mut at = end;
    'words: for later in 0..words.len() {
        at = word_before(room, at, words[words.len() - 1 - later]);
    }
    at
}

// Writes a comma and a part of a line before a place, and returns where the comma is.
#[inline(always)]
fn part_before(room: &mut [u8], end: usize, part: &[u8]) -> usize
    requires { (length part.now + 1 ≤ end) × (end ≤ length room.old) }
    ensures start { result + (length part.now + 1) ≡ end }
    ensures written { drop result room.new ≡ cells_continued (part.now ∷ []) ++ drop end room.old }
    ensures len { length room.new ≡ length room.old }
{
    let at = end - part.len();
    room[at..end].copy_from_slice(part);
    room[at - 1] = b',';
    at - 1
}

// Writes before a place what a groupby's row says of its key's epochs, and returns where it begins.
fn epoch_before(room: &mut [u8], end: usize, row: &RowRef) -> usize
    requires { (63 ≤ end) × (end ≤ length room.old) }
    ensures start { (result ≤ end) × (end ≤ result + 63) }
    ensures written { drop result room.new ≡ cells_continued (mark_text row.now.mark ∷ epoch_text row.now.mark row.now.epoch
        ∷ decimal row.now.epochs ∷ []) ++ drop end room.old }
    ensures len { length room.new ≡ length room.old }
{
    let after = word_before(room, end, row.epochs);
    if row.mark == Mark::Exact {
        return part_before(room, after, b"exact,*");
    }
    let at = word_before(room, after, row.epoch);
    part_before(room, at, mark_word(row.mark))
}

// Writes the parts of a row before a place, each with a comma before it, and returns where they begin.
fn parts_before(room: &mut [u8], end: usize, kind: TableKind, row: &RowRef) -> usize
    requires { (21 * (length row.now.key.now + length row.now.values.now) + 63 ≤ end) × (end ≤ length room.old) }
    ensures start { (result ≤ end) × (end ≤ result + (21 * (length row.now.key.now + length row.now.values.now) + 63)) }
    ensures written { drop result room.new ≡ cells_continued (row_parts kind (row_of row.now)) ++ drop end room.old }
    ensures len { length room.new ≡ length room.old }
{
    let values = words_before(room, end, row.values);
    match kind {
        TableKind::Group(_, _, _) => {
            let epoch = epoch_before(room, values, row);
            words_before(room, epoch, row.key)
        }
        TableKind::Final => words_before(room, values, row.key),
    }
}

// Writes the line of a row before a place, and returns where it begins.
fn line_before(room: &mut [u8], end: usize, kind: TableKind, row: &RowRef) -> usize
    requires { (21 * (length row.now.key.now + length row.now.values.now) + 64 ≤ end) × (end ≤ length room.old) }
    ensures start { (result ≤ end) × (end ≤ result + (21 * (length row.now.key.now + length row.now.values.now) + 64)) }
    ensures written { drop result room.new ≡ table_line (row_parts kind (row_of row.now)) ++ drop end room.old }
    ensures len { length room.new ≡ length room.old }
{
    let last = end - 1;
    room[last] = b'\n';
    let start = parts_before(room, last, kind, row);
    // No part has a comma before it where the row has none.
    if room[start] == b',' {
        start + 1
    } else {
        start
    }
}

/// Writes the lines of so many rows, those before a place, at the end of the room, and returns where they begin. It returns `None`
/// where a row isn't sure to fit.
pub fn lines_before(
    room: &mut [u8],
    kind: TableKind,
    rows: &Rows,
    until: usize,
    count: usize,
) -> Option<usize>
    requires room { 1024 * count ≤ length room.old }
    requires rows { (count ≤ until) × (until ≤ length rows.now) }
    ensures start { IfSome result (λ start. start ≤ length room.new) }
    ensures written { IfSome result (λ start. drop start room.new ≡ lines_of kind (take count (drop (until - count) rows.now))) }
    ensures len { length room.new ≡ length room.old }
{
    let mut at = room.len();
    'lines: for later in 0..count {
        let row = rows.get(until - 1 - later);
        if row.columns.len() > MOST_COLUMNS {
            return None;
        }
        at = line_before(room, at, kind, &row);
    }
    Some(at)
}
