// The rows of a table that are greatest in one column.

ghost use Rattle.std.specs.Prelude.{◌≡◌, ◌-◌, ◌<◌, ◌≤◌, All, Some, length, map, nat_lt, count_by, IfOk};
ghost use Rattle.epoch_model.specs.Keys.{IsAscending};
ghost use Rattle.table_rows.specs.LentRows.{row_of};
ghost use Rattle.final_queries.specs.{Finals.{columns_of, top_rows}, Joining.reads, Ranks.{rank_of, ranks_from, is_before, is_within}};

use crate::rows::{is_read, push_plain, read_count};
use marple_base::Steps;
use std::alloc::{AllocError, Global};
use std::cmp::Reverse;
use std::sync::ledger::Ledger;
use table_rows::{RowRef, Rows};

/// The rank of a row among others: by its column from the greatest word on, and where this is equal by its place, since
/// rows are in the order of their keys.
#[derive(Clone, Copy, PartialEq, Eq, PartialOrd, Ord)]
pub struct Rank {
    word: Reverse<u64>,
    place: usize,
}

fn rank_of(row: &RowRef, column: usize, place: usize) -> Rank
    requires { column < length row.now.columns.now }
    ensures { result ≡ rank_of column place (row_of row.now) }
{
    Rank {
        word: Reverse(row.columns[column]),
        place,
    }
}

// The ranks of the rows that are read, with a step for each of their two words.
fn ranks_of<L: Ledger>(
    alloc: Global,
    rows: &Rows,
    column: usize,
    width: usize,
    steps: &mut Steps<L>,
) -> Result<Vec<Rank>, AllocError>
    requires column { column < width }
    requires rows { All (λ row. length (columns_of row) ≡ width) rows.now }
    ensures ranks { IfOk result (λ ranks. ranks.items ≡ ranks_from column 0 rows.now) }
    ensures steps { steps.old ≤ steps.new }
{
    let mut ranks = Vec::with_capacity(alloc, read_count(rows))?;
    for place in 0..rows.len() {
        let row = rows.get(place);
        if is_read(row.mark) {
            ranks.push(rank_of(&row, column, place))?;
            steps.tick_many(2);
        }
    }
    Ok(ranks)
}

// The last rank that is kept, if there are at least `kept` of them. The ranks are only split around it: those that are
// dropped aren't sorted.
fn last_kept(ranks: &mut [Rank], kept: usize) -> Option<Rank>
    requires { 0 < kept }
    ensures { (rank : _) → is_within result rank ≡ nat_lt (count_by (λ other. is_before other rank) ranks.old) kept }
{
    if ranks.len() < kept {
        return None;
    }
    let (_, last, _) = ranks.select_nth_unstable(kept - 1);
    Some(*last)
}

fn is_kept(last: Option<Rank>, rank: Rank) -> bool
    ensures { result ≡ is_within last rank }
{
    match last {
        Some(last) => rank <= last,
        None => true,
    }
}

/// The rows that fewer than `kept` others go before, in ascending order of their keys. It counts two comparisons of
/// each rank, of two words each: one in the search for the last that is kept, and one with that.
pub fn top<L: Ledger>(
    alloc: Global,
    rows: &Rows,
    column: usize,
    kept: usize,
    width: usize,
    steps: &mut Steps<L>,
) -> Result<Rows, AllocError>
    requires column { column < width }
    requires rows { All (λ row. length (columns_of row) ≡ width) rows.now }
    requires order { IsAscending (map (λ row. row.key) (reads rows.now)) }
    requires kept { 0 < kept }
    ensures rows { IfOk result (λ made. made ≡ top_rows column kept (reads rows.now)) }
    ensures steps { steps.old ≤ steps.new }
{
    let mut ranks = ranks_of(alloc, rows, column, width, steps)?;
    let last = last_kept(ranks.as_mut_slice(), kept);
    let count = ranks.len().min(kept);
    let mut made = Rows::new(alloc);
    made.reserve(count, count.saturating_mul(width))?;
    for place in 0..rows.len() {
        let row = rows.get(place);
        if is_read(row.mark) {
            steps.tick_many(4);
            if is_kept(last, rank_of(&row, column, place)) {
                push_plain(&mut made, row.key, row.values, steps)?;
            }
        }
    }
    Ok(made)
}
