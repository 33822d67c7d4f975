// Tables joined by their keys.

ghost use Rattle.std.specs.Prelude.{◌≡◌, ◌≤◌, ◌-◌, ◌++◌, ◌∷◌, [], length, map, take, drop, IfOk, OnOk};
ghost use Rattle.epoch_model.specs.Keys.{IsAscending};
ghost use Rattle.table_rows.specs.LentRows.{row_of};
ghost use Rattle.final_queries.specs.{Finals.{plain_row, joined_rows}, Joining.{reads, joined_first, AreSmaller, StartsAtLeast}};

use crate::keys::{is_same_key, is_smaller_key};
use crate::rows::{is_read, push_plain};
use marple_base::Steps;
use std::alloc::{AllocError, Global};
use std::sync::ledger::Ledger;
use table_rows::{RowRef, Rows};

// How many words of a key are compared with a row's: none where the row isn't read.
fn compared(row: &RowRef, key: &[u64]) -> u64 {
    if is_read(row.mark) {
        key.len() as u64
    } else {
        0
    }
}

// The place of the first row from `from` on that is read and whose key isn't smaller, or the number of rows if there is
// none, with a step for each word that is compared.
fn first_at_least<L: Ledger>(rows: &Rows, from: usize, key: &[u64], steps: &mut Steps<L>) -> usize
    requires { from ≤ length rows.now }
    ensures after { from ≤ result }
    ensures within { result ≤ length rows.now }
    ensures smaller { AreSmaller key.now (take (result - from) (drop from rows.now)) }
    ensures least { StartsAtLeast key.now (drop result rows.now) }
    ensures steps { steps.old ≤ steps.new }
{
    for at in from..rows.len() {
        let row = rows.get(at);
        steps.tick_many(compared(&row, key));
        if is_read(row.mark) && !is_smaller_key(row.key, key) {
            return at;
        }
    }
    rows.len()
}

// Adds the left row with the values of the right one after its own, with a step for each word. `all` is working memory.
fn push_both<L: Ledger>(
    made: &mut Rows,
    all: &mut Vec<u64>,
    left: &RowRef,
    right: &RowRef,
    steps: &mut Steps<L>,
) -> Result<(), AllocError>
    ensures row { OnOk result (made.new ≡ made.old ++ plain_row left.now.key.now (left.now.values.now ++ right.now.values.now) ∷ []) }
    ensures steps { steps.old ≤ steps.new }
{
    steps.tick_many(left.values.len() as u64);
    steps.tick_many(right.values.len() as u64);
    all.clear();
    all.extend_from_slice(left.values)?;
    all.extend_from_slice(right.values)?;
    push_plain(made, left.key, all.as_slice(), steps)
}

// Adds the left row joined with the right one at a place, where there is one that has its key. `all` is working memory.
fn push_joined<L: Ledger>(
    made: &mut Rows,
    all: &mut Vec<u64>,
    left: &RowRef,
    right: &Rows,
    at: usize,
    steps: &mut Steps<L>,
) -> Result<(), AllocError>
    requires { at ≤ length right.now }
    ensures made { OnOk result (made.new ≡ made.old ++ joined_first (row_of left.now) (drop at right.now)) }
    ensures steps { steps.old ≤ steps.new }
{
    if at < right.len() {
        let other = right.get(at);
        steps.tick_many(left.key.len() as u64);
        if is_same_key(other.key, left.key) {
            push_both(made, all, left, &other, steps)?;
        }
    }
    Ok(())
}

/// A row for each key that is read in both, in ascending order. Each is walked once.
pub fn joined<L: Ledger>(
    alloc: Global,
    left: &Rows,
    right: &Rows,
    steps: &mut Steps<L>,
) -> Result<Rows, AllocError>
    requires left { IsAscending (map (λ row. row.key) (reads left.now)) }
    requires right { IsAscending (map (λ row. row.key) (reads right.now)) }
    ensures rows { IfOk result (λ made. made ≡ joined_rows (reads left.now) (reads right.now)) }
    ensures steps { steps.old ≤ steps.new }
{
    let mut all = Vec::new(alloc);
    let mut made = Rows::new(alloc);
    let mut next = 0;
    for at in 0..left.len() {
        let row = left.get(at);
        if is_read(row.mark) {
            next = first_at_least(right, next, row.key, steps);
            push_joined(&mut made, &mut all, &row, right, next, steps)?;
        }
    }
    Ok(made)
}
