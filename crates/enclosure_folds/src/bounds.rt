//! The table of bounds that a table of three states side by side gives.

ghost use Rattle.std.specs.Prelude.{◌≡◌, ◌*◌, ◌<◌, ◌≤◌, All, length, drop, IfOk};
ghost use Rattle.epoch_model.specs.Keys.{key_eq};
ghost use Rattle.table_rows.specs.LentRows.{row_of};
ghost use Rattle.final_queries.specs.Finals.{HasColumns};
ghost use Rattle.enclosure_folds.specs.BoundsTables.{IsBoundsTable};
ghost use Rattle.enclosure_folds.specs.KeyBounds.{HasTriples, goes_on, row_bounds, bounds_in, depth_in, epochs_in};
ghost use Rattle.enclosure_folds.specs.KeyBounds.{high_in, low_in, table_bounds};

use crate::copies::{names_copy, words_copy};
use crate::laws::triples_give_whole_tables;
use crate::table::{BoundsRow, BoundsTable};
use final_queries::{Mark, RowRef, Rows, Table, TableKind};
use marple_base::{Seq, Text};
use query_lang::MAX_KEYS;
use std::alloc::{AllocError, Global};

#[tactic(auto, unfolding(epoch_model::specs::Keys::key_eq))]
fn is_same_key(a: &[u64], b: &[u64]) -> bool
    ensures { result ≡ key_eq a.now b.now }
{
    a == b
}

// Whether there is a row at a place, and it has this key too.
fn goes_on(key: &[u64], rows: &Rows, next: usize) -> bool
    ensures { result ≡ goes_on key.now (drop next rows.now) }
{
    next < rows.len() && is_same_key(key, rows.get(next).key)
}

// Where a row of a key's last epoch has its bounds: both in its first state where it is of the only epoch.
fn span_of<'a>(states: usize, mark: Mark, values: &'a [u64]) -> (&'a [u64], &'a [u64])
    requires { length values.now ≡ 3 * states }
    ensures low { result.0.now ≡ low_in states mark values.now }
    ensures high { result.1.now ≡ high_in states mark values.now }
{
    let (alone, rest) = values.split_at(states);
    if mark == Mark::Valid {
        (alone, alone)
    } else {
        rest.split_at(states)
    }
}

// The bounds that the last row of a key gives.
fn row_bounds(alloc: Global, states: usize, row: &RowRef) -> Result<BoundsRow, AllocError>
    requires { length row.now.values.now ≡ 3 * states }
    ensures { IfOk result (λ bounds. bounds ≡ row_bounds states (row_of row.now)) }
{
    let (least, greatest) = span_of(states, row.mark, row.values);
    Ok(BoundsRow {
        key: words_copy(alloc, row.key)?,
        epochs: row.epochs,
        low: words_copy(alloc, least)?,
        high: words_copy(alloc, greatest)?,
    })
}

// One row of bounds for each run of rows of one key.
fn all_bounds(
    alloc: Global,
    keys: usize,
    states: usize,
    rows: &Rows,
) -> Result<Seq<BoundsRow>, AllocError>
    requires { All (HasColumns keys (3 * states)) rows.now }
    ensures { IfOk result (λ made. made ≡ bounds_in states rows.now) }
{
    let mut made = Seq::new(alloc);
    for at in 0..rows.len() {
        let row = rows.get(at);
        if !goes_on(row.key, rows, at + 1) {
            made.push(row_bounds(alloc, states, &row)?)?;
        }
    }
    Ok(made)
}

fn depth_in(kind: TableKind) -> u8
    ensures { result ≡ depth_in kind }
{
    match kind {
        TableKind::Group(_, depth, _) => depth,
        TableKind::Final => 0,
    }
}

fn epochs_in(kind: TableKind) -> u64
    ensures { result ≡ epochs_in kind }
{
    match kind {
        TableKind::Group(_, _, epochs) => epochs,
        TableKind::Final => 0,
    }
}

fn made_bounds(alloc: Global, table: &Table) -> Result<BoundsTable, AllocError>
    requires { HasTriples table.now }
    ensures { IfOk result (λ bounds. bounds ≡ table_bounds table.now) }
{
    let keys = usize::from(table.keys);
    let (key_names, state_names) = table.columns.as_slice().split_at(keys);
    Ok(BoundsTable {
        name: Text::from_slice(alloc, table.name.as_slice())?,
        key_names: names_copy(alloc, key_names)?,
        state_names: names_copy(alloc, state_names)?,
        depth: depth_in(table.kind),
        epochs: epochs_in(table.kind),
        rows: all_bounds(alloc, keys, state_names.len(), &table.rows)?,
    })
}

/// The table of bounds of a groupby, by the table that has three states side by side for each of its epochs: the fold of
/// the epoch's rows from the initial state, from zeros, and from the greatest words. A key with one epoch has the first
/// as both bounds, and a key with more has the second and the third of its last epoch.
pub fn bounds_of(alloc: Global, table: &Table) -> Result<BoundsTable, AllocError>
    requires triples { HasTriples table.now }
    requires some_keys { 0 < table.now.keys }
    requires most_keys { table.now.keys ≤ MAX_KEYS }
    ensures table { IfOk result (λ bounds. bounds ≡ table_bounds table.now) }
    ensures whole { IfOk result IsBoundsTable }
{
    triples_give_whole_tables();
    let bounds = made_bounds(alloc, table)?;
    Ok(bounds)
}
