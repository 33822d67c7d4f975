//! The rows of a table of bounds that finals may read.

ghost use Rattle.std.specs.Prelude.{◌≡◌, ◌++◌, ◌∷◌, [], length, map, filter, IfOk, OnOk};
ghost use Rattle.enclosure_folds.specs.BoundsTables.{IsBoundsTable, row_is_exact, exact_row, exact_table};

use crate::copies::{names_copy, push_copies};
use crate::table::{BoundsRow, BoundsTable};
use final_queries::{Mark, Rows, Table, TableKind};
use marple_base::{Seq, Text};
use query_lang::Class;
use std::alloc::{AllocError, Global};

/// Whether a row's bounds are equal.
pub(crate) fn is_exact(row: &BoundsRow) -> bool
    ensures { result ≡ row_is_exact row.now }
{
    row.low.as_slice() == row.high.as_slice()
}

fn push_copy(copies: &mut Rows, row: &BoundsRow) -> Result<(), AllocError>
    ensures { OnOk result (copies.new ≡ copies.old ++ exact_row row.now ∷ []) }
{
    copies.push(
        row.key.as_slice(),
        Mark::Exact,
        0,
        row.epochs,
        row.low.as_slice(),
    )
}

fn row_copies(alloc: Global, rows: &[BoundsRow]) -> Result<Rows, AllocError>
    ensures { IfOk result (λ copies. copies ≡ map exact_row (filter row_is_exact rows.now)) }
{
    let mut copies = Rows::new(alloc);
    for row in rows {
        if is_exact(row) {
            push_copy(&mut copies, row)?;
        }
    }
    Ok(copies)
}

/// The table that finals read instead of a table of bounds: the rows whose bounds are equal, in order, with these as
/// values and with mark Exact. The other rows are left out.
pub fn exact_rows(alloc: Global, t: &BoundsTable) -> Result<Table, AllocError>
    requires { IsBoundsTable t.now }
    ensures { IfOk result (λ table. table ≡ exact_table t.now) }
{
    let mut columns = names_copy(alloc, t.key_names.as_slice())?;
    push_copies(alloc, &mut columns, t.state_names.as_slice())?;
    Ok(Table {
        name: Text::from_slice(alloc, t.name.as_slice())?,
        columns,
        keys: t.key_names.len() as u8,
        kind: TableKind::Group(Class::Other, t.depth, t.epochs),
        rows: row_copies(alloc, t.rows.as_slice())?,
    })
}
