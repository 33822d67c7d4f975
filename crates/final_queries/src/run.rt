//! Tables made of tables.

ghost use Rattle.std.specs.Prelude.{◌≡◌, ◌<◌, ◌≤◌, All, length, map, IfOk};
ghost use Rattle.query_lang.specs.{Folds.IsValidFold, TypedQueries.{AreNames, IsValidFinal, final_shape}};
ghost use Rattle.final_queries.specs.Finals.{IsTable, table_shape, name_text, final_rows, final_table};

use crate::grouped::grouped;
use crate::joined::joined;
use crate::laws::final_tables_are_read;
use crate::rows::{filtered, mapped};
use crate::table::{Table, TableKind};
use crate::top::top;
use marple_base::{Seq, Steps, Text};
use query_lang::{Names, TypedFinal, TypedFinalOp, TypedFold};
use std::alloc::{AllocError, Global};
use std::sync::ledger::Ledger;
use table_rows::Rows;

fn rows_made<L: Ledger>(
    alloc: Global,
    one: &TypedFinal,
    folds: &Seq<TypedFold>,
    tables: &Seq<Table>,
    names: usize,
    steps: &mut Steps<L>,
) -> Result<Rows, AllocError>
    requires folds { All IsValidFold folds.now }
    requires valid { IsValidFinal names folds.now (map table_shape tables.now) one.now }
    requires tables { All IsTable tables.now }
    ensures rows { IfOk result (λ rows. rows ≡ final_rows folds.now tables.now one.now.op) }
    ensures steps { steps.old ≤ steps.new }
{
    match &one.op {
        TypedFinalOp::Filter(input, condition) => {
            let table = tables.get(*input as usize);
            filtered(alloc, condition, &table.rows, table.columns.len(), steps)
        }
        TypedFinalOp::Map(input, values) => {
            let table = tables.get(*input as usize);
            mapped(
                alloc,
                values.as_slice(),
                &table.rows,
                table.columns.len(),
                steps,
            )
        }
        TypedFinalOp::Group(input, keys, f, args) => {
            let table = tables.get(*input as usize);
            let fold = folds.get(*f as usize);
            let width = table.columns.len();
            grouped(
                alloc,
                keys.as_slice(),
                fold,
                args.as_slice(),
                &table.rows,
                width,
                steps,
            )
        }
        TypedFinalOp::Join(left, right) => {
            let first = tables.get(*left as usize);
            let second = tables.get(*right as usize);
            joined(alloc, &first.rows, &second.rows, steps)
        }
        TypedFinalOp::Top(input, column, kept) => {
            let table = tables.get(*input as usize);
            let width = table.columns.len();
            top(
                alloc,
                &table.rows,
                *column as usize,
                *kept as usize,
                width,
                steps,
            )
        }
    }
}

fn name_copy(alloc: Global, names: &Names, id: u32) -> Result<Text, AllocError>
    requires { id < length names.now }
    ensures { IfOk result (λ text. text ≡ name_text names.now id) }
{
    Text::from_slice(alloc, names.text(id))
}

fn name_copies(alloc: Global, names: &Names, ids: &[u32]) -> Result<Seq<Text>, AllocError>
    requires { AreNames (length names.now) ids.now }
    ensures { IfOk result (λ texts. texts ≡ map (name_text names.now) ids.now) }
{
    let mut texts = Seq::new(alloc);
    for id in ids {
        texts.push(name_copy(alloc, names, *id)?)?;
    }
    Ok(texts)
}

/// The table that a final makes of the tables before it, which are numbered with the groupbys first and then the finals.
pub fn run_final<L: Ledger>(
    alloc: Global,
    op: &TypedFinal,
    names: &Names,
    folds: &Seq<TypedFold>,
    tables: &Seq<Table>,
    steps: &mut Steps<L>,
) -> Result<Table, AllocError>
    requires folds { All IsValidFold folds.now }
    requires valid { IsValidFinal (length names.now) folds.now (map table_shape tables.now) op.now }
    requires tables { All IsTable tables.now }
    ensures table { IfOk result (λ table. table ≡ final_table names.now folds.now tables.now op.now) }
    ensures read { IfOk result IsTable }
    ensures shape { IfOk result (λ table. table_shape table ≡ final_shape op.now) }
    ensures steps { steps.old ≤ steps.new }
{
    final_tables_are_read();
    let rows = rows_made(alloc, op, folds, tables, names.len(), steps)?;
    Ok(Table {
        name: name_copy(alloc, names, op.name.id)?,
        columns: name_copies(alloc, names, op.columns.as_slice())?,
        keys: op.keys,
        kind: TableKind::Final,
        rows,
    })
}
