// Finals that take one table row by row.

ghost use Rattle.std.specs.Prelude.{◌≡◌, ◌≤◌, ◌++◌, ◌∷◌, [], All, length, map, IfOk, OnOk};
ghost use Rattle.query_lang.specs.{Streams.expr_value, Folds.IsValidTerm, Terms.term_of};
ghost use Rattle.table_rows.specs.LentRows.{row_of};
ghost use Rattle.final_queries.specs.{Finals.{is_read, columns_of, plain_row, filtered_rows, mapped_row, mapped_rows}, Joining.reads};

use crate::value::value_of;
use epoch_model::Mark;
use marple_base::Steps;
use query_lang::TypedExpr;
use std::alloc::{AllocError, Global};
use std::sync::ledger::Ledger;
use table_rows::{RowRef, Rows};

/// Whether finals read a row with this mark.
pub fn is_read(mark: Mark) -> bool
    ensures { result ≡ is_read mark }
{
    match mark {
        Mark::Exact | Mark::Valid | Mark::Plain => true,
        Mark::Invalid => false,
    }
}

/// The number of rows that finals read.
pub fn read_count(rows: &Rows) -> usize
    ensures { result ≡ length (reads rows.now) }
{
    let mut count = 0;
    for at in 0..rows.len() {
        if is_read(rows.get(at).mark) {
            count += 1;
        }
    }
    count
}

/// Adds a row of a final, with a step for each word.
pub fn push_plain<L: Ledger>(
    made: &mut Rows,
    key: &[u64],
    values: &[u64],
    steps: &mut Steps<L>,
) -> Result<(), AllocError>
    ensures row { OnOk result (made.new ≡ made.old ++ plain_row key.now values.now ∷ []) }
    ensures steps { steps.old ≤ steps.new }
{
    steps.tick_many(key.len() as u64);
    steps.tick_many(values.len() as u64);
    made.push(key, Mark::Plain, 0, 0, values)
}

/// The rows where the condition holds.
pub fn filtered<L: Ledger>(
    alloc: Global,
    condition: &TypedExpr,
    rows: &Rows,
    width: usize,
    steps: &mut Steps<L>,
) -> Result<Rows, AllocError>
    requires condition { IsValidTerm width (term_of condition.now) }
    requires rows { All (λ row. length (columns_of row) ≡ width) rows.now }
    ensures rows { IfOk result (λ made. made ≡ filtered_rows condition.now (reads rows.now)) }
    ensures steps { steps.old ≤ steps.new }
{
    let mut made = Rows::new(alloc);
    for at in 0..rows.len() {
        let row = rows.get(at);
        if is_read(row.mark) && value_of(condition, row.columns, steps) != 0 {
            push_plain(&mut made, row.key, row.values, steps)?;
        }
    }
    Ok(made)
}

// Writes the values of a row, and then those of the expressions over its columns, with a step for each word.
fn mapped_values_into<L: Ledger>(
    all: &mut Vec<u64>,
    values: &[TypedExpr],
    row: &RowRef,
    steps: &mut Steps<L>,
) -> Result<(), AllocError>
    requires { All (λ e. IsValidTerm (length row.now.columns.now) (term_of e)) values.now }
    ensures values { OnOk result (all.new.items ≡ row.now.values.now ++ map (λ e. expr_value e row.now.columns.now) values.now) }
    ensures steps { steps.old ≤ steps.new }
{
    all.clear();
    all.extend_from_slice(row.values)?;
    steps.tick_many(row.values.len() as u64);
    for e in values {
        all.push(value_of(e, row.columns, steps))?;
        steps.tick();
    }
    Ok(())
}

// Adds the row with the new values after its old ones. `all` is working memory.
#[tactic(auto, unfolding(crate::specs::Finals::mapped_row))]
fn push_mapped<L: Ledger>(
    made: &mut Rows,
    all: &mut Vec<u64>,
    values: &[TypedExpr],
    row: &RowRef,
    steps: &mut Steps<L>,
) -> Result<(), AllocError>
    requires { All (λ e. IsValidTerm (length row.now.columns.now) (term_of e)) values.now }
    ensures row { OnOk result (made.new ≡ made.old ++ mapped_row values.now (row_of row.now) ∷ []) }
    ensures steps { steps.old ≤ steps.new }
{
    mapped_values_into(all, values, row, steps)?;
    push_plain(made, row.key, all.as_slice(), steps)
}

/// Each row with the new values after its old ones. Memory is taken once for all rows.
pub fn mapped<L: Ledger>(
    alloc: Global,
    values: &[TypedExpr],
    rows: &Rows,
    width: usize,
    steps: &mut Steps<L>,
) -> Result<Rows, AllocError>
    requires values { All (λ e. IsValidTerm width (term_of e)) values.now }
    requires rows { All (λ row. length (columns_of row) ≡ width) rows.now }
    ensures rows { IfOk result (λ made. made ≡ mapped_rows values.now (reads rows.now)) }
    ensures steps { steps.old ≤ steps.new }
{
    let count = read_count(rows);
    let made_width = width.saturating_add(values.len());
    let mut made = Rows::new(alloc);
    made.reserve(count, count.saturating_mul(made_width))?;
    let mut all = Vec::new(alloc);
    for at in 0..rows.len() {
        let row = rows.get(at);
        if is_read(row.mark) {
            push_mapped(&mut made, &mut all, values, &row, steps)?;
        }
    }
    Ok(made)
}
