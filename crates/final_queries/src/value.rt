// The values of expressions over the columns of a row.

ghost use Rattle.std.specs.Prelude.{◌≡◌, ◌≤◌, length, OnOk};
ghost use Rattle.query_lang.specs.{Folds.IsValidTerm, Streams.{expr_value, values_at}, Terms.term_of, TypedQueries.AreSlots};

use marple_base::Steps;
use query_lang::TypedExpr;
use std::alloc::AllocError;
use std::sync::ledger::Ledger;

/// The value of an expression over a row's columns, with a step for each of its operations.
pub fn value_of<L: Ledger>(e: &TypedExpr, columns: &[u64], steps: &mut Steps<L>) -> u64
    requires { IsValidTerm (length columns.now) (term_of e.now) }
    ensures value { result ≡ expr_value e.now columns.now }
    ensures steps { steps.old ≤ steps.new }
{
    match e {
        TypedExpr::Number(n) => *n,
        TypedExpr::Slot(slot) => columns[*slot as usize],
        TypedExpr::Not(inner) => {
            steps.tick();
            u64::from(value_of(inner.get(), columns, steps) == 0)
        }
        TypedExpr::Binary(op, left, right) => {
            steps.tick();
            let x = value_of(left.get(), columns, steps);
            let y = value_of(right.get(), columns, steps);
            op.value(x, y)
        }
    }
}

/// Writes the words in some of the columns over `taken`, with a step for each.
pub fn values_into<L: Ledger>(
    taken: &mut Vec<u64>,
    columns: &[u64],
    slots: &[u16],
    steps: &mut Steps<L>,
) -> Result<(), AllocError>
    requires { AreSlots (length columns.now) slots.now }
    ensures values { OnOk result (taken.new.items ≡ values_at columns.now slots.now) }
    ensures steps { steps.old ≤ steps.new }
{
    taken.clear();
    for slot in slots {
        taken.push(columns[*slot as usize])?;
        steps.tick();
    }
    Ok(())
}
