//! What the report of a plan that was read prints.

ghost use Rattle.std.specs.Prelude.{◌++◌, ◌<◌, ◌≤◌, All, length, IsErrOf, OnErr, OnOk};
ghost use Rattle.marple_base.specs.{Faults.Rose, Sink.TakesFront, Pieces.TakesAllBut};
ghost use Rattle.query_run.specs.PlanReports.{HasKeys, numbered_print};

use final_queries::Table;
use marple_base::{Seq, Sink, TextBuffer, WriteError};
use table_printer::write_table;

/// Writes the texts of the tables with these numbers, in order.
pub(crate) fn write_numbered<O: Sink>(
    prints: &[u16],
    tables: &Seq<Table>,
    text: &mut TextBuffer,
    out: &mut O,
) -> Result<(), WriteError>
    requires prints { All (λ number. number < length tables.now) prints.now }
    requires tables { All HasKeys tables.now }
    ensures ok { OnOk result
        (TakesAllBut (O.taken out.old) (O.taken out.new) text.new (text.old ++ numbered_print prints.now tables.now)) }
    ensures err { OnErr result (TakesFront (O.taken out.old) (O.taken out.new) (text.old ++ numbered_print prints.now tables.now)) }
    ensures failed { IsErrOf result WriteError.Failed → Rose (O.faults out.old) (O.faults out.new) }
    ensures out_later { O.faults out.old ≤ O.faults out.new }
{
    for number in prints {
        write_table(text, tables.get(usize::from(*number)), out)?;
    }
    Ok(())
}
