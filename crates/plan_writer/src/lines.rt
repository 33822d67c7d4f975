//! The first lines of a plan's text, and the last ones.

ghost use Rattle.std.specs.Prelude.{◌≡◌, ◌∷◌, ◌++◌, [], map, filter, flat_map, codes, decimal, OnOk};
ghost use Rattle.marple_base.specs.Field.{field_name, has_field};
ghost use Rattle.plan_writer.specs.{Words.{spaced, line}, PlanText.{reads_line, print_line}};

use crate::words::{push_number, push_word};
use marple_base::{Field, FieldSet, Text};
use query_lang::PrintOf;
use std::alloc::AllocError;

fn push_field(text: &mut Text, reads: FieldSet, f: Field) -> Result<(), AllocError>
    ensures { OnOk result (text.new ≡ text.old ++ spaced (map field_name (filter (has_field reads) (f ∷ [])))) }
{
    if reads.has(f) {
        push_word(text, f.name())
    } else {
        Ok(())
    }
}

// The names of those fields that are in a set.
fn push_fields(text: &mut Text, reads: FieldSet, fields: &[Field]) -> Result<(), AllocError>
    ensures { OnOk result (text.new ≡ text.old ++ spaced (map field_name (filter (has_field reads) fields.now))) }
{
    for f in fields {
        push_field(text, reads, *f)?;
    }
    Ok(())
}

/// The first line, and the fields that are read.
pub(crate) fn push_head(text: &mut Text, reads: FieldSet) -> Result<(), AllocError>
    ensures { OnOk result (text.new ≡ text.old ++ (line (codes "marple-plan") (codes "1" ∷ []) ++ reads_line reads)) }
{
    text.push_slice(b"marple-plan 1\nreads")?;
    push_fields(text, reads, &Field::ALL)?;
    text.push(b'\n')?;
    Ok(())
}

fn push_print(text: &mut Text, print: PrintOf) -> Result<(), AllocError>
    ensures { OnOk result (text.new ≡ text.old ++ print_line print) }
{
    if let PrintOf::Group(i) = print {
        text.push_slice(b"print")?;
        push_number(text, u64::from(i))?;
        text.push(b'\n')?;
    }
    Ok(())
}

/// The lines of the printed tables.
pub(crate) fn push_prints(text: &mut Text, prints: &[PrintOf]) -> Result<(), AllocError>
    ensures { OnOk result (text.new ≡ text.old ++ flat_map print_line prints.now) }
{
    for print in prints {
        push_print(text, *print)?;
    }
    Ok(())
}
