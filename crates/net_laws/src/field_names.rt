//! Columns that have a field's name.

ghost use Rattle.std.specs.Prelude.{◌≡◌};
ghost use Rattle.net_laws.specs.Fields.{is_named, makes_field, names_field};
ghost use Rattle.net_wide.specs.Combining.{columns_made};

use marple_base::Field;
use query_lang::{Names, TypedOp, TypedStream};

fn is_named(field: Field, names: &Names, id: u32) -> bool
    ensures { result ≡ is_named field names.now id }
{
    if id as usize >= names.len() {
        return false;
    }
    field.name() == names.text(id)
}

/// Whether one of these columns has the field's name.
pub fn names_field(field: Field, names: &Names, columns: &[u32]) -> bool
    ensures { result ≡ names_field field names.now columns.now }
{
    for id in columns {
        if is_named(field, names, *id) {
            return true;
        }
    }
    false
}

// Whether the stream's `map` makes a column that has the field's name.
fn maps_field(field: Field, names: &Names, one: &TypedStream) -> bool
    ensures { result ≡ names_field field names.now (columns_made one.now.columns one.now.op) }
{
    match &one.op {
        TypedOp::Map(_, values) => {
            let columns = one.columns.as_slice();
            let before = columns.len().saturating_sub(values.len());
            names_field(field, names, &columns[before..])
        }
        _ => false,
    }
}

/// Whether a `map` of these streams makes a column that has the field's name.
pub fn makes_field(field: Field, names: &Names, streams: &[TypedStream]) -> bool
    ensures { result ≡ makes_field field names.now streams.now }
{
    for one in streams {
        if maps_field(field, names, one) {
            return true;
        }
    }
    false
}
