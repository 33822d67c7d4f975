//! Which fields decide the part of a packet.

ghost use Rattle.std.specs.Prelude.{◌≡◌};
ghost use Rattle.marple_base.specs.{Field.has_field, declared.field.Field.{Field as AnyField}};
ghost use Rattle.split_fields.specs.Splits.{all_keyed, is_keyed, may_split};

use marple_base::{FIELDS, Field, FieldSet};
use net_laws::{makes_field, names_field};
use query_lang::{Names, TypedOp, TypedQuery, TypedStream};

// Whether a stream is no groupby's, or that of a groupby with a key that has the field's name.
fn is_keyed(field: Field, names: &Names, one: &TypedStream) -> bool
    ensures { result ≡ is_keyed field names.now one.now.columns one.now.op }
{
    match &one.op {
        TypedOp::Group(_, _, _, _) => names_field(field, names, one.columns.as_slice()),
        _ => true,
    }
}

// Whether each groupby of these streams has such a key.
fn all_keyed(field: Field, names: &Names, streams: &[TypedStream]) -> bool
    ensures { result ≡ all_keyed field names.now streams.now }
{
    for one in streams {
        if !is_keyed(field, names, one) {
            return false;
        }
    }
    true
}

// Whether a trace may be split by the field.
fn may_split(q: &TypedQuery, field: Field) -> bool
    ensures { result ≡ may_split q.now field }
{
    all_keyed(field, &q.names, q.streams.as_slice())
        && !makes_field(field, &q.names, q.streams.as_slice())
}

/// The fields by which a trace may be split: those that each groupby of the query has as a key, and that no `map` makes.
pub fn split_fields(q: &TypedQuery) -> FieldSet
    ensures { (field : AnyField) → has_field result field ≡ may_split q.now field }
{
    let mut fields = FieldSet::EMPTY;
    for i in 0..FIELDS {
        let field = Field::ALL[i];
        if may_split(q, field) {
            fields = fields.with(field);
        }
    }
    fields
}
