//! Which queries may run over several switches.

ghost use Rattle.std.specs.Prelude.{◌≡◌, All, Some, slice_get};
ghost use Rattle.query_lang.specs.{Folds.IsValidFold, TypedQueries.IsValidQuery};
ghost use Rattle.net_wide.specs.Combining.{is_switch, names_switch, columns_made, makes_switch, adds, combines, may_stand, net_fault};

use marple_base::Field;
use query_lang::{FaultKind, Names, QueryFault, TypedFold, TypedOp, TypedQuery, TypedStream};

fn is_switch(names: &Names, id: u32) -> bool
    ensures { result ≡ is_switch names.now id }
{
    if id as usize >= names.len() {
        return false;
    }
    Field::Switch.name() == names.text(id)
}

fn names_switch(names: &Names, columns: &[u32]) -> bool
    ensures { result ≡ names_switch names.now columns.now }
{
    for id in columns {
        if is_switch(names, *id) {
            return true;
        }
    }
    false
}

// Whether the stream's `map` makes a column named `switch`.
fn maps_switch(names: &Names, one: &TypedStream) -> bool
    ensures { result ≡ names_switch names.now (columns_made one.now.columns one.now.op) }
{
    match &one.op {
        TypedOp::Map(_, values) => {
            let columns = one.columns.as_slice();
            let before = columns.len().saturating_sub(values.len());
            names_switch(names, &columns[before..])
        }
        _ => false,
    }
}

fn makes_switch(names: &Names, streams: &[TypedStream]) -> bool
    ensures { result ≡ makes_switch names.now streams.now }
{
    for one in streams {
        if maps_switch(names, one) {
            return true;
        }
    }
    false
}

// Whether the fold with this number is there and additive.
fn adds(folds: &[TypedFold], number: u16) -> bool
    requires { All IsValidFold folds.now }
    ensures { result ≡ adds (slice_get folds.now number) }
{
    match folds.get(number as usize) {
        Some(f) => fold_code::is_additive(f),
        None => false,
    }
}

// Whether a groupby with this fold and these keys combines.
fn combines(q: &TypedQuery, number: u16, keys: &[u32]) -> bool
    requires { All IsValidFold q.now.folds }
    ensures { result ≡ combines q.now number keys.now }
{
    adds(q.folds.as_slice(), number)
        || names_switch(&q.names, keys) && !makes_switch(&q.names, q.streams.as_slice())
}

// Whether a stream is no groupby's, or that of a groupby that combines.
fn may_stand(q: &TypedQuery, one: &TypedStream) -> bool
    requires { All IsValidFold q.now.folds }
    ensures { result ≡ may_stand q.now one.now.columns one.now.op }
{
    match &one.op {
        TypedOp::Group(_, _, number, _) => combines(q, *number, one.columns.as_slice()),
        _ => true,
    }
}

/// The fault of a query that can't run over several switches: `NotAdditive` at the name of the first groupby that
/// doesn't combine, and `None` where every groupby does. A groupby combines where its fold is additive, or where one of
/// its keys is named `switch` and no `map` of a stream of the query makes a column of that name. It needs no memory.
pub fn net_check(q: &TypedQuery) -> Option<QueryFault>
    requires { IsValidQuery q.now }
    ensures { result ≡ net_fault q.now }
{
    for one in q.streams.as_slice() {
        if !may_stand(q, one) {
            return Some(QueryFault {
                kind: FaultKind::NotAdditive,
                span: one.name.span,
            });
        }
    }
    None
}
