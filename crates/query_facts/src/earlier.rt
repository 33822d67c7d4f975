//! What the items before that of a fault make.

ghost use Rattle.std.specs.Prelude.{◌≡◌, ◌+◌, ◌<◌, ◌≤◌, length, IfOk, IfSome};
ghost use Rattle.query_lang.specs.Limits.{HasKeys, IsNumbered, IsReadable, KeepsLimits};
ghost use Rattle.query_facts.specs.Columns.{all_origins};

use crate::columns::all_columns;
use marple_base::Seq;
use query_lang::typing::Origin;
use query_lang::{FoldDef, Item, Key, Name, Query, QueryError, StreamDef, StreamOp, TypedQuery};
use query_types::check;
use std::alloc::{AllocError, Global};

/// What the items before that of a fault make: so many of the folds and streams of a typed query, and all its finals; and where
/// the columns of its streams come from.
#[derive(Drop)]
pub struct Reach {
    pub folds: usize,
    pub streams: usize,
    pub typed: TypedQuery,
    pub origins: Seq<Seq<Origin>>,
}

// The name that an item gives or prints.
fn name_of(item: &Item) -> Name {
    match item {
        Item::Fold(d) => d.name,
        Item::Stream(d) => d.name,
        Item::Final(d) => d.name,
        Item::Print(name) => *name,
    }
}

/// How many items come before the one that has this byte.
pub fn items_before(items: &[Item], at: u32) -> usize {
    let mut before = 0;
    for (number, item) in items.iter().enumerate() {
        if name_of(item).span.start <= at {
            before = number;
        }
    }
    before
}

// How many folds there are, and how many streams.
fn counts(items: &[Item]) -> (usize, usize) {
    let mut folds = 0;
    let mut streams = 0;
    for item in items {
        match item {
            Item::Fold(_) => folds += 1,
            Item::Stream(_) => streams += 1,
            Item::Final(_) => {}
            Item::Print(_) => {}
        }
    }
    (folds, streams)
}

// Whether a table is printed.
fn prints(items: &[Item]) -> bool {
    for item in items {
        if let Item::Print(_) = item {
            return true;
        }
    }
    false
}

// The name of the first groupby on a stream.
fn first_groupby(items: &[Item]) -> Option<Name> {
    for item in items {
        if let Item::Stream(d) = item {
            if let StreamOp::Group(_, _, _) = &d.op {
                return Some(d.name);
            }
        }
    }
    None
}

// The query of the first items alone.
#[tactic(auto, using(crate::proofs::Readables::first_readable))]
fn first_items(q: Query, count: usize) -> Query
    requires { IsReadable q }
    ensures { IsReadable result }
{
    let Query { names, items, end } = q;
    let mut kept = items.into_vec();
    kept.truncate(count);
    Query {
        names,
        items: Seq::from_vec(kept),
        end,
    }
}

// The number of a name in a query, which has it from then on.
#[tactic(auto, using(crate::proofs::Readables::grown_readable))]
fn name_in(q: Query, text: &[u8]) -> Result<(Query, Name), AllocError>
    requires readable { IsReadable q }
    requires room { length q.names < 32768 }
    ensures readable { IfOk result (λ found. IsReadable found.0) }
    ensures named { IfOk result (λ found. found.1.id < length found.0.names) }
    ensures grows { IfOk result (λ found. length q.names ≤ length found.0.names) }
    ensures most { IfOk result (λ found. length found.0.names ≤ length q.names + 1) }
{
    let Query { names, items, end } = q;
    let mut names = names;
    let id = names.number(text)?;
    let name = Name { id, span: end };
    Ok((Query { names, items, end }, name))
}

// The query with one more item.
#[tactic(auto, using(crate::proofs::Readables::pushed_readable))]
fn with_item(q: Query, item: Item) -> Result<Query, AllocError>
    requires readable { IsReadable q }
    requires limits { KeepsLimits item }
    requires names { IsNumbered (length q.names) item }
    requires keys { HasKeys item }
    ensures readable { IfOk result (λ more. IsReadable more) }
    ensures names { IfOk result (λ more. more.names ≡ q.names) }
{
    let Query { names, items, end } = q;
    let mut items = items;
    items.push(item)?;
    Ok(Query { names, items, end })
}

// The query with a fold of this name that does nothing.
fn with_fold(alloc: Global, q: Query, name: Name) -> Result<Query, AllocError>
    requires readable { IsReadable q }
    requires name { name.id < length q.names }
    ensures readable { IfOk result (λ more. IsReadable more) }
    ensures names { IfOk result (λ more. more.names ≡ q.names) }
{
    let fold = FoldDef {
        name,
        states: Seq::new(alloc),
        args: Seq::new(alloc),
        body: Seq::new(alloc),
    };
    with_item(q, Item::Fold(fold))
}

// The query with a groupby of this name, by a field and a fold.
fn with_group(
    alloc: Global,
    q: Query,
    name: Name,
    input: Name,
    field: Name,
    fold: Name,
) -> Result<Query, AllocError>
    requires readable { IsReadable q }
    requires name { name.id < length q.names }
    ensures { IfOk result (λ more. IsReadable more) }
{
    let mut keys = Seq::new(alloc);
    keys.push(Key::Named(field))?;
    let group = StreamDef {
        name,
        op: StreamOp::Group(input, keys, fold),
    };
    with_item(q, Item::Stream(group))
}

// The query with a further groupby that is printed. The names of its fold and its table have a blank, as no name of a text has.
fn with_groupby(alloc: Global, q: Query) -> Result<Query, AllocError>
    requires readable { IsReadable q }
    requires room { length q.names + 4 ≤ 32768 }
    ensures { IfOk result (λ more. IsReadable more) }
{
    let (q, input) = name_in(q, b"pktstream")?;
    let (q, field) = name_in(q, b"switch")?;
    let (q, fold) = name_in(q, b" fold")?;
    let (q, table) = name_in(q, b" table")?;
    let q = with_fold(alloc, q, fold)?;
    let q = with_group(alloc, q, table, input, field, fold)?;
    with_item(q, Item::Print(table))
}

// The query with a print of some table, if it has none: a query that prints nothing isn't typed.
fn printing(alloc: Global, q: Query) -> Result<Option<Query>, AllocError>
    requires { IsReadable q }
    ensures { IfOk result (λ o. IfSome o (λ more. IsReadable more)) }
{
    if prints(q.items.as_slice()) {
        return Ok(Some(q));
    }
    if let Some(name) = first_groupby(q.items.as_slice()) {
        return Ok(Some(with_item(q, Item::Print(name))?));
    }
    if q.names.len() > 32764 {
        return Ok(None);
    }
    Ok(Some(with_groupby(alloc, q)?))
}

// What a typed query makes, of which so many folds and streams are of the text.
fn reach_of(
    alloc: Global,
    folds: usize,
    streams: usize,
    typed: TypedQuery,
) -> Result<Reach, AllocError>
    requires { length typed.streams < 65535 }
    ensures { IfOk result (λ reach. reach.origins ≡ all_origins reach.typed) }
{
    let origins = all_columns(alloc, &typed)?;
    Ok(Reach {
        folds,
        streams,
        typed,
        origins,
    })
}

/// What so many items of a query make, which have no fault. Where there is no room for a table that a query has to print,
/// nothing is said.
pub(crate) fn reach_before(
    alloc: Global,
    q: Query,
    before: usize,
) -> Result<Option<Reach>, AllocError>
    requires { IsReadable q }
    ensures { IfOk result (λ o. IfSome o (λ reach. reach.origins ≡ all_origins reach.typed)) }
{
    let earlier = first_items(q, before);
    let (folds, streams) = counts(earlier.items.as_slice());
    let Some(whole) = printing(alloc, earlier)? else {
        return Ok(None);
    };
    match check(alloc, whole) {
        Ok(typed) => Ok(Some(reach_of(alloc, folds, streams, typed)?)),
        Err(QueryError::Refused(_)) => Ok(None),
        Err(QueryError::Memory) => Err(AllocError),
    }
}
