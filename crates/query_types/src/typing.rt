//! Whole queries.

ghost use Rattle.std.specs.Prelude.{◌≡◌, ◌<◌, ◌^◌, Ok, None, [], IfOk, length, map, count_by, min};
ghost use Rattle.query_lang.specs.Limits.{IsReadable};
ghost use Rattle.query_lang.specs.Typing.{typed_names, field_numbers, is_groupby, given_of, start_of, items_checked, ended, checked};
ghost use Rattle.query_lang.specs.{TypedQueries.IsValidQuery, Answers.Answers};
ghost use Rattle.query_types.specs.{Numbers.{greatest_of, item_number}, CheckedItems.checked_with, Fitting.AreReady};

use crate::answer::fault;
use crate::columns::add_columns;
use crate::items::check_items;
use crate::names::{add_fields, number_fields};
use marple_base::{Field, Seq};
use query_lang::typing::{Earlier, Given, Known, Meaning, Origin, StreamView};
use query_lang::{
    FaultKind, Item, MAX_GROUPBYS, Names, Query, QueryError, QueryFault, Span, StreamOp, TypedQuery,
};
use std::alloc::{AllocError, Global};

// Is it a stream that groups?
fn is_group_item(item: &Item) -> bool
    ensures { result ≡ is_groupby item.now }
{
    match item {
        Item::Stream(d) => matches!(d.op, StreamOp::Group(_, _, _)),
        _ => false,
    }
}

// How many groupbys there are, or the most that there may be.
fn count_groups(items: &[Item]) -> u16
    ensures { result ≡ min (count_by is_groupby items.now) MAX_GROUPBYS }
{
    let mut count: usize = 0;
    for item in items {
        count += usize::from(is_group_item(item));
    }
    count.min(usize::from(MAX_GROUPBYS)) as u16
}

// What is known of the whole query from the start.
fn given_from(alloc: Global, names: &Names, items: &[Item]) -> Result<Given, AllocError>
    requires { length names.now < 2 ^ 32 }
    ensures { IfOk result (λ given. given ≡ given_of names.now items.now) }
{
    let fields = number_fields(alloc, names, &Field::ALL)?;
    let groups = count_groups(items);
    Ok(Given { fields, groups })
}

// The stream of all packets.
fn packet_stream(alloc: Global, given: &Given) -> Result<StreamView, AllocError>
    ensures { IfOk result (λ stream. stream ≡ record {
      number = 0;
      columns = map (λ id. record { name = id; origin = Origin.Field }) given.now.fields;
      hidden = [];
      table = None;
    }) }
{
    let mut columns = Seq::new(alloc);
    add_columns(&mut columns, Origin::Field, given.fields.as_slice())?;
    Ok(StreamView {
        number: 0,
        columns,
        hidden: Seq::new(alloc),
        table: None,
    })
}

// What a query begins with.
fn start_from(alloc: Global, names: &Names, given: &Given) -> Result<Earlier, AllocError>
    requires names { length names.now < 2 ^ 32 }
    requires fields { given.now.fields ≡ field_numbers names.now }
    ensures { IfOk result (λ start. start ≡ start_of names.now) }
{
    let stream = packet_stream(alloc, given)?;
    let name = names.find(b"pktstream");
    let mut known = Seq::new(alloc);
    known.push(Known {
        name,
        meaning: Meaning::Stream(stream),
    })?;
    Ok(Earlier {
        known,
        groups: 0,
        folds: Seq::new(alloc),
        streams: Seq::new(alloc),
        finals: Seq::new(alloc),
        prints: Seq::new(alloc),
        printed: Seq::new(alloc),
    })
}

// The typed query, which prints some table.
fn end_with(names: Names, end: Span, earlier: Earlier) -> Result<TypedQuery, QueryFault>
    ensures { result ≡ ended names end earlier }
{
    if earlier.prints.is_empty() {
        return Err(fault(FaultKind::NothingPrinted, end));
    }
    Ok(TypedQuery {
        names,
        folds: earlier.folds,
        streams: earlier.streams,
        finals: earlier.finals,
        prints: earlier.prints,
    })
}

// What all items of a query give, where its names are these and those of all fields.
#[tactic(auto, using(crate::proofs::StartLaws::given_few, crate::proofs::StartLaws::start_is))]
fn check_all(alloc: Global, names: &Names, items: &[Item]) -> Result<Earlier, QueryError>
    requires { AreReady names.now items.now }
    ensures given { Answers result (items_checked (given_of names.now items.now) (start_of names.now) items.now) }
    ensures numbers { IfOk result (λ _. greatest_of (map item_number items.now) < 2 ^ 64) }
{
    let given = given_from(alloc, names, items)?;
    let start = start_from(alloc, names, &given)?;
    check_items(alloc, &given, start, items)
}

// The typed query of these items, whose names are these and those of all fields.
fn check_with(
    alloc: Global,
    names: Names,
    items: &[Item],
    end: Span,
) -> Result<TypedQuery, QueryError>
    requires { AreReady names items.now }
    ensures given { Answers result (checked_with names items.now end) }
    ensures numbers { IfOk result (λ _. greatest_of (map item_number items.now) < 2 ^ 64) }
{
    let earlier = check_all(alloc, &names, items)?;
    Ok(end_with(names, end, earlier)?)
}

/// The typed query, or the first fault: items in the order of the text, and the checks of an item in their order. A query that
/// was parsed is readable. What is given is valid: names, slots, streams and folds that it names are there, conditions,
/// words and constants are where they are allowed, and the limits are kept. Its names are those of the query and then those of the
/// fields that the query doesn't have. `Memory` is given only where memory runs out.
pub fn check(alloc: Global, q: Query) -> Result<TypedQuery, QueryError>
    requires { IsReadable q }
    ensures given { Answers result (checked q) }
    ensures valid { IfOk result IsValidQuery }
    ensures names { IfOk result (λ typed. typed.names ≡ typed_names q.names) }
{
    let Query { names, items, end } = q;
    let all = add_fields(names, &Field::ALL)?;
    check_with(alloc, all, items.as_slice(), end)
}
