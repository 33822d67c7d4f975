//! The tables that a query's prints need. Tables are numbered with the groupbys first, and then the finals.

ghost use Rattle.std.specs.Prelude.{◌≡◌, ℕ, ◌+◌, ◌^◌, ◌<◌, ◌≤◌, ◌++◌, length, map, IfOk, OnOk};
ghost use Rattle.query_facts.specs.Needs.{is_one_of, is_groupby, groupbys, table_of, with_inputs, needs_from, needed_tables, inputs_of};
ghost use Rattle.query_facts.specs.Needs.{needed_from, needed_groupbys};

use marple_base::Seq;
use query_lang::{PrintOf, TypedFinal, TypedFinalOp, TypedOp, TypedQuery, TypedStream};
use std::alloc::{AllocError, Global};

/// Whether a number is among these.
pub(crate) fn is_in(numbers: &[usize], number: usize) -> bool
    ensures { result ≡ is_one_of numbers.now number }
{
    for one in numbers {
        if *one == number {
            return true;
        }
    }
    false
}

/// Whether an operator groups.
pub(crate) fn is_groupby(op: &TypedOp) -> bool
    ensures { result ≡ is_groupby op.now }
{
    match op {
        TypedOp::Group(_, _, _, _) => true,
        _ => false,
    }
}

/// The number of groupbys.
pub(crate) fn groupbys(streams: &[TypedStream]) -> usize
    ensures count { result ≡ groupbys streams.now }
    ensures most { result ≤ length streams.now }
{
    let mut count = 0;
    for one in streams {
        if is_groupby(&one.op) {
            count += 1;
        }
    }
    count
}

// The number of a printed table.
fn table_of(groups: usize, place: PrintOf) -> usize
    requires { groups < 65536 }
    ensures { result ≡ table_of groups place }
{
    match place {
        PrintOf::Group(i) => usize::from(i),
        PrintOf::Final(i) => groups + usize::from(i),
    }
}

// The numbers of the printed tables.
fn printed(alloc: Global, groups: usize, prints: &[PrintOf]) -> Result<Seq<usize>, AllocError>
    requires { groups < 65536 }
    ensures { IfOk result (λ tables. tables ≡ map (table_of groups) prints.now) }
{
    let mut tables = Seq::new(alloc);
    for place in prints {
        tables.push(table_of(groups, *place))?;
    }
    Ok(tables)
}

// Adds the tables that a final reads.
fn push_inputs(needs: &mut Seq<usize>, op: &TypedFinalOp) -> Result<(), AllocError>
    ensures { OnOk result (needs.new ≡ needs.old ++ inputs_of op.now) }
{
    match op {
        TypedFinalOp::Filter(input, _) => needs.push(usize::from(*input)),
        TypedFinalOp::Map(input, _) => needs.push(usize::from(*input)),
        TypedFinalOp::Group(input, _, _, _) => needs.push(usize::from(*input)),
        TypedFinalOp::Join(left, right) => {
            needs.push(usize::from(*left))?;
            needs.push(usize::from(*right))?;
            Ok(())
        }
        TypedFinalOp::Top(input, _, _) => needs.push(usize::from(*input)),
    }
}

// Adds what a final reads, where its table is needed.
fn add_inputs(needs: &mut Seq<usize>, number: usize, op: &TypedFinalOp) -> Result<(), AllocError>
    ensures { OnOk result (needs.new ≡ with_inputs needs.old number op.now) }
{
    if is_in(needs.as_slice(), number) {
        push_inputs(needs, op)?;
    }
    Ok(())
}

// What these finals need, the first of which has this number, besides these tables.
fn add_needs(needs: &mut Seq<usize>, number: usize, finals: &[TypedFinal]) -> Result<(), AllocError>
    requires { number + length finals.now < 2 ^ 64 }
    ensures { OnOk result (needs.new ≡ needs_from number finals.now needs.old) }
{
    match finals {
        [] => Ok(()),
        [one, rest @ ..] => {
            add_needs(needs, number + 1, rest)?;
            add_inputs(needs, number, &one.op)
        }
    }
}

/// The numbers of the tables that the prints need.
pub(crate) fn needed_tables(alloc: Global, q: &TypedQuery) -> Result<Seq<usize>, AllocError>
    requires streams { length q.now.streams < 65536 }
    requires finals { length q.now.finals < 65536 }
    ensures { IfOk result (λ needs. needs ≡ needed_tables q.now) }
{
    let groups = groupbys(q.streams.as_slice());
    let mut needs = printed(alloc, groups, q.prints.as_slice())?;
    add_needs(&mut needs, groups, q.finals.as_slice())?;
    Ok(needs)
}

/// The places of the needed groupbys among the streams.
pub(crate) fn needed_groupbys(
    alloc: Global,
    needs: &[usize],
    streams: &[TypedStream],
) -> Result<Seq<usize>, AllocError>
    ensures { IfOk result (λ places. places ≡ needed_groupbys needs.now streams.now) }
{
    let mut places = Seq::new(alloc);
    let mut group = 0;
    let mut place = 0;
    for one in streams {
        if is_groupby(&one.op) {
            if is_in(needs, group) {
                places.push(place)?;
            }
            group += 1;
        }
        place += 1;
    }
    Ok(places)
}
