//! Groupbys over streams.

ghost use Rattle.std.specs.Prelude.{◌≡◌, ◌≤◌, ◌++◌, Ok, IfOk, length};
ghost use Rattle.query_lang.specs.{TypedStreams.{column_names, keys_checked, arguments_of, grouped}, Answers.Answers};
ghost use Rattle.query_types.specs.{Fitting.{Fits, IsNarrow}, MadeStreams.with_keys};

use crate::columns::{check_arguments, check_keys, names_of, pick_columns};
use crate::copies::{both_lists, copy_list};
use crate::views::{find_fold, find_stream};
use marple_base::Seq;
use query_lang::typing::{Earlier, FoldView, MadeStream, Picked, StreamView, TableView};
use query_lang::{Key, MAX_KEYS, Name, PrintOf, QueryError, TypedOp};
use std::alloc::{AllocError, Global};

// The keys of a groupby over a stream.
fn stream_keys(
    alloc: Global,
    five: &[u32],
    source: &StreamView,
    keys: &[Key],
) -> Result<Picked, QueryError>
    requires { IsNarrow (column_names source.now.columns) }
    ensures given { Answers result (keys_checked five.now (column_names source.now.columns) source.now.hidden keys.now) }
    ensures most { IfOk result (λ picked. length picked.names ≤ MAX_KEYS) }
{
    let names = names_of(alloc, source.columns.as_slice())?;
    check_keys(
        alloc,
        five,
        names.as_slice(),
        source.hidden.as_slice(),
        keys,
    )
}

// The arguments of a groupby's fold over a stream.
fn stream_arguments(
    alloc: Global,
    source: &StreamView,
    picked: &Picked,
    f: &FoldView,
    name: Name,
) -> Result<Seq<u16>, QueryError>
    requires { IsNarrow (column_names source.now.columns) }
    ensures { Answers result (arguments_of (column_names source.now.columns) source.now.hidden picked.now.names f.now name.span) }
{
    let names = names_of(alloc, source.columns.as_slice())?;
    check_arguments(
        alloc,
        names.as_slice(),
        source.hidden.as_slice(),
        picked.names.as_slice(),
        f,
        name.span,
    )
}

/// How many keys there are.
pub fn key_count(picked: &Picked) -> u8
    requires { length picked.now.names ≤ MAX_KEYS }
    ensures { result ≡ length picked.now.names }
{
    picked.names.len() as u8
}

// A groupby's table: the keys, and then the fold's variables.
fn made_table(
    alloc: Global,
    number: u16,
    picked: &Picked,
    f: &FoldView,
) -> Result<TableView, AllocError>
    requires { length picked.now.names ≤ MAX_KEYS }
    ensures { IfOk result (λ table. table ≡ record {
      place = PrintOf.Group number;
      columns = picked.now.names ++ f.now.states;
      keys = length picked.now.names;
    }) }
{
    let keys = key_count(picked);
    let columns = both_lists(alloc, picked.names.as_slice(), f.states.as_slice())?;
    Ok(TableView {
        place: PrintOf::Group(number),
        columns,
        keys,
    })
}

// A groupby: its key columns, and the variables of its fold as hidden states.
fn made_group(
    alloc: Global,
    number: u16,
    source: &StreamView,
    picked: Picked,
    f: &FoldView,
    arguments: Seq<u16>,
) -> Result<MadeStream, QueryError>
    requires { length picked.names ≤ MAX_KEYS }
    ensures { Answers result (Ok (with_keys number source.now picked f.now arguments)) }
{
    let table = made_table(alloc, number, &picked, f)?;
    let columns = pick_columns(alloc, source.columns.as_slice(), picked.slots.as_slice())?;
    let hidden = copy_list(alloc, f.states.as_slice())?;
    Ok(MadeStream {
        op: TypedOp::Group(source.number, picked.slots, f.number, arguments),
        columns,
        hidden,
        table: Some(table),
    })
}

/// A groupby over an earlier stream.
pub fn check_group(
    alloc: Global,
    five: &[u32],
    earlier: &Earlier,
    input: Name,
    keys: &[Key],
    fold_name: Name,
) -> Result<MadeStream, QueryError>
    requires { Fits earlier.now }
    ensures { Answers result (grouped five.now earlier.now input keys.now fold_name) }
{
    let source = find_stream(earlier, input)?;
    let picked = stream_keys(alloc, five, source, keys)?;
    let f = find_fold(earlier, fold_name)?;
    let arguments = stream_arguments(alloc, source, &picked, f, fold_name)?;
    made_group(alloc, earlier.groups, source, picked, f, arguments)
}
