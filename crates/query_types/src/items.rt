//! The items of a query in order.

ghost use Rattle.std.specs.Prelude.{◌≡◌, ◌<◌, ◌≤◌, ◌^◌, IfOk, OnOk, length, map, is_some, All};
ghost use Rattle.query_lang.specs.{Answers.Answers, Limits.{KeepsLimits, IsNumbered}, TypedFolds.{fold_nodes, fold_statements}};
ghost use Rattle.query_lang.specs.Typing.{with_fold, fold_added, print_checked, item_checked, items_checked};
ghost use Rattle.query_types.specs.{Answers.Leaves, Fitting.Fits, Numbers.{greatest_of, greatest_in, item_number}};

use crate::answer::refused;
use crate::copies::copy_list;
use crate::exprs::has_name;
use crate::finals::{check_final, five_of};
use crate::folds::check_fold;
use crate::streams::check_stream;
use crate::views::{find_table, is_taken, learn};
use query_lang::typing::{Earlier, FoldView, Given, Meaning};
use query_lang::{
    FaultKind, FoldDef, Item, MAX_GROUPBYS, MAX_NODES, MAX_STATEMENTS, Name, QueryError, TypedFold,
};
use std::alloc::{AllocError, Global};

// What the name of a fold stands for, where the fold has this number.
fn view_of(alloc: Global, number: u16, f: &TypedFold) -> Result<FoldView, AllocError>
    ensures { IfOk result (λ view. view ≡ record {
      number = number;
      states = f.now.state_names;
      args = f.now.arg_names;
      emits = is_some f.now.emit;
    }) }
{
    let states = copy_list(alloc, f.state_names.as_slice())?;
    let args = copy_list(alloc, f.arg_names.as_slice())?;
    Ok(FoldView {
        number,
        states,
        args,
        emits: f.emit.is_some(),
    })
}

// One more fold.
fn add_fold(alloc: Global, earlier: &mut Earlier, f: TypedFold) -> Result<(), AllocError>
    requires { length earlier.old.folds < 65536 }
    ensures { OnOk result (earlier.new ≡ with_fold earlier.old f) }
{
    let number = earlier.folds.len() as u16;
    let view = view_of(alloc, number, &f)?;
    learn(earlier, f.name, Meaning::Fold(view))?;
    earlier.folds.push(f)
}

// The fold's name is free, and then the fold is checked.
fn check_fold_item(alloc: Global, earlier: &mut Earlier, d: &FoldDef) -> Result<(), QueryError>
    requires fits { Fits earlier.old }
    requires nodes { fold_nodes d.now ≤ MAX_NODES }
    requires statements { fold_statements d.now ≤ MAX_STATEMENTS }
    ensures given { Leaves result earlier.new (fold_added earlier.old d.now) }
    ensures numbers { OnOk result (greatest_of (map greatest_in d.now.body) < 2 ^ 64) }
{
    if is_taken(earlier, d.name.id) {
        return Err(refused(FaultKind::NameTaken, d.name.span));
    }
    let f = check_fold(alloc, d)?;
    add_fold(alloc, earlier, f)?;
    Ok(())
}

// A table is printed once.
fn check_print(earlier: &mut Earlier, name: Name) -> Result<(), QueryError>
    ensures { Leaves result earlier.new (print_checked earlier.old name) }
{
    let place = find_table(earlier, name)?.place;
    if has_name(earlier.printed.as_slice(), name.id) {
        return Err(refused(FaultKind::NameTaken, name.span));
    }
    earlier.prints.push(place)?;
    earlier.printed.push(name.id)?;
    Ok(())
}

// One item after those before it.
fn check_item(
    alloc: Global,
    given: &Given,
    earlier: &mut Earlier,
    item: &Item,
) -> Result<(), QueryError>
    requires limits { KeepsLimits item.now }
    requires groups { given.now.groups ≤ MAX_GROUPBYS }
    requires fits { Fits earlier.old }
    ensures given { Leaves result earlier.new (item_checked given.now earlier.old item.now) }
    ensures numbers { OnOk result (item_number item.now < 2 ^ 64) }
{
    match item {
        Item::Fold(d) => check_fold_item(alloc, earlier, d),
        Item::Stream(d) => check_stream(alloc, five_of(&given.fields), earlier, d),
        Item::Final(d) => check_final(alloc, given, earlier, d),
        Item::Print(name) => check_print(earlier, *name),
    }
}

/// The items in order, each after those before it.
pub fn check_items(
    alloc: Global,
    given: &Given,
    start: Earlier,
    items: &[Item],
) -> Result<Earlier, QueryError>
    requires limits { All KeepsLimits items.now }
    requires names { All (IsNumbered 65536) items.now }
    requires groups { given.now.groups ≤ MAX_GROUPBYS }
    requires fits { Fits start }
    ensures given { Answers result (items_checked given.now start items.now) }
    ensures numbers { IfOk result (λ _. greatest_of (map item_number items.now) < 2 ^ 64) }
{
    let mut earlier = start;
    for item in items {
        check_item(alloc, given, &mut earlier, item)?;
    }
    Ok(earlier)
}
