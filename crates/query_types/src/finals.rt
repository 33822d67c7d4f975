//! Finals.

ghost use Rattle.std.specs.Prelude.{◌≡◌, ◌+◌, ◌<◌, ◌≤◌, ◌^◌, ◌++◌, Ok, IfOk, OnOk, length};
ghost use Rattle.query_lang.specs.TypedFinals.{five_fields, final_filter, final_map, final_group, final_join, final_top, made_final};
ghost use Rattle.query_lang.specs.{TypedFinals.{with_final, final_checked}, Answers.Answers};
ghost use Rattle.query_types.specs.{Answers.Leaves, Fitting.Fits};
ghost use Rattle.query_types.specs.Numbers.{greatest_number, columns_number, final_number};

use crate::answer::refused;
use crate::columns::{check_arguments, check_columns, check_keys};
use crate::copies::{both_lists, copy_list};
use crate::exprs::{check_condition, find_slot};
use crate::groupbys::key_count;
use crate::tables::{number_of_table, others_clash, others_of, same_keys};
use crate::views::{check_binding, find_quiet_fold, find_table, learn};
use marple_base::Seq;
use query_lang::typing::{
    Earlier, FoldView, Given, MadeFinal, Meaning, NewColumns, Picked, TableView,
};
use query_lang::{
    Column, Expr, FaultKind, FinalDef, FinalOp, Key, MAX_BINDINGS, MAX_GROUPBYS, MAX_KEYS, Name,
    PrintOf, QueryError, Span, TypedFinal, TypedFinalOp,
};
use std::alloc::{AllocError, Global};

// A final with the columns of its input.
fn with_same_columns(
    alloc: Global,
    source: &TableView,
    op: TypedFinalOp,
) -> Result<MadeFinal, QueryError>
    ensures { Answers result (Ok (record { op = op; columns = source.now.columns; keys = source.now.keys })) }
{
    let columns = copy_list(alloc, source.columns.as_slice())?;
    Ok(MadeFinal {
        op,
        columns,
        keys: source.keys,
    })
}

// A final with the columns of its input, and then others.
fn with_more_columns(
    alloc: Global,
    source: &TableView,
    more: &[u32],
    op: TypedFinalOp,
) -> Result<MadeFinal, QueryError>
    ensures { Answers result (Ok (record { op = op; columns = source.now.columns ++ more.now; keys = source.now.keys })) }
{
    let columns = both_lists(alloc, source.columns.as_slice(), more)?;
    Ok(MadeFinal {
        op,
        columns,
        keys: source.keys,
    })
}

fn check_filter(
    alloc: Global,
    groups: u16,
    earlier: &Earlier,
    input: Name,
    e: &Expr,
) -> Result<MadeFinal, QueryError>
    requires fits { Fits earlier.now }
    requires groups { groups ≤ MAX_GROUPBYS }
    ensures given { Answers result (final_filter groups earlier.now input e.now) }
    ensures numbers { IfOk result (λ _. greatest_number e.now < 2 ^ 64) }
{
    let source = find_table(earlier, input)?;
    let number = number_of_table(groups, source.place);
    let condition = check_condition(alloc, source.columns.as_slice(), &[], e)?;
    with_same_columns(alloc, source, TypedFinalOp::Filter(number, condition))
}

#[tactic(auto, using(crate::proofs::NamedFits::slots_of_table, crate::proofs::NamedFits::table_early))]
fn check_map(
    alloc: Global,
    groups: u16,
    earlier: &Earlier,
    input: Name,
    columns: &[Column],
) -> Result<MadeFinal, QueryError>
    requires fits { Fits earlier.now }
    requires groups { groups ≤ MAX_GROUPBYS }
    ensures given { Answers result (final_map groups earlier.now input columns.now) }
    ensures numbers { IfOk result (λ _. columns_number columns.now < 2 ^ 64) }
{
    let source = find_table(earlier, input)?;
    let number = number_of_table(groups, source.place);
    let NewColumns { names, values } = check_columns(
        alloc,
        source.columns.as_slice(),
        &[],
        columns,
    )?;
    let op = TypedFinalOp::Map(number, values);
    with_more_columns(alloc, source, names.as_slice(), op)
}

/// `5tuple` stands for the five fields from the fourth on.
pub fn five_of(fields: &Seq<u32>) -> &[u32]
    ensures { result.now ≡ five_fields fields.now }
{
    let all = fields.as_slice();
    let count = all.len();
    if count < 3 {
        return &[];
    }
    let rest = &all[3..];
    if rest.len() <= 5 { rest } else { &rest[..5] }
}

// A groupby: its keys, and then the variables of its fold.
fn made_group(
    alloc: Global,
    number: u16,
    picked: Picked,
    f: &FoldView,
    arguments: Seq<u16>,
) -> Result<MadeFinal, QueryError>
    requires { length picked.names ≤ MAX_KEYS }
    ensures { Answers result (Ok (record {
      op = TypedFinalOp.Group number picked.slots f.now.number arguments;
      columns = picked.names ++ f.now.states;
      keys = length picked.names;
    })) }
{
    let keys = key_count(&picked);
    let columns = both_lists(alloc, picked.names.as_slice(), f.states.as_slice())?;
    Ok(MadeFinal {
        op: TypedFinalOp::Group(number, picked.slots, f.number, arguments),
        columns,
        keys,
    })
}

fn check_group(
    alloc: Global,
    given: &Given,
    earlier: &Earlier,
    input: Name,
    keys: &[Key],
    fold_name: Name,
) -> Result<MadeFinal, QueryError>
    requires fits { Fits earlier.now }
    requires groups { given.now.groups ≤ MAX_GROUPBYS }
    ensures { Answers result (final_group given.now earlier.now input keys.now fold_name) }
{
    let source = find_table(earlier, input)?;
    let number = number_of_table(given.groups, source.place);
    let columns = source.columns.as_slice();
    let picked = check_keys(alloc, five_of(&given.fields), columns, &[], keys)?;
    let f = find_quiet_fold(earlier, fold_name)?;
    let names = picked.names.as_slice();
    let arguments = check_arguments(alloc, columns, &[], names, f, fold_name.span)?;
    made_group(alloc, number, picked, f, arguments)
}

#[tactic(auto, using(crate::proofs::NamedFits::table_early))]
fn check_join(
    alloc: Global,
    groups: u16,
    earlier: &Earlier,
    first: Name,
    second: Name,
) -> Result<MadeFinal, QueryError>
    requires fits { Fits earlier.now }
    requires groups { groups ≤ MAX_GROUPBYS }
    ensures { Answers result (final_join groups earlier.now first second) }
{
    let left = find_table(earlier, first)?;
    let right = find_table(earlier, second)?;
    if !same_keys(left, right) {
        return Err(refused(FaultKind::WrongKind, second.span));
    }
    if others_clash(left, right) {
        return Err(refused(FaultKind::NameTaken, second.span));
    }
    let first = number_of_table(groups, left.place);
    let second = number_of_table(groups, right.place);
    let op = TypedFinalOp::Join(first, second);
    with_more_columns(alloc, left, others_of(right), op)
}

#[tactic(auto, using(crate::proofs::NamedFits::slots_of_table, crate::proofs::NamedFits::table_early))]
fn check_top(
    alloc: Global,
    groups: u16,
    earlier: &Earlier,
    input: Name,
    column: Name,
    kept: u64,
    span: Span,
) -> Result<MadeFinal, QueryError>
    requires fits { Fits earlier.now }
    requires groups { groups ≤ MAX_GROUPBYS }
    ensures { Answers result (final_top groups earlier.now input column kept span) }
{
    let source = find_table(earlier, input)?;
    let slot = find_slot(source.columns.as_slice(), &[], column)?;
    if !(0 < kept && kept <= 65536) {
        return Err(refused(FaultKind::BadConstant, span));
    }
    let number = number_of_table(groups, source.place);
    with_same_columns(alloc, source, TypedFinalOp::Top(number, slot, kept))
}

// What the final's operator makes.
fn check_operator(
    alloc: Global,
    given: &Given,
    earlier: &Earlier,
    op: &FinalOp,
) -> Result<MadeFinal, QueryError>
    requires fits { Fits earlier.now }
    requires groups { given.now.groups ≤ MAX_GROUPBYS }
    ensures given { Answers result (made_final given.now earlier.now op.now) }
    ensures numbers { IfOk result (λ _. final_number op.now < 2 ^ 64) }
{
    let groups = given.groups;
    match op {
        FinalOp::Filter(input, e) => check_filter(alloc, groups, earlier, *input, e),
        FinalOp::Map(input, columns) => {
            check_map(alloc, groups, earlier, *input, columns.as_slice())
        }
        FinalOp::Group(input, keys, fold_name) => {
            check_group(alloc, given, earlier, *input, keys.as_slice(), *fold_name)
        }
        FinalOp::Join(first, second) => check_join(alloc, groups, earlier, *first, *second),
        FinalOp::Top(input, column, kept, span) => {
            check_top(alloc, groups, earlier, *input, *column, *kept, *span)
        }
    }
}

// One more final.
fn add_final(
    alloc: Global,
    earlier: &mut Earlier,
    name: Name,
    made: MadeFinal,
) -> Result<(), AllocError>
    requires { length earlier.old.streams + length earlier.old.finals < MAX_BINDINGS }
    ensures { OnOk result (earlier.new ≡ with_final earlier.old name made) }
{
    let number = earlier.finals.len() as u16;
    let columns = copy_list(alloc, made.columns.as_slice())?;
    let view = TableView {
        place: PrintOf::Final(number),
        columns,
        keys: made.keys,
    };
    learn(earlier, name, Meaning::Final(view))?;
    earlier.finals.push(TypedFinal {
        name,
        columns: made.columns,
        keys: made.keys,
        op: made.op,
    })
}

/// One more final: its name is free, and then its operator is checked.
pub fn check_final(
    alloc: Global,
    given: &Given,
    earlier: &mut Earlier,
    d: &FinalDef,
) -> Result<(), QueryError>
    requires fits { Fits earlier.old }
    requires groups { given.now.groups ≤ MAX_GROUPBYS }
    ensures given { Leaves result earlier.new (final_checked given.now earlier.old d.now) }
    ensures numbers { OnOk result (final_number d.now.op < 2 ^ 64) }
{
    check_binding(earlier, d.name)?;
    let made = check_operator(alloc, given, earlier, &d.op)?;
    add_final(alloc, earlier, d.name, made)?;
    Ok(())
}
