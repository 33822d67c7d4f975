//! The groupbys of a plan.

ghost use Rattle.std.specs.Prelude.{◌≡◌, ℕ, ◌<◌, ◌≤◌, ◌∷◌, ◌++◌, [], Some, length, map, flat_map, codes, decimal, option_to_list, IfOk};
ghost use Rattle.std.specs.{Prelude.OnOk, List.range_with_len};
ghost use Rattle.query_lang.specs.{Folds.fold_block, Streams.{taking_of, takings}, TypedQueries.IsValidQuery};
ghost use Rattle.stage_plan.specs.{Planned.{IsPlanOf, fold_at}, Shape.{class_word, group_shape}};
ghost use Rattle.plan_writer.specs.{Words.{spaced, line, operand_word, block_words}, PlanText.{named_lines, group_lines, group_text}};

use crate::bodies::push_body;
use crate::words::{push_number, push_operand, push_word};
use marple_base::{Seq, Text};
use query_lang::{Class, MAX_STATES, TypedFold, TypedOp, TypedQuery, TypedStream};
use stage_plan::{GroupPlan, GroupWiring, Operand, Plan, class_name};
use std::alloc::{AllocError, Global};

// A line of a word, a name and an operand.
fn push_named(text: &mut Text, word: &[u8], name: &[u8], value: Operand) -> Result<(), AllocError>
    ensures { OnOk result (text.new ≡ text.old ++ line word.now (name.now ∷ operand_word value ∷ [])) }
{
    text.push_slice(word)?;
    push_word(text, name)?;
    push_operand(text, value)?;
    text.push(b'\n')
}

fn push_keys(text: &mut Text, names: &[Text], values: &[Operand]) -> Result<(), AllocError>
    ensures { OnOk result (text.new ≡ text.old ++ named_lines (codes "key") names.now (map operand_word values.now)) }
{
    for at in 0..names.len().min(values.len()) {
        push_named(text, b"key", names[at].as_slice(), values[at])?;
    }
    Ok(())
}

fn push_arg(text: &mut Text, value: Operand) -> Result<(), AllocError>
    ensures { OnOk result (text.new ≡ text.old ++ line (codes "arg") (operand_word value ∷ [])) }
{
    text.push_slice(b"arg")?;
    push_operand(text, value)?;
    text.push(b'\n')
}

fn push_args(text: &mut Text, values: &[Operand]) -> Result<(), AllocError>
    ensures { OnOk result (text.new ≡ text.old ++ flat_map (λ a. line (codes "arg") (operand_word a ∷ [])) values.now) }
{
    for value in values {
        push_arg(text, *value)?;
    }
    Ok(())
}

fn push_state(text: &mut Text, name: &[u8], initial: u64) -> Result<(), AllocError>
    ensures { OnOk result (text.new ≡ text.old ++ line (codes "state") (name.now ∷ decimal initial ∷ [])) }
{
    text.push_slice(b"state")?;
    push_word(text, name)?;
    push_number(text, initial)?;
    text.push(b'\n')
}

fn push_states(text: &mut Text, names: &[Text], initial: &[u64]) -> Result<(), AllocError>
    ensures { OnOk result (text.new ≡ text.old ++ named_lines (codes "state") names.now (map decimal initial.now)) }
{
    for at in 0..names.len().min(initial.len()) {
        push_state(text, names[at].as_slice(), initial[at])?;
    }
    Ok(())
}

fn push_statements(text: &mut Text, f: &TypedFold) -> Result<(), AllocError>
    requires { length f.now.state_names < 65536 }
    ensures { OnOk result (text.new ≡ text.old ++ line (codes "body") (block_words (length f.now.state_names) (fold_block f.now))) }
{
    text.push_slice(b"body")?;
    push_body(text, f.state_names.len() as u16, f.body.as_slice())?;
    text.push(b'\n')
}

fn push_bounds(
    text: &mut Text,
    class: Class,
    depth: u8,
    nodes: u32,
    statements: u32,
) -> Result<(), AllocError>
    ensures { OnOk result (text.new
        ≡ text.old ++ line (codes "fold") (class_word class ∷ decimal depth ∷ decimal nodes ∷ decimal statements ∷ [])) }
{
    text.push_slice(b"fold")?;
    push_word(text, class_name(class))?;
    push_number(text, u64::from(depth))?;
    push_number(text, u64::from(nodes))?;
    push_number(text, u64::from(statements))?;
    text.push(b'\n')
}

fn push_group(
    text: &mut Text,
    group: &GroupPlan,
    wiring: &GroupWiring,
    f: &TypedFold,
) -> Result<(), AllocError>
    requires { length f.now.state_names < 65536 }
    ensures { OnOk result (text.new ≡ text.old ++ group_lines (group_shape group.now) wiring.now f.now) }
{
    push_named(text, b"group", group.name.as_slice(), wiring.present)?;
    push_keys(text, group.key_names.as_slice(), wiring.keys.as_slice())?;
    push_args(text, wiring.args.as_slice())?;
    push_states(text, group.state_names.as_slice(), f.initial.as_slice())?;
    push_statements(text, f)?;
    let program = &group.program;
    push_bounds(
        text,
        program.class,
        program.depth,
        program.layout.nodes,
        program.layout.statements,
    )
}

// The number of an operator's fold, where it is a groupby.
fn push_number_of(all: &mut Seq<u16>, op: &TypedOp) -> Result<(), AllocError>
    ensures { OnOk result (all.new ≡ all.old ++ map (λ t. t.fold_number) (option_to_list (taking_of op.now))) }
{
    match op {
        TypedOp::Group(_, _, number, _) => all.push(*number),
        _ => Ok(()),
    }
}

// The numbers of the groupbys' folds.
fn fold_numbers(alloc: Global, streams: &[TypedStream]) -> Result<Seq<u16>, AllocError>
    ensures { IfOk result (λ all. all ≡ map (λ t. t.fold_number) (takings streams.now)) }
{
    let mut all = Seq::new(alloc);
    for one in streams {
        push_number_of(&mut all, &one.op)?;
    }
    Ok(all)
}

fn fold_of<'a>(q: &'a TypedQuery, numbers: &[u16], i: u32) -> &'a TypedFold
    requires valid { IsValidQuery q.now }
    requires numbers { numbers.now ≡ map (λ t. t.fold_number) (takings q.now.streams) }
    requires groupby { i < length numbers.now }
    ensures found { fold_at q.now i ≡ Some result.now }
    ensures states { length result.now.state_names ≤ MAX_STATES }
{
    q.folds.get(usize::from(numbers[i as usize]))
}

fn push_group_at(
    text: &mut Text,
    q: &TypedQuery,
    p: &Plan,
    numbers: &[u16],
    i: u32,
) -> Result<(), AllocError>
    requires valid { IsValidQuery q.now }
    requires plan { IsPlanOf q.now p.now }
    requires numbers { numbers.now ≡ map (λ t. t.fold_number) (takings q.now.streams) }
    requires groupby { i < length p.now.groups }
    ensures { OnOk result (text.new ≡ text.old ++ group_text q.now i) }
{
    push_group(text, p.group(i), p.wiring(i), fold_of(q, numbers, i))?;
    Ok(())
}

/// The lines of a plan's groupbys.
pub(crate) fn push_groups(
    alloc: Global,
    text: &mut Text,
    q: &TypedQuery,
    p: &Plan,
) -> Result<(), AllocError>
    requires valid { IsValidQuery q.now }
    requires plan { IsPlanOf q.now p.now }
    ensures { OnOk result (text.new ≡ text.old ++ flat_map (group_text q.now) (range_with_len 0 (length (takings q.now.streams)))) }
{
    let numbers = fold_numbers(alloc, q.streams.as_slice())?;
    for i in 0..p.groups() {
        push_group_at(text, q, p, numbers.as_slice(), i)?;
    }
    Ok(())
}
