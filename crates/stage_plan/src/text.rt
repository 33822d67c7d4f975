//! The text of a plan.

ghost use Rattle.std.specs.Prelude.{◌≡◌, ◌∷◌, ◌++◌, [], ◌<◌, ◌≤◌, length, map, flat_map, codes, IfOk, OnOk};
ghost use Rattle.stage_plan.specs.{Planned.shape_of, Registers.stages_of};
ghost use Rattle.stage_plan.specs.Shape.{counted, line, class_word, stage_lines, sizes_of, group_line, group_shape, plan_text_of};

use crate::group::GroupPlan;
use crate::op::PlanOp;
use crate::plans::{Plan, in_stage};
use marple_base::{Text, decimal};
use query_lang::Class;
use std::alloc::{AllocError, Global};

// A word, a blank and a number.
fn push_counted(alloc: Global, text: &mut Text, word: &[u8], n: u64) -> Result<(), AllocError>
    ensures { OnOk result (text.new ≡ text.old ++ counted word.now n) }
{
    text.push_slice(word)?;
    text.push(b' ')?;
    text.push_slice(decimal(alloc, n)?.as_slice())
}

fn push_line(alloc: Global, text: &mut Text, word: &[u8], n: u64) -> Result<(), AllocError>
    ensures { OnOk result (text.new ≡ text.old ++ line (counted word.now n)) }
{
    push_counted(alloc, text, word, n)?;
    text.push(b'\n')
}

fn push_stage(alloc: Global, text: &mut Text, stage: u32, size: u32) -> Result<(), AllocError>
    ensures { OnOk result (text.new ≡ text.old ++ line (counted (counted (codes "stage") stage) size)) }
{
    push_counted(alloc, text, b"stage", u64::from(stage))?;
    push_line(alloc, text, b"", u64::from(size))
}

fn push_stages(
    alloc: Global,
    text: &mut Text,
    ops: &[PlanOp],
    stages: u32,
) -> Result<(), AllocError>
    requires { length ops.now ≤ 32768 }
    ensures { OnOk result (text.new ≡ text.old ++ stage_lines 1 (sizes_of stages (map (λ one. one.stage) ops.now))) }
{
    for before in 0..stages {
        push_stage(alloc, text, before + 1, in_stage(ops, before + 1))?;
    }
    Ok(())
}

/// The word of a class.
pub fn class_name(class: Class) -> &'static [u8]
    ensures { result.now ≡ class_word class }
{
    match class {
        Class::Linear => b"linear",
        Class::Other => b"other",
    }
}

fn push_group(alloc: Global, text: &mut Text, group: &GroupPlan) -> Result<(), AllocError>
    ensures { OnOk result (text.new ≡ text.old ++ group_line (group_shape group.now)) }
{
    text.push_slice(b"groupby ")?;
    text.push_slice(group.name.as_slice())?;
    text.push(b' ')?;
    let program = &group.program;
    push_counted(
        alloc,
        text,
        class_name(program.class),
        u64::from(program.depth),
    )?;
    push_counted(alloc, text, b" keys", group.key_names.len() as u64)?;
    push_counted(alloc, text, b" args", u64::from(program.layout.args))?;
    push_line(alloc, text, b" states", group.state_names.len() as u64)
}

fn push_groups(alloc: Global, text: &mut Text, groups: &[GroupPlan]) -> Result<(), AllocError>
    ensures { OnOk result (text.new ≡ text.old ++ flat_map group_line (map group_shape groups.now)) }
{
    for group in groups {
        push_group(alloc, text, group)?;
    }
    Ok(())
}

/// The text of a plan: its stages, its operations, the operations of each stage, its groupbys, and the bound for this number of ways.
pub fn plan_text(alloc: Global, p: &Plan, ways: u32) -> Result<Text, AllocError>
    ensures { IfOk result (λ text. text ≡ plan_text_of (shape_of p.now) ways) }
{
    let mut text = Text::new(alloc);
    push_line(alloc, &mut text, b"stages", u64::from(p.stages()))?;
    push_line(alloc, &mut text, b"operations", u64::from(p.operations()))?;
    push_stages(alloc, &mut text, p.ops(), p.stages())?;
    push_groups(alloc, &mut text, p.all_groups())?;
    push_line(alloc, &mut text, b"bound", p.bound(ways))?;
    Ok(text)
}
