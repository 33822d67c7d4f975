//! The groupbys of a plan by the groups of its text.

ghost use Rattle.std.specs.Prelude.{◌≡◌, map, unwrap_or, [], All, IfOk};
ghost use Rattle.marple_base.specs.Field.{field_set};
ghost use Rattle.query_lang.specs.declared.fold.TypedFold.{TypedFold as AnyFold};
ghost use Rattle.fold_class.specs.Program.{IsProgramOf};
ghost use Rattle.plan_loader.specs.{Meaning.wiring_in, Parts.{AreGroupsFrom, IsFoldIn, IsGroupFrom, IsWhole}};

use fold_class::{FoldProgram, classify};
use fold_code::compile;
use marple_base::{Field, FieldSet, Seq};
use plan_file::{Folded, Group, fold_of};
use stage_plan::{GroupPlan, GroupWiring};
use std::alloc::{AllocError, Global};

fn set_of(fields: &[Field]) -> FieldSet
    ensures { result ≡ field_set fields.now }
{
    let mut set = FieldSet::EMPTY;
    for field in fields {
        set = set.with(*field);
    }
    set
}

/// The set of the fields that are read, where they are named.
pub(crate) fn set_read(reads: &Option<Seq<Field>>) -> FieldSet
    ensures { result ≡ field_set (unwrap_or reads.now []) }
{
    match reads {
        Some(fields) => set_of(fields.as_slice()),
        None => FieldSet::EMPTY,
    }
}

fn program_of(alloc: Global, one: &Folded) -> Result<FoldProgram, AllocError>
    requires { IsWhole one.now }
    ensures { IfOk result (λ program. (fold : AnyFold) × IsFoldIn one.now fold × IsProgramOf fold program) }
{
    match fold_of(alloc, &one.group, one.nodes, one.statements)? {
        Some(fold) => { classify(alloc, &fold, compile(alloc, &fold)?) }
        None => unreachable!(),
    }
}

// The groupby of a group, and what it takes of a packet's registers.
fn wired_group(alloc: Global, one: Folded) -> Result<(GroupPlan, GroupWiring), AllocError>
    requires { IsWhole one }
    ensures group { IfOk result (λ made. IsGroupFrom one made.0) }
    ensures wiring { IfOk result (λ made. made.1 ≡ wiring_in one) }
{
    let program = program_of(alloc, &one)?;
    let Group {
        name,
        present,
        key_names,
        keys,
        args,
        state_names,
        initial: _,
        body: _,
    } = one.group;
    let group = GroupPlan {
        name,
        key_names,
        state_names,
        program,
    };
    let wiring = GroupWiring {
        present,
        keys,
        args,
    };
    Ok((group, wiring))
}

/// The groupbys of groups, in order, and what each takes.
pub(crate) fn wired_groups(
    alloc: Global,
    groups: Seq<Folded>,
) -> Result<(Seq<GroupPlan>, Seq<GroupWiring>), AllocError>
    requires { All IsWhole groups }
    ensures groups { IfOk result (λ made. AreGroupsFrom groups made.0) }
    ensures wiring { IfOk result (λ made. made.1 ≡ map wiring_in groups) }
{
    let mut plans = Seq::new(alloc);
    let mut wirings = Seq::new(alloc);
    for one in groups.into_vec() {
        let (plan, wiring) = wired_group(alloc, one)?;
        plans.push(plan)?;
        wirings.push(wiring)?;
    }
    Ok((plans, wirings))
}
