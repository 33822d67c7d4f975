//! The groupbys of a plan, side by side.

ghost use Rattle.std.specs.{Prelude.{◌≡◌, ◌+◌, ◌<◌, ◌≤◌, ℕ, List, [], true, length, All, sum_by, IfOk, OnOk, OnErr}, List.list_all};
ghost use Rattle.epoch_model.specs.{Driving.event_of, Machine.Epoch};
ghost use Rattle.stage_plan.specs.{Planned.{registers_of, wiring_at}, Registers.taken_at, Sound.PlanParts};
ghost use Rattle.switch_core.specs.{FrontParts.AreSizes, Rows.Each};
ghost use Rattle.network.specs.Groups.{AreGroups, GroupGrows, GroupStands, StoresHold, group_is_drained, shared_tables, with_first};
ghost use Rattle.network.specs.{Events.{AreAllMerged, AtGroup, GroupsMake, StoresStay, is_ready_at}, Costs.group_cost};

use crate::group::Group;
use final_queries::Table;
use marple_base::{Seq, Steps};
use query_lang::{MAX_ARGS, MAX_KEYS};
use stage_plan::Plan;
use std::alloc::{AllocError, Global};
use std::sync::ledger::Ledger;

/// What each groupby of a plan has before there is a switch.
pub fn made_groups<const WAYS: usize>(
    alloc: Global,
    plan: &Plan,
) -> Result<Vec<Group<WAYS>>, AllocError>
    ensures are { IfOk result (λ groups. AreGroups plan.now 0 groups.items) }
    ensures stand { IfOk result (λ groups. (buckets : ℕ) → All (λ group. GroupStands WAYS buckets group [] []) groups.items) }
{
    plan.invariant();
    let mut groups = Vec::new(alloc);
    for i in 0..plan.groups() {
        let group = Group::new(alloc, plan.group(i))?;
        groups.push(group)?;
    }
    Ok(groups)
}

fn keep_switches<const WAYS: usize>(groups: &mut [Group<WAYS>], switches: usize)
    ensures { Each (λ old new. new ≡ with_first switches old) groups.old groups.new }
{
    for i in 0..groups.len() {
        let group = &mut groups[i];
        group.keep_switches(switches);
    }
}

/// Makes the caches and pipes of the next switch at each groupby; when out of memory, at none.
pub fn add_switch<const WAYS: usize>(
    alloc: Global,
    plan: &Plan,
    groups: &mut [Group<WAYS>],
    switches: usize,
    buckets: u32,
    pipe_records: u32,
) -> Result<(), AllocError>
    requires sizes { AreSizes WAYS buckets pipe_records }
    requires groups { AreGroups plan.now switches groups.old }
    ensures are { OnOk result ((switches : ℕ) → AreGroups plan.now switches groups.old
        → AreGroups plan.now (switches + 1) groups.new) }
    ensures grow { OnOk result (Each (GroupGrows WAYS buckets pipe_records) groups.old groups.new) }
    ensures err { OnErr result (groups.new ≡ groups.old) }
{
    plan.invariant();
    for i in 0..groups.len() {
        let group = &mut groups[i];
        match group.add_switch(alloc, plan.group(i as u32), buckets, pipe_records) {
            Ok(()) => {}
            Err(AllocError) => {
                keep_switches(groups, switches);
                return Err(AllocError);
            }
        }
    }
    Ok(())
}

/// Whether the pipe of a switch has room for a record at every groupby.
pub fn all_ready<const WAYS: usize>(groups: &[Group<WAYS>], at: usize) -> bool
    requires { (plan : PlanParts) × (switches : ℕ) × (at < switches) × AreGroups plan switches groups.now }
    ensures { result ≡ list_all (is_ready_at at) groups.now }
{
    for group in groups {
        if !group.ready(at) {
            return false;
        }
    }
    true
}

/// Makes the packet event of this switch at each groupby that takes something from these registers.
pub fn packet_groups<const WAYS: usize, L: Ledger>(
    plan: &Plan,
    registers: &[u64],
    at: usize,
    groups: &mut [Group<WAYS>],
    key: &mut [u64],
    args: &mut [u64],
    steps: &mut Steps<L>,
)
    requires groups { (switches : ℕ) × (at < switches) × AreGroups plan.now switches groups.old }
    requires ready { list_all (is_ready_at at) groups.old ≡ true }
    requires registers { length registers.now ≡ registers_of plan.now }
    requires key { length key.old ≡ MAX_KEYS }
    requires args { length args.old ≡ MAX_ARGS }
    ensures makes { GroupsMake WAYS at (λ n. event_of (taken_at (wiring_at plan.now n) registers.now)) groups.old groups.new }
    ensures stores { StoresStay groups.old groups.new }
    ensures steps { steps.old ≤ steps.new }
    ensures cost { steps.new ≤ steps.old + sum_by (group_cost WAYS at) groups.old }
{
    plan.invariant();
    for i in 0..groups.len() {
        let group = &mut groups[i];
        group.packet(plan, i as u32, registers, at, key, args, steps);
    }
}

/// Whether all caches and pipes of all groupbys are empty.
pub fn all_drained<const WAYS: usize>(groups: &[Group<WAYS>]) -> bool
    ensures value { result ≡ list_all group_is_drained groups.now }
    ensures done { result ≡ true → (n : ℕ) → AtGroup (AreAllMerged WAYS) groups.now n }
{
    for group in groups {
        if !group.drained() {
            return false;
        }
    }
    true
}

/// The tables of the epochs that the stores hold, in the order of the groupbys.
pub fn group_tables<const WAYS: usize>(
    alloc: Global,
    plan: &Plan,
    groups: &[Group<WAYS>],
) -> Result<Seq<Table>, AllocError>
    requires groups { (switches : ℕ) × AreGroups plan.now switches groups.now }
    ensures { IfOk result (λ tables. (epochs : List (List Epoch)) → StoresHold groups.now epochs
        → tables ≡ shared_tables plan.now.groups groups.now epochs) }
{
    plan.invariant();
    let mut tables = Seq::new(alloc);
    for i in 0..groups.len() {
        let group = &groups[i];
        tables.push(group.table(alloc, plan.group(i as u32))?)?;
    }
    Ok(tables)
}
