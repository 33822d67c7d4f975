//! A plan, and what it does with a packet.

ghost use Rattle.std.specs.Prelude.{◌≡◌, ℕ, ◌+◌, ◌*◌, ◌^◌, ◌<◌, ◌≤◌, ◌==◌, map, length, slice_get, count_by, Some, IfOk};
ghost use Rattle.query_lang.specs.Words.{holds};
ghost use Rattle.stage_plan.specs.{Registers.{operand_value, stages_of}, Planned.{registers_of, packet_registers, wiring_at, plan_bound}};
ghost use Rattle.stage_plan.specs.Sound.{PlanParts, IsSoundPlan, IsChain};

use crate::bound::most_of_groups;
use crate::chain::longest_chain;
use crate::group::{GroupPlan, GroupWiring};
use crate::op::PlanOp;
use crate::rows::{copy_into, fill, operand_in};
use marple_base::{FIELDS, FieldSet, Packet, Seq, Steps};
use std::alloc::{AllocError, Global};
use std::marker::Model;
use std::sync::ledger::Ledger;

/// Operations in the order of their stages, and what the groupbys take of the registers that they fill.
pub struct Plan {
    reads: FieldSet,
    ops: Seq<PlanOp>,
    groups: Seq<GroupPlan>,
    wiring: Seq<GroupWiring>,
    chain: Seq<u32>,
}

impl Drop for Plan {
    fn drop(self) {
        let Plan {
            reads: _,
            ops: _,
            groups: _,
            wiring: _,
            chain: _,
        } = self;
    }
}

impl Model for Plan {
    ghost Value = { PlanParts };

    ghost view = { λ p. record { reads = p.reads; ops = p.ops; groups = p.groups; wiring = p.wiring } };

    ghost invariant = { λ p. IsSoundPlan (record { reads = p.reads; ops = p.ops; groups = p.groups; wiring = p.wiring })
        × IsChain p.ops p.chain };
}

impl Plan {
    /// The plan of exactly these parts. It fails only when it is out of memory.
    ///
    /// Each operation reads fields, earlier operations and numbers, and is in the stage after those of its operands, from 1 to 64; the
    /// operations are in the order of their stages. `wiring` has one entry for each groupby, with as many keys and arguments as it names.
    pub fn of_parts(
        alloc: Global,
        reads: FieldSet,
        ops: Seq<PlanOp>,
        groups: Seq<GroupPlan>,
        wiring: Seq<GroupWiring>,
    ) -> Result<Plan, AllocError>
        requires { IsSoundPlan (record { reads = reads; ops = ops; groups = groups; wiring = wiring }) }
        ensures { IfOk result (λ plan. plan ≡ record { reads = reads; ops = ops; groups = groups; wiring = wiring }) }
    {
        let chain = longest_chain(alloc, ops.as_slice())?;
        Ok(Plan {
            reads,
            ops,
            groups,
            wiring,
            chain,
        })
    }

    /// What holds of each plan.
    pub fn invariant(&self)
        ensures { IsSoundPlan self.now }
    {
        let _ = &self.ops;
    }

    /// The number of words that `row` needs: one for each field, and one for each operation.
    pub fn registers(&self) -> usize
        ensures { result ≡ registers_of self.now }
    {
        FIELDS + self.ops.len()
    }

    /// The number of operations.
    pub fn operations(&self) -> u32
        ensures { result ≡ length self.now.ops }
    {
        self.ops.len() as u32
    }

    /// The fields that the query names while packets pass.
    pub fn reads(&self) -> FieldSet
        ensures { result ≡ self.now.reads }
    {
        self.reads
    }

    /// The number of groupbys.
    pub fn groups(&self) -> u32
        ensures { result ≡ length self.now.groups }
    {
        self.groups.len() as u32
    }

    /// The groupby with this number, from 0.
    pub fn group(&self, i: u32) -> &GroupPlan
        requires { i < length self.now.groups }
        ensures { slice_get self.now.groups i ≡ Some result.now }
    {
        self.groups.get(i as usize)
    }

    /// What the groupby with this number takes of the registers.
    pub fn wiring(&self, i: u32) -> &GroupWiring
        requires { i < length self.now.groups }
        ensures { slice_get self.now.wiring i ≡ Some result.now }
    {
        self.wiring.get(i as usize)
    }

    /// The operation with this number, from 0.
    pub fn op(&self, number: u32) -> PlanOp
        requires { number < length self.now.ops }
        ensures { slice_get self.now.ops number ≡ Some result }
    {
        *self.ops.get(number as usize)
    }

    pub(crate) fn ops(&self) -> &[PlanOp]
        ensures ops { result.now ≡ self.now.ops }
        ensures few { length result.now ≤ 32768 }
    {
        self.ops.as_slice()
    }

    pub(crate) fn all_groups(&self) -> &[GroupPlan]
        ensures { result.now ≡ self.now.groups }
    {
        self.groups.as_slice()
    }

    /// The number of stages: the greatest one of an operation.
    pub fn stages(&self) -> u32
        ensures { result ≡ stages_of self.now.ops }
    {
        greatest_stage(self.ops.as_slice())
    }

    /// Numbers of operations, each an operand of the next: as many as there are stages.
    pub fn chain(&self) -> &[u32]
        ensures { IsChain self.now.ops result.now }
    {
        self.chain.as_slice()
    }

    /// The number of operations in a stage.
    pub fn stage_size(&self, stage: u32) -> u32
        requires some { 1 ≤ stage }
        requires most { stage ≤ stages_of self.now.ops }
        ensures { result ≡ count_by (λ one. one.stage == stage) self.now.ops }
    {
        in_stage(self.ops.as_slice(), stage)
    }

    /// The most steps that one packet takes, with caches of this many ways.
    pub fn bound(&self, ways: u32) -> u64
        ensures { result ≡ plan_bound self.now ways }
    {
        FIELDS as u64 + self.ops.len() as u64 + most_of_groups(self.groups.as_slice(), ways)
    }

    /// The registers of a packet: its words, and what each operation gives. All operations of a stage read the registers as
    /// they were before it.
    pub fn row<L: Ledger>(&self, p: &Packet, registers: &mut [u64], steps: &mut Steps<L>)
        requires { length registers.old ≡ registers_of self.now }
        ensures row { registers.new ≡ packet_registers self.now p.now.words }
        ensures steps { steps.new ≡ steps.old + registers_of self.now }
    {
        fill(&p.words, self.ops.as_slice(), registers, steps);
    }

    /// Whether the groupby's input has a tuple for the packet with these registers.
    pub fn present(&self, i: u32, registers: &[u64]) -> bool
        requires group { i < length self.now.groups }
        requires room { length registers.now ≡ registers_of self.now }
        ensures { result ≡ holds (operand_value registers.now (wiring_at self.now i).present) }
    {
        operand_in(self.wiring.get(i as usize).present, registers) != 0
    }

    /// The words of the groupby's key.
    pub fn key_into<L: Ledger>(
        &self,
        i: u32,
        registers: &[u64],
        key: &mut [u64],
        steps: &mut Steps<L>,
    )
        requires group { i < length self.now.groups }
        requires registers { length registers.now ≡ registers_of self.now }
        requires key { length key.old ≡ length (wiring_at self.now i).keys }
        ensures key { key.new ≡ map (operand_value registers.now) (wiring_at self.now i).keys }
        ensures steps { steps.new ≡ steps.old + length (wiring_at self.now i).keys }
    {
        copy_into(
            self.wiring.get(i as usize).keys.as_slice(),
            registers,
            key,
            steps,
        );
    }

    /// The words of the arguments of the groupby's fold.
    pub fn args_into<L: Ledger>(
        &self,
        i: u32,
        registers: &[u64],
        args: &mut [u64],
        steps: &mut Steps<L>,
    )
        requires group { i < length self.now.groups }
        requires registers { length registers.now ≡ registers_of self.now }
        requires args { length args.old ≡ length (wiring_at self.now i).args }
        ensures args { args.new ≡ map (operand_value registers.now) (wiring_at self.now i).args }
        ensures steps { steps.new ≡ steps.old + length (wiring_at self.now i).args }
    {
        copy_into(
            self.wiring.get(i as usize).args.as_slice(),
            registers,
            args,
            steps,
        );
    }
}

// The greatest stage of an operation, or 0.
pub(crate) fn greatest_stage(ops: &[PlanOp]) -> u32
    ensures { result ≡ stages_of ops.now }
{
    let mut stages = 0;
    for at in (0..ops.len()).rev() {
        stages = ops[at].stage.max(stages);
    }
    stages
}

pub(crate) fn in_stage(ops: &[PlanOp], stage: u32) -> u32
    requires { length ops.now ≤ 32768 }
    ensures { result ≡ count_by (λ one. one.stage == stage) ops.now }
{
    let mut size: u32 = 0;
    for one in ops {
        if one.stage == stage {
            size += 1;
        }
    }
    size
}
