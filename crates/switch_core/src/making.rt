//! The lanes of a plan's groupbys.

ghost use Rattle.std.specs.Prelude.{◌≡◌, ◌<◌, ◌≤◌, length, IfOk};
ghost use Rattle.fold_class.specs.Program.{IsProgram};
ghost use Rattle.epoch_model.specs.Machine.{empty_machine};
ghost use Rattle.switch_core.specs.{FrontParts.AreSizes, Rows.Each, Pipelines.{empty_machines, geometry_without_refresh}};
ghost use Rattle.switch_core.specs.PlanLanes.{AreLanesOf, HasKindFor, HavePlaces, IsMadeFor, StandsFor};

use crate::lane::Lane;
use epoch_entry::{AnyEpochs, Entries, entries_are_small, entries_suit_folds};
use query_lang::MAX_KEYS;
use stage_plan::{GroupPlan, Plan};
use std::alloc::{AllocError, Global};

fn made_lane<const WAYS: usize>(
    alloc: Global,
    group: &GroupPlan,
    entries: Entries,
    buckets: u32,
    pipe_records: u32,
) -> Result<Lane<AnyEpochs, WAYS>, AllocError>
    requires sizes { AreSizes WAYS buckets pipe_records }
    requires program { IsProgram group.now.program }
    requires keys { (0 < length group.now.key_names) × (length group.now.key_names ≤ MAX_KEYS) }
    ensures stands { IfOk result (λ lane. StandsFor lane (empty_machine (geometry_without_refresh WAYS buckets))) }
    ensures buckets { IfOk result (λ lane. length lane.cache.lists ≡ buckets) }
    ensures pipe_places { IfOk result (λ lane. lane.pipe.places ≡ pipe_records) }
    ensures keys { IfOk result (λ lane. lane.cache.key_words ≡ length group.now.key_names) }
    ensures kind { IfOk result (λ lane. HasKindFor entries lane group.now) }
    ensures made { IfOk result (λ lane. IsMadeFor lane group.now) }
{
    entries_are_small();
    let kind = AnyEpochs::for_entries(entries, group.program.copy(alloc)?);
    Lane::new(alloc, kind, buckets, group.key_names.len(), pipe_records)
}

/// A lane for each groupby of a plan.
pub fn made_lanes<const WAYS: usize>(
    alloc: Global,
    plan: &Plan,
    entries: Entries,
    buckets: u32,
    pipe_records: u32,
) -> Result<Vec<Lane<AnyEpochs, WAYS>>, AllocError>
    requires { AreSizes WAYS buckets pipe_records }
    ensures lanes { IfOk result (λ lanes. AreLanesOf entries plan.now buckets lanes.items) }
    ensures made { IfOk result (λ lanes. Each IsMadeFor lanes.items plan.now.groups) }
    ensures pipe_places { IfOk result (λ lanes. HavePlaces pipe_records lanes.items) }
    ensures stands { IfOk result (λ lanes. Each StandsFor lanes.items
        (empty_machines (geometry_without_refresh WAYS buckets) plan.now.groups)) }
{
    entries_suit_folds();
    plan.invariant();
    let mut lanes = Vec::new(alloc);
    for i in 0..plan.groups() {
        let lane = made_lane(alloc, plan.group(i), entries, buckets, pipe_records)?;
        lanes.push(lane)?;
    }
    Ok(lanes)
}
