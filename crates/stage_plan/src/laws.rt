//! Laws about the stages of plans, and what groupbys take from three packets, computed from the definition.

ghost use Rattle.std.specs.Prelude.{◌≡◌, ℕ, ◌≤◌, List, map};
ghost use Rattle.stage_plan.specs.{Placements.IsPlacement, Registers.stages_of, Shape.greatest, Sound.{PlanParts, IsSoundPlan}};
ghost use Rattle.stage_plan.specs.UseExamples.{FilteredUses, MappedUses, ZippedUses, FedUses};

/// A plan's operations are in a placement, and no placement of them, each after those that it reads, has fewer stages.
pub fn stages_are_fewest()
    ensures placed { (plan : PlanParts) → IsSoundPlan plan → IsPlacement plan.ops (map (λ one. one.stage) plan.ops) }
    ensures highest { (plan : PlanParts) → greatest (map (λ one. one.stage) plan.ops) ≡ stages_of plan.ops }
    ensures fewest { (plan : PlanParts) (stages : List ℕ) → IsSoundPlan plan → IsPlacement plan.ops stages
        → stages_of plan.ops ≤ greatest stages }
{}

/// A groupby after a filter, after a map and after a zip, and a groupby that feeds another.
pub fn small_uses()
    ensures filter { FilteredUses }
    ensures map { MappedUses }
    ensures zip { ZippedUses }
    ensures feeding { FedUses }
{}
