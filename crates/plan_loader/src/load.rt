//! The text of a plan to the plan.

ghost use Rattle.std.specs.Prelude.{◌≡◌, ℕ, IfOk, MatchResult};
ghost use Rattle.plan_file.specs.Texts.{IsBadAt, IsOnlyAnswer, IsRefused};
ghost use Rattle.plan_loader.specs.{Loaded.{HasBoundOf, IsLoaded, IsLoadedFrom}, Meaning.reads_in, Parts.IsSoundMade};

use crate::groups::{set_read, wired_groups};
use crate::loaded::LoadedPlan;
use marple_base::{FieldSet, Seq};
use plan_file::{Folded, Made, read_text};
use query_lang::QueryError;
use stage_plan::{Plan, PlanOp};
use std::alloc::{AllocError, Global};

// What a plan takes of what the lines of a text make.
struct Parts {
    reads: FieldSet,
    ops: Seq<PlanOp>,
    groups: Seq<Folded>,
    prints: Seq<u16>,
}

// The parts of what the lines of a text make; the rest is let go.
fn parts_of(made: Made) -> Parts
    ensures { result ≡ record { reads = reads_in made; ops = made.ops; groups = made.groups; prints = made.prints } }
{
    Parts {
        reads: set_read(&made.reads),
        ops: made.ops,
        groups: made.groups,
        prints: made.prints,
    }
}

fn plan_of(alloc: Global, made: Made) -> Result<LoadedPlan, AllocError>
    requires { IsSoundMade made }
    ensures { IfOk result (IsLoadedFrom made) }
{
    let Parts {
        reads,
        ops,
        groups,
        prints,
    } = parts_of(made);
    let (plans, wirings) = wired_groups(alloc, groups)?;
    let plan = Plan::of_parts(alloc, reads, ops, plans, wirings)?;
    Ok(LoadedPlan { plan, prints })
}

/// The plan of a valid text. Any other text is refused at the first line that isn't valid after the lines before it, or
/// after its last byte where it ends too early, or after the most bytes where it is too long. A text is refused
/// nowhere if it is valid, and otherwise at one place.
pub fn read_plan(alloc: Global, text: &[u8]) -> Result<LoadedPlan, QueryError>
    ensures answer { MatchResult result (IsLoaded text.now) (IsRefused text.now) }
    ensures bound { IfOk result (HasBoundOf text.now) }
    ensures exact { MatchResult result (λ loaded. (place : ℕ) → IsBadAt text.now place → ⊥) (IsOnlyAnswer text.now) }
{
    let made = read_text(alloc, text)?;
    let loaded = plan_of(alloc, made)?;
    Ok(loaded)
}
