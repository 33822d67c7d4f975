//! The text of a plan.

ghost use Rattle.std.specs.Prelude.{◌≡◌, None, IfOk};
ghost use Rattle.query_lang.specs.TypedQueries.{IsValidQuery};
ghost use Rattle.stage_plan.specs.Planned.{IsPlanOf};
ghost use Rattle.plan_writer.specs.PlanText.{compiled_text, final_fault};

use crate::groups::push_groups;
use crate::lines::{push_head, push_prints};
use crate::operations::push_ops;
use marple_base::Text;
use query_lang::TypedQuery;
use stage_plan::Plan;
use std::alloc::{AllocError, Global};

/// The text of a query's plan, where the query has no final: the fields that it reads, its operations in ascending stage, its
/// groupbys, and which of them are printed. Each line ends with LF. It fails only out of memory.
#[tactic(auto, unfolding(crate::specs::PlanText::compiled_text))]
pub fn plan_file_text(alloc: Global, q: &TypedQuery, p: &Plan) -> Result<Text, AllocError>
    requires valid { IsValidQuery q.now }
    requires plan { IsPlanOf q.now p.now }
    requires no_finals { final_fault q.now ≡ None }
    ensures { IfOk result (λ text. text ≡ compiled_text q.now) }
{
    let mut text = Text::new(alloc);
    push_head(&mut text, p.reads())?;
    push_ops(&mut text, p)?;
    push_groups(alloc, &mut text, q, p)?;
    push_prints(&mut text, q.prints.as_slice())?;
    Ok(text)
}
