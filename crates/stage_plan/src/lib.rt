//! The on-line part of a typed query as stages of operations on registers, and what its groupbys take of each packet.
#![tactic(auto)]

mod bound;
mod chain;
mod fields;
mod group;
mod groups;
mod laws;
mod making;
mod op;
mod order;
mod planner;
mod plans;
mod rows;
mod streams;
mod text;
mod wires;

pub use group::{GroupPlan, GroupWiring};
pub use laws::{small_uses, stages_are_fewest};
pub use op::{FIRST_RESULT, Operand, Operation, PlanOp};
pub use planner::plan;
pub use plans::Plan;
pub use text::{class_name, plan_text};
