//! A plan that is read from its text: what the text means, and the plan that carries it out.
#![tactic(auto)]

mod groups;
mod laws;
mod load;
mod loaded;

pub use laws::{bodies_are_read, one_plan_fault, texts_say_one};
pub use load::read_plan;
pub use loaded::LoadedPlan;
