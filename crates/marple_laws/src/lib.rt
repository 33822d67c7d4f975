//! Laws of what the program does: that each text has one source for each command, that each plan's text is valid or refused, that
//! what `compile` writes of a query runs as the query, and what `gen` writes as the trial; that the bounds of accepted operands hold,
//! that no call over means that never fail ends in their fault, what the pipeline that a command leaves gives, and what holds of its
//! lanes after any events.
#![tactic(auto)]

mod accepted_texts;
mod lanes;
mod laws;
mod left;
mod query_texts;
mod readings;
mod sound;
mod trial_runs;

pub use accepted_texts::{accepted_compile_and_run, accepted_have_plan_texts, accepted_have_plans};
pub use lanes::lanes_keep_keys_in_buckets;
pub use laws::{
    accepted_bounds_hold, compiled_plans_run_as_queries, sources_are_one, sources_are_there,
    trials_write_what_runs_write,
};
pub use left::{plans_stand_for_their_texts, tables_left};
pub use query_texts::{
    compile_then_run, written_plan_is_valid, written_plan_reads_as_the_query,
    written_plan_runs_as_the_query,
};
pub use readings::{every_text_is_read, texts_are_read_once};
pub use sound::{into_a_sound_sink, over_sound_inputs, sound_call};
pub use trial_runs::trials_run_over_texts;
