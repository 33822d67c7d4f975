//! Laws about queries, by the definitions alone: the typing of queries as rules, in the way of inference rules, with no order of
//! tests and no faults, and that the checks give exactly what the rules do; what each fault says in the words of the rules; which
//! texts are accepted, that what is accepted is valid, and what holds of the tuples of each stream.
#![tactic(auto)]

mod acceptance;
mod faults;
mod tuples;
mod typing;
mod validity;

pub use acceptance::{accepted_by_rules, accepted_once, refused_by_rules, small_forms};
pub use faults::{demands_are_rules, faults_break_rules};
pub use tuples::{
    packets_are_of_the_trace, packets_ascend, rows_fill_their_columns, zipped_columns_agree,
    zips_keep_columns,
};
pub use typing::{
    conditions_agree, faults_have_no_form, finals_agree, folds_agree, one_typed_form,
    queries_agree, streams_agree, words_agree,
};
pub use validity::{accepted_are_valid, accepted_start_as_words, numbers_are_words};
