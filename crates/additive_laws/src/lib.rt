//! Laws of folds that only add: their rows can come in any order, so the epochs of several switches can be merged in any order.
//! And laws of a trace's packets by switch: what the machines of all switches close of them, and what the store that merges it has.
#![tactic(auto)]

mod folds;
mod traces;

pub use folds::{
    additive_state_is_a_sum, additive_step_adds, pieces_merge_in_any_order, rows_come_in_any_order,
    store_folds_all_packets, switches_do_not_wait,
};
pub use traces::{
    epochs_add_up, epochs_of_one_switch, merged_keys_are_used, own_epochs, runs_give_the_trace,
    runs_have_packets,
};
