//! Laws of accepted queries over several switches: which keys are the packet's word of a field, and that the order of packets
//! of different switches changes nothing. Each law is the contract of a function whose body only calls laws.
//! Two functions beside them find the columns, and the `map`s of streams, that have a field's name.
#![tactic(auto)]

mod field_keys;
mod field_names;
mod switch_order;

pub use field_keys::keys_are_fields;
pub use field_names::{makes_field, names_field};
pub use switch_order::{
    accepted_tell_switches, neighbours_may_change_places, switch_order_is_free,
};
