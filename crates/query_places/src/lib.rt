//! Places in the text of a query that was read: its items, what stands at a byte, the statements that keep a fold from being
//! linear, additive or monotone, and where the infinity of a dropped packet is reckoned with.
#![tactic(auto)]

mod adding;
mod causes;
mod expressions;
mod fold_losses;
mod items;
mod known;
mod losses;
mod places;
mod reckoning;
mod statements;
mod values;

pub use adding::not_additive;
pub use causes::{Spoilt, not_linear, not_monotone};
pub use items::item_spans;
pub use places::{Place, place_at};
pub use reckoning::losses_of;
pub use statements::statement_at;
pub use values::{Cause, Form, Rule};
