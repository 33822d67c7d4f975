//! Several switches whose epochs are merged into one store for each groupby, and what the merged epochs give.
#![tactic(auto)]

ghost use Rattle.net_wide.specs.NetTables.{net_text};

mod check;
mod ends;
mod laws;
mod numbering;

pub use check::net_check;
pub use ends::{merged_make_the_table, net_tables_are_read, pieces_are_the_epochs};
pub use laws::{keys_of_one_switch, switches_do_not_wait, uses_are_the_switchs};
pub use numbering::number_switch;
