//! Tables: what a query shows of a groupby, and what is made of such tables.
#![tactic(auto)]

mod grouped;
mod joined;
mod keys;
mod laws;
mod rows;
mod run;
mod table;
mod top;
mod value;

pub use epoch_model::Mark;
pub use laws::{
    alike_foldings_make_one_table, closed_give_the_group_table, final_tables_are_read,
    group_tables_are_read,
};
pub use run::run_final;
pub use table::{Table, TableKind};
pub use table_rows::{RowRef, Rows};
