//! The text of a plan: what its lines say, which lines are valid after those before them, and where a text is refused.
#![tactic(auto)]

mod fold_line;
mod group_lines;
mod lexemes;
mod lexis;
mod line_word;
mod lines;
mod made;
mod named;
mod operations;
mod reads;
mod texts;
mod tree;
mod wants;

pub use fold_line::fold_of;
pub use lexemes::Lexeme;
pub use line_word::LineWord;
pub use made::{Folded, Group, Made};
pub use texts::{MAX_PLAN, read_text};
