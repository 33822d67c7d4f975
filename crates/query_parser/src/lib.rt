//! Reads a query: its text is cut into tokens, and those into items.
#![tactic(auto)]

mod expression;
mod final_table;
mod fold;
mod halt;
mod item;
mod lexer;
mod operators;
mod parts;
mod reader;
mod reading;
mod statement;
mod stream;
mod word;

pub use lexer::{Lexed, cut_text};
pub use reading::parse;
