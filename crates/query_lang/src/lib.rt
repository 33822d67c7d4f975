//! The query language: its syntax trees, with and without names, and what folds and expressions mean.
#![tactic(auto)]

mod error;
mod eval;
mod fault;
mod fold;
pub mod laws;
pub mod lexis;
mod names;
mod query;
pub mod stream_laws;
mod token;
mod typed;
pub mod typing;

pub use error::QueryError;
pub use eval::eval_expr;
pub use fault::{
    FaultKind, Limit, MAX_ARGS, MAX_BINDINGS, MAX_GROUPBYS, MAX_KEYS, MAX_NESTING, MAX_NODES,
    MAX_QUERY, MAX_STAGES, MAX_STATEMENTS, MAX_STATES, QueryFault, Span,
};
pub use fold::{Op, TypedExpr, TypedFold, TypedStmt};
pub use names::Names;
pub use query::{
    Column, Expr, FinalDef, FinalOp, FoldDef, Item, Key, Name, Query, StateVar, Stmt, StreamDef,
    StreamOp,
};
pub use token::{Mark, Piece, Token, TokenKind, Word};
pub use typed::{Class, PrintOf, TypedFinal, TypedFinalOp, TypedOp, TypedQuery, TypedStream};
