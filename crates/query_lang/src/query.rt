//! A query as it is read: items in order, with names as numbers and the places of their tokens.

use crate::fault::Span;
use crate::fold::Op;
use crate::names::Names;
use marple_base::{Boxed, Seq};

/// A name, by its number among the names of the text, and where it is.
#[derive(Clone, Copy, PartialEq, Eq)]
pub struct Name {
    pub id: u32,
    pub span: Span,
}

/// The items of a text in order, its names, and the place of its end.
#[derive(Drop)]
pub struct Query {
    pub names: Names,
    pub items: Seq<Item>,
    pub end: Span,
}

/// A fold, a stream, a final or a print.
pub enum Item {
    Fold(FoldDef),
    Stream(StreamDef),
    Final(FinalDef),
    Print(Name),
}

impl Drop for Item {
    fn drop(self) {
        match self {
            Item::Fold(_) | Item::Stream(_) | Item::Final(_) | Item::Print(_) => {}
        }
    }
}

/// `def name([states], [args]) { body }`.
#[derive(Drop)]
pub struct FoldDef {
    pub name: Name,
    pub states: Seq<StateVar>,
    pub args: Seq<Name>,
    pub body: Seq<Stmt>,
}

/// A state variable, and the number that it starts with.
#[derive(Clone, Copy)]
pub struct StateVar {
    pub name: Name,
    pub initial: u64,
}

/// A statement: an assignment, a choice between two blocks, or `emit`.
#[derive(Drop)]
pub enum Stmt {
    Assign(Name, Expr),
    If(Expr, Seq<Stmt>, Seq<Stmt>),
    Emit(Span),
}

/// An expression. An operator or a function has the place of its token.
#[derive(Drop)]
pub enum Expr {
    Number(u64, Span),
    Named(Name),
    Not(Span, Boxed<Expr>),
    Binary(Op, Span, Boxed<Expr>, Boxed<Expr>),
    Call(Op, Span, Seq<Expr>),
}

/// `name = op;`.
#[derive(Drop)]
pub struct StreamDef {
    pub name: Name,
    pub op: StreamOp,
}

/// What makes a stream: of one input, or of two for a `zip`. A group has its keys and its fold.
pub enum StreamOp {
    Filter(Name, Expr),
    Map(Name, Seq<Column>),
    Zip(Name, Name),
    Group(Name, Seq<Key>, Name),
}

impl Drop for StreamOp {
    fn drop(self) {
        match self {
            StreamOp::Filter(_, _)
            | StreamOp::Map(_, _)
            | StreamOp::Zip(_, _)
            | StreamOp::Group(_, _, _) => {}
        }
    }
}

/// `final name = op;`.
#[derive(Drop)]
pub struct FinalDef {
    pub name: Name,
    pub op: FinalOp,
}

/// What makes a table of tables. A `top` has a column and how many rows are kept.
pub enum FinalOp {
    Filter(Name, Expr),
    Map(Name, Seq<Column>),
    Group(Name, Seq<Key>, Name),
    Join(Name, Name),
    Top(Name, Name, u64, Span),
}

impl Drop for FinalOp {
    fn drop(self) {
        match self {
            FinalOp::Filter(_, _)
            | FinalOp::Map(_, _)
            | FinalOp::Group(_, _, _)
            | FinalOp::Join(_, _)
            | FinalOp::Top(_, _, _, _) => {}
        }
    }
}

/// A new column, `name = value`.
#[derive(Drop)]
pub struct Column {
    pub name: Name,
    pub value: Expr,
}

/// A key of a groupby; `5tuple` means five.
#[derive(Clone, Copy)]
pub enum Key {
    Named(Name),
    FiveTuple(Span),
}
