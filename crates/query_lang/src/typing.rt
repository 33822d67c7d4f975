//! What the names of a query denote, as far as is known where an item is checked.

use crate::fault::Span;
use crate::fold::{TypedExpr, TypedFold, TypedStmt};
use crate::typed::{PrintOf, TypedFinal, TypedFinalOp, TypedOp, TypedStream};
use marple_base::Seq;

/// What an expression gives: a number written in the text, another word, or a condition.
#[derive(Clone, Copy)]
pub enum Sort {
    Number(u64),
    Word,
    Condition,
}

/// A typed expression, what it gives, and its leftmost token, parentheses aside.
#[derive(Drop)]
pub struct Found {
    pub tree: TypedExpr,
    pub sort: Sort,
    pub at: Span,
}

/// The conditions that enclose a statement, joined from the outermost, and the first state variable in them.
#[derive(Drop)]
pub struct Enclosing {
    pub condition: Option<TypedExpr>,
    pub state: Option<Span>,
}

/// The statements of a block up to some place, and the condition of the fold's `emit` where it stands before that place.
#[derive(Drop)]
pub struct Body {
    pub statements: Seq<TypedStmt>,
    pub emit: Option<TypedExpr>,
}

/// Where a column's values come from: a packet's field, or the `map` that makes the stream with this number.
#[derive(Clone, Copy, PartialEq, Eq)]
pub enum Origin {
    Field,
    Map(u16),
}

/// A column of a stream: its name, and where it comes from.
#[derive(Clone, Copy)]
pub struct StreamColumn {
    pub name: u32,
    pub origin: Origin,
}

/// Columns that were looked up, by name and by slot.
#[derive(Drop)]
pub struct Picked {
    pub names: Seq<u32>,
    pub slots: Seq<u16>,
}

/// The columns that a `map` adds.
#[derive(Drop)]
pub struct NewColumns {
    pub names: Seq<u32>,
    pub values: Seq<TypedExpr>,
}

/// A fold that a name denotes. Folds are numbered from 0.
#[derive(Drop)]
pub struct FoldView {
    pub number: u16,
    pub states: Seq<u32>,
    pub args: Seq<u32>,
    pub emits: bool,
}

/// A table that a name denotes: its columns are the keys, and then the rest.
#[derive(Drop)]
pub struct TableView {
    pub place: PrintOf,
    pub columns: Seq<u32>,
    pub keys: u8,
}

/// A stream that a name denotes, with the state variables that may not be read while packets pass, and the table where
/// the stream is a groupby's.
#[derive(Drop)]
pub struct StreamView {
    pub number: u16,
    pub columns: Seq<StreamColumn>,
    pub hidden: Seq<u32>,
    pub table: Option<TableView>,
}

/// What a name denotes.
#[derive(Drop)]
pub enum Meaning {
    Fold(FoldView),
    Stream(StreamView),
    Final(TableView),
}

/// A name, and what it denotes.
#[derive(Drop)]
pub struct Known {
    pub name: u32,
    pub meaning: Meaning,
}

/// What a stream's operator makes.
#[derive(Drop)]
pub struct MadeStream {
    pub op: TypedOp,
    pub columns: Seq<StreamColumn>,
    pub hidden: Seq<u32>,
    pub table: Option<TableView>,
}

/// What a final's operator makes.
#[derive(Drop)]
pub struct MadeFinal {
    pub op: TypedFinalOp,
    pub columns: Seq<u32>,
    pub keys: u8,
}

/// What the items before some place give: what their names denote, how many of them are groupbys, and their typed forms.
#[derive(Drop)]
pub struct Earlier {
    pub known: Seq<Known>,
    pub groups: u16,
    pub folds: Seq<TypedFold>,
    pub streams: Seq<TypedStream>,
    pub finals: Seq<TypedFinal>,
    pub prints: Seq<PrintOf>,
    pub printed: Seq<u32>,
}

/// What is known of the whole query from the start: the fields' names by number, and how many groupbys there are, at most `MAX_GROUPBYS`.
#[derive(Drop)]
pub struct Given {
    pub fields: Seq<u32>,
    pub groups: u16,
}
