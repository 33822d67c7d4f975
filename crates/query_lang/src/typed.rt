//! A query whose names and kinds were checked: streams, folds and tables by number, columns as slots.

use crate::fold::{TypedExpr, TypedFold};
use crate::names::Names;
use crate::query::Name;
use marple_base::Seq;

/// Whether a fold is linear in its state.
#[derive(Clone, Copy, Debug, PartialEq, Eq)]
pub enum Class {
    Linear,
    Other,
}

/// A query that was checked. Its names are those of the text, and then the names of fields that the text doesn't have, in
/// the order of the fields.
pub struct TypedQuery {
    pub names: Names,
    pub folds: Seq<TypedFold>,
    pub streams: Seq<TypedStream>,
    pub finals: Seq<TypedFinal>,
    pub prints: Seq<PrintOf>,
}

impl Drop for TypedQuery {
    fn drop(self) {
        let TypedQuery {
            names: _,
            folds: _,
            streams: _,
            finals: _,
            prints: _,
        } = self;
    }
}

/// A stream. Streams are numbered from 0, and number 0 is `pktstream`, which has no entry.
#[derive(Drop)]
pub struct TypedStream {
    pub name: Name,
    pub columns: Seq<u32>,
    pub op: TypedOp,
}

/// What makes a stream, of streams by number and columns by slot.
pub enum TypedOp {
    Filter(u16, TypedExpr),
    Map(u16, Seq<TypedExpr>),
    /// Two streams, and the columns that are taken from the second.
    Zip(u16, u16, Seq<u16>),
    /// A stream, its key columns, a fold, and the columns that are the fold's arguments.
    Group(u16, Seq<u16>, u16, Seq<u16>),
}

impl Drop for TypedOp {
    fn drop(self) {
        match self {
            TypedOp::Filter(_, _)
            | TypedOp::Map(_, _)
            | TypedOp::Zip(_, _, _)
            | TypedOp::Group(_, _, _, _) => {}
        }
    }
}

/// A table made of tables. Tables are numbered with the groupbys first, and then the finals.
#[derive(Drop)]
pub struct TypedFinal {
    pub name: Name,
    pub columns: Seq<u32>,
    pub keys: u8,
    pub op: TypedFinalOp,
}

/// What makes the table: tables by number, columns by slot, a group's fold and its arguments.
pub enum TypedFinalOp {
    Filter(u16, TypedExpr),
    Map(u16, Seq<TypedExpr>),
    Group(u16, Seq<u16>, u16, Seq<u16>),
    Join(u16, u16),
    /// A table, a column, and how many rows are kept.
    Top(u16, u16, u64),
}

impl Drop for TypedFinalOp {
    fn drop(self) {
        match self {
            TypedFinalOp::Filter(_, _)
            | TypedFinalOp::Map(_, _)
            | TypedFinalOp::Group(_, _, _, _)
            | TypedFinalOp::Join(_, _)
            | TypedFinalOp::Top(_, _, _) => {}
        }
    }
}

/// A printed table: a groupby or a final, each counted from 0.
#[derive(Clone, Copy)]
pub enum PrintOf {
    Group(u16),
    Final(u16),
}
