//! What the lines of a plan's text have made so far.

use crate::lexemes::Lexeme;
use marple_base::{Field, Seq, Text};
use query_lang::Class;
use stage_plan::{Operand, PlanOp};

/// A group as its lines have made it so far, without a body before the `body` line. A body is kept as its tokens.
#[derive(Drop)]
pub struct Group {
    pub name: Text,
    pub present: Operand,
    pub key_names: Seq<Text>,
    pub keys: Seq<Operand>,
    pub args: Seq<Operand>,
    pub state_names: Seq<Text>,
    pub initial: Seq<u64>,
    pub body: Option<Seq<Lexeme>>,
}

/// A group down to its `fold` line.
#[derive(Drop)]
pub struct Folded {
    pub group: Group,
    pub class: Class,
    pub depth: u32,
    pub nodes: u32,
    pub statements: u32,
}

/// Whether the first line was read, the fields that are read, the operations, the groups down to their `fold` lines, the
/// group whose lines are being read, and the numbers of the printed groups.
#[derive(Drop)]
pub struct Made {
    pub begun: bool,
    pub reads: Option<Seq<Field>>,
    pub ops: Seq<PlanOp>,
    pub groups: Seq<Folded>,
    pub current: Option<Group>,
    pub prints: Seq<u16>,
}
