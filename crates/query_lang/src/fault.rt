//! Places in a query's text, and the faults at them.

/// The most bytes of a query.
pub const MAX_QUERY: usize = 65_536;

/// The most groupbys while packets pass.
pub const MAX_GROUPBYS: u16 = 8;

/// The most keys of a groupby.
pub const MAX_KEYS: usize = 8;

/// The most state variables of a fold.
pub const MAX_STATES: usize = 8;

/// The most arguments of a fold.
pub const MAX_ARGS: usize = 16;

/// The most statements of a fold.
pub const MAX_STATEMENTS: u32 = 64;

/// The most nodes of an item.
pub const MAX_NODES: u32 = 512;

/// The most streams and finals together.
pub const MAX_BINDINGS: usize = 32;

/// The most brackets that are open at once.
pub const MAX_NESTING: u32 = 64;

/// The most stages of a stream's operations.
pub const MAX_STAGES: u32 = 64;

/// Bytes of the text, from `start` up to `end`.
#[derive(Clone, Copy, Debug, PartialEq, Eq)]
pub struct Span {
    pub start: u32,
    pub end: u32,
}

/// The first fault of a query, and where it is. A fault at a token has the token's span, and any other one has the
/// byte's offset at both ends.
#[derive(Clone, Copy, Debug, PartialEq, Eq)]
pub struct QueryFault {
    pub kind: FaultKind,
    pub span: Span,
}

/// What is wrong with a query, or with the text of a plan.
#[derive(Clone, Copy, Debug, PartialEq, Eq)]
pub enum FaultKind {
    /// The text has more than `MAX_QUERY` bytes.
    QueryTooLong,
    /// A byte that begins no token; or the first byte that isn't a digit, of a word that begins with one and isn't `5tuple`.
    BadByte,
    /// No query continues with this token.
    UnexpectedToken,
    /// A number of 2^64 or more.
    NumberTooLarge,
    /// A name that means nothing here.
    UnknownName,
    /// A name that means something else already.
    NameTaken,
    /// A word for a condition, a fold for a stream, and the like.
    WrongKind,
    /// A function without its two arguments, or a second `emit`.
    WrongArity,
    /// A divisor, a shift or a count that isn't a constant in its range.
    BadConstant,
    /// A fold's state is read while packets pass.
    StateOnLine,
    /// More of something than is allowed.
    OverLimit(Limit),
    /// A query that prints no table.
    NothingPrinted,
    /// A groupby whose epochs of several switches can't be merged: its fold doesn't only add, and the switch is none of
    /// its keys.
    NotAdditive,
    /// A groupby whose fold is neither linear nor monotone in its state.
    NotMonotone,
    /// A final in a query whose plan is written as a text.
    FinalInPlan,
    /// A line of a plan's text that isn't valid after the lines before it.
    BadPlan,
}

/// What there is a limit for.
#[derive(Clone, Copy, Debug, PartialEq, Eq)]
pub enum Limit {
    Groupbys,
    Keys,
    States,
    Args,
    Statements,
    Nodes,
    Bindings,
    Nesting,
    Stages,
}
