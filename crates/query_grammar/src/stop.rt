//! Why a parser stops, and what it counts.

/// Why no query goes on with a token.
#[derive(Clone, Copy)]
pub enum Stop {
    /// No query's tokens begin so.
    Unexpected,
    /// It would be the 513th node of an item.
    Nodes,
    /// It would begin the 65th statement of a fold.
    Statements,
    /// It would be the 65th bracket that is open at once.
    Nesting,
}

/// What an item has counted so far.
#[derive(Clone, Copy)]
pub struct Counts {
    pub nodes: u32,
    pub statements: u32,
}
