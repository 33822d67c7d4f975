//! Tokens of a query's text, and where they are.

use crate::fault::{FaultKind, Span};

/// A reserved word.
#[derive(Clone, Copy, PartialEq, Eq)]
pub enum Word {
    Def,
    If,
    Else,
    Emit,
    Filter,
    Map,
    Zip,
    Groupby,
    Final,
    Print,
    Join,
    Top,
    Max,
    Min,
    Sadd,
    Decay,
    Infinity,
    Mark,
    Epoch,
    Epochs,
}

/// A mark.
#[derive(Clone, Copy, PartialEq, Eq)]
pub enum Mark {
    OpenParen,
    CloseParen,
    OpenBracket,
    CloseBracket,
    OpenBrace,
    CloseBrace,
    Comma,
    Semicolon,
    Assign,
    Equal,
    NotEqual,
    Less,
    LessOrEqual,
    Greater,
    GreaterOrEqual,
    ShiftLeft,
    ShiftRight,
    Plus,
    Minus,
    Times,
    Slash,
    Percent,
    And,
    Both,
    Or,
    Either,
    Xor,
    Bang,
}

/// What a token is.
#[derive(Clone, Copy, PartialEq, Eq)]
pub enum TokenKind {
    /// A name, whose text is that of the span. Names are numbered from 0 by first appearance in the text.
    Name(u32),
    Number(u64),
    /// The word `5tuple`.
    FiveTuple,
    Word(Word),
    Mark(Mark),
    /// The end of the text.
    End,
}

/// A token, and where it is.
#[derive(Clone, Copy)]
pub struct Token {
    pub kind: TokenKind,
    pub span: Span,
}

/// What comes first in some bytes, and how many of them it takes.
#[derive(Clone, Copy)]
pub enum Piece {
    /// A blank or a comment.
    Blank(usize),
    Name(usize),
    /// A token of any other kind.
    Token(TokenKind, usize),
    /// A fault, and how many bytes on it is.
    Fault(FaultKind, usize),
}
