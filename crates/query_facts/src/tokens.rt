//! How each kind of token is written.

ghost use Rattle.std.specs.Prelude.{◌≡◌};
ghost use Rattle.query_facts.specs.Expected.{all_kinds, mark_spelling, spelling, word_spelling};

use query_lang::{Mark, TokenKind, Word};

const KINDS: &[TokenKind] = &[
    TokenKind::Name(0),
    TokenKind::Number(0),
    TokenKind::FiveTuple,
    TokenKind::Word(Word::Def),
    TokenKind::Word(Word::If),
    TokenKind::Word(Word::Else),
    TokenKind::Word(Word::Emit),
    TokenKind::Word(Word::Filter),
    TokenKind::Word(Word::Map),
    TokenKind::Word(Word::Zip),
    TokenKind::Word(Word::Groupby),
    TokenKind::Word(Word::Final),
    TokenKind::Word(Word::Print),
    TokenKind::Word(Word::Join),
    TokenKind::Word(Word::Top),
    TokenKind::Word(Word::Max),
    TokenKind::Word(Word::Min),
    TokenKind::Word(Word::Sadd),
    TokenKind::Word(Word::Decay),
    TokenKind::Word(Word::Infinity),
    TokenKind::Word(Word::Mark),
    TokenKind::Word(Word::Epoch),
    TokenKind::Word(Word::Epochs),
    TokenKind::Mark(Mark::OpenParen),
    TokenKind::Mark(Mark::CloseParen),
    TokenKind::Mark(Mark::OpenBracket),
    TokenKind::Mark(Mark::CloseBracket),
    TokenKind::Mark(Mark::OpenBrace),
    TokenKind::Mark(Mark::CloseBrace),
    TokenKind::Mark(Mark::Comma),
    TokenKind::Mark(Mark::Semicolon),
    TokenKind::Mark(Mark::Assign),
    TokenKind::Mark(Mark::Equal),
    TokenKind::Mark(Mark::NotEqual),
    TokenKind::Mark(Mark::Less),
    TokenKind::Mark(Mark::LessOrEqual),
    TokenKind::Mark(Mark::Greater),
    TokenKind::Mark(Mark::GreaterOrEqual),
    TokenKind::Mark(Mark::ShiftLeft),
    TokenKind::Mark(Mark::ShiftRight),
    TokenKind::Mark(Mark::Plus),
    TokenKind::Mark(Mark::Minus),
    TokenKind::Mark(Mark::Times),
    TokenKind::Mark(Mark::Slash),
    TokenKind::Mark(Mark::Percent),
    TokenKind::Mark(Mark::And),
    TokenKind::Mark(Mark::Both),
    TokenKind::Mark(Mark::Or),
    TokenKind::Mark(Mark::Either),
    TokenKind::Mark(Mark::Xor),
    TokenKind::Mark(Mark::Bang),
    TokenKind::End,
];

/// All kinds of tokens, of names and of numbers one each.
#[tactic(auto, unfolding(crate::specs::Expected::all_kinds))]
pub(crate) fn all_kinds() -> &'static [TokenKind]
    ensures { result.now ≡ all_kinds }
{
    KINDS
}

fn word_spelling(word: Word) -> &'static [u8]
    ensures { result.now ≡ word_spelling word }
{
    match word {
        Word::Def => b"def",
        Word::If => b"if",
        Word::Else => b"else",
        Word::Emit => b"emit",
        Word::Filter => b"filter",
        Word::Map => b"map",
        Word::Zip => b"zip",
        Word::Groupby => b"groupby",
        Word::Final => b"final",
        Word::Print => b"print",
        Word::Join => b"join",
        Word::Top => b"top",
        Word::Max => b"max",
        Word::Min => b"min",
        Word::Sadd => b"sadd",
        Word::Decay => b"decay",
        Word::Infinity => b"infinity",
        Word::Mark => b"mark",
        Word::Epoch => b"epoch",
        Word::Epochs => b"epochs",
    }
}

fn mark_spelling(mark: Mark) -> &'static [u8]
    ensures { result.now ≡ mark_spelling mark }
{
    match mark {
        Mark::OpenParen => b"(",
        Mark::CloseParen => b")",
        Mark::OpenBracket => b"[",
        Mark::CloseBracket => b"]",
        Mark::OpenBrace => b"{",
        Mark::CloseBrace => b"}",
        Mark::Comma => b",",
        Mark::Semicolon => b";",
        Mark::Assign => b"=",
        Mark::Equal => b"==",
        Mark::NotEqual => b"!=",
        Mark::Less => b"<",
        Mark::LessOrEqual => b"<=",
        Mark::Greater => b">",
        Mark::GreaterOrEqual => b">=",
        Mark::ShiftLeft => b"<<",
        Mark::ShiftRight => b">>",
        Mark::Plus => b"+",
        Mark::Minus => b"-",
        Mark::Times => b"*",
        Mark::Slash => b"/",
        Mark::Percent => b"%",
        Mark::And => b"&",
        Mark::Both => b"&&",
        Mark::Or => b"|",
        Mark::Either => b"||",
        Mark::Xor => b"^",
        Mark::Bang => b"!",
    }
}

/// A text of the token, which is the empty one for the end. All names may stand where this one may, and all numbers.
pub fn spelling(kind: TokenKind) -> &'static [u8]
    ensures { result.now ≡ spelling kind }
{
    match kind {
        TokenKind::Name(_) => b"x",
        TokenKind::Number(_) => b"0",
        TokenKind::FiveTuple => b"5tuple",
        TokenKind::Word(word) => word_spelling(word),
        TokenKind::Mark(mark) => mark_spelling(mark),
        TokenKind::End => b"",
    }
}
