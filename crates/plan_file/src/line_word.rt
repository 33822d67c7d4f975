//! The first words of lines.

ghost use Rattle.std.specs.Prelude.{◌≡◌};
ghost use Rattle.plan_file.specs.LineWords as LineWords;

use crate::lexis::first_token;
use query_lang::lexis::is_text;

/// The kinds of lines, by their first words.
#[derive(Clone, Copy)]
pub enum LineWord {
    Plan,
    Reads,
    Op,
    Group,
    Key,
    Arg,
    State,
    Body,
    Fold,
    Print,
    Other,
}

#[tactic(auto, unfolding(crate::specs::LineWords::word_named))]
fn word_named(token: &[u8]) -> LineWord
    ensures { result ≡ LineWords.word_named token.now }
{
    if is_text(token, b"marple-plan") {
        LineWord::Plan
    } else if is_text(token, b"reads") {
        LineWord::Reads
    } else if is_text(token, b"op") {
        LineWord::Op
    } else if is_text(token, b"group") {
        LineWord::Group
    } else if is_text(token, b"key") {
        LineWord::Key
    } else if is_text(token, b"arg") {
        LineWord::Arg
    } else if is_text(token, b"state") {
        LineWord::State
    } else if is_text(token, b"body") {
        LineWord::Body
    } else if is_text(token, b"fold") {
        LineWord::Fold
    } else if is_text(token, b"print") {
        LineWord::Print
    } else {
        LineWord::Other
    }
}

/// The kind of a line by its first word.
pub(crate) fn line_word(line: &[u8]) -> LineWord
    ensures { result ≡ LineWords.line_word line.now }
{
    let (word, _, _) = first_token(line);
    word_named(word)
}
