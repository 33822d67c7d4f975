//! Statements and blocks. An argument of each function says how many brackets may still be opened.

ghost use Rattle.std.specs.Prelude.{◌≡◌, ℕ, [], ◌∷◌, IfOk};
ghost use Rattle.query_grammar.specs.{Kinds.among, Grammar.{else_of as else_block}, Parser.{Limited, next_is, repeated, chained}};
ghost use Rattle.query_grammar.specs.Reading.{expr_at, stmt_at, stmt_starts, assignment as assignment_of, emission as emission_of};
ghost use Rattle.query_grammar.specs.Reading.{block as block_of, if_part as if_part_of, if_statement as if_statement_of};
ghost use Rattle.query_lang.specs.declared.query.Stmt.TheVariants as stmts;
ghost use Rattle.query_parser.specs.Reads.{Gives, GivesPart, Sees, bracket_at, block_at, empty_at, else_part_at};

use crate::expression::{bracketed, expression};
use crate::halt::{Read, read};
use crate::reader::{Reader, Role};
use crate::word::{at_mark, at_name, at_word, is_name, is_word};
use marple_base::Seq;
use query_lang::{Expr, Mark, Span, Stmt, Token, Word};
use std::alloc::{AllocError, Global};

/// A condition, and the block after it.
type Branch = (Expr, Seq<Stmt>);

/// What comes after an `else`: another branch, or the last block.
#[derive(Drop)]
enum ElsePart {
    Another(Branch),
    Last(Seq<Stmt>),
}

/// A name, and its new value.
fn assignment(reader: &mut Reader<'_>, brackets: u32) -> Read<Stmt>
    ensures { Gives result reader.old reader.new (assignment_of Limited (expr_at Limited brackets)) }
{
    let name = read!(reader.name(Role::Statement));
    read!(reader.mark(Mark::Assign));
    let value = read!(expression(reader, brackets));
    reader.closed(Stmt::Assign(name, value), Mark::Semicolon)
}

/// The empty brackets after `emit`, and the semicolon.
#[tactic(auto, using(crate::proofs::Statements::empty_more))]
fn no_arguments(reader: &mut Reader<'_>, brackets: u32) -> Read<(Span, Span)>
    ensures { Sees result reader.old reader.new (empty_at brackets) }
{
    if brackets == 0 {
        return reader.no_bracket(Mark::OpenParen);
    }
    read!(reader.mark(Mark::OpenParen));
    let close = read!(reader.mark(Mark::CloseParen));
    let semicolon = read!(reader.mark(Mark::Semicolon));
    Ok((close, semicolon))
}

/// `emit`, with its empty brackets.
fn emission(reader: &mut Reader<'_>, brackets: u32) -> Read<Stmt>
    ensures { Sees result reader.old reader.new (emission_of Limited (empty_at brackets)) }
{
    let span = read!(reader.keyword(Role::Statement, Word::Emit));
    read!(no_arguments(reader, brackets));
    Ok(Stmt::Emit(span))
}

/// Whether a statement may come next.
fn at_statement(rest: &[Token]) -> bool
    ensures { result ≡ next_is (among stmt_starts) rest.now }
{
    match rest {
        [first, ..] => {
            is_name(first.kind) || is_word(first.kind, Word::If) || is_word(first.kind, Word::Emit)
        }
        [] => false,
    }
}

/// A block with one `if`.
fn only_if(alloc: Global, branch: Branch, otherwise: Seq<Stmt>) -> Result<Seq<Stmt>, AllocError>
    ensures { IfOk result (λ block. block ≡ stmts.If branch.0 branch.1 otherwise ∷ []) }
{
    let (condition, body) = branch;
    let mut block = Seq::new(alloc);
    block.push(Stmt::If(condition, body, otherwise))?;
    Ok(block)
}

/// The block for what comes after the first branch of an `if`: each further branch is an `if` in the block of the one
/// before it.
fn else_of(
    alloc: Global,
    branches: Seq<Branch>,
    last: Option<Seq<Stmt>>,
) -> Result<Seq<Stmt>, AllocError>
    ensures { IfOk result (λ block. block ≡ else_block branches last) }
{
    let mut branches = branches.into_vec();
    let mut otherwise = match last {
        Some(block) => block,
        None => Seq::new(alloc),
    };
    'branches: while let Some(branch) = branches.pop() {
        otherwise = only_if(alloc, branch, otherwise)?;
    }
    Ok(otherwise)
}

/// `if`, its condition and its block.
#[cycle(stmt)]
fn if_part(reader: &mut Reader<'_>, brackets: u32) -> Read<(Span, Branch)>
    ensures { Gives result reader.old reader.new (if_part_of Limited (bracket_at brackets) (block_at brackets)) }
{
    let span = read!(reader.keyword(Role::Statement, Word::If));
    let condition = read!(bracketed(reader, brackets));
    let body = read!(block(reader, brackets));
    Ok((span, (condition, body)))
}

/// `else`, and another branch or the last block.
#[cycle(stmt)]
fn else_part(reader: &mut Reader<'_>, brackets: u32) -> Read<ElsePart>
    ensures { GivesPart result reader.old reader.new (else_part_at brackets) }
{
    read!(reader.keyword(Role::Plain, Word::Else));
    if at_mark(Mark::OpenBrace, reader.rest) {
        let body = read!(block(reader, brackets));
        return Ok(ElsePart::Last(body));
    }
    let (_, branch) = read!(if_part(reader, brackets));
    Ok(ElsePart::Another(branch))
}

/// The further branches of an `if`, and its last block.
#[cycle(stmt)]
fn else_parts(reader: &mut Reader<'_>, brackets: u32) -> Read<(Seq<Branch>, Option<Seq<Stmt>>)>
    ensures { Gives result reader.old reader.new (chained (among (6 ∷ [])) (else_part_at brackets)) }
{
    let mut found = Seq::new(reader.alloc);
    'parts: for _ in 0..reader.rest.len() {
        if !at_word(Word::Else, reader.rest) {
            break;
        }
        let part = read!(else_part(reader, brackets));
        match part {
            ElsePart::Last(body) => return Ok((found, Some(body))),
            ElsePart::Another(branch) => found.push(branch)?,
        }
    }
    Ok((found, None))
}

/// An `if` with all of its branches.
#[cycle(stmt)]
fn if_statement(reader: &mut Reader<'_>, brackets: u32) -> Read<Stmt>
    ensures { Gives result reader.old reader.new (if_statement_of Limited (bracket_at brackets) (block_at brackets)) }
{
    let (_, (condition, body)) = read!(if_part(reader, brackets));
    let (branches, last) = read!(else_parts(reader, brackets));
    let otherwise = else_of(reader.alloc, branches, last)?;
    Ok(Stmt::If(condition, body, otherwise))
}

/// A statement.
#[cycle(stmt)]
#[tactic(auto, using(crate::proofs::Statements::stmt_is))]
fn statement(reader: &mut Reader<'_>, brackets: u32) -> Read<Stmt>
    ensures { Gives result reader.old reader.new (stmt_at Limited brackets) }
{
    if at_name(reader.rest) {
        return assignment(reader, brackets);
    }
    if at_word(Word::If, reader.rest) {
        return if_statement(reader, brackets);
    }
    emission(reader, brackets)
}

/// Any number of statements.
#[cycle(stmt)]
fn statements(reader: &mut Reader<'_>, brackets: u32) -> Read<Seq<Stmt>>
    ensures { Gives result reader.old reader.new (repeated (among stmt_starts) (stmt_at Limited brackets)) }
{
    let mut found = Seq::new(reader.alloc);
    'statements: for _ in 0..reader.rest.len() {
        if !at_statement(reader.rest) {
            break;
        }
        let next = read!(statement(reader, brackets));
        found.push(next)?;
    }
    Ok(found)
}

/// A block in its braces, in which that many brackets may be opened.
#[cycle(stmt)]
pub fn block_within(reader: &mut Reader<'_>, brackets: u32) -> Read<Seq<Stmt>>
    ensures { Gives result reader.old reader.new (block_of Limited (stmt_at Limited brackets)) }
{
    read!(reader.mark(Mark::OpenBrace));
    let found = read!(statements(reader, brackets));
    reader.closed(found, Mark::CloseBrace)
}

/// A block in its braces.
#[cycle(stmt)]
#[tactic(auto, using(crate::proofs::Statements::block_more))]
fn block(reader: &mut Reader<'_>, brackets: u32) -> Read<Seq<Stmt>>
    ensures { Gives result reader.old reader.new (block_at brackets) }
{
    if brackets == 0 {
        return reader.no_bracket(Mark::OpenBrace);
    }
    block_within(reader, brackets - 1)
}
