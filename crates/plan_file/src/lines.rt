//! One more line, as it is read after the lines before it.

ghost use Rattle.std.specs.Prelude.{◌≡◌, ◌≤◌, length, true, false, Contains, IfOk};
ghost use Rattle.plan_file.specs.InPlace.{Makes};
ghost use Rattle.plan_file.specs.Lines as Lines;
ghost use Rattle.plan_file.specs.Lines.{IsFirst, IsReads, IsOp, IsGroup, IsPart, IsFold, IsPrint, IsLine, IsWithin};

use crate::fold_line::fold_line;
use crate::group_lines::{group_line, in_group};
use crate::line_word::{LineWord, line_word};
use crate::made::{Folded, Made};
use crate::named::{is_first_line, one_number};
use crate::operations::op_line;
use crate::reads::reads_line;
use marple_base::Seq;
use query_lang::MAX_GROUPBYS;
use std::alloc::{AllocError, Global};

/// What no line made.
pub(crate) fn nothing(alloc: Global) -> Made
    ensures { result ≡ Lines.nothing }
{
    Made {
        begun: false,
        reads: None,
        ops: Seq::new(alloc),
        groups: Seq::new(alloc),
        current: None,
        prints: Seq::new(alloc),
    }
}

fn first(made: &mut Made, line: &[u8]) -> bool
    ensures { Makes result made.new (IsFirst made.old line.now) }
{
    if made.begun || !is_first_line(line) {
        return false;
    }
    made.begun = true;
    true
}

fn reads(alloc: Global, made: &mut Made, line: &[u8]) -> Result<bool, AllocError>
    ensures { IfOk result (λ valid. Makes valid made.new (IsReads made.old line.now)) }
{
    if !made.begun || made.reads.is_some() {
        return Ok(false);
    }
    match reads_line(alloc, line)? {
        Some(fields) => {
            made.reads = Some(fields);
            Ok(true)
        }
        None => Ok(false),
    }
}

fn op(made: &mut Made, line: &[u8]) -> Result<bool, AllocError>
    requires few { length made.old.ops ≤ 32768 }
    ensures { IfOk result (λ valid. Makes valid made.new (IsOp made.old line.now)) }
{
    if !made.groups.is_empty() || made.current.is_some() {
        return Ok(false);
    }
    let found = match &made.reads {
        Some(fields) => op_line(fields.as_slice(), made.ops.as_slice(), line),
        None => return Ok(false),
    };
    match found {
        Some(op) => {
            made.ops.push(op)?;
            Ok(true)
        }
        None => Ok(false),
    }
}

fn group(alloc: Global, made: &mut Made, line: &[u8]) -> Result<bool, AllocError>
    requires few { length made.old.ops ≤ 32768 }
    ensures { IfOk result (λ valid. Makes valid made.new (IsGroup made.old line.now)) }
{
    if made.current.is_some() || !made.prints.is_empty() {
        return Ok(false);
    }
    let found = match &made.reads {
        Some(fields) => group_line(
            alloc,
            fields.as_slice(),
            made.ops.as_slice(),
            made.groups.as_slice(),
            line,
        )?,
        None => return Ok(false),
    };
    match found {
        Some(group) => {
            made.current = Some(group);
            Ok(true)
        }
        None => Ok(false),
    }
}

fn part(alloc: Global, word: LineWord, made: &mut Made, line: &[u8]) -> Result<bool, AllocError>
    requires { IsWithin made.old }
    ensures { IfOk result (λ valid. Makes valid made.new (IsPart word made.old line.now)) }
{
    let Some(fields) = &made.reads else {
        return Ok(false);
    };
    let Some(group) = &mut made.current else {
        return Ok(false);
    };
    let ops = made.ops.as_slice();
    in_group(alloc, word, fields.as_slice(), ops, group, line)
}

fn fold(alloc: Global, made: &mut Made, line: &[u8]) -> Result<bool, AllocError>
    requires { IsWithin made.old }
    ensures { IfOk result (λ valid. Makes valid made.new (IsFold made.old line.now)) }
{
    let found = match &made.current {
        Some(group) => fold_line(alloc, group, line)?,
        None => return Ok(false),
    };
    let said = match found {
        Some(said) => said,
        None => return Ok(false),
    };
    match made.current.take() {
        Some(group) => {
            made.groups.push(Folded {
                group,
                class: said.class,
                depth: said.depth,
                nodes: said.nodes,
                statements: said.statements,
            })?;
            Ok(true)
        }
        None => Ok(false),
    }
}

fn has_print(prints: &[u16], n: u64) -> bool
    ensures yes { result ≡ true → Contains prints.now n }
    ensures no { result ≡ false → Contains prints.now n → ⊥ }
{
    for one in prints {
        if u64::from(*one) == n {
            return true;
        }
    }
    false
}

fn print(made: &mut Made, line: &[u8]) -> Result<bool, AllocError>
    requires { length made.old.groups ≤ MAX_GROUPBYS }
    ensures { IfOk result (λ valid. Makes valid made.new (IsPrint made.old line.now)) }
{
    if made.current.is_some() {
        return Ok(false);
    }
    let Some(number) = one_number(b"print", line) else {
        return Ok(false);
    };
    if number >= made.groups.len() as u64 || has_print(made.prints.as_slice(), number) {
        return Ok(false);
    }
    made.prints.push(number as u16)?;
    Ok(true)
}

/// Whether one more line is valid after the lines before it, whose work it goes on with.
pub(crate) fn one_more(alloc: Global, made: &mut Made, line: &[u8]) -> Result<bool, AllocError>
    requires { IsWithin made.old }
    ensures { IfOk result (λ valid. Makes valid made.new (IsLine made.old line.now)) }
{
    let word = line_word(line);
    match word {
        LineWord::Plan => Ok(first(made, line)),
        LineWord::Reads => reads(alloc, made, line),
        LineWord::Op => op(made, line),
        LineWord::Group => group(alloc, made, line),
        LineWord::Key | LineWord::Arg | LineWord::State | LineWord::Body => {
            part(alloc, word, made, line)
        }
        LineWord::Fold => fold(alloc, made, line),
        LineWord::Print => print(made, line),
        LineWord::Other => Ok(false),
    }
}
