//! The lines of a group, from `group` to `body`, as they are read.

ghost use Rattle.std.specs.Prelude.{◌≡◌, ◌≤◌, ◌+◌, ◌<◌, ◌^◌, length, true, false, Contains, IfOk};
ghost use Rattle.plan_file.specs.{Finding.Finds, InPlace.Makes, Bodies.IsBodyLine};
ghost use Rattle.plan_file.specs.Groups as Groups;
ghost use Rattle.plan_file.specs.Groups.{names_of, IsGroupLine, IsNewIn, IsKeyLine, IsArgLine, IsStateLine, IsGroupBody, IsInGroup};

use crate::lexemes::{Lexeme, lexemes};
use crate::lexis::first_token;
use crate::line_word::LineWord;
use crate::made::{Folded, Group};
use crate::named::{named_number, named_operand, one_operand};
use crate::wants::is_body;
use marple_base::{Field, Seq, Text};
use query_lang::lexis::is_text;
use query_lang::{MAX_ARGS, MAX_GROUPBYS, MAX_KEYS, MAX_STATES};
use stage_plan::{Operand, PlanOp};
use std::alloc::{AllocError, Global};

fn has_name(names: &[Text], name: &[u8]) -> bool
    ensures yes { result ≡ true → Contains names.now name.now }
    ensures no { result ≡ false → Contains names.now name.now → ⊥ }
{
    for one in names {
        if is_text(one.as_slice(), name) {
            return true;
        }
    }
    false
}

fn has_group(groups: &[Folded], name: &[u8]) -> bool
    ensures yes { result ≡ true → Contains (names_of groups.now) name.now }
    ensures no { result ≡ false → Contains (names_of groups.now) name.now → ⊥ }
{
    for one in groups {
        if is_text(one.group.name.as_slice(), name) {
            return true;
        }
    }
    false
}

// Whether no key and no state variable of a group has a name.
fn is_new_in(group: &Group, name: &[u8]) -> bool
    ensures yes { result ≡ true → IsNewIn group.now name.now }
    ensures no { result ≡ false → IsNewIn group.now name.now → ⊥ }
{
    !has_name(group.key_names.as_slice(), name) && !has_name(group.state_names.as_slice(), name)
}

// A group with only a name and the operand that decides whether it takes a use.
fn group_with(alloc: Global, name: &[u8], present: Operand) -> Result<Group, AllocError>
    ensures { IfOk result (λ group. group ≡ Groups.group_with name.now present) }
{
    Ok(Group {
        name: Text::from_slice(alloc, name)?,
        present,
        key_names: Seq::new(alloc),
        keys: Seq::new(alloc),
        args: Seq::new(alloc),
        state_names: Seq::new(alloc),
        initial: Seq::new(alloc),
        body: None,
    })
}

/// The group that a line `group` begins, where the line is valid after these fields, operations and groups.
pub(crate) fn group_line(
    alloc: Global,
    fields: &[Field],
    ops: &[PlanOp],
    groups: &[Folded],
    line: &[u8],
) -> Result<Option<Group>, AllocError>
    requires few { length ops.now ≤ 32768 }
    ensures { IfOk result (λ made. Finds made (IsGroupLine fields.now ops.now groups.now line.now)) }
{
    if groups.len() >= MAX_GROUPBYS as usize {
        return Ok(None);
    }
    let Some((name, present)) = named_operand(fields, ops, b"group", line) else {
        return Ok(None);
    };
    if is_text(name, b"pktstream") || has_group(groups, name) {
        return Ok(None);
    }
    Ok(Some(group_with(alloc, name, present)?))
}

// Whether a line `key` is valid in the group, which it adds to.
fn key_line(
    alloc: Global,
    fields: &[Field],
    ops: &[PlanOp],
    group: &mut Group,
    line: &[u8],
) -> Result<bool, AllocError>
    requires few { length ops.now ≤ 32768 }
    ensures { IfOk result (λ valid. Makes valid group.new (IsKeyLine fields.now ops.now group.old line.now)) }
{
    if !group.args.is_empty()
        || !group.state_names.is_empty()
        || group.body.is_some()
        || group.keys.len() >= MAX_KEYS
    {
        return Ok(false);
    }
    let Some((name, value)) = named_operand(fields, ops, b"key", line) else {
        return Ok(false);
    };
    if !is_new_in(group, name) {
        return Ok(false);
    }
    group.key_names.push(Text::from_slice(alloc, name)?)?;
    group.keys.push(value)?;
    Ok(true)
}

fn arg_line(
    fields: &[Field],
    ops: &[PlanOp],
    group: &mut Group,
    line: &[u8],
) -> Result<bool, AllocError>
    requires few { length ops.now ≤ 32768 }
    ensures { IfOk result (λ valid. Makes valid group.new (IsArgLine fields.now ops.now group.old line.now)) }
{
    if group.keys.is_empty()
        || !group.state_names.is_empty()
        || group.body.is_some()
        || group.args.len() >= MAX_ARGS
    {
        return Ok(false);
    }
    let Some(value) = one_operand(fields, ops, b"arg", line) else {
        return Ok(false);
    };
    group.args.push(value)?;
    Ok(true)
}

fn state_line(alloc: Global, group: &mut Group, line: &[u8]) -> Result<bool, AllocError>
    ensures { IfOk result (λ valid. Makes valid group.new (IsStateLine group.old line.now)) }
{
    if group.keys.is_empty() || group.body.is_some() || group.initial.len() >= MAX_STATES {
        return Ok(false);
    }
    let Some((name, value)) = named_number(b"state", line) else {
        return Ok(false);
    };
    if !is_new_in(group, name) {
        return Ok(false);
    }
    group.state_names.push(Text::from_slice(alloc, name)?)?;
    group.initial.push(value)?;
    Ok(true)
}

// The tokens of a line `body`.
fn body_words(
    alloc: Global,
    states: u64,
    args: u64,
    line: &[u8],
) -> Result<Option<Seq<Lexeme>>, AllocError>
    requires { states + args < 2 ^ 32 }
    ensures { IfOk result (λ found. Finds found (IsBodyLine states args line.now)) }
{
    let (word, rest, more) = first_token(line);
    if !is_text(word, b"body") {
        return Ok(None);
    }
    let words = lexemes(alloc, rest, more)?;
    if is_body(alloc, states, args, words.as_slice())? {
        Ok(Some(words))
    } else {
        Ok(None)
    }
}

fn body_line(alloc: Global, group: &mut Group, line: &[u8]) -> Result<bool, AllocError>
    requires states { length group.old.initial ≤ MAX_STATES }
    requires args { length group.old.args ≤ MAX_ARGS }
    ensures { IfOk result (λ valid. Makes valid group.new (IsGroupBody group.old line.now)) }
{
    if group.keys.is_empty() || group.body.is_some() {
        return Ok(false);
    }
    let states = group.initial.len() as u64;
    let args = group.args.len() as u64;
    match body_words(alloc, states, args, line)? {
        Some(words) => {
            group.body = Some(words);
            Ok(true)
        }
        None => Ok(false),
    }
}

/// Whether one more line of a group is valid, which begins with this word and adds to the group.
pub(crate) fn in_group(
    alloc: Global,
    word: LineWord,
    fields: &[Field],
    ops: &[PlanOp],
    group: &mut Group,
    line: &[u8],
) -> Result<bool, AllocError>
    requires few { length ops.now ≤ 32768 }
    requires states { length group.old.initial ≤ MAX_STATES }
    requires args { length group.old.args ≤ MAX_ARGS }
    ensures { IfOk result (λ valid. Makes valid group.new (IsInGroup word fields.now ops.now group.old line.now)) }
{
    match word {
        LineWord::Key => key_line(alloc, fields, ops, group, line),
        LineWord::Arg => arg_line(fields, ops, group, line),
        LineWord::State => state_line(alloc, group, line),
        LineWord::Body => body_line(alloc, group, line),
        _ => Ok(false),
    }
}
