//! A body is read token by token, with a stack of what is still expected: so a deep expression needs no deep recursion.

ghost use Rattle.std.specs.Prelude.{◌≡◌, ◌+◌, ◌++◌, ◌^◌, ◌<◌, ◌∷◌, [], true, false, ◌≤◌, Some, MatchBool, IfOk};
ghost use Rattle.query_lang.specs.Blocks as blocks;
ghost use Rattle.query_lang.specs.Folds as Folds;
ghost use Rattle.plan_file.specs.Bodies.{IsBody};
ghost use Rattle.plan_file.specs.Wants as Wants;
ghost use Rattle.plan_file.specs.Wants.{past_word, after_condition, after_number, after_target, after_open, after_if, after_block, past};
ghost use Rattle.plan_file.specs.Wants.{GoesOn, Steps, Sticks};

use crate::lexemes::Lexeme;
use query_lang::{MAX_NESTING, Op};
use std::alloc::{AllocError, Global};

/// What is expected of the next tokens: an expression of a kind, a divisor, a number of bits to shift by, the variable of
/// a `set`, a brace, or a block's statements and its closing brace, with the number of braces that may still be opened.
#[derive(Clone, Copy)]
pub(crate) enum Want {
    Word,
    Condition,
    Divisor,
    Shift,
    Target,
    Open,
    Block(u32),
}

fn push_operands(wants: &mut Vec<Want>, op: Op) -> Result<bool, AllocError>
    ensures { IfOk result (λ fits. GoesOn (Some (Wants.operands op)) wants.old.items fits wants.new.items) }
{
    let right = match op {
        Op::Div | Op::Rem => Want::Divisor,
        Op::Shl | Op::Shr | Op::Decay => Want::Shift,
        Op::Both | Op::Either => Want::Condition,
        _ => Want::Word,
    };
    let left = match op {
        Op::Both | Op::Either => Want::Condition,
        _ => Want::Word,
    };
    wants.extend_from_slice(&[right, left])?;
    Ok(true)
}

fn gives_condition(op: Op) -> bool
    ensures { result ≡ Folds.gives_condition op }
{
    matches!(
        op,
        Op::Eq | Op::Ne | Op::Lt | Op::Le | Op::Gt | Op::Ge | Op::Both | Op::Either
    )
}

// The first token of an expression whose value is a word.
fn read_word(
    wants: &mut Vec<Want>,
    states: u64,
    slots: u64,
    word: Lexeme,
) -> Result<bool, AllocError>
    requires { states ≤ slots }
    ensures { IfOk result (λ fits. GoesOn (past_word states slots word) wants.old.items fits wants.new.items) }
{
    match word {
        Lexeme::Number(_) => Ok(true),
        Lexeme::State(s) => Ok(s < states),
        Lexeme::Argument(a) => Ok(a < slots - states),
        Lexeme::Function(op) => {
            if gives_condition(op) {
                Ok(false)
            } else {
                push_operands(wants, op)
            }
        }
        _ => Ok(false),
    }
}

// The first token of an expression whose value is a condition.
fn read_condition(wants: &mut Vec<Want>, word: Lexeme) -> Result<bool, AllocError>
    ensures { IfOk result (λ fits. GoesOn (after_condition word) wants.old.items fits wants.new.items) }
{
    match word {
        Lexeme::Not => {
            wants.extend_from_slice(&[Want::Condition])?;
            Ok(true)
        }
        Lexeme::Function(op) => {
            if gives_condition(op) {
                push_operands(wants, op)
            } else {
                Ok(false)
            }
        }
        _ => Ok(false),
    }
}

// The two blocks of a choice, and what continues after them.
fn push_choice(wants: &mut Vec<Want>, room: u32) -> Result<bool, AllocError>
    ensures { IfOk result (λ fits. GoesOn (after_if room) wants.old.items fits wants.new.items) }
{
    if room == 0 {
        return Ok(false);
    }
    let inner = Want::Block(room - 1);
    wants.extend_from_slice(&[
        Want::Block(room),
        inner,
        Want::Open,
        inner,
        Want::Open,
        Want::Condition,
    ])?;
    Ok(true)
}

// The first token of a block: of its first statement, or its closing brace.
fn read_block(wants: &mut Vec<Want>, room: u32, word: Lexeme) -> Result<bool, AllocError>
    ensures { IfOk result (λ fits. GoesOn (after_block room word) wants.old.items fits wants.new.items) }
{
    match word {
        Lexeme::Close => Ok(true),
        Lexeme::Set => {
            wants.extend_from_slice(&[Want::Block(room), Want::Word, Want::Target])?;
            Ok(true)
        }
        Lexeme::If => push_choice(wants, room),
        _ => Ok(false),
    }
}

// Whether a token can begin what is expected. What is then expected after it is pushed onto the stack.
fn read_first(
    wants: &mut Vec<Want>,
    states: u64,
    slots: u64,
    want: Want,
    word: Lexeme,
) -> Result<bool, AllocError>
    requires { states ≤ slots }
    ensures { IfOk result (λ fits. GoesOn (past states slots want word) wants.old.items fits wants.new.items) }
{
    match want {
        Want::Word => read_word(wants, states, slots, word),
        Want::Condition => read_condition(wants, word),
        Want::Divisor => match word {
            Lexeme::Number(n) => Ok(0 < n),
            _ => Ok(false),
        },
        Want::Shift => match word {
            Lexeme::Number(n) => Ok(n < 64),
            _ => Ok(false),
        },
        Want::Target => match word {
            Lexeme::State(s) => Ok(s < states),
            _ => Ok(false),
        },
        Want::Open => match word {
            Lexeme::Open => Ok(true),
            _ => Ok(false),
        },
        Want::Block(room) => read_block(wants, room, word),
    }
}

// Whether one token can begin what is expected next.
fn step(wants: &mut Vec<Want>, states: u64, slots: u64, word: Lexeme) -> Result<bool, AllocError>
    requires { states ≤ slots }
    ensures { IfOk result (λ fits. MatchBool fits (Steps states slots word wants.old.items wants.new.items)
        (Sticks states slots word wants.old.items)) }
{
    match wants.pop() {
        Some(want) => read_first(wants, states, slots, want, word),
        None => Ok(false),
    }
}

/// Whether tokens are the statements of a body with the given numbers of state variables and arguments.
pub(crate) fn is_body(
    alloc: Global,
    states: u64,
    args: u64,
    words: &[Lexeme],
) -> Result<bool, AllocError>
    requires { states + args < 2 ^ 32 }
    ensures { IfOk result (λ fits. MatchBool fits ((body : blocks.Block)
        × IsBody states args words.now body) ((body : blocks.Block) → IsBody states args words.now body → ⊥)) }
{
    let slots = states + args;
    let mut wants = Vec::new(alloc);
    wants.push(Want::Block(MAX_NESTING))?;
    for word in words {
        let fits = step(&mut wants, states, slots, *word)?;
        if !fits {
            return Ok(false);
        }
    }
    let closed = step(&mut wants, states, slots, Lexeme::Close)?;
    Ok(closed && wants.is_empty())
}
