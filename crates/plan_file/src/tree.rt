//! The statements of a body as a tree. It is built only for bodies within the bounds of a fold, so it isn't deep.

ghost use Rattle.std.specs.Prelude.{◌≡◌, ◌≤◌, ◌↔◌, IsTrue, true, false, ◌+◌, ◌-◌, ◌<◌, ◌++◌, ◌∷◌, [], List, length, count_by, IfOk};
ghost use Rattle.std.specs.Prelude.{MatchOption, MatchResult};
ghost use Rattle.query_lang.specs.{Blocks.{Block, End, Fork, Set, block_of, stmt_block}, Terms.{Term, term_of}};
ghost use Rattle.query_lang.specs.Folds.{IsValidTerm, IsValidBlock, block_nodes, block_count};
ghost use Rattle.plan_file.specs.{declared.{lexemes.Lexeme.Lexeme, tree.Stop.TheVariants.Memory}, Bodies.{written, written_block, IsBody}};
ghost use Rattle.plan_file.specs.Trees as Trees;
ghost use Rattle.plan_file.specs.Trees.{AreSmall, Closes, IsStatement, is_leaf, first_of};

use crate::lexemes::Lexeme;
use marple_base::{Boxed, Seq};
use query_lang::{MAX_ARGS, MAX_STATES, TypedExpr, TypedStmt};
use std::alloc::{AllocError, Global};

/// Why nothing is read: the tokens write something else, or memory ran out.
#[derive(Clone, Copy)]
enum Stop {
    Other,
    Memory,
}

/// The memory that statements take, the number of state variables, and that of slots: them and the arguments.
#[derive(Clone, Copy)]
struct Reader {
    alloc: Global,
    states: u64,
    slots: u64,
    ghost states_first: { states ≤ slots },
    ghost few: { slots ≤ 24 },
}

impl From<AllocError> for Stop {
    ghost from_gives = { λ _ stop. stop ≡ Memory };

    fn from(_: AllocError) -> Stop {
        Stop::Memory
    }
}

// What was read, or else the function returns why nothing was: `?` between functions that fail alike, without the two calls that
// it stands for, each of which is more to prove.
macro_rules! read {
    ($reading:expr) => {
        match $reading {
            Ok(found) => found,
            Err(stop) => return Err(stop),
        }
    };
}

fn is_node(word: Lexeme) -> bool
    ensures { result ≡ Trees.is_node word }
{
    matches!(
        word,
        Lexeme::Not
            | Lexeme::Function(_)
            | Lexeme::Number(_)
            | Lexeme::State(_)
            | Lexeme::Argument(_)
    )
}

fn is_set(word: Lexeme) -> bool
    ensures { result ≡ Trees.is_set word }
{
    matches!(word, Lexeme::Set)
}

fn is_if(word: Lexeme) -> bool
    ensures { result ≡ Trees.is_if word }
{
    matches!(word, Lexeme::If)
}

// How many tokens begin an assignment, how many a choice, and how many are nodes of expressions.
fn counted(words: &[Lexeme]) -> (usize, usize, usize)
    ensures sets { result.0 ≡ count_by Trees.is_set words.now }
    ensures ifs { result.1 ≡ count_by Trees.is_if words.now }
    ensures nodes { result.2 ≡ count_by Trees.is_node words.now }
{
    let mut sets: usize = 0;
    let mut ifs: usize = 0;
    let mut nodes: usize = 0;
    for word in words {
        sets += usize::from(is_set(*word));
        ifs += usize::from(is_if(*word));
        nodes += usize::from(is_node(*word));
    }
    (sets, ifs, nodes)
}

// Whether the statements that tokens write have at most the given nodes and statements.
fn are_small(words: &[Lexeme], nodes: u32, statements: u32) -> bool
    ensures { IsTrue result ↔ AreSmall words.now nodes statements }
{
    let (sets, ifs, all) = counted(words);
    sets <= statements as usize && ifs <= statements as usize - sets && all <= nodes as usize + sets
}

// A number or a slot.
fn leaf(reader: Reader, word: Lexeme) -> Option<TypedExpr>
    ensures { (e : Term) → IsValidTerm reader.slots e → is_leaf e ≡ true → word ≡ first_of reader.states e
        → MatchOption result ⊥ (λ leaf. term_of leaf ≡ e) }
{
    match word {
        Lexeme::Number(n) => Some(TypedExpr::Number(n)),
        Lexeme::State(s) => if s < reader.states {
            Some(TypedExpr::Slot(s as u16))
        } else {
            None
        },
        Lexeme::Argument(a) => {
            if a < reader.slots - reader.states {
                Some(TypedExpr::Slot((reader.states + a) as u16))
            } else {
                None
            }
        }
        _ => None,
    }
}

// The expression that tokens begin with, and the tokens after it.
fn expression<'a>(reader: Reader, words: &'a [Lexeme]) -> Result<(TypedExpr, &'a [Lexeme]), Stop>
    ensures found { (e : Term) → (rest : List Lexeme) → IsValidTerm reader.slots e → words.now ≡ written reader.states e ++ rest
        → MatchResult result (λ r. (term_of r.0 ≡ e) × (r.1.now ≡ rest)) (λ stop. stop ≡ Memory) }
    ensures shorter { IfOk result (λ r. length r.1.now < length words.now) }
{
    let (first, rest) = match words {
        [] => return Err(Stop::Other),
        [first, rest @ ..] => (*first, rest),
    };
    match first {
        Lexeme::Not => {
            let (inner, past) = read!(expression(reader, rest));
            Ok((TypedExpr::Not(Boxed::new(reader.alloc, inner)?), past))
        }
        Lexeme::Function(op) => {
            let (left, middle) = read!(expression(reader, rest));
            let (right, past) = read!(expression(reader, middle));
            let left = Boxed::new(reader.alloc, left)?;
            Ok((
                TypedExpr::Binary(op, left, Boxed::new(reader.alloc, right)?),
                past,
            ))
        }
        _ => match leaf(reader, first) {
            Some(leaf) => Ok((leaf, rest)),
            None => Err(Stop::Other),
        },
    }
}

// An assignment after its `set` and the number of its state variable, and the tokens after the assignment.
fn assignment<'a>(
    reader: Reader,
    variable: u64,
    words: &'a [Lexeme],
) -> Result<(TypedStmt, &'a [Lexeme]), Stop>
    ensures found { (e : Term) → (rest : List Lexeme) → variable < reader.states → IsValidTerm reader.slots e
        → words.now ≡ written reader.states e ++ rest
        → MatchResult result (λ r. (stmt_block r.0 ≡ Set variable e End) × (r.1.now ≡ rest)) (λ stop. stop ≡ Memory) }
    ensures shorter { IfOk result (λ r. length r.1.now < length words.now) }
{
    if variable >= reader.states {
        return Err(Stop::Other);
    }
    let (value, past) = read!(expression(reader, words));
    Ok((TypedStmt::Assign(variable as u16, value), past))
}

// The tokens after the first one, where that is a brace of this kind.
fn after_brace(words: &[Lexeme], opens: bool) -> Result<&[Lexeme], Stop>
    ensures { MatchResult result (λ rest. words.now ≡ Trees.brace opens ∷ rest.now)
        (λ _. (rest : List Lexeme) → words.now ≡ Trees.brace opens ∷ rest → ⊥) }
{
    match words {
        [Lexeme::Open, rest @ ..] if opens => Ok(rest),
        [Lexeme::Close, rest @ ..] if !opens => Ok(rest),
        _ => Err(Stop::Other),
    }
}

// The statements in braces that tokens begin with, and the tokens after the closing brace.
#[cycle(statements)]
fn braced<'a>(reader: Reader, words: &'a [Lexeme]) -> Result<(Seq<TypedStmt>, &'a [Lexeme]), Stop>
    ensures found { (b : Block) → (rest : List Lexeme) → IsValidBlock reader.states (reader.slots - reader.states) b
        → words.now ≡ Trees.brace true ∷ (written_block reader.states b ++ Trees.brace false ∷ rest)
        → MatchResult result (λ r. (block_of r.0 ≡ b) × (r.1.now ≡ rest)) (λ stop. stop ≡ Memory) }
    ensures shorter { IfOk result (λ r. length r.1.now < length words.now) }
{
    let inside = read!(after_brace(words, true));
    let (body, left) = read!(statements(reader, inside));
    let rest = read!(after_brace(left, false));
    Ok((body, rest))
}

// A choice after its `if`, and the tokens after the choice.
#[cycle(statements)]
fn choice<'a>(reader: Reader, words: &'a [Lexeme]) -> Result<(TypedStmt, &'a [Lexeme]), Stop>
    ensures found { (c : Term) → (a b : Block) → (rest : List Lexeme) → IsValidTerm reader.slots c
        → IsValidBlock reader.states (reader.slots - reader.states) a
        → IsValidBlock reader.states (reader.slots - reader.states) b
        → words.now ≡ Trees.written_choice reader.states c a b ++ rest
        → MatchResult result (λ r. (stmt_block r.0 ≡ Fork c a b End) × (r.1.now ≡ rest)) (λ stop. stop ≡ Memory) }
    ensures shorter { IfOk result (λ r. length r.1.now < length words.now) }
{
    let (condition, rest) = read!(expression(reader, words));
    let (then_block, rest) = read!(braced(reader, rest));
    let (else_block, rest) = read!(braced(reader, rest));
    Ok((TypedStmt::If(condition, then_block, else_block), rest))
}

// The statement that tokens begin with, and the tokens after it.
#[cycle(statements)]
fn statement<'a>(reader: Reader, words: &'a [Lexeme]) -> Result<(TypedStmt, &'a [Lexeme]), Stop>
    ensures found { (one : Block) → (rest : List Lexeme) → IsStatement one
        → IsValidBlock reader.states (reader.slots - reader.states) one → words.now ≡ written_block reader.states one ++ rest
        → MatchResult result (λ r. (stmt_block r.0 ≡ one) × (r.1.now ≡ rest)) (λ stop. stop ≡ Memory) }
    ensures shorter { IfOk result (λ r. length r.1.now < length words.now) }
{
    match words {
        [Lexeme::Set, Lexeme::State(v), rest @ ..] => assignment(reader, *v, rest),
        [Lexeme::If, rest @ ..] => choice(reader, rest),
        _ => Err(Stop::Other),
    }
}

// Whether a statement begins with the first token.
fn begins_statement(words: &[Lexeme]) -> bool
    ensures { result ≡ Trees.begins_statement words.now }
{
    matches!(words, [Lexeme::Set, ..] | [Lexeme::If, ..])
}

// The statements that tokens begin with, and the tokens after them.
#[cycle(statements)]
fn statements<'a>(
    reader: Reader,
    words: &'a [Lexeme],
) -> Result<(Seq<TypedStmt>, &'a [Lexeme]), Stop>
    ensures found { (b : Block) → (rest : List Lexeme) → Closes rest → IsValidBlock reader.states (reader.slots - reader.states) b
        → words.now ≡ written_block reader.states b ++ rest
        → MatchResult result (λ r. (block_of r.0 ≡ b) × (r.1.now ≡ rest)) (λ stop. stop ≡ Memory) }
    ensures shorter { IfOk result (λ r. length r.1.now ≤ length words.now) }
{
    let mut found = Seq::new(reader.alloc);
    let mut left = words;
    'statements: while begins_statement(left) {
        let (one, past) = read!(statement(reader, left));
        found.push(one)?;
        left = past;
    }
    Ok((found, left))
}

/// The statements of a body, where they have at most the given nodes and statements.
pub(crate) fn body_of(
    alloc: Global,
    states: u64,
    args: u64,
    words: &[Lexeme],
    nodes: u32,
    most: u32,
) -> Result<Option<Seq<TypedStmt>>, AllocError>
    requires states { states ≤ MAX_STATES }
    requires args { args ≤ MAX_ARGS }
    ensures { IfOk result (λ found. (b : Block) → IsBody states args words.now b
        → MatchOption found (block_nodes b ≤ nodes → block_count b ≤ most
        → ⊥) (λ body. (block_of body ≡ b) × (block_nodes b ≤ nodes) × (block_count b ≤ most))) }
{
    if !are_small(words, nodes, most) {
        return Ok(None);
    }
    let reader = Reader {
        alloc,
        states,
        slots: states + args,
    };
    match statements(reader, words) {
        Ok((body, _)) => Ok(Some(body)),
        Err(Stop::Other) => Ok(None),
        Err(Stop::Memory) => Err(AllocError),
    }
}
