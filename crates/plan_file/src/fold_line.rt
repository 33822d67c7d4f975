//! A line `fold` as it is read.

ghost use Rattle.std.specs.Prelude.{◌≡◌, ◌≤◌, ◌∷◌, [], List, ℕ, true, false, codes, length, MatchOption, IfOk};
ghost use Rattle.query_lang.specs.{declared.{fold.TypedFold.TypedFold, typed.Class.Class}, Folds.{IsValidFold, fold_block}};
ghost use Rattle.fold_class.specs.{Kinds.class_of, Depth.IsDepth};
ghost use Rattle.stage_plan.specs.Shape.{class_word};
ghost use Rattle.plan_file.specs.{Finding.Finds, declared.made.Folded.Folded, FoldLines.{IsFoldOf, IsFoldWords, AreBounds, IsFoldLine}};
ghost use Rattle.plan_file.specs.{FoldSaid.folded_as, Lexis.tokens, Lines.IsGroupWithin};

use crate::lexis::{cut_at_space, number};
use crate::made::Group;
use crate::named::{after_word, two_tokens};
use crate::tree::body_of;
use fold_class::classify;
use fold_code::compile;
use marple_base::Seq;
use query_lang::lexis::is_text;
use query_lang::{Class, MAX_ARGS, MAX_NODES, MAX_STATEMENTS, MAX_STATES, Name, Span, TypedFold};
use std::alloc::{AllocError, Global};

/// What a valid line `fold` says of its group's fold.
#[derive(Clone, Copy)]
pub struct Said {
    pub class: Class,
    pub depth: u32,
    pub nodes: u32,
    pub statements: u32,
}

/// The words of a line `fold`.
#[derive(Clone, Copy)]
struct FoldWords {
    class: Class,
    depth: u64,
    nodes: u64,
    statements: u64,
}

fn class_named(token: &[u8]) -> Option<Class>
    ensures { Finds result (λ class. token.now ≡ class_word class) }
{
    if is_text(token, b"linear") {
        Some(Class::Linear)
    } else if is_text(token, b"other") {
        Some(Class::Other)
    } else {
        None
    }
}

// The four tokens of a line after the word `fold`.
fn fold_tokens(line: &[u8]) -> Option<(&[u8], &[u8], &[u8], &[u8])>
    ensures { MatchOption result ((a b c d : List ℕ) → tokens line.now ≡ codes "fold" ∷ a ∷ b ∷ c ∷ d ∷ [] → ⊥)
        (λ r. tokens line.now ≡ codes "fold" ∷ r.0.now ∷ r.1.now ∷ r.2.now ∷ r.3.now ∷ []) }
{
    let rest = after_word(b"fold", line)?;
    let (class, rest) = cut_at_space(rest)?;
    let (depth, rest) = cut_at_space(rest)?;
    let (nodes, statements) = two_tokens(rest)?;
    Some((class, depth, nodes, statements))
}

// What a line with the word `fold`, a class and three numbers says.
fn fold_words(line: &[u8]) -> Option<FoldWords>
    ensures { MatchOption result ((class : Class) → (depth nodes statements : ℕ)
        → IsFoldWords line.now class depth nodes statements → ⊥) (λ w. IsFoldWords line.now w.class w.depth w.nodes w.statements) }
{
    let (class, depth, nodes, statements) = fold_tokens(line)?;
    Some(FoldWords {
        class: class_named(class)?,
        depth: number(depth)?,
        nodes: number(nodes)?,
        statements: number(statements)?,
    })
}

// Whether a line gives this class and this depth.
fn is_said(words: FoldWords, class: Class, depth: u32) -> bool
    ensures yes { result ≡ true → (class ≡ words.class) × (depth ≡ words.depth) }
    ensures no { result ≡ false → class ≡ words.class → depth ≡ words.depth → ⊥ }
{
    let same = match (words.class, class) {
        (Class::Linear, Class::Linear) | (Class::Other, Class::Other) => true,
        _ => false,
    };
    same && u64::from(depth) == words.depth
}

// The first N numbers from a given one on.
fn numbers(alloc: Global, from: u32, count: usize) -> Result<Seq<u32>, AllocError>
    requires from { from ≤ MAX_STATES }
    requires count { count ≤ MAX_ARGS }
    ensures { IfOk result (λ all. length all ≡ count) }
{
    let mut all = Seq::new(alloc);
    for i in 0..count {
        all.push(from + i as u32)?;
    }
    Ok(all)
}

/// The fold of a group whose body has at most the given nodes and statements, which are at most `MAX_NODES` and `MAX_STATEMENTS`.
pub fn fold_of(
    alloc: Global,
    group: &Group,
    nodes: u32,
    statements: u32,
) -> Result<Option<TypedFold>, AllocError>
    requires within { IsGroupWithin group.now }
    requires nodes { nodes ≤ MAX_NODES }
    requires statements { statements ≤ MAX_STATEMENTS }
    ensures { IfOk result (λ found. MatchOption found ((other : TypedFold) → IsFoldOf group.now other
        → AreBounds other nodes statements → ⊥) (λ f. IsFoldOf group.now f × AreBounds f nodes statements × IsValidFold f
        × (f.nodes ≡ nodes) × (f.statements ≡ statements)
        × ((other : TypedFold) → IsFoldOf group.now other → fold_block other ≡ fold_block f))) }
{
    let Some(words) = &group.body else {
        return Ok(None);
    };
    let states = group.initial.len();
    let args = group.args.len();
    let words = words.as_slice();
    let Some(body) = body_of(alloc, states as u64, args as u64, words, nodes, statements)? else {
        return Ok(None);
    };
    Ok(Some(TypedFold {
        name: Name {
            id: 0,
            span: Span { start: 0, end: 0 },
        },
        state_names: numbers(alloc, 0, states)?,
        initial: Seq::from_vec(Vec::from_slice(alloc, group.initial.as_slice())?),
        arg_names: numbers(alloc, states as u32, args)?,
        body,
        emit: None,
        nodes,
        statements,
    }))
}

fn class_and_depth(alloc: Global, fold: &TypedFold) -> Result<(Class, u32), AllocError>
    requires { IsValidFold fold.now }
    ensures { IfOk result (λ found. (found.0 ≡ class_of fold.now) × IsDepth fold.now found.1) }
{
    let program = classify(alloc, fold, compile(alloc, fold)?)?;
    Ok((program.class, u32::from(program.depth)))
}

/// What a line `fold` says of a group, where the line is valid after the group's other lines.
pub(crate) fn fold_line(
    alloc: Global,
    group: &Group,
    line: &[u8],
) -> Result<Option<Said>, AllocError>
    requires { IsGroupWithin group.now }
    ensures { IfOk result (λ found. MatchOption found ((folded : Folded) → IsFoldLine group.now line.now folded
        → ⊥) (λ said. IsFoldLine group.now line.now (folded_as group.now said))) }
{
    let Some(words) = fold_words(line) else {
        return Ok(None);
    };
    if words.nodes > MAX_NODES as u64 || words.statements > MAX_STATEMENTS as u64 {
        return Ok(None);
    }
    let nodes = words.nodes as u32;
    let statements = words.statements as u32;
    let Some(fold) = fold_of(alloc, group, nodes, statements)? else {
        return Ok(None);
    };
    let (class, depth) = class_and_depth(alloc, &fold)?;
    if !is_said(words, class, depth) {
        return Ok(None);
    }
    Ok(Some(Said {
        class,
        depth,
        nodes,
        statements,
    }))
}
