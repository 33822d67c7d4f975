//! The facts of folds.

ghost use Rattle.std.specs.Prelude.{◌≡◌, IfOk, All, map};
ghost use Rattle.query_lang.specs.Folds.{IsValidFold};
ghost use Rattle.query_facts.specs.Folds.{fold_facts};

use enclosure_folds::is_monotone;
use fold_class::{Algebra, classify, depth_is_found};
use fold_code::{compile, is_additive};
use marple_base::Seq;
use query_lang::{Class, TypedFold};
use std::alloc::{AllocError, Global};

/// What a fold is: its class, and the algebra of its maps where it is linear; its depth, and which of its variables have one;
/// whether it only adds, and whether it keeps the order of states.
#[derive(Drop)]
pub struct FoldFacts {
    pub class: Class,
    pub algebra: Algebra,
    pub depth: u8,
    pub history: Seq<u8>,
    pub additive: bool,
    pub monotone: bool,
}

// The facts of a fold.
fn fold_facts(alloc: Global, f: &TypedFold) -> Result<FoldFacts, AllocError>
    requires { IsValidFold f.now }
    ensures { IfOk result (λ facts. facts ≡ fold_facts f.now) }
{
    depth_is_found();
    let code = compile(alloc, f)?;
    let program = classify(alloc, f, code)?;
    let history = Seq::from_vec(program.layout.history.as_slice().to_vec(alloc)?);
    Ok(FoldFacts {
        class: program.class,
        algebra: program.algebra,
        depth: program.depth,
        history,
        additive: is_additive(f),
        monotone: is_monotone(f),
    })
}

/// The facts of each fold.
pub(crate) fn all_folds(alloc: Global, folds: &[TypedFold]) -> Result<Seq<FoldFacts>, AllocError>
    requires { All IsValidFold folds.now }
    ensures { IfOk result (λ all. all ≡ map fold_facts folds.now) }
{
    let mut all = Seq::new(alloc);
    for f in folds {
        let facts = fold_facts(alloc, f)?;
        all.push(facts)?;
    }
    Ok(all)
}
