//! What is known of a fold once it is classified.

ghost use Rattle.std.specs.Prelude.{◌≡◌, IfOk};

use crate::class::Algebra;
use crate::layout::Layout;
use crate::rows::AffineRows;
use fold_code::FoldCode;
use marple_base::Seq;
use query_lang::Class;
use std::alloc::{AllocError, Global};

/// A fold's class, the algebra of its maps, whether it is a translation by that, its depth, its code, and for a linear fold the
/// rows of one step. Where `moves` holds, each step adds to each linear variable what history and arguments alone give, or takes
/// the greater of both.
pub struct FoldProgram {
    pub class: Class,
    pub algebra: Algebra,
    pub moves: bool,
    pub depth: u8,
    pub code: FoldCode,
    pub rows: AffineRows,
    pub layout: Layout,
}

impl Drop for FoldProgram {
    fn drop(self) {
        let FoldProgram {
            class: _,
            algebra: _,
            moves: _,
            depth: _,
            code: _,
            rows: _,
            layout: _,
        } = self;
    }
}

impl FoldProgram {
    /// A program with the same parts.
    pub fn copy(&self, alloc: Global) -> Result<FoldProgram, AllocError>
        ensures { IfOk result (λ copy. copy ≡ self.now) }
    {
        Ok(FoldProgram {
            class: self.class,
            algebra: self.algebra,
            moves: self.moves,
            depth: self.depth,
            code: self.code.copy(alloc)?,
            rows: self.rows.copy(alloc)?,
            layout: self.layout.copy(alloc)?,
        })
    }
}
