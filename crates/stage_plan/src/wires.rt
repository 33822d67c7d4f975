//! Where the columns of a stream are while the operations of a query are made.

ghost use Rattle.std.specs.Prelude.{◌≡◌, IfOk};

use crate::op::Operand;
use marple_base::Seq;
use std::alloc::{AllocError, Global};

/// A stream: it has a tuple where `present` isn't 0, and then these are its columns.
#[derive(Drop)]
pub(crate) struct StreamWires {
    pub(crate) present: Operand,
    pub(crate) columns: Seq<Operand>,
}

pub(crate) fn copy<T: Copy>(alloc: Global, columns: &[T]) -> Result<Seq<T>, AllocError>
    ensures { IfOk result (λ copy. copy ≡ columns.now) }
{
    Ok(Seq::from_vec(Vec::from_slice(alloc, columns)?))
}
