//! Why a text isn't written whole.

ghost use Rattle.std.specs.Prelude.{◌≡◌};
ghost use Rattle.marple_base.specs.declared.write_error.WriteError.TheVariants.{Failed as WriteFailed, Memory as OutOfMemory};

use crate::Failed;
use std::alloc::AllocError;

/// Why a text isn't written whole: a write failed, or memory ran out while the text was made.
#[derive(Clone, Copy)]
pub enum WriteError {
    Failed,
    Memory,
}

impl From<Failed> for WriteError {
    ghost from_gives = { λ _ answer. answer ≡ WriteFailed };

    fn from(_: Failed) -> WriteError {
        WriteError::Failed
    }
}

impl From<AllocError> for WriteError {
    ghost from_gives = { λ _ answer. answer ≡ OutOfMemory };

    fn from(_: AllocError) -> WriteError {
        WriteError::Memory
    }
}
