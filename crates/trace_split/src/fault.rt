//! Why a trace isn't split.

ghost use Rattle.std.specs.Prelude.{◌≡◌};
ghost use Rattle.trace_split.specs.declared.fault.SplitError.TheVariants.{Memory as OutOfMemory};

use marple_base::{ReadAnswer, WriteError};
use std::alloc::AllocError;
use trace_pieces::WholeFault;

/// Why a trace wasn't split whole.
#[derive(Clone, Copy, PartialEq, Eq, Debug)]
pub enum SplitError {
    Refused(WholeFault),
    InputFault,
    OutputFault,
    Memory,
}

impl From<WriteError> for SplitError {
    ghost use Rattle.trace_split.specs.Faults.{error_for};

    ghost from_gives = { λ error answer. answer ≡ error_for error };

    fn from(error: WriteError) -> SplitError {
        match error {
            WriteError::Failed => SplitError::OutputFault,
            WriteError::Memory => SplitError::Memory,
        }
    }
}

impl From<ReadAnswer> for SplitError {
    ghost use Rattle.trace_split.specs.Faults.{error_at};

    ghost from_gives = { λ error answer. answer ≡ error_at error };

    fn from(error: ReadAnswer) -> SplitError {
        match error {
            ReadAnswer::Failed => SplitError::InputFault,
            ReadAnswer::Memory => SplitError::Memory,
        }
    }
}

impl From<AllocError> for SplitError {
    ghost from_gives = { λ _ answer. answer ≡ OutOfMemory };

    fn from(_: AllocError) -> SplitError {
        SplitError::Memory
    }
}
