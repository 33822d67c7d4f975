//! Why a run over packets breaks off.

ghost use Rattle.std.specs.Prelude.{◌≡◌};
ghost use Rattle.trace_drive.specs.Answers.{answer_for, answer_of};
ghost use Rattle.trace_drive.specs.declared.answer.RunError.TheVariants.{Failed as WriteFailed, Memory as OutOfMemory};

use marple_base::{Failed, WriteError};
use std::alloc::AllocError;
use trace_reader::{TraceAnswer, TraceFault};

/// Why a run over packets breaks off: the trace has a fault, memory ran out, or a write failed.
#[derive(Clone, Copy)]
pub enum RunError {
    Refused(TraceFault),
    Memory,
    Failed,
}

impl From<AllocError> for RunError {
    ghost from_gives = { λ _ answer. answer ≡ OutOfMemory };

    fn from(_: AllocError) -> RunError {
        RunError::Memory
    }
}

impl From<TraceAnswer> for RunError {
    ghost from_gives = { λ found answer. answer ≡ answer_for found };

    fn from(found: TraceAnswer) -> RunError {
        match found {
            TraceAnswer::Refused(fault) => RunError::Refused(fault),
            TraceAnswer::Memory => RunError::Memory,
        }
    }
}

impl From<Failed> for RunError {
    ghost from_gives = { λ _ answer. answer ≡ WriteFailed };

    fn from(_: Failed) -> RunError {
        RunError::Failed
    }
}

impl From<WriteError> for RunError {
    ghost from_gives = { λ found answer. answer ≡ answer_of found };

    fn from(found: WriteError) -> RunError {
        match found {
            WriteError::Failed => RunError::Failed,
            WriteError::Memory => RunError::Memory,
        }
    }
}
