//! How a command ends.
ghost use Rattle.std.specs.Prelude.{◌≡◌};
ghost use Rattle.command_answers.specs.{Complaint.number_of, Phases.{refusal_status, status_for}};
ghost use Rattle.command_answers.specs.declared.status.Status.TheVariants.{Memory, OutputFault};

use marple_base::{Failed, Which};
use query_lang::{QueryError, QueryFault};
use std::alloc::AllocError;
use trace_drive::RunError;
use trace_reader::TraceFault;

/// How a command ends. The statuses are numbered from 0 in this order.
#[derive(Clone, Copy, Debug, PartialEq, Eq)]
pub enum Status {
    Ok,
    Memory,
    Usage,
    InputFault(Which),
    QueryRefused(QueryFault),
    TraceRefused(TraceFault),
    OutputFault,
}

impl Status {
    /// The exit status of the program.
    pub fn number(&self) -> u8
        ensures { result ≡ number_of self.now }
    {
        match self {
            Status::Ok => 0,
            Status::Memory => 1,
            Status::Usage => 2,
            Status::InputFault(_) => 3,
            Status::QueryRefused(_) => 4,
            Status::TraceRefused(_) => 5,
            Status::OutputFault => 6,
        }
    }
}

impl From<AllocError> for Status {
    ghost from_gives = { λ _ status. status ≡ Memory };

    fn from(_: AllocError) -> Status {
        Status::Memory
    }
}

impl From<QueryError> for Status {
    ghost from_gives = { λ error status. status ≡ refusal_status error };

    fn from(error: QueryError) -> Status {
        match error {
            QueryError::Refused(fault) => Status::QueryRefused(fault),
            QueryError::Memory => Status::Memory,
        }
    }
}

impl From<RunError> for Status {
    ghost from_gives = { λ answer status. status ≡ status_for answer };

    fn from(answer: RunError) -> Status {
        match answer {
            RunError::Refused(fault) => Status::TraceRefused(fault),
            RunError::Memory => Status::Memory,
            RunError::Failed => Status::OutputFault,
        }
    }
}

/// A fault of the output.
impl From<Failed> for Status {
    ghost from_gives = { λ _ status. status ≡ OutputFault };

    fn from(_: Failed) -> Status {
        Status::OutputFault
    }
}
