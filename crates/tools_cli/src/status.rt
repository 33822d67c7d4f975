//! How a command of the second program ends.

ghost use Rattle.std.specs.Prelude.{◌≡◌};
ghost use Rattle.tools_cli.specs.{Complaint.tool_number, declared.status.ToolStatus.TheVariants.Memory};
ghost use Rattle.tools_cli.specs.Statuses.{IsOfQuery, status_of, status_of_query, status_of_traces};

use command_answers::Status;
use marple_base::Which;
use query_lang::QueryFault;
use std::alloc::AllocError;
use trace_pieces::WholeFault;
use trace_split::SplitError;

/// How a command ends.
#[derive(Clone, Copy, Debug, PartialEq, Eq)]
pub enum ToolStatus {
    Ok,
    Memory,
    Usage,
    InputFault(Which),
    QueryRefused(QueryFault),
    /// No field is a key of every groupby of the query.
    FieldNeeded,
    TraceRefused(WholeFault),
    OutputFault,
}

impl ToolStatus {
    /// The exit status of the program.
    pub fn number(&self) -> u8
        ensures { result ≡ tool_number self.now }
    {
        match self {
            ToolStatus::Ok => 0,
            ToolStatus::Memory => 1,
            ToolStatus::Usage => 2,
            ToolStatus::InputFault(_) => 3,
            ToolStatus::QueryRefused(_) => 4,
            ToolStatus::FieldNeeded => 4,
            ToolStatus::TraceRefused(_) => 5,
            ToolStatus::OutputFault => 6,
        }
    }

    /// The status of a query that wasn't read or accepted.
    pub(crate) fn of_query(status: Status) -> ToolStatus
        requires { IsOfQuery status }
        ensures { result ≡ status_of_query status }
    {
        match status {
            Status::Memory => ToolStatus::Memory,
            Status::InputFault(which) => ToolStatus::InputFault(which),
            Status::QueryRefused(fault) => ToolStatus::QueryRefused(fault),
            Status::Ok => unreachable!(),
            Status::Usage => unreachable!(),
            Status::TraceRefused(_) => unreachable!(),
            Status::OutputFault => unreachable!(),
        }
    }
}

/// Of traces that weren't split.
impl From<SplitError> for ToolStatus {
    ghost from_gives = { λ error status. status ≡ status_of_traces error };

    fn from(error: SplitError) -> ToolStatus {
        match error {
            SplitError::Refused(fault) => ToolStatus::TraceRefused(fault),
            SplitError::InputFault => ToolStatus::InputFault(Which::Trace),
            SplitError::OutputFault => ToolStatus::OutputFault,
            SplitError::Memory => ToolStatus::Memory,
        }
    }
}

/// Of facts for which memory ran out.
impl From<AllocError> for ToolStatus {
    ghost from_gives = { λ _ status. status ≡ Memory };

    fn from(_: AllocError) -> ToolStatus {
        ToolStatus::Memory
    }
}

/// The status that a command ends in.
pub(crate) fn status_of(answer: Result<(), ToolStatus>) -> ToolStatus
    ensures { result ≡ status_of answer }
{
    match answer {
        Ok(()) => ToolStatus::Ok,
        Err(status) => status,
    }
}
