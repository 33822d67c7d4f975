//! Why a text isn't accepted as a query, or as a plan.

ghost use Rattle.std.specs.Prelude.{◌≡◌};
ghost use Rattle.query_lang.specs.declared.error.QueryError.TheVariants.{Memory, Refused};

use crate::fault::QueryFault;
use std::alloc::AllocError;

/// Why a text isn't accepted, at each step from its bytes to the plan.
#[derive(Clone, Copy, Debug)]
pub enum QueryError {
    /// The first fault.
    Refused(QueryFault),
    /// Memory ran out.
    Memory,
}

impl From<QueryFault> for QueryError {
    ghost from_gives = { λ fault error. error ≡ Refused fault };

    fn from(fault: QueryFault) -> QueryError {
        QueryError::Refused(fault)
    }
}

impl From<AllocError> for QueryError {
    ghost from_gives = { λ _ error. error ≡ Memory };

    fn from(_: AllocError) -> QueryError {
        QueryError::Memory
    }
}
