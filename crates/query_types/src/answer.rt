//! Faults with their places, and the answer at one.

ghost use Rattle.std.specs.Prelude.{◌≡◌};

use query_lang::{FaultKind, QueryError, QueryFault, Span};

/// A fault here.
pub fn fault(kind: FaultKind, span: Span) -> QueryFault
    ensures { result ≡ record { kind = kind; span = span } }
{
    QueryFault { kind, span }
}

/// The answer for a fault here.
pub fn refused(kind: FaultKind, span: Span) -> QueryError
    ensures { result ≡ QueryError.Refused (record { kind = kind; span = span }) }
{
    QueryError::Refused(fault(kind, span))
}
