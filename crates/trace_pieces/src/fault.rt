//! What is wrong with a trace of any length.

ghost use Rattle.std.specs.Prelude.{◌≡◌, IfSome};
ghost use Rattle.trace_pieces.specs.Faults.{after_records, trace_fault_of};

use marple_base::Field;
use trace_reader::TraceFault;

/// The first fault of a trace of any length. Data records are counted from 1.
#[derive(Clone, Copy, PartialEq, Eq, Debug)]
pub enum WholeFault {
    NoHeader,
    FieldTwice(Field),
    FieldMissing(Field),
    FieldCount(u64),
    BadNumber(u64, Field),
}

/// The fault of a piece in its trace, which has so many records before the piece. There is none for the limits of one run,
/// which no piece passes, and none where the number of a record has no room.
pub fn fault_after(given: u64, fault: TraceFault) -> Option<WholeFault>
    ensures { IfSome result (λ found. trace_fault_of found ≡ after_records given fault) }
{
    match fault {
        TraceFault::NoHeader => Some(WholeFault::NoHeader),
        TraceFault::FieldTwice(field) => Some(WholeFault::FieldTwice(field)),
        TraceFault::FieldMissing(field) => Some(WholeFault::FieldMissing(field)),
        TraceFault::FieldCount(n) => match given.checked_add(u64::from(n)) {
            Some(number) => Some(WholeFault::FieldCount(number)),
            None => None,
        },
        TraceFault::BadNumber(n, field) => match given.checked_add(u64::from(n)) {
            Some(number) => Some(WholeFault::BadNumber(number, field)),
            None => None,
        },
        TraceFault::TraceTooLong | TraceFault::TooManyPackets | TraceFault::TooManySwitches(_) =>
            None,
    }
}
