//! The law of ranges. It is the contract of a function without a body.

ghost use Rattle.trace_ranges.specs.Laws.{RangesAreTheTrace};

/// Ranges next to one another, up to the end of a trace, have its packets, if none of them has a fault.
pub fn ranges_are_the_trace()
    ensures { RangesAreTheTrace }
{}
