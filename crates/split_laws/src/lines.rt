//! The law of pieces of a trace that are cut after ends of lines.

ghost use Rattle.split_laws.specs.Lines.{LinesMayBeCut};

/// Up to its first quote a trace may be cut after the end of each line, and the pieces split side by side: with the header before it
/// each piece is a trace, and their packets, one piece after the other, are those of the whole.
pub fn lines_may_be_cut()
    ensures { LinesMayBeCut }
{}
