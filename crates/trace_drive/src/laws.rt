//! What is known of the packets that are read from a trace.

ghost use Rattle.trace_drive.specs.ReadPackets.{ReadPacketsAreFew, ReadPacketsAreKept, ReadPacketsAreOfWords, ReadPacketsAreWhole};

/// The packets that are read from a trace have the words of all fields.
pub fn read_packets_are_whole()
    ensures { ReadPacketsAreWhole }
{}

/// Each field of each packet that is read from a trace is a word.
pub fn read_packets_are_words()
    ensures { ReadPacketsAreOfWords }
{}

/// A trace has no more packets than it may have records.
pub fn read_packets_are_few()
    ensures { ReadPacketsAreFew }
{}

/// Where the fields are kept that are read, nothing of a packet is lost that is read from a trace.
pub fn read_packets_are_kept()
    ensures { ReadPacketsAreKept }
{}
