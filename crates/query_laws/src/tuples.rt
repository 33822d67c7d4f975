//! Laws of the streams of a query, by its definition over all packets.

ghost use Rattle.query_laws.specs.TupleLaws.{PacketsAreOfTheTrace, PacketsAscend, RowsFillTheirColumns, ZippedColumnsAgree};
ghost use Rattle.query_laws.specs.TupleLaws.{ZipsKeepTheFirst, ZipsKeepTheSecond};

/// A stream has at most one tuple for each packet, and its tuples are in the order of the packets.
pub fn packets_ascend()
    ensures { PacketsAscend }
{}

/// Each tuple of a stream is that of a packet of the trace, which are numbered from 1.
pub fn packets_are_of_the_trace()
    ensures { PacketsAreOfTheTrace }
{}

/// In a typed query each row of a stream has a word for each of its columns.
pub fn rows_fill_their_columns()
    ensures { RowsFillTheirColumns }
{}

/// Two columns of one name, of which a `zip` keeps one, have the same values: both are one field of the packet, or were made
/// by one `map`.
pub fn zipped_columns_agree()
    ensures { ZippedColumnsAgree }
{}

/// A `zip` loses nothing: it has each column of both streams, with its values.
pub fn zips_keep_columns()
    ensures first { ZipsKeepTheFirst }
    ensures second { ZipsKeepTheSecond }
{}
