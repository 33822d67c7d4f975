//! A count of packets by source over five packets, and what is printed of it.

use crate::call::{Outside, PLACES, Seen};
use epoch_model::Mark;
use marple_cli::Status;

pub const QUERY: &[u8] =
    b"def count([c], []) { c = c + 1; } r = groupby(pktstream, [srcip], count); print r;";

/// The sources of the packets.
pub const SOURCES: [u64; 5] = [1, 2, 3, 1, 2];

/// The count over a trace of these packets, where nothing fails.
pub const COUNT: Outside<'static> = Outside {
    query: QUERY,
    trace: b"srcip\n1\n2\n3\n1\n2\n",
    most: 4096,
    places: PLACES,
    failing: &[],
    failing_writes: &[],
    failing_complaints: &[],
};

/// A run over caches of two buckets of one way.
pub const RUN: &str = "run query trace --buckets 2 --ways 1";

/// The table that the run prints. Sources 2 and 3 share a bucket, so that the packets of 2 are in two epochs.
pub const TABLE: &[u8] =
    b"table r linear 0 4\nsrcip,mark,epoch,epochs,c\n1,exact,*,1,2\n2,exact,*,2,2\n3,exact,*,1,1\n";

/// What is seen of the run.
pub const WHOLE: Seen<'static> = Seen {
    status: Status::Ok,
    text: TABLE,
    complaint: b"",
};

/// Its rows: the key, the mark, the number of epochs and the count of each.
pub const ROWS: &[(&[u64], Mark, u64, &[u64])] = &[
    (&[1], Mark::Exact, 1, &[2]),
    (&[2], Mark::Exact, 2, &[2]),
    (&[3], Mark::Exact, 1, &[1]),
];
