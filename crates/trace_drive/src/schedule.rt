//! When the parts of a pipeline do what no packet asks for.

/// When records are merged and caches emptied, and how large caches and pipes are.
#[derive(Clone, Copy)]
pub struct Schedule {
    /// The number of buckets of each cache.
    pub buckets: u32,
    /// The number of records that each pipe has room for.
    pub pipe: u32,
    /// Each lane merges a record after every `lag` packets.
    pub lag: u32,
    /// The caches are emptied after every `refresh` packets; never, where it is 0.
    pub refresh: u32,
}
