//! What a touch of a bucket finds.

/// What a touch found.
#[derive(Clone, Copy)]
pub enum Touch {
    /// The key was there, at this place.
    Hit(usize),
    /// The key got this free place.
    Free(usize),
    /// The bucket is full; this is the least recently used place.
    Full(usize),
}
