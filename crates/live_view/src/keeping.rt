//! Memory that the C library keeps from one view to the next.

use std::alloc::Global;

// The words of a block that is a page below 32 MiB: the largest one whose release the C library learns from.
const LARGEST: usize = 4_193_784;

/// Has the C library keep the memory that a view releases for the next view. It gives free memory at the end of its heap
/// back to the system where that is more than twice the largest block that was mapped by itself and released, so a block
/// of nearly 32 MiB is taken and released. No page of it is written, and where it can't be had, nothing changes.
pub fn keep_released(alloc: Global) {
    let _ = Vec::<u64>::with_capacity(alloc, LARGEST);
}
