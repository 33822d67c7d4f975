//! A cache of keys in buckets, each bucket a list of keys by recent use, with the words of an entry at each key's place.
//! All of its memory is allocated when it is made.
#![tactic(auto)]

ghost use Rattle.bucket_cache.specs.Bounds.{UsesAreBounded};

mod bucket;
mod buckets;
mod cache;
mod entries;
mod hash;
mod slices;
mod ways;

pub use bucket::Touch;
pub use cache::BucketCache;
pub use hash::{bucket_at, bucket_of};

/// A touch, or a touch that finds the bucket full with the replacement after it, takes at most
/// 2 × ways × (key words + 1) steps.
pub fn uses_are_bounded()
    ensures { UsesAreBounded }
{}
