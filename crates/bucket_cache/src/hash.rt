//! The bucket of a key.

ghost use Rattle.std.specs.Prelude.{◌≡◌, ◌+◌, ◌<◌, length};
ghost use Rattle.epoch_model.specs.Keys.{bucket_of as bucket_of_key};

use marple_base::Steps;
use std::sync::ledger::Ledger;

/// The bucket of a key: from 0, each word is xored into the hash, which is then multiplied by an odd constant, and the
/// high half of the hash is taken modulo the number of buckets.
#[inline(always)]
pub fn bucket_at(key: &[u64], buckets: u32) -> u32
    requires { 0 < buckets }
    ensures bucket { result ≡ bucket_of_key buckets key.now }
    ensures below { result < buckets }
{
    let mut hash: u64 = 0;
    for word in key {
        hash = (hash ^ *word).wrapping_mul(0x9E37_79B9_7F4A_7C15);
    }
    ((hash >> 32) % u64::from(buckets)) as u32
}

/// The bucket of a key, with a step for each of its words.
pub fn bucket_of<L: Ledger>(key: &[u64], buckets: u32, steps: &mut Steps<L>) -> u32
    requires { 0 < buckets }
    ensures bucket { result ≡ bucket_of_key buckets key.now }
    ensures below { result < buckets }
    ensures cost { steps.new ≡ steps.old + length key.now }
{
    steps.tick_many(key.len() as u64);
    bucket_at(key, buckets)
}
