//! Laws of lanes, from those of the machines that they represent.

ghost use Rattle.marple_laws.specs.LaneLaws.{LanesKeepKeysInBuckets};

use epoch_model::machines_are_well_formed;

/// A lane that represents the machine after some events has in each bucket of its cache distinct keys of that bucket, and at
/// most as many as there are ways.
pub fn lanes_keep_keys_in_buckets()
    ensures { LanesKeepKeysInBuckets }
{
    machines_are_well_formed();
}
