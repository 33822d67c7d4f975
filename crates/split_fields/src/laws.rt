//! Laws of splitting. Each is the contract of a function whose body only calls laws.

ghost use Rattle.split_fields.specs.SplitLaws.{ByHashKeepsKeys, SplitsAreOfPackets};

use part_laws::accepted_fields_keep_keys;

/// In each accepted text, splitting by a hash of fields that may decide it keeps the keys of each groupby.
pub fn by_hash_keeps_keys()
    ensures { ByHashKeepsKeys }
{
    accepted_fields_keep_keys();
}

/// The parts of pieces, one after the other, are the parts of the whole.
pub fn splits_are_of_packets()
    ensures { SplitsAreOfPackets }
{}
