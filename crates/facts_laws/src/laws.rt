//! Laws of splitting by the fields that facts name. Each is the contract of a function whose body only calls laws.

ghost use Rattle.facts_laws.specs.FactLaws.{NeededKeysAreKept};

use part_laws::accepted_fields_keep_keys;

/// In each accepted text, splitting by any function of the fields in `by` keeps the keys of each groupby that is needed.
pub fn needed_keys_are_kept()
    ensures { NeededKeysAreKept }
{
    accepted_fields_keep_keys();
}
