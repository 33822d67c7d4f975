//! Whether there is no field in a set.

ghost use Rattle.std.specs.Prelude.{◌≡◌, ◌≢◌, [], false, true};
ghost use Rattle.part_texts.specs.Texts.{fields_in};

use marple_base::{Field, FieldSet};

/// Is there no field in the set?
pub(crate) fn has_none(fields: FieldSet) -> bool
    ensures none { result ≡ true → fields_in fields ≡ [] }
    ensures some { result ≡ false → fields_in fields ≢ [] }
{
    for field in Field::ALL {
        if fields.has(field) {
            return false;
        }
    }
    true
}
