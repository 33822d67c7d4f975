//! The columns of a lane's table.

ghost use Rattle.std.specs.Prelude.{◌≡◌, ◌++◌, IfOk};

use marple_base::{Seq, Text};
use std::alloc::AllocError;

/// The names of keys, and then those of states.
pub fn columns(key_names: Seq<Text>, state_names: Seq<Text>) -> Result<Seq<Text>, AllocError>
    ensures { IfOk result (λ columns. columns ≡ key_names ++ state_names) }
{
    let mut columns = key_names;
    for name in state_names.into_vec() {
        columns.push(name)?;
    }
    Ok(columns)
}
