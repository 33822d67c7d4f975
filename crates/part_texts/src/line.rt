//! The first line of a part.

ghost use Rattle.std.specs.Prelude.{◌≡◌, ◌<◌, IfOk, length, map};
ghost use Rattle.marple_base.specs.Field.{field_name};
ghost use Rattle.queue_sim.specs.TraceText.{line};

use marple_base::{Field, Text};
use std::alloc::{AllocError, Global};

/// The first line of a part: the names of its columns.
pub fn header_line(alloc: Global, fields: &[Field]) -> Result<Text, AllocError>
    requires { 0 < length fields.now }
    ensures { IfOk result (λ text. text ≡ line (map field_name fields.now)) }
{
    let mut text = Text::from_slice(alloc, fields[0].name())?;
    for i in 1..fields.len() {
        text.push(b',')?;
        text.push_slice(fields[i].name())?;
    }
    text.push(b'\n')?;
    Ok(text)
}
