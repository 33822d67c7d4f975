//! The line `reads` as it is read.

ghost use Rattle.std.specs.Prelude.{◌≡◌, ◌<◌, IfOk};
ghost use Rattle.marple_base.specs.Field.{number_of};
ghost use Rattle.plan_file.specs.{Finding.Finds, Operations.IsReadsLine};

use crate::lexis::first_token;
use marple_base::{FIELDS, Field, Seq};
use query_lang::lexis::is_text;
use std::alloc::{AllocError, Global};

// The field with this number.
fn field_at(n: usize) -> Field
    requires { n < FIELDS }
    ensures { number_of result ≡ n }
{
    Field::ALL[n]
}

/// The fields of a line `reads`, where the line is valid.
pub(crate) fn reads_line(alloc: Global, line: &[u8]) -> Result<Option<Seq<Field>>, AllocError>
    ensures { IfOk result (λ read. Finds read (IsReadsLine line.now)) }
{
    let (word, mut rest, mut left) = first_token(line);
    if !is_text(word, b"reads") {
        return Ok(None);
    }
    let mut found = Seq::new(alloc);
    for i in 0..FIELDS {
        if left {
            let (token, past, more) = first_token(rest);
            let field = field_at(i);
            if is_text(token, field.name()) {
                found.push(field)?;
                rest = past;
                left = more;
            }
        }
    }
    if left { Ok(None) } else { Ok(Some(found)) }
}
