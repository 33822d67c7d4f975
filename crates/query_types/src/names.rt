//! The names of fields.

ghost use Rattle.std.specs.Prelude.{◌≡◌, ◌+◌, ◌<◌, ◌^◌, IfOk, length, map};
ghost use Rattle.marple_base.specs.Field.{field_name};
ghost use Rattle.query_lang.specs.{Names.number_in, Typing.with_fields};

use marple_base::{Field, Seq};
use query_lang::Names;
use std::alloc::{AllocError, Global};

/// These names, and then those of fields that are new.
#[tactic(auto, using(crate::proofs::NameLemmas::still_room))]
pub fn add_fields(names: Names, fields: &[Field]) -> Result<Names, AllocError>
    requires { length names + length fields.now < 2 ^ 32 }
    ensures { IfOk result (λ all. all ≡ with_fields names fields.now) }
{
    let mut all = names;
    for field in fields {
        all.number(field.name())?;
    }
    Ok(all)
}

/// The numbers of fields' names.
pub fn number_fields(alloc: Global, names: &Names, fields: &[Field]) -> Result<Seq<u32>, AllocError>
    requires { length names.now < 2 ^ 32 }
    ensures { IfOk result (λ numbers. numbers ≡ map (λ f. number_in names.now (field_name f)) fields.now) }
{
    let mut numbers = Seq::new(alloc);
    for field in fields {
        numbers.push(names.find(field.name()))?;
    }
    Ok(numbers)
}
