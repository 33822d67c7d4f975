//! The columns of a trace's fields.

ghost use Rattle.std.specs.Prelude.{◌≡◌, IfOk, length};
ghost use Rattle.trace_reader.specs.Columns.{read_columns};

use marple_base::{FIELDS, Field};
use std::alloc::{AllocError, Global};
use std::marker::Model;

/// The column of each field, none where it isn't read. Contracts see them in the order of the fields.
#[derive(Drop)]
pub struct Columns {
    of_fields: [Option<usize>; FIELDS],
    /// The fields that are read, in their order.
    read: Vec<(Field, usize)>,
}

impl Model for Columns {
    ghost use Rattle.std.specs.Prelude.{◌≡◌, ℕ, List, Option, length};
    ghost use Rattle.marple_base.specs.declared.field.TheConstants.{FIELDS};
    ghost use Rattle.trace_reader.specs.Columns.{read_columns};

    ghost Value = { List (Option ℕ) };

    ghost view = { λ c. c.of_fields };

    ghost invariant = { λ c. (c.read.items ≡ read_columns c.of_fields) × (length c.of_fields ≡ FIELDS) };
}

impl Columns {
    /// These columns. It fails only when it is out of memory.
    pub fn new(alloc: Global, of_fields: [Option<usize>; FIELDS]) -> Result<Columns, AllocError>
        ensures { IfOk result (λ columns. columns ≡ of_fields) }
    {
        let fields = Field::ALL;
        let mut read = Vec::new(alloc);
        for i in 0..FIELDS {
            if let Some(column) = of_fields[i] {
                read.push((fields[i], column))?;
            }
        }
        Ok(Columns { of_fields, read })
    }

    /// The fields that are read, with their columns.
    pub fn read(&self) -> &[(Field, usize)]
        ensures read { result.now ≡ read_columns self.now }
        ensures all { length self.now ≡ FIELDS }
    {
        self.read.as_slice()
    }
}
