//! How a trace is split.

ghost use Rattle.std.specs.Prelude.{◌≡◌, ◌<◌, ◌≤◌, IfOk, length};
ghost use Rattle.part_texts.specs.Texts.{fields_in, one_at_least, part_by_hash};

use bucket_cache::bucket_of;
use marple_base::{FIELDS, Field, FieldSet, Packet, Steps};
use std::alloc::{AllocError, Global};
use std::sync::ledger::Ledger;

/// How a trace is split: into so many parts, by a hash of these fields that is begun with the salt.
#[derive(Clone, Copy)]
pub struct Splitting {
    pub by: FieldSet,
    pub salt: u64,
    pub parts: u32,
}

/// The fields of a set, in the order of the fields.
pub(crate) fn fields_in(alloc: Global, fields: FieldSet) -> Result<Vec<Field>, AllocError>
    ensures value { IfOk result (λ list. list.items ≡ fields_in fields) }
    ensures few { IfOk result (λ list. length list.items ≤ FIELDS) }
{
    let mut list = Vec::new(alloc);
    for field in Field::ALL {
        if fields.has(field) {
            list.push(field)?;
        }
    }
    Ok(list)
}

/// The columns of a part.
pub(crate) fn written_fields(alloc: Global, reads: FieldSet) -> Result<Vec<Field>, AllocError>
    ensures value { IfOk result (λ list. list.items ≡ one_at_least (fields_in reads)) }
    ensures few { IfOk result (λ list. length list.items ≤ FIELDS) }
    ensures some { IfOk result (λ list. 0 < length list.items) }
{
    let mut list = fields_in(alloc, reads)?;
    if list.is_empty() {
        list.push(Field::Uid)?;
    }
    Ok(list)
}

/// The part of a packet.
pub(crate) fn part_of<L: Ledger>(
    by: &[Field],
    salt: u64,
    parts: u32,
    packet: &Packet,
    steps: &mut Steps<L>,
) -> u32
    requires parts { 0 < parts }
    requires few { length by.now ≤ FIELDS }
    ensures part { result ≡ part_by_hash by.now salt parts packet.now.words }
    ensures below { result < parts }
    ensures steps { steps.old ≤ steps.new }
{
    let mut key = [0; 15];
    key[0] = salt;
    let mut size = 1;
    for field in by {
        key[size] = packet.words[field.number()];
        size += 1;
    }
    bucket_of(&key[..size], parts, steps)
}
