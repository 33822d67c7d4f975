//! Packets of which only some fields are kept.

ghost use Rattle.std.specs.Prelude.{◌≡◌, [], ◌∷◌, ◌++◌, ◌+◌, ◌*◌, ◌<◌, ◌≤◌, IfOk, OnErr, OnOk, Some, drop, length, map, slice_get};
ghost use Rattle.trace_drive.specs.Kept.{fields_kept, kept_of, kept_words, packet_in, word_in};

use crate::word_list::WordList;
use marple_base::{FIELDS, Field, FieldSet, Packet};
use std::alloc::{AllocError, Global};
use std::marker::Model;
use trace_reader::MAX_RECORDS;

/// Packets with the words of some fields alone, one after the other. Contracts see these fields, and the packets, which
/// have 0 in all others.
pub struct KeptPackets {
    of: FieldSet,
    /// The fields that are kept, in their order.
    fields: Vec<Field>,
    /// As many words for each packet as there are such fields.
    words: WordList,
    count: usize,
}

impl Drop for KeptPackets {
    fn drop(self) {
        let KeptPackets {
            of: _,
            fields: _,
            words: _,
            count: _,
        } = self;
    }
}

impl Model for KeptPackets {
    ghost use Rattle.trace_drive.specs.Kept.{Kept};

    ghost Value = { Kept };

    ghost use Rattle.trace_drive.specs.KeptView.{kept_in, IsSound};

    ghost view = { kept_in };

    ghost invariant = { IsSound };
}

fn fields_of(alloc: Global, set: FieldSet) -> Result<Vec<Field>, AllocError>
    ensures { IfOk result (λ fields. fields.items ≡ fields_kept set) }
{
    let mut fields = Vec::new(alloc);
    for field in Field::ALL {
        if set.has(field) {
            fields.push(field)?;
        }
    }
    Ok(fields)
}

// Adds the words of these fields. When out of memory, the words are unchanged.
#[inline(always)]
fn push_row(words: &mut WordList, fields: &[Field], packet: &Packet) -> Result<(), AllocError>
    ensures ok { OnOk result (words.new ≡ words.old ++ map (word_in packet.now) fields.now) }
    ensures err { OnErr result (words.new ≡ words.old) }
{
    let before = words.len();
    for field in fields {
        if let Err(error) = words.push(packet.get(*field)) {
            words.truncate(before);
            return Err(error);
        }
    }
    Ok(())
}

// The packet in which these fields have the words from a place on.
#[inline]
fn row_into(words: &WordList, start: usize, fields: &[Field], packet: &mut Packet)
    requires { start + length fields.now ≤ length words.now }
    ensures { packet.new ≡ packet_in fields.now (drop start words.now) }
{
    // A place fits, since the number of words does.
    let _words = words.len();
    packet.words = [0; FIELDS];
    for (place, field) in fields.iter().enumerate() {
        packet.words[field.number()] = words.get(start + place);
    }
}

impl KeptPackets {
    /// No packets yet, of which the fields of this set will be kept.
    pub fn new(alloc: Global, of: FieldSet) -> Result<KeptPackets, AllocError>
        ensures { IfOk result (λ kept. kept ≡ record { fields = of; packets = [] }) }
    {
        let fields = fields_of(alloc, of)?;
        Ok(KeptPackets {
            of,
            fields,
            words: WordList::new(alloc),
            count: 0,
        })
    }

    /// The number of packets.
    pub fn len(&self) -> usize
        ensures { result ≡ length self.now.packets }
    {
        self.count
    }

    /// The number of words that the packets take.
    pub fn word_count(&self) -> usize
        ensures { result ≡ kept_words self.now }
    {
        self.words.len()
    }

    /// Adds a packet at the end, with 0 in the fields that aren't kept. When out of memory, the packets are unchanged.
    #[inline]
    pub fn push(&mut self, packet: &Packet) -> Result<(), AllocError>
        requires { length self.old.packets < MAX_RECORDS }
        ensures ok { OnOk result (self.new ≡ record self.old { packets = self.old.packets ++ kept_of self.old.fields packet.now ∷ [] }) }
        ensures err { OnErr result (self.new ≡ self.old) }
    {
        push_row(&mut self.words, &self.fields, packet)?;
        self.count += 1;
        Ok(())
    }

    /// The packet at a place, into `packet`.
    pub fn packet_into(&self, at: usize, packet: &mut Packet)
        requires { at < length self.now.packets }
        ensures { slice_get self.now.packets at ≡ Some packet.new }
    {
        // A place fits, since the number of words does.
        let _words = self.words.len();
        let start = at * self.fields.len();
        row_into(&self.words, start, &self.fields, packet);
    }
}
