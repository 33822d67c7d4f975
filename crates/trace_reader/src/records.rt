//! The records of a text, one after the other.

ghost use Rattle.std.specs.Prelude.{◌≡◌, ◌<◌, ◌≤◌, ◌∷◌, [], IfErr, IfOk, drop, false, length, true};
ghost use Rattle.csv.specs.Records.{fields_of};
ghost use Rattle.csv.specs.declared.parser.State.TheVariants as st;
ghost use Rattle.trace_reader.specs.{Plain.IsBetween, Reading.{IsBetweenRecords, IsSetUp, records, records_after, records_left}};
ghost use Rattle.trace_reader.specs.Traces.{field_text_at};

use crate::plain::{Span, after_mark, ends_line, field_text, plain_record};
use csv::{ByteRecord, Reader, ReaderBuilder};
use std::alloc::{AllocError, Global};
use std::marker::Model;

// Where the next record comes from. The last variant, which is the usual one, is tested first.
#[derive(Clone, Copy)]
enum Place {
    /// There is none.
    Ended,
    /// The reader gives it.
    Reading,
    /// It is looked for in the text, from this place on.
    At(usize),
}

/// The records of a text. They are found where they stand in it, up to the first one that isn't plain; a reader of CSV gives
/// that one and all after it. Contracts see the fields of the record that was read last, and the records that are left.
pub struct Records<'a> {
    alloc: Global,
    text: &'a [u8],
    place: Place,
    spans: Vec<Span>,
    reader: Reader<&'a [u8]>,
    row: ByteRecord,
}

impl Drop for Records<'_> {
    fn drop(self) {
        let Records {
            alloc: _,
            text: _,
            place: _,
            spans: _,
            reader: _,
            row: _,
        } = self;
    }
}

impl<'a> Model for Records<'a> {
    ghost use Rattle.trace_reader.specs.Seen.{IsSound, Seen, seen_in};

    ghost Value = { Seen };

    ghost view = { seen_in };

    ghost invariant = { IsSound };
}

// A reader that gives each record of a text, the first too, of any length.
fn reader_of(alloc: Global, text: &[u8]) -> Reader<&[u8]>
    ensures { IsSetUp text.now result }
{
    ReaderBuilder::new()
        .has_headers(false)
        .flexible(true)
        .from_reader(alloc, text)
}

// A reader of the records from a place on. It begins with the end of the line before, since a byte order mark is one only where
// a text begins.
fn reader_at(alloc: Global, text: &[u8], at: usize) -> Reader<&[u8]>
    requires within { at ≤ length text.now }
    requires between { IsBetween text.now at }
    ensures between { IsBetweenRecords result }
    ensures all { records_left result ≡ records_after st.StartRecord (drop at text.now) }
{
    if at == 0 {
        return reader_of(alloc, text);
    }
    if ends_line(text[at - 1]) {
        reader_of(alloc, &text[at - 1..])
    } else {
        reader_of(alloc, text)
    }
}

// The next record into `row`, and whether there was one. A reader over a slice fails only when it is out of memory.
fn next_record(reader: &mut Reader<&[u8]>, row: &mut ByteRecord) -> Result<bool, AllocError>
    requires { IsBetweenRecords reader.old }
    ensures between { IfOk result (λ found. found ≡ true → IsBetweenRecords reader.new) }
    ensures some { IfOk result (λ found. found ≡ true → records_left reader.old ≡ fields_of row.new ∷ records_left reader.new) }
    ensures none { IfOk result (λ found. found ≡ false → records_left reader.old ≡ []) }
{
    if let Ok(found) = reader.read_byte_record(row) {
        return Ok(found);
    }
    Err(AllocError)
}

// The same. The next record comes from the reader as long as there is one.
fn read(
    reader: &mut Reader<&[u8]>,
    row: &mut ByteRecord,
    place: &mut Place,
) -> Result<bool, AllocError>
    requires { IsBetweenRecords reader.old }
    ensures between { IfOk result (λ found. found ≡ true → (place.new ≡ Place.Reading) × IsBetweenRecords reader.new) }
    ensures some { IfOk result (λ found. found ≡ true → records_left reader.old ≡ fields_of row.new ∷ records_left reader.new) }
    ensures none { IfOk result (λ found. found ≡ false → (place.new ≡ Place.Ended) × (records_left reader.old ≡ [])) }
    ensures failed { IfErr result (λ _. place.new ≡ Place.Ended) }
{
    match next_record(reader, row) {
        Ok(true) => {
            *place = Place::Reading;
            Ok(true)
        }
        Ok(false) => {
            *place = Place::Ended;
            Ok(false)
        }
        Err(AllocError) => {
            *place = Place::Ended;
            Err(AllocError)
        }
    }
}

// The text at a column, empty where there is none.
fn text_of(row: &ByteRecord, column: usize) -> &[u8]
    ensures { result.now ≡ field_text_at (fields_of row.now) column }
{
    row.get(column).unwrap_or(b"".as_slice())
}

impl<'a> Records<'a> {
    /// All records of a text.
    pub fn new(alloc: Global, text: &'a [u8]) -> Records<'a>
        ensures { result.left ≡ records text.now }
    {
        Records {
            alloc,
            text,
            place: Place::At(after_mark(text)),
            spans: Vec::new(alloc),
            reader: reader_of(alloc, text),
            row: ByteRecord::new(alloc),
        }
    }

    /// Reads the next record, and says whether there was one. It fails only when it is out of memory; after that, as after the
    /// last record, there is none.
    #[inline(always)]
    pub fn next(&mut self) -> Result<bool, AllocError>
        ensures some { IfOk result (λ found. found ≡ true → self.old.left ≡ self.new.fields ∷ self.new.left) }
        ensures none { IfOk result (λ found. found ≡ false → (self.old.left ≡ []) × (self.new.left ≡ [])) }
        ensures failed { IfErr result (λ _. self.new.left ≡ []) }
    {
        match self.place {
            Place::At(at) => match plain_record(self.text, at, &mut self.spans) {
                Ok(Some(next)) => {
                    self.place = Place::At(next);
                    Ok(true)
                }
                Ok(None) => {
                    self.reader = reader_at(self.alloc, self.text, at);
                    read(&mut self.reader, &mut self.row, &mut self.place)
                }
                Err(AllocError) => {
                    self.place = Place::Ended;
                    Err(AllocError)
                }
            },
            Place::Reading => read(&mut self.reader, &mut self.row, &mut self.place),
            Place::Ended => Ok(false),
        }
    }

    /// How many fields the record has.
    pub fn len(&self) -> usize
        ensures { result ≡ length self.now.fields }
    {
        match self.place {
            Place::At(_) => self.spans.len(),
            Place::Reading | Place::Ended => self.row.len(),
        }
    }

    /// The text at a column.
    #[inline(always)]
    pub fn text(&self, column: usize) -> &[u8]
        requires { column < length self.now.fields }
        ensures { result.now ≡ field_text_at self.now.fields column }
    {
        match self.place {
            Place::At(_) => field_text(self.text, self.spans.as_slice(), column),
            Place::Reading | Place::Ended => text_of(&self.row, column),
        }
    }
}
