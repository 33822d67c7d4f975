//! One record of a trace.

ghost use Rattle.std.specs.Prelude.{◌≡◌, ◌<◌, Err, IfErr, IfOk, IfSome, Ok, OnOk, Some, length};
ghost use Rattle.trace_reader.specs.{Columns.AreWithin, Faults.{IsEarly, IsLate}};
ghost use Rattle.marple_base.specs.Field.{field_name};
ghost use Rattle.trace_reader.specs.Traces as Traces;
ghost use Rattle.trace_reader.specs.Traces.{column_of_field, columns_named, columns_of_fields, packet_of, word_at, words_in_columns};

use crate::columns::Columns;
use crate::fault::{MAX_RECORDS, TraceFault};
use crate::number::{trimmed, word};
use crate::records::Records;
use marple_base::{FIELDS, Field, FieldSet, Packet};

// Finds the column of a header that has a field's name. Two of the name are a fault, and so is none.
fn only_column(header: &Records<'_>, field: Field) -> Result<Option<usize>, TraceFault>
    ensures value { result ≡ Traces.only_column field (columns_named (field_name field) 0 header.now.fields) }
    ensures within { IfOk result (λ found. IfSome found (λ column. column < length header.now.fields)) }
    ensures early { IfErr result IsEarly }
{
    let mut found: Option<usize> = None;
    for i in 0..header.len() {
        if trimmed(header.text(i)) == field.name() {
            if found.is_some() {
                return Err(TraceFault::FieldTwice(field));
            }
            found = Some(i);
        }
    }
    if found.is_none() {
        return Err(TraceFault::FieldMissing(field));
    }
    Ok(found)
}

// The column of a field in a header, none where it isn't read.
fn column(header: &Records<'_>, reads: FieldSet, field: Field) -> Result<Option<usize>, TraceFault>
    ensures value { result ≡ column_of_field reads header.now.fields field }
    ensures within { IfOk result (λ found. IfSome found (λ column. column < length header.now.fields)) }
    ensures early { IfErr result IsEarly }
{
    if reads.has(field) {
        only_column(header, field)
    } else {
        Ok(None)
    }
}

/// The column of each field in a header.
pub fn columns(header: &Records<'_>, reads: FieldSet) -> Result<[Option<usize>; FIELDS], TraceFault>
    ensures value { result ≡ columns_of_fields reads header.now.fields }
    ensures within { IfOk result (AreWithin (length header.now.fields)) }
    ensures early { IfErr result IsEarly }
{
    let mut columns = [None; FIELDS];
    for i in 0..FIELDS {
        columns[i] = column(header, reads, Field::ALL[i])?;
    }
    Ok(columns)
}

#[inline(always)]
fn word_of_field(row: &Records<'_>, field: Field, column: usize) -> Result<u64, Field>
    requires { column < length row.now.fields }
    ensures { result ≡ word_at row.now.fields field (Some column) }
{
    word(field, row.text(column)).ok_or(field)
}

// The word of each field in a record, into `words`: 0 where it isn't read.
#[inline(always)]
fn words_into(row: &Records<'_>, columns: &Columns, words: &mut [u64; FIELDS]) -> Result<(), Field>
    requires { AreWithin (length row.now.fields) columns.now }
    ensures ok { OnOk result (words_in_columns columns.now row.now.fields ≡ Ok words.new) }
    ensures err { IfErr result (λ field. words_in_columns columns.now row.now.fields ≡ Err field) }
{
    *words = [0; FIELDS];
    for (field, column) in columns.read() {
        match word_of_field(row, *field, *column) {
            Ok(word) => words[field.number()] = word,
            Err(field) => return Err(field),
        }
    }
    Ok(())
}

/// The packet of data record `n`, into `packet`.
#[tactic(auto, unfolding(crate::specs::Traces::packet_of))]
#[inline(always)]
pub fn packet_into(
    row: &Records<'_>,
    n: u32,
    width: usize,
    columns: &Columns,
    packet: &mut Packet,
) -> Result<(), TraceFault>
    requires { AreWithin width columns.now }
    ensures ok { OnOk result (packet_of (record { width = width; columns = columns.now }) n row.now.fields ≡ Ok packet.new) }
    ensures err { IfErr result (λ fault. packet_of (record { width = width; columns = columns.now }) n row.now.fields ≡ Err fault) }
    ensures late { IfErr result IsLate }
{
    if n > MAX_RECORDS {
        return Err(TraceFault::TooManyPackets);
    }
    if row.len() != width {
        return Err(TraceFault::FieldCount(n));
    }
    match words_into(row, columns, &mut packet.words) {
        Ok(()) => Ok(()),
        Err(field) => Err(TraceFault::BadNumber(n, field)),
    }
}
