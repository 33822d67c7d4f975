//! Records that no quote begins a field of, found where they stand in a text.

ghost use Rattle.std.specs.Prelude.{◌≡◌, ℕ, ◌+◌, ◌<◌, ◌≤◌, All, IfOk, IfSome, false, drop, get_or, length};
ghost use Rattle.csv.specs.Reading.{is_bom, strip_bom};
ghost use Rattle.csv.specs.declared.parser.State.TheVariants as st;
ghost use Rattle.trace_reader.specs.Plain as Plain;
ghost use Rattle.trace_reader.specs.{Plain.{IsEnd, IsField, IsInside, IsRecord, fields_at, part_of}, Reading.records_after};
ghost use Rattle.trace_reader.specs.Traces.{field_text_at};

use std::alloc::AllocError;

/// Where a field stands in a text.
#[derive(Clone, Copy)]
pub struct Span {
    pub start: usize,
    pub end: usize,
}

#[inline(always)]
fn part_of(text: &[u8], span: Span) -> &[u8]
    requires { IsInside text.now span }
    ensures { result.now ≡ part_of text.now span }
{
    &text[span.start..span.end]
}

/// The field at a column of those that stand at these spans.
#[inline(always)]
#[tactic(auto, using(crate::proofs::PlainFacts::at_column))]
pub fn field_text<'a>(text: &'a [u8], spans: &[Span], column: usize) -> &'a [u8]
    requires inside { All (IsInside text.now) spans.now }
    requires column { column < length spans.now }
    ensures { result.now ≡ field_text_at (fields_at text.now spans.now) column }
{
    part_of(text, spans[column])
}

/// Does this byte end a line?
pub fn ends_line(byte: u8) -> bool
    ensures { result ≡ Plain.ends_line byte }
{
    byte == b'\r' || byte == b'\n'
}

fn ends_field(byte: u8) -> bool
    ensures { result ≡ Plain.ends_field byte }
{
    byte == b',' || ends_line(byte)
}

fn is_mark(first: u8, second: u8, third: u8) -> bool
    ensures { result ≡ is_bom first second third }
{
    first == 0xEF && second == 0xBB && third == 0xBF
}

/// The place after the byte order mark of a text, where the text begins if it has none.
pub fn after_mark(text: &[u8]) -> usize
    ensures rest { drop result text.now ≡ strip_bom text.now }
    ensures within { result ≤ length text.now }
{
    if text.len() < 3 {
        return 0;
    }
    if is_mark(text[0], text[1], text[2]) {
        3
    } else {
        0
    }
}

// The first place, from a place between two records on, at which no line ends.
fn after_line_ends(text: &[u8], from: usize) -> usize
    requires { from ≤ length text.now }
    ensures within { result ≤ length text.now }
    ensures begins { result < length text.now → Plain.ends_line (get_or text.now result 0) ≡ false }
    ensures same { records_after st.StartRecord (drop result text.now) ≡ records_after st.StartRecord (drop from text.now) }
{
    for at in from..text.len() {
        if !ends_line(text[at]) {
            return at;
        }
    }
    text.len()
}

// How many of the eight bytes from a place on are above a comma, up to the first one that isn't. The difference of that one from
// the sign after a comma sets its highest bit, which it doesn't have itself.
#[inline(always)]
fn going(text: &[u8], at: usize) -> usize
    requires { at + 8 ≤ length text.now }
    ensures few { result ≤ 8 }
    ensures above { (k : ℕ) → at ≤ k → k < at + result → 44 < get_or text.now k 0 }
{
    let word = u64::from_le_bytes([
        text[at],
        text[at + 1],
        text[at + 2],
        text[at + 3],
        text[at + 4],
        text[at + 5],
        text[at + 6],
        text[at + 7],
    ]);
    let marks = word.wrapping_sub(0x2D2D_2D2D_2D2D_2D2D) & !word & 0x8080_8080_8080_8080;
    (marks.trailing_zeros() / 8) as usize
}

// The first place from a place on at which a field ends, byte by byte.
#[inline(never)]
fn end_by_bytes(text: &[u8], from: usize) -> Option<usize>
    ensures { IfSome result (IsEnd text.now from) }
{
    for at in from..text.len() {
        if ends_field(text[at]) {
            return Some(at);
        }
    }
    None
}

// The first place from a place on at which a field ends.
fn end_from(text: &[u8], from: usize) -> Option<usize>
    requires { from ≤ length text.now }
    ensures { IfSome result (IsEnd text.now from) }
{
    let mut at = from;
    'words: while text.len() - at > 8 {
        let stop = at + going(text, at);
        if ends_field(text[stop]) {
            return Some(stop);
        }
        at = stop + 1;
    }
    end_by_bytes(text, at)
}

// Where the field that begins at a place ends. None where a quote begins it, and where the text ends with it.
#[inline(never)]
fn field_end(text: &[u8], start: usize) -> Option<usize>
    requires { start < length text.now }
    ensures { IfSome result (IsField text.now start) }
{
    if text[start] == b'"' {
        return None;
    }
    end_from(text, start)
}

/// The spans of the next record, and the place after it, from a place between two records on. None where a quote begins one of
/// its fields, and where no line end ends it. It fails only when it is out of memory. Most fields have at most eight bytes and then
/// a comma.
pub fn plain_record(
    text: &[u8],
    from: usize,
    spans: &mut Vec<Span>,
) -> Result<Option<usize>, AllocError>
    requires { from ≤ length text.now }
    ensures { IfOk result (λ found. IfSome found (IsRecord text.now from spans.new.items)) }
{
    spans.clear();
    let mut start = after_line_ends(text, from);
    'fields: while start < text.len() {
        if text.len() - start > 8 {
            let stop = start + going(text, start);
            if text[stop] == b',' {
                spans.push(Span { start, end: stop })?;
                start = stop + 1;
                continue 'fields;
            }
        }
        let Some(end) = field_end(text, start) else {
            return Ok(None);
        };
        spans.push(Span { start, end })?;
        start = end + 1;
        if text[end] != b',' {
            return Ok(Some(start));
        }
    }
    Ok(None)
}
