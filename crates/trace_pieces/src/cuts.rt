//! Where a text can be cut between two records.

ghost use Rattle.std.specs.Prelude.{◌≡◌, ◌≤◌, IfSome, length, take};
ghost use Rattle.csv.specs.Reading.{is_bom};
ghost use Rattle.trace_pieces.specs.Machine.{IsCut, IsHead, mark_len};

use crate::scan::Place;
use memchr::{memchr, memrchr};

// Are these the bytes of a byte order mark?
fn is_mark(first: u8, second: u8, third: u8) -> bool
    ensures { result ≡ is_bom first second third }
{
    first == 0xEF && second == 0xBB && third == 0xBF
}

// How many bytes the byte order mark of a text has.
fn mark_len(text: &[u8]) -> usize
    requires { 3 ≤ length text.now }
    ensures len { result ≡ mark_len text.now }
    ensures within { result ≤ 3 }
{
    if is_mark(text[0], text[1], text[2]) {
        3
    } else {
        0
    }
}

/// Where the first record of a text ends, if the end of a line ends it.
pub fn head_end(text: &[u8]) -> Option<usize>
    requires { 3 ≤ length text.now }
    ensures within { IfSome result (λ end. end ≤ length text.now) }
    ensures head { IfSome result (λ end. IsHead (take end text.now)) }
{
    let mark = mark_len(text);
    let rest = &text[mark..];
    let mut place = Place::Between;
    for (i, byte) in rest.iter().enumerate() {
        let next = place.after(*byte);
        if next.is_between() && !place.is_between() {
            return Some(mark + i + 1);
        }
        place = next;
    }
    None
}

// The last cut, found byte by byte.
#[cold]
#[inline(never)]
fn cut_by_bytes(text: &[u8]) -> usize
    ensures { IsCut text.now result }
{
    let mut place = Place::Between;
    let mut cut = 0;
    for (i, byte) in text.iter().enumerate() {
        place = place.after(*byte);
        if place.is_between() {
            cut = i + 1;
        }
    }
    cut
}

/// Where a text that begins between two records can be cut: after its last end of a line, unless there is a quote in it.
pub fn last_cut(text: &[u8]) -> usize
    ensures { IsCut text.now result }
{
    if memchr(b'"', text).is_some() {
        return cut_by_bytes(text);
    }
    match memrchr(b'\n', text) {
        Some(at) => at + 1,
        None => cut_by_bytes(text),
    }
}
