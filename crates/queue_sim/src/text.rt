//! The text of a trace.

ghost use Rattle.std.specs.Prelude.{◌≡◌, ◌+◌, ◌≤◌, ◌<◌, ◌∷◌, ◌++◌, IfOk, drop, length};
ghost use Rattle.queue_sim.specs.{ReadBack.TextsReadBack, TraceText.{fields_line, trace_text, word_text}};

use itoa::write_digits;
use marple_base::{FIELDS, Field, Packet, Seq, Text};
use std::alloc::{AllocError, Global};

/// The first line of a trace.
pub(crate) const HEADER: &[u8] =
    b"switch,qid,uid,srcip,dstip,srcport,dstport,proto,pkt_len,payload_len,tcpseq,tin,tout,qsize\n";

// Each word has at most 20 digits, and a comma or the end of the line after it.
const LONGEST_LINE: usize = FIELDS * 21;

/// Room for the line of a packet, which is written from its end to its beginning.
#[derive(Clone, Copy)]
pub struct LineBuffer {
    bytes: [u8; LONGEST_LINE],
}

// Puts a byte before this place, and gives its own place.
fn put_byte(bytes: &mut [u8; LONGEST_LINE], end: usize, byte: u8) -> usize
    requires { (0 < end) × (end ≤ 294) }
    ensures written { drop result bytes.new ≡ byte ∷ drop end bytes.old }
    ensures place { result + 1 ≡ end }
{
    bytes[end - 1] = byte;
    end - 1
}

// Puts the text of a word of a field before this place, and gives where it begins.
fn put_word(bytes: &mut [u8; LONGEST_LINE], end: usize, field: Field, word: u64) -> usize
    requires { (20 ≤ end) × (end ≤ 294) }
    ensures written { drop result bytes.new ≡ word_text field word ++ drop end bytes.old }
    ensures place { (result ≤ end) × (end ≤ result + 20) }
{
    match field {
        Field::Tout if word == u64::MAX => {
            let last = put_byte(bytes, end, b'f');
            let middle = put_byte(bytes, last, b'n');
            put_byte(bytes, middle, b'i')
        }
        _ => write_digits(word, bytes, end),
    }
}

impl LineBuffer {
    /// Room for any line.
    pub fn new() -> LineBuffer {
        LineBuffer {
            bytes: [0; LONGEST_LINE],
        }
    }

    /// The line of a packet: its words of these fields, with a comma between each two.
    pub fn format(&mut self, fields: &[Field], packet: &Packet) -> &[u8]
        requires some { 0 < length fields.now }
        requires few { length fields.now ≤ FIELDS }
        ensures { result.now ≡ fields_line fields.now packet.now.words }
    {
        let mut start = put_byte(&mut self.bytes, LONGEST_LINE, b'\n');
        for i in (1..fields.len()).rev() {
            let field = fields[i];
            start = put_word(&mut self.bytes, start, field, packet.words[field.number()]);
            start = put_byte(&mut self.bytes, start, b',');
        }
        let field = fields[0];
        start = put_word(&mut self.bytes, start, field, packet.words[field.number()]);
        &self.bytes[start..]
    }
}

/// The text of packets: a header with all fields, and a line for each packet. A `tout` of 2^64-1 is written `inf`.
pub fn trace_text(alloc: Global, packets: &Seq<Packet>) -> Result<Text, AllocError>
    ensures { IfOk result (λ text. text ≡ trace_text packets.now) }
{
    let mut text = Text::from_slice(alloc, HEADER)?;
    let mut line = LineBuffer::new();
    for packet in packets.as_slice() {
        text.push_slice(line.format(&Field::ALL, packet))?;
    }
    Ok(text)
}

/// The text of packets reads back as these packets.
pub fn texts_read_back()
    ensures { TextsReadBack }
{}
