//! Lines on standard error, made of pieces and written without allocating memory.
ghost use Rattle.std.specs.{Prelude.{◌≡◌, ◌++◌, codes, decimal, OnOk}, List.flat_map, Io.KnownBytes.Appends};
ghost use Rattle.marple_base.specs.{Faults.HasCause, Sink.TakesFront};
ghost use Rattle.command_answers.specs.Piece.{piece_text};

use itoa::Buffer;
use marple_base::{Failed, Sink, write_all};

/// A piece of a line.
#[derive(Clone, Copy)]
pub enum Piece {
    Text(&'static [u8]),
    Number(u64),
}

/// The pieces of a line, of which the last ones may be empty.
pub type Line = [Piece; 6];

const NONE: Piece = Piece::Text(b"");

impl Piece {
    fn write<O: Sink>(&self, out: &mut O) -> Result<(), Failed>
        ensures ok { OnOk result (Appends (O.taken out.old) (O.taken out.new) (piece_text self.now)) }
        ensures front { TakesFront (O.taken out.old) (O.taken out.new) (piece_text self.now) }
        ensures cause { HasCause (O.faults out.old) (O.faults out.new) result }
    {
        match self {
            Piece::Text(text) => write_all(out, text),
            Piece::Number(number) => {
                let mut buffer = Buffer::new();
                write_all(out, buffer.format(*number).as_bytes())
            }
        }
    }
}

/// The line that is this text.
pub fn plain_line(text: &'static [u8]) -> Line
    ensures { flat_map piece_text result ≡ text.now }
{
    [Piece::Text(text), NONE, NONE, NONE, NONE, NONE]
}

/// The line on a fault of a trace, whose name ends with an opening bracket, and where the fault is.
pub fn trace_line(name: &'static [u8], place: Piece) -> Line
    ensures { flat_map piece_text result ≡ codes "marple: trace: " ++ (name.now ++ piece_text place ++ codes ")") ++ codes "\n" }
{
    [
        Piece::Text(b"marple: trace: "),
        Piece::Text(name),
        place,
        Piece::Text(b")\n"),
        NONE,
        NONE,
    ]
}

/// The same with the record and the field where the fault is.
pub fn trace_line_in_record(name: &'static [u8], number: Piece, field: Piece) -> Line
    ensures { flat_map piece_text result ≡ codes "marple: trace: "
        ++ (name.now ++ piece_text number ++ codes "," ++ piece_text field ++ codes ")") ++ codes "\n" }
{
    [
        Piece::Text(b"marple: trace: "),
        Piece::Text(name),
        number,
        Piece::Text(b","),
        field,
        Piece::Text(b")\n"),
    ]
}

/// The line on a fault of a query, and where it begins.
pub(crate) fn query_line(name: &'static [u8], at: u32) -> Line
    ensures { flat_map piece_text result ≡ codes "marple: query: " ++ name.now ++ codes " at " ++ decimal at ++ codes "\n" }
{
    [
        Piece::Text(b"marple: query: "),
        Piece::Text(name),
        Piece::Text(b" at "),
        Piece::Number(u64::from(at)),
        Piece::Text(b"\n"),
        NONE,
    ]
}

/// Writes the pieces, or some prefix of their text.
pub fn write_pieces<O: Sink>(out: &mut O, pieces: &[Piece]) -> Result<(), Failed>
    ensures ok { OnOk result (Appends (O.taken out.old) (O.taken out.new) (flat_map piece_text pieces.now)) }
    ensures front { TakesFront (O.taken out.old) (O.taken out.new) (flat_map piece_text pieces.now) }
    ensures cause { HasCause (O.faults out.old) (O.faults out.new) result }
{
    for piece in pieces {
        piece.write(out)?;
    }
    Ok(())
}
