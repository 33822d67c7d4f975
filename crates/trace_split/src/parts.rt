//! Where the texts of parts go.

ghost use Rattle.std.specs.Prelude.{◌≡◌, ◌≢◌, ◌++◌, ◌<◌, ◌≤◌, ℕ, Option, List, IfOk, IsErrOf, OnErr, OnOk, length};
ghost use Rattle.std.specs.Io.KnownBytes.{Appends, WriteAppends};
ghost use Rattle.marple_base.specs.{Faults.{HasCause, Rose}, Sink.TakesFront, Pieces.TakesAllBut};

use crate::waiting::{PIECE, Waiting};
use marple_base::{Failed, WriteError};

/// Sinks for the texts of parts, by the numbers of the parts.
pub trait Parts {
    /// The bytes that the sink of a part has taken so far, where it gives them.
    ghost taken: { Self → ℕ → Option (List ℕ) };

    ghost faults: { Self → ℕ };

    /// The sink of a part takes a prefix of the piece, at least one byte, and returns its length.
    fn write(&mut self, part: u32, piece: &[u8]) -> Result<usize, Failed>
        requires { 0 < length piece.now }
        ensures count { IfOk result (λ n. (0 < n) × (n ≤ length piece.now)) }
        ensures bytes { WriteAppends (taken self.old part) (taken self.new part) result piece.now }
        ensures others { (n : ℕ) → n ≢ part → taken self.new n ≡ taken self.old n }
        ensures cause { HasCause (faults self.old) (faults self.new) result };
}

/// Writes the whole piece to the sink of a part.
pub(crate) fn write_part<P: Parts>(parts: &mut P, part: u32, piece: &[u8]) -> Result<(), Failed>
    ensures ok { OnOk result (Appends (P.taken parts.old part) (P.taken parts.new part) piece.now) }
    ensures front { TakesFront (P.taken parts.old part) (P.taken parts.new part) piece.now }
    ensures others { (n : ℕ) → n ≢ part → P.taken parts.new n ≡ P.taken parts.old n }
    ensures cause { HasCause (P.faults parts.old) (P.faults parts.new) result }
{
    let mut done = 0;
    while done < piece.len() {
        done += parts.write(part, &piece[done..])?;
    }
    Ok(())
}

// Writes the bytes of a part that wait, where a line of so many bytes has no room beside them.
#[inline(always)]
fn make_room<P: Parts>(
    waiting: &mut Waiting,
    line: usize,
    parts: &mut P,
    part: u32,
) -> Result<(), Failed>
    ensures ok { OnOk result (TakesAllBut (P.taken parts.old part) (P.taken parts.new part) waiting.new waiting.old) }
    ensures front { TakesFront (P.taken parts.old part) (P.taken parts.new part) waiting.old }
    ensures others { (n : ℕ) → n ≢ part → P.taken parts.new n ≡ P.taken parts.old n }
    ensures cause { HasCause (P.faults parts.old) (P.faults parts.new) result }
{
    if line > PIECE.saturating_sub(waiting.len()) {
        write_part(parts, part, waiting.as_slice())?;
        waiting.clear();
    }
    Ok(())
}

/// Adds a line to the bytes of a part that wait. Where it has no room beside them, they are written first.
#[inline(always)]
pub(crate) fn add_line<P: Parts>(
    waiting: &mut Waiting,
    line: &[u8],
    parts: &mut P,
    part: u32,
) -> Result<(), WriteError>
    ensures ok { OnOk result
        (TakesAllBut (P.taken parts.old part) (P.taken parts.new part) waiting.new (waiting.old ++ line.now)) }
    ensures err { OnErr result (TakesFront (P.taken parts.old part) (P.taken parts.new part) waiting.old) }
    ensures others { (n : ℕ) → n ≢ part → P.taken parts.new n ≡ P.taken parts.old n }
    ensures failed { IsErrOf result WriteError.Failed → Rose (P.faults parts.old) (P.faults parts.new) }
    ensures later { P.faults parts.old ≤ P.faults parts.new }
{
    make_room(waiting, line.len(), parts, part)?;
    waiting.push_slice(line)?;
    Ok(())
}
