//! The bytes of a trace, piece by piece.

ghost use Rattle.std.specs.Prelude.{◌≡◌, ◌≤◌, IfOk, IsErrOf};
ghost use Rattle.marple_base.specs.{Faults.Rose, Inputs.IsOpen};
ghost use Rattle.trace_pieces.specs.Reads.{Fills};

use marple_base::{Inputs, ReadAnswer, Which};

// The bytes of one read.
const CHUNK: usize = 65_536;

/// Reads on until the bytes are this many, and whether the trace ended before.
pub fn fill<I: Inputs>(
    bytes: &mut Vec<u8>,
    target: usize,
    inputs: &mut I,
) -> Result<bool, ReadAnswer>
    requires { IsOpen (I.input inputs.old Which.Trace) }
    ensures fills { IfOk result (Fills target (I.input inputs.old Which.Trace).left (I.input inputs.new Which.Trace).left
        bytes.old.items bytes.new.items) }
    ensures opened { IsOpen (I.input inputs.new Which.Trace) }
    ensures failed { IsErrOf result ReadAnswer.Failed
        → Rose (I.input inputs.old Which.Trace).faults (I.input inputs.new Which.Trace).faults }
    ensures later { (I.input inputs.old Which.Trace).faults ≤ (I.input inputs.new Which.Trace).faults }
    ensures query_kept { I.input inputs.new Which.Query ≡ I.input inputs.old Which.Query }
{
    let mut chunk = [0u8; CHUNK];
    'chunks: while bytes.len() < target {
        let room = CHUNK.min(target - bytes.len());
        let count = inputs.read(Which::Trace, &mut chunk[..room])?;
        if count == 0 {
            return Ok(true);
        }
        bytes.extend_from_slice(&chunk[..count])?;
    }
    Ok(false)
}
