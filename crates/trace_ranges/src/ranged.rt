//! Inputs of which a range of the trace is given.

ghost use Rattle.std.specs.{Prelude.{◌≡◌, ◌<◌, All, length, map}, Io.{ReadsAtMost, KnownBytes.ReadConsumes}};
ghost use Rattle.marple_base.specs.{Faults.HasCause, Inputs.{IsOpen, other}, declared.inputs.Which.TheVariants.{Query, Trace}};
ghost use Rattle.trace_ranges.specs.Ranges.{kept_input, ranged, windowed, window_for};

use crate::window::Window;
use marple_base::{Failed, Inputs, Which};

// The bytes of one read.
const CHUNK: usize = 65_536;

/// The records of a trace that begin at byte `from` or later, counted from 0, and before byte `to`.
#[derive(Clone, Copy, PartialEq, Eq)]
pub struct Range {
    pub from: u64,
    pub to: u64,
}

/// Inputs that give of a trace only its header and the records that begin in a range, or all of it.
#[derive(Drop)]
pub struct Ranged<I> {
    inputs: I,
    window: Option<Window>,
}

// Reads what is kept of a trace.
fn read_kept<I: Inputs>(
    inputs: &mut I,
    window: &mut Window,
    buf: &mut [u8],
) -> Result<usize, Failed>
    requires opened { IsOpen (I.input inputs.old Trace) }
    requires room { 0 < length buf.old }
    ensures bound { ReadsAtMost result buf.new }
    ensures bytes { ReadConsumes (kept_input window.old (I.input inputs.old Trace)).left
        (kept_input window.new (I.input inputs.new Trace)).left result buf.new }
    ensures opened { IsOpen (I.input inputs.new Trace) }
    ensures cause { HasCause (I.input inputs.old Trace).faults (I.input inputs.new Trace).faults result }
    ensures other { I.input inputs.new Query ≡ I.input inputs.old Query }
{
    let mut chunk = [0u8; CHUNK];
    'chunks: while !window.is_past() {
        let room = CHUNK.min(buf.len());
        let count = inputs.read(Which::Trace, &mut chunk[..room])?;
        if count == 0 {
            return Ok(0);
        }
        let given = window.keep(&chunk[..count], buf);
        if given > 0 {
            return Ok(given);
        }
    }
    Ok(0)
}

impl<I: Inputs> Ranged<I> {
    /// All of the trace.
    pub fn new(inputs: I) -> Ranged<I>
        ensures inputs { result.inputs ≡ inputs }
        ensures whole { result.window ≡ window_for None }
    {
        Ranged {
            inputs,
            window: None,
        }
    }

    // Begins with this range, or with all of the trace.
    fn begin(&mut self, range: Option<Range>)
        ensures { self.new ≡ windowed range self.old }
    {
        self.window = match range {
            Some(own) => Some(Window::first(own.from, own.to)),
            None => None,
        };
    }
}

/// Begins each of these with a range, or with all of the trace.
pub fn begin_all<I: Inputs>(traces: &mut [Ranged<I>], range: Option<Range>)
    ensures { traces.new ≡ map (windowed range) traces.old }
{
    for i in 0..traces.len() {
        traces[i].begin(range);
    }
}

impl<I: Inputs> Inputs for Ranged<I> {
    ghost use Rattle.trace_ranges.specs.Ranges.{ranged};

    ghost input = { λ r. ranged r.window (I.input r.inputs) };

    fn open(&mut self, which: Which) -> Result<(), Failed> {
        self.inputs.open(which)
    }

    fn read(&mut self, which: Which, buf: &mut [u8]) -> Result<usize, Failed> {
        match which {
            Which::Query => self.inputs.read(Which::Query, buf),
            Which::Trace => match &mut self.window {
                Some(window) => read_kept(&mut self.inputs, window, buf),
                None => self.inputs.read(Which::Trace, buf),
            },
        }
    }
}
