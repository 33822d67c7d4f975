//! Traces and parts in memory.

ghost use Rattle.std.specs.Prelude.{◌<◌, All, IfOk};
ghost use Rattle.marple_base.specs.{Inputs.IsClosed, MemoryInputs.memory_input, declared.inputs.Which.TheVariants.Trace};

use marple_base::{FailAt, Failed, MemoryInputs, Seq, Text, Which};
use std::alloc::{AllocError, Global};
use trace_ranges::Ranged;
use trace_split::Parts;

/// Sinks in memory, by the numbers of the parts, which take at most `most` bytes in a write, and fail at one write, counted from 1.
#[derive(Drop)]
pub struct MemoryParts {
    pub texts: Vec<Vec<u8>>,
    most: usize,
    failing: u64,
    calls: u64,
}

impl MemoryParts {
    pub fn new(
        alloc: Global,
        parts: u32,
        most: usize,
        failing: u64,
    ) -> Result<MemoryParts, AllocError> {
        let mut texts = Vec::new(alloc);
        for _part in 0..parts {
            texts.push(Vec::new(alloc))?;
        }
        Ok(MemoryParts {
            texts,
            most,
            failing,
            calls: 0,
        })
    }
}

impl Parts for MemoryParts {
    ghost use Rattle.std.specs.Prelude.{◌-◌, ◌^◌, None};

    ghost taken = { λ _ _. None };

    ghost faults = { λ _. 2 ^ 64 - 1 };

    fn write(&mut self, part: u32, piece: &[u8]) -> Result<usize, Failed> {
        self.calls = self.calls.saturating_add(1);
        if self.calls == self.failing || self.most == 0 {
            return Err(Failed);
        }
        let count = self.most.min(piece.len());
        let Some(text) = self.texts.get_mut(part as usize) else {
            return Err(Failed);
        };
        let Ok(()) = text.extend_from_slice(&piece[..count]) else {
            return Err(Failed);
        };
        Ok(count)
    }
}

/// Inputs of one trace, of which one call fails, counted from 1.
fn trace_of(alloc: Global, text: &[u8], failing_read: u64) -> Result<MemoryInputs, AllocError>
    ensures { IfOk result (λ trace. IsClosed (memory_input trace Trace)) }
{
    let mut failing = Seq::new(alloc);
    failing.push(FailAt {
        which: Which::Trace,
        call: failing_read,
    })?;
    let text = Text::from_slice(alloc, text)?;
    Ok(MemoryInputs::new(Text::new(alloc), text, failing))
}

/// Traces of these texts, of each of which this call fails.
pub fn traces_of(
    alloc: Global,
    texts: &[&[u8]],
    failing_read: u64,
) -> Result<Vec<MemoryInputs>, AllocError>
    ensures { IfOk result (λ traces. All (λ trace. IsClosed (memory_input trace Trace)) traces.items) }
{
    let mut traces = Vec::new(alloc);
    for text in texts {
        traces.push(trace_of(alloc, text, failing_read)?)?;
    }
    Ok(traces)
}

/// Traces of these texts, of which a range may be given.
pub fn ranged_traces_of(
    alloc: Global,
    texts: &[&[u8]],
) -> Result<Vec<Ranged<MemoryInputs>>, AllocError>
    ensures { IfOk result (λ traces. All (λ trace. IsClosed (memory_input trace.inputs Trace)) traces.items) }
{
    let mut traces = Vec::new(alloc);
    for text in texts {
        traces.push(Ranged::new(trace_of(alloc, text, 0)?))?;
    }
    Ok(traces)
}
