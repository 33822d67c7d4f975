//! The switches of a trace, by number.

ghost use Rattle.std.specs.Prelude.{◌≡◌, ◌+◌, ◌≤◌, length, IfOk, OnOk, OnErr};
ghost use Rattle.net_wide.specs.Numbering.{place_among, switch_number, with_switch};

use marple_base::{Seq, Steps};
use std::alloc::AllocError;
use std::sync::ledger::Ledger;

// The place of a switch among those that are known, or their number where it is new. A step is a comparison.
fn place_among<L: Ledger>(known: &[u64], switch: u64, steps: &mut Steps<L>) -> usize
    ensures place { result ≡ place_among known.now switch }
    ensures within { result ≤ length known.now }
    ensures steps { steps.old ≤ steps.new }
    ensures cost { steps.new ≤ steps.old + length known.now }
{
    for (at, other) in known.iter().enumerate() {
        steps.tick();
        if *other == switch {
            return at;
        }
    }
    known.len()
}

/// The number of a switch by first appearance, from 0; a new one is known from now on. `None` exactly for the 65th, and
/// then nothing changes. It takes at most a step for each known switch, and memory only for a new one.
pub fn number_switch<L: Ledger>(
    known: &mut Seq<u64>,
    switch: u64,
    steps: &mut Steps<L>,
) -> Result<Option<u32>, AllocError>
    requires { length known.old ≤ 64 }
    ensures number { IfOk result (λ number. number ≡ switch_number known.old switch) }
    ensures known { OnOk result (known.new ≡ with_switch known.old switch) }
    ensures few { length known.new ≤ 64 }
    ensures err { OnErr result (known.new ≡ known.old) }
    ensures steps { steps.old ≤ steps.new }
    ensures cost { steps.new ≤ steps.old + length known.old }
{
    let at = place_among(known.as_slice(), switch, steps);
    if at < known.len() {
        return Ok(Some(at as u32));
    }
    if known.len() >= 64 {
        return Ok(None);
    }
    known.push(switch)?;
    Ok(Some(at as u32))
}
