//! Words copied as a block, with a step for each of them.

ghost use Rattle.std.specs.Prelude.{◌≡◌, ◌+◌, length};

use crate::steps::Steps;
use std::sync::ledger::Ledger;

/// Copies words over a slice of their length, a step for each.
pub fn copy_words<L: Ledger>(from: &[u64], to: &mut [u64], steps: &mut Steps<L>)
    requires room { length to.old ≡ length from.now }
    ensures words { to.new ≡ from.now }
    ensures steps { steps.new ≡ steps.old + length from.now }
{
    to.copy_from_slice(from);
    steps.tick_many(from.len() as u64);
}
