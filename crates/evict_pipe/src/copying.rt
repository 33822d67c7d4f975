//! A record, written a step for each word.

ghost use Rattle.std.specs.Prelude.{◌≡◌, ◌+◌, ◌++◌, length};

use marple_base::{Steps, copy_words};
use std::sync::ledger::Ledger;

/// Writes the words of a key and then those of its entry over a row.
pub fn write_record<L: Ledger>(row: &mut [u64], key: &[u64], entry: &[u64], steps: &mut Steps<L>)
    requires { length row.old ≡ length key.now + length entry.now }
    ensures written { row.new ≡ key.now ++ entry.now }
    ensures cost { steps.new ≡ steps.old + length row.old }
{
    let (front, rest) = row.split_at_mut(key.len());
    copy_words(key, front, steps);
    copy_words(entry, rest, steps);
}
