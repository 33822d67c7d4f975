//! A pipe by its own calls: the oldest record is copied, in steps for its words, and goes.

ghost use Rattle.std.specs.Prelude.{◌≡◌};

use crate::compare::{holds, same};
use crate::counter::{Counting, counted};
use evict_pipe::EvictPipe;
use marple_base::Steps;
use std::alloc::Global;
use std::process::Abort;
use std::sync::ledger::Ledger;
use std::test::Fail;

// Puts a record last, for which there is room.
fn push<L: Ledger>(rt: &impl Abort, pipe: &mut EvictPipe, key: u64, steps: &mut Steps<L>)
    requires { pipe.old.record_words ≡ 2 }
    ensures { pipe.new.record_words ≡ 2 }
{
    holds(rt, "there is room", pipe.has_room());
    pipe.push(&[key], &[key], steps);
}

// Copies the oldest record, which has this key, and has it go.
fn take<L: Ledger>(rt: &impl Abort, pipe: &mut EvictPipe, key: u64, steps: &mut Steps<L>)
    requires { pipe.old.record_words ≡ 2 }
    ensures { pipe.new.record_words ≡ 2 }
{
    let before = steps.shown();
    let mut record = [0; 2];
    holds(rt, "there is a record", pipe.front_into(&mut record, steps));
    same(rt, "the copy", record, [key; 2]);
    same(
        rt,
        "the steps of a copy",
        steps.shown().saturating_sub(before),
        2,
    );
    same(rt, "the oldest record", pipe.front(), &[key; 2]);
    pipe.drop_front();
}

// Finds no record, copies none and counts nothing.
fn find_none<L: Ledger>(rt: &impl Abort, pipe: &EvictPipe, steps: &mut Steps<L>)
    requires { pipe.now.record_words ≡ 2 }
{
    let before = steps.shown();
    let mut record = [7; 2];
    holds(
        rt,
        "there is no record",
        !pipe.front_into(&mut record, steps),
    );
    same(rt, "no copy", record, [7; 2]);
    same(rt, "no steps", steps.shown(), before);
}

/// Records in turn in a pipe of two places.
pub fn compare_pipe<L: Ledger>(
    rt: &impl Abort,
    alloc: Global,
    steps: &mut Steps<L>,
) -> Result<(), Fail> {
    let mut pipe = EvictPipe::new(alloc, 2, 2)?;
    find_none(rt, &pipe, steps);
    push(rt, &mut pipe, 1, steps);
    push(rt, &mut pipe, 2, steps);
    holds(rt, "there is no room", !pipe.has_room());
    take(rt, &mut pipe, 1, steps);
    push(rt, &mut pipe, 3, steps);
    take(rt, &mut pipe, 2, steps);
    take(rt, &mut pipe, 3, steps);
    find_none(rt, &pipe, steps);
    Ok(())
}

#[test]
fn the_oldest_record_is_copied_and_goes(rt: HostRuntime) -> Result<(), Fail> {
    counted(&rt, rt.alloc(), Counting::Pipe)
}
