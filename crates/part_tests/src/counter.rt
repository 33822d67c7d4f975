//! The tests over a counter of steps, which one function makes: a counter is of a ledger that only its call can name.

ghost use Rattle.std.specs.Prelude.{◌≡◌, ◌<◌};

use crate::folds::{MAPS, MAXIMA, RUNS, SUMS, compare_products, compare_steps};
use crate::{base, counts, enclosed_rows, kind_counts, lanes, one_lane, pipes};
use coeff_algebra::{MaxPlus64, Wrapping64};
use marple_base::Steps;
use std::alloc::Global;
use std::marker::Brand;
use std::process::Abort;
use std::sync::ledger::{Blank, Ledger};
use std::test::Fail;

/// What is compared over a counter.
pub enum Counting {
    Ticks,
    Runs,
    Maps,
    Sums,
    Maxima,
    Entries,
    Events,
    Bounds,
    Lists,
    Turns,
    Pipe,
}

// Makes a counter, and compares over it.
fn compare<L: Ledger>(
    rt: &impl Abort,
    alloc: Global,
    what: Counting,
    blank: Blank,
) -> Result<(), Fail>
    requires name { blank.name ≡ L.name }
    requires parts { blank.parts ≡ L.parts }
    requires whole { 0 < blank.parts }
{
    let mut steps = Steps::<L>::new(blank);
    match what {
        Counting::Ticks => {
            base::compare_ticks(rt, &mut steps);
            Ok(())
        }
        Counting::Sums => {
            compare_products::<Wrapping64, L>(rt, SUMS, &mut steps);
            Ok(())
        }
        Counting::Maxima => {
            compare_products::<MaxPlus64, L>(rt, MAXIMA, &mut steps);
            Ok(())
        }
        Counting::Runs => compare_steps(rt, alloc, RUNS, &mut steps),
        Counting::Maps => compare_steps(rt, alloc, MAPS, &mut steps),
        Counting::Entries => kind_counts::compare_cases(rt, alloc, &mut steps),
        Counting::Events => counts::compare_cases(rt, alloc, &mut steps),
        Counting::Bounds => enclosed_rows::compare(rt, alloc, &mut steps),
        Counting::Lists => lanes::compare_lists(rt, alloc, &mut steps),
        Counting::Turns => one_lane::compare_turns(rt, alloc, &mut steps),
        Counting::Pipe => pipes::compare_pipe(rt, alloc, &mut steps),
    }
}

/// Compares over a new counter.
pub fn counted(rt: &impl Abort, alloc: Global, what: Counting) -> Result<(), Fail> {
    compare::<Brand>(rt, alloc, what, Blank::new(1))
}
