//! Steps of folds from their text, compared with what their statements say on paper: runs of their code, the maps of
//! linear ones, and products of maps.
ghost use Rattle.std.specs.Prelude.{◌≡◌, ◌+◌, ◌*◌, ◌≤◌, length};
ghost use Rattle.fold_class.specs.{Program.IsProgram, Rows.element_size};

use crate::compare::{ROOM, fitting, holds, same};
use crate::counter::{Counting, counted};
use crate::fold_programs::{
    ACCUMULATE, AVERAGE, DEEPEST, DOUBLE, FULL, HASH, MIX, OUT_OF_SEQUENCE, PEAK, TWO_STEPS,
    program_of,
};
use crate::folds::Gives::{Map, State};
use coeff_algebra::{Coeff, apply_into, compose_into};
use fold_class::{Algebra, FoldProgram};
use fold_code::FoldCode;
use marple_base::Steps;
use query_lang::Class;
use std::alloc::Global;
use std::process::Abort;
use std::sync::ledger::Ledger;
use std::test::Fail;

/// The rows of a program are over the variables and arguments of its layout.
fn rows_known(program: &FoldProgram)
    requires { IsProgram program.now }
    ensures linear { program.now.rows.linear ≡ program.now.layout.linear }
    ensures history { program.now.rows.history ≡ program.now.layout.history }
    ensures args { program.now.rows.code.args ≡ program.now.layout.args }
    ensures size { element_size program.now.rows.algebra ≡ element_size program.now.algebra }
{
    let _program = program;
}

/// The words of an element.
fn element_words(algebra: Algebra) -> usize
    ensures size { result ≡ element_size algebra }
    ensures most { result ≤ 2 }
{
    match algebra {
        Algebra::Sums => 1,
        Algebra::Maxima => 2,
    }
}

// A run of the code gives its state, in its steps.
fn compare_run<L: Ledger>(
    rt: &impl Abort,
    code: &FoldCode,
    before: &[u64],
    args: &[u64],
    after: &[u64],
    taken: u64,
    steps: &mut Steps<L>,
) {
    same(rt, "the words before", before.len(), code.states());
    same(rt, "the arguments", args.len(), code.args());
    let (mut state, mut scratch) = ([7; ROOM], [7; ROOM]);
    let state = &mut state[..fitting(rt, before.len())];
    let scratch = &mut scratch[..fitting(rt, code.scratch_words())];
    state.copy_from_slice(before);
    let earlier = steps.shown();
    code.exec(state, args, scratch, steps);
    same(rt, "the state", &*state, after);
    let now = steps.shown();
    same(rt, "the steps", now.saturating_sub(earlier), taken);
}

// The step of a linear fold has its map, and leaves its history.
fn compare_map<L: Ledger>(
    rt: &impl Abort,
    program: &FoldProgram,
    before: &[u64],
    args: &[u64],
    expected: &[u64],
    after: &[u64],
    steps: &mut Steps<L>,
)
    requires { IsProgram program.now }
{
    rows_known(program);
    let rows = &program.rows;
    let layout = &program.layout;
    same(rt, "the class", program.class, Class::Linear);
    same(rt, "the words before", before.len(), layout.history.len());
    same(rt, "the arguments", args.len(), usize::from(layout.args));
    let dimension = layout.linear.len();
    holds(rt, "few variables", dimension <= 2);
    let words = dimension * (dimension + 1) * element_words(program.algebra);
    let (mut history, mut map, mut scratch) = ([7; ROOM], [7; ROOM], [7; ROOM]);
    let history = &mut history[..fitting(rt, before.len())];
    let map = &mut map[..fitting(rt, words)];
    let scratch = &mut scratch[..fitting(rt, rows.scratch_words())];
    history.copy_from_slice(before);
    rows.exec(history, args, map, scratch, steps);
    same(rt, "the map", &*map, expected);
    same(rt, "the history", &*history, after);
}

/// What a step gives: of the fold's code the state and its steps, or of a linear fold's rows the map and the history.
enum Gives {
    State(&'static [u64], u64),
    Map(&'static [u64], &'static [u64]),
}

/// A fold, its state or the history of it, arguments, and what a step with these gives.
pub struct Step(&'static [u8], &'static [u64], &'static [u64], Gives);

// A step gives what it should.
fn compare_step<L: Ledger>(
    rt: &impl Abort,
    program: &FoldProgram,
    step: &Step,
    steps: &mut Steps<L>,
)
    requires { IsProgram program.now }
{
    let Step(_fold, before, args, gives) = step;
    match gives {
        State(after, taken) => {
            compare_run(rt, &program.code, before, args, after, *taken, steps);
        }
        Map(map, after) => compare_map(rt, program, before, args, map, after, steps),
    }
}

/// Compares what each step of a table gives.
pub fn compare_steps<L: Ledger>(
    rt: &impl Abort,
    alloc: Global,
    table: &[Step],
    steps: &mut Steps<L>,
) -> Result<(), Fail> {
    for step in table {
        let program = program_of(alloc, step.0)?;
        compare_step(rt, &program, step, steps);
    }
    Ok(())
}

/// Runs of the code of folds.
pub const RUNS: &[Step] = &[
    // 1 for the mask + 3 nodes and 2 masks of the `if` + two assignments of 3 nodes and 2
    Step(
        OUT_OF_SEQUENCE,
        &[15, 7],
        &[15, 5],
        State(&[20, 7], 1 + (3 + 2) + (3 + 2) + (3 + 2)),
    ),
    Step(OUT_OF_SEQUENCE, &[15, 7], &[16, 5], State(&[21, 8], 16)),
    Step(OUT_OF_SEQUENCE, &[15, 1], &[15, 5], State(&[20, 1], 16)),
    // 1 for the mask + an assignment of 5 nodes and 2: 8 - 8 / 8 + 8
    Step(AVERAGE, &[8], &[8], State(&[15], 1 + (5 + 2))),
    // 1 for the mask + an assignment of 5 nodes and 2 of one node
    Step(
        TWO_STEPS,
        &[10, 3, 4],
        &[9],
        State(&[16, 4, 9], 1 + (5 + 2) + (1 + 2) + (1 + 2)),
    ),
    Step(TWO_STEPS, &[0, 1, 2], &[0], State(&[u64::MAX, 2, 0], 14)),
];

#[test]
fn codes_run_as_their_statements_say(rt: HostRuntime) -> Result<(), Fail> {
    counted(&rt, rt.alloc(), Counting::Runs)
}

/// The maps of linear folds.
pub const MAPS: &[Step] = &[
    Step(ACCUMULATE, &[], &[2], Map(&[1, 0, 2, 1, 1, 0], &[])),
    Step(OUT_OF_SEQUENCE, &[15], &[15, 5], Map(&[1, 0], &[20])),
    Step(OUT_OF_SEQUENCE, &[15], &[16, 5], Map(&[1, 1], &[21])),
    Step(TWO_STEPS, &[1, 2], &[3], Map(&[1, 2], &[2, 3])),
    Step(TWO_STEPS, &[5, 2], &[3], Map(&[1, u64::MAX - 1], &[2, 3])),
    Step(MIX, &[], &[1], Map(&[1, 0, 0, 1, 1, 0], &[])),
    Step(MIX, &[], &[2], Map(&[1, 1, 0, 0, 1, 0], &[])),
    Step(HASH, &[], &[9], Map(&[31, 9], &[])),
    Step(DOUBLE, &[], &[], Map(&[9223372036854775808, 1], &[])),
    Step(DEEPEST, &[], &[5], Map(&[1, 0, 1, 5], &[])),
    Step(PEAK, &[], &[5], Map(&[1, 3, 1, 5], &[])),
    Step(FULL, &[], &[], Map(&[1, u64::MAX, 0, 0], &[])),
];

#[test]
fn maps_of_steps(rt: HostRuntime) -> Result<(), Fail> {
    counted(&rt, rt.alloc(), Counting::Maps)
}

/// A later map, an earlier one, a state, the product, and the state after it.
pub struct Product(
    &'static [u64],
    &'static [u64],
    &'static [u64],
    &'static [u64],
    &'static [u64],
);

// The maps have their product, which takes the state to the one after it.
fn compare_product<C: Coeff, L: Ledger>(rt: &impl Abort, product: &Product, steps: &mut Steps<L>)
    requires words { C.WORDS ≤ 2 }
{
    let &Product(later, earlier, before, expected, after) = product;
    let dimension = before.len();
    holds(rt, "few variables", dimension <= 2);
    let words = dimension * (dimension + 1) * C::WORDS;
    same(rt, "the words of the later map", later.len(), words);
    same(rt, "the words of the earlier map", earlier.len(), words);
    let (mut map, mut state, mut scratch) = ([7; ROOM], [7; ROOM], [7; ROOM]);
    let map = &mut map[..fitting(rt, words)];
    let state = &mut state[..fitting(rt, dimension)];
    let scratch = &mut scratch[..fitting(rt, words)];
    map.copy_from_slice(earlier);
    state.copy_from_slice(before);
    compose_into::<C, L>(dimension, later, map, scratch, steps);
    apply_into::<C, L>(dimension, map, state, scratch, steps);
    same(rt, "the product", &*map, expected);
    same(rt, "the state", &*state, after);
}

/// Compares each product of a table.
pub fn compare_products<C: Coeff, L: Ledger>(
    rt: &impl Abort,
    table: &[Product],
    steps: &mut Steps<L>,
)
    requires { C.WORDS ≤ 2 }
{
    for product in table {
        compare_product::<C, L>(rt, product, steps);
    }
}

/// Maps that add the second variable to the first, and the first to the second.
const TO_FIRST: &[u64] = &[1, 1, 0, 0, 1, 0];

const TO_SECOND: &[u64] = &[1, 0, 0, 1, 1, 0];

/// Maps that add the first variable to the second, and then 1 or 2 to the first.
const BY_ONE: &[u64] = &[1, 0, 1, 1, 1, 0];

const BY_TWO: &[u64] = &[1, 0, 2, 1, 1, 0];

const HALF: u64 = 1 << 63;

/// Products of maps of sums.
pub const SUMS: &[Product] = &[
    Product(BY_TWO, BY_ONE, &[0, 0], &[1, 0, 3, 2, 1, 1], &[3, 1]),
    Product(TO_FIRST, TO_SECOND, &[1, 1], &[2, 1, 0, 1, 1, 0], &[3, 2]),
    Product(TO_SECOND, TO_FIRST, &[1, 1], &[1, 1, 0, 1, 2, 0], &[2, 3]),
    Product(&[31, 2], &[31, 1], &[0], &[961, 33], &[33]),
    Product(&[HALF, 1], &[HALF, 1], &[5], &[0, HALF + 1], &[HALF + 1]),
];

#[test]
fn products_of_sums(rt: HostRuntime) -> Result<(), Fail> {
    counted(&rt, rt.alloc(), Counting::Sums)
}

/// A map that has the greatest word of any state.
const FILL: &[u64] = &[1, u64::MAX, 0, 0];

/// Products of maps of maxima. An element is absent, `0, 0`, or a word after a 1.
pub const MAXIMA: &[Product] = &[
    Product(&[1, 3, 1, 4], &[1, 3, 1, 10], &[0], &[1, 6, 1, 13], &[13]),
    Product(&[1, 3, 1, 4], &[1, 3, 1, 10], &[9], &[1, 6, 1, 13], &[15]),
    Product(&[1, 3, 0, 0], &[0, 0, 1, 5], &[9], &[0, 0, 1, 8], &[8]),
    Product(&[0, 0, 1, 5], &[1, 3, 1, 10], &[9], &[0, 0, 1, 5], &[5]),
    Product(FILL, &[1, 3, 0, 0], &[1], FILL, &[u64::MAX]),
];

#[test]
fn products_of_maxima(rt: HostRuntime) -> Result<(), Fail> {
    counted(&rt, rt.alloc(), Counting::Maxima)
}
