//! How many words the entries of folds have, and the most that an entry with its key can have.
ghost use Rattle.query_lang.specs.TypedQueries.{IsValidQuery};

use crate::compare::same;
use crate::fold_programs::{
    ACCUMULATE, AVERAGE, DEEPEST, HASH, OUT_OF_SEQUENCE, TWO_STEPS, first_program, program_of,
    query_of,
};
use accepted_query::AcceptedQuery;
use epoch_entry::{AnyEpochs, EpochKind};
use fold_class::{Algebra, FoldProgram};
use stage_plan::Plan;
use std::alloc::Global;
use std::test::Fail;

/// A fold, how many words its entry has, and whether there is a row for each epoch.
struct Words(&'static [u8], usize, bool);

/// A linear fold's entry has a count of logged rows, the log, the history and a map, and another's has its state.
const WORDS: [Words; 6] = [
    Words(OUT_OF_SEQUENCE, 6, false),
    Words(TWO_STEPS, 7, false),
    Words(ACCUMULATE, 7, false),
    Words(HASH, 3, false),
    Words(DEEPEST, 5, false),
    Words(AVERAGE, 1, true),
];

#[test]
fn words_of_entries(rt: HostRuntime) -> Result<(), Fail> {
    for &Words(fold, words, has_row_per_epoch) in &WORDS {
        let kind = AnyEpochs::of(program_of(rt.alloc(), fold)?);
        same(&rt, "the words of an entry", kind.entry_words(), words);
        same(
            &rt,
            "a row for each epoch",
            kind.row_per_epoch(),
            has_row_per_epoch,
        );
    }
    Ok(())
}

/// A fold of eight variables and sixteen arguments that looks eight rows back.
const DEEP: &[u8] =
    b"def deep([a, b, c, d, e, f, g, h], [switch, qid, uid, srcip, dstip, srcport, dstport, proto, \
pkt_len, payload_len, tcpseq, tin, tout, qsize, x, y]) { h = g; g = f; f = e; e = d; d = c; c = b; b = a; a = tin; }";
/// The same, but for the greatest of what is eight rows back or more.
const DEEP_MAXIMUM: &[u8] =
    b"def deep([a, b, c, d, e, f, g, h], [switch, qid, uid, srcip, dstip, srcport, dstport, proto, \
pkt_len, payload_len, tcpseq, tin, tout, qsize, x, y]) { h = max(h, g); g = f; f = e; e = d; d = c; c = b; b = a; a = tin; }";
/// Eight keys for the first fold.
const DEEP_GROUP: &[u8] = b" m = map(pktstream, [x = tin + 1, y = tin + 2]); \
r = groupby(m, [switch, qid, uid, srcip, dstip, srcport, dstport, proto], deep); print r;";

/// What a packet's bound on steps has beside six times the most words of an entry with its key: of one groupby with eight
/// keys over a fold like those, with one way.
fn other_steps(plan: &Plan, program: &FoldProgram) -> u64 {
    let keys = 8;
    let args = 16;
    let states = 8;
    let nodes = u64::from(program.layout.nodes);
    let statements = u64::from(program.layout.statements);
    let body = nodes + 4 * statements + 1;
    14 + u64::from(plan.operations())
        + 2 * (keys + 1)
        + (states + 1) * body
        + states * states * (states + 1)
        + 2 * (keys + args)
}

/// Of a query with one groupby: its fold's algebra and depth, what its packet's bound on steps has beside those others, and
/// the words of an entry with its key.
fn measured(alloc: Global, query: &AcceptedQuery) -> Result<(Algebra, u8, u64, usize), Fail>
    requires { IsValidQuery query.now.typed }
{
    let program = first_program(alloc, query)?;
    let (algebra, depth) = (program.algebra, program.depth);
    let others = other_steps(&query.plan, &program);
    let entries = query.plan.bound(1).saturating_sub(others);
    let kind = AnyEpochs::of(program);
    Ok((
        algebra,
        depth,
        entries,
        kind.entry_words().saturating_add(8),
    ))
}

/// A fold, its algebra and depth, the words of an entry with its key, and the most of those.
struct Greatest(&'static [u8], Algebra, u8, usize, u64);

const GREATEST: [Greatest; 2] = [
    Greatest(DEEP, Algebra::Sums, 8, 8 + 1 + 128 + 8, 218),
    Greatest(DEEP_MAXIMUM, Algebra::Maxima, 7, 8 + 1 + 112 + 7 + 4, 274),
];

#[test]
fn greatest_entries(rt: HostRuntime) -> Result<(), Fail> {
    let alloc = rt.alloc();
    for &Greatest(fold, algebra, depth, words, most) in &GREATEST {
        let query = query_of(alloc, fold, DEEP_GROUP)?;
        let expected = (algebra, depth, 6 * most, words);
        same(&rt, "what was measured", measured(alloc, &query)?, expected);
    }
    Ok(())
}
