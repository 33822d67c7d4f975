//! The texts of some folds, and the programs of such texts.
ghost use Rattle.std.specs.Prelude.{IfOk};
ghost use Rattle.fold_class.specs.Program.{IsProgram};
ghost use Rattle.query_lang.specs.{Folds.IsValidFold, TypedQueries.IsValidQuery};

use accepted_query::{AcceptedQuery, accept};
use fold_class::{FoldProgram, classify};
use fold_code::compile;
use marple_base::Text;
use query_lang::TypedFold;
use std::alloc::Global;
use std::test::Fail;

pub(crate) const OUT_OF_SEQUENCE: &[u8] =
    b"def oos([last, n],[tcpseq, payload_len]) { if (last != tcpseq) { n = n + 1; } last = tcpseq + payload_len; }";

pub(crate) const TWO_STEPS: &[u8] =
    b"def step2([s, a, b],[tin]) { s = s + tin - a; a = b; b = tin; }";

pub(crate) const ACCUMULATE: &[u8] = b"def acc([s, t],[pkt_len]) { t = t + s; s = s + pkt_len; }";

pub(crate) const MIX: &[u8] =
    b"def mix([s = 1, t = 1],[proto]) { if (proto == 1) { t = t + s; } else { s = s + t; } }";

pub(crate) const HASH: &[u8] = b"def h31([h],[pkt_len]) { h = h * 31 + pkt_len; }";

pub(crate) const AVERAGE: &[u8] = b"def avg([e],[qsize]) { e = decay(e, 3) + qsize; }";

pub(crate) const DEEPEST: &[u8] = b"def deepest([m],[qsize]) { m = max(m, qsize); }";

pub(crate) const PEAK: &[u8] = b"def peak([p],[qsize]) { p = max(sadd(p, 3), qsize); }";

pub(crate) const FULL: &[u8] = b"def full([x = 5],[]) { x = sadd(x, infinity); }";

pub(crate) const DOUBLE: &[u8] = b"def top1([x],[]) { x = x * 9223372036854775808 + 1; }";

/// What follows a fold that the query's only groupby doesn't take.
pub(crate) const IDLE: &[u8] =
    b" def idle([],[]) { } r = groupby(pktstream, [srcip], idle); print r;";

/// The query of a fold with this text, and of what follows it.
pub(crate) fn query_of(alloc: Global, fold: &[u8], rest: &[u8]) -> Result<AcceptedQuery, Fail>
    ensures { IfOk result (λ query. IsValidQuery query.typed) }
{
    let mut text = Text::from_slice(alloc, fold)?;
    text.push_slice(rest)?;
    Ok(accept(alloc, text.as_slice())?)
}

/// A query's first fold.
pub(crate) fn first_fold(query: &AcceptedQuery) -> Result<&TypedFold, Fail>
    requires { IsValidQuery query.now.typed }
    ensures { IfOk result (λ fold. IsValidFold fold.now) }
{
    if query.typed.folds.len() == 0 {
        return Err(Fail::new("there is no fold"));
    }
    Ok(query.typed.folds.get(0))
}

/// The program of a query's first fold.
pub(crate) fn first_program(alloc: Global, query: &AcceptedQuery) -> Result<FoldProgram, Fail>
    requires { IsValidQuery query.now.typed }
    ensures { IfOk result IsProgram }
{
    let fold = first_fold(query)?;
    let code = compile(alloc, fold)?;
    Ok(classify(alloc, fold, code)?)
}

/// The program of the fold with this text.
pub(crate) fn program_of(alloc: Global, fold: &[u8]) -> Result<FoldProgram, Fail>
    ensures { IfOk result IsProgram }
{
    let query = query_of(alloc, fold, IDLE)?;
    first_program(alloc, &query)
}
