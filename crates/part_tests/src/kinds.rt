//! Which folds are monotone: what each operator makes of a state variable.

use crate::compare::same;
use crate::fold_programs::{IDLE, first_fold, query_of};
use enclosure_folds::is_monotone;
use marple_base::Text;
use std::alloc::{AllocError, Global};
use std::test::Fail;

/// State variables, whether greater states of them stay greater, and bodies of folds of which that is said.
struct Kind {
    states: &'static [u8],
    is_monotone: bool,
    bodies: &'static [&'static str],
}

const KINDS: [Kind; 4] = [
    Kind {
        states: b"m",
        is_monotone: true,
        bodies: &[
            "m = max(m, qsize);",
            "m = min(m, qsize);",
            "m = sadd(m, qsize);",
            "m = sadd(qsize, m);",
            "m = decay(m, 3);",
            "m = m >> 3;",
            "m = m / 3;",
            "m = sadd(decay(m, 3), qsize);",
            "m = min(max(m, qsize), 10) / 2;",
            "m = qsize * qsize - qsize % 3;",
            "m = m + 1; m = qsize;",
            "if (qsize > 3) { m = max(m, qsize); } else { m = 2; }",
        ],
    },
    Kind {
        states: b"m",
        is_monotone: false,
        bodies: &[
            "m = m + qsize;",
            "m = m - qsize;",
            "m = qsize - m;",
            "m = m * 2;",
            "m = m % 3;",
            "m = m << 1;",
            "m = m & qsize;",
            "m = m | qsize;",
            "m = m ^ qsize;",
            "m = max(m + 1, qsize);",
            "if (m > 3) { m = qsize; }",
        ],
    },
    Kind {
        states: b"m, n",
        is_monotone: true,
        bodies: &[
            "n = m; m = qsize;",
            "n = qsize; if (n != 3) { m = max(m, n); }",
            "if (m > 3) { n = 1; } n = qsize;",
        ],
    },
    Kind {
        states: b"m, n",
        is_monotone: false,
        bodies: &[
            "if (m == 3) { n = 1; }",
            "n = m; if (n < 3) { m = 1; } else { m = 2; }",
        ],
    },
];

// The text of a fold.
fn fold_of(alloc: Global, states: &[u8], body: &[u8]) -> Result<Text, AllocError> {
    let mut text = Text::new(alloc);
    for part in [b"def f([", states, b"],[qsize]) { ", body, b" }"] {
        text.push_slice(part)?;
    }
    Ok(text)
}

// Whether the fold with these states and this body is monotone.
fn is_fold_monotone(alloc: Global, states: &[u8], body: &[u8]) -> Result<bool, Fail> {
    let fold = fold_of(alloc, states, body)?;
    let query = query_of(alloc, fold.as_slice(), IDLE)?;
    Ok(is_monotone(first_fold(&query)?))
}

#[test]
fn kinds(rt: HostRuntime) -> Result<(), Fail> {
    for kind in &KINDS {
        for body in kind.bodies {
            let is_monotone = is_fold_monotone(rt.alloc(), kind.states, body.as_bytes())?;
            same(&rt, body, is_monotone, kind.is_monotone);
        }
    }
    Ok(())
}
