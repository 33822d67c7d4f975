//! What is known of the infinity of dropped packets where an expression stands.

use marple_base::Seq;
use query_lang::{Expr, Name, Op};
use std::alloc::{AllocError, Global};

/// A name that `tout` went into by a sum, a difference or a product, and the place where it did.
#[derive(Clone, Copy)]
pub(crate) struct Loss {
    pub(crate) id: u32,
    pub(crate) place: Name,
}

/// What is known of a stream's packets, or of a table's rows: may one be of a dropped packet; the names that are `tout`;
/// those that are made of it otherwise, as by a division; and those that it went into.
#[derive(Drop)]
pub(crate) struct Known {
    pub(crate) dropped: bool,
    pub(crate) times: Seq<u32>,
    pub(crate) made: Seq<u32>,
    pub(crate) spoilt: Seq<Loss>,
}

/// Whether a name is among these.
pub(crate) fn is_among(id: u32, ids: &[u32]) -> bool {
    for one in ids {
        if *one == id {
            return true;
        }
    }
    false
}

/// Adds a name, where it isn't there.
pub(crate) fn add(ids: &mut Seq<u32>, id: u32) -> Result<(), AllocError> {
    if !is_among(id, ids.as_slice()) {
        ids.push(id)?;
    }
    Ok(())
}

// Those of these names that are among others.
fn those_among(alloc: Global, ids: &[u32], others: &[u32]) -> Result<Seq<u32>, AllocError> {
    let mut found = Seq::new(alloc);
    for id in ids {
        if is_among(*id, others) {
            found.push(*id)?;
        }
    }
    Ok(found)
}

impl Known {
    /// Nothing is known but that packets may be dropped.
    pub(crate) fn nothing(alloc: Global) -> Known {
        Known {
            dropped: true,
            times: Seq::new(alloc),
            made: Seq::new(alloc),
            spoilt: Seq::new(alloc),
        }
    }

    /// The same of these names only.
    pub(crate) fn named(&self, alloc: Global, names: &[u32]) -> Result<Known, AllocError> {
        let times = those_among(alloc, self.times.as_slice(), names)?;
        let made = those_among(alloc, self.made.as_slice(), names)?;
        let mut spoilt = Seq::new(alloc);
        for loss in self.spoilt.as_slice() {
            if is_among(loss.id, names) {
                spoilt.push(*loss)?;
            }
        }
        Ok(Known {
            dropped: self.dropped,
            times,
            made,
            spoilt,
        })
    }

    /// The same once more.
    pub(crate) fn copy(&self, alloc: Global) -> Result<Known, AllocError> {
        let times = Seq::from_vec(self.times.as_slice().to_vec(alloc)?);
        let made = Seq::from_vec(self.made.as_slice().to_vec(alloc)?);
        let spoilt = Seq::from_vec(self.spoilt.as_slice().to_vec(alloc)?);
        Ok(Known {
            dropped: self.dropped,
            times,
            made,
            spoilt,
        })
    }

    /// Adds what is known of other names.
    pub(crate) fn join(&mut self, other: &Known) -> Result<(), AllocError> {
        for id in other.times.as_slice() {
            add(&mut self.times, *id)?;
        }
        for id in other.made.as_slice() {
            add(&mut self.made, *id)?;
        }
        for loss in other.spoilt.as_slice() {
            self.spoilt.push(*loss)?;
        }
        Ok(())
    }

    /// Whether a name is `tout`, or made of it.
    pub(crate) fn comes_from_time(&self, id: u32) -> bool {
        is_among(id, self.times.as_slice()) || is_among(id, self.made.as_slice())
    }
}

// Whether both of two expressions are `tout` and infinity, in this order.
fn is_time_and_infinity(one: &Expr, other: &Expr, times: &[u32]) -> bool {
    is_time(one, times) && is_infinity(other)
}

fn is_time(e: &Expr, times: &[u32]) -> bool {
    match e {
        Expr::Named(name) => is_among(name.id, times),
        _ => false,
    }
}

/// Whether an expression is the number that a dropped packet's `tout` is.
pub(crate) fn is_infinity(e: &Expr) -> bool {
    match e {
        Expr::Number(n, _) => *n == u64::MAX,
        _ => false,
    }
}

/// Whether a packet for which the condition has this truth is one that wasn't dropped.
pub(crate) fn leaves_out(condition: &Expr, truth: bool, times: &[u32]) -> bool {
    match condition {
        Expr::Not(_, inner) => leaves_out(inner.get(), !truth, times),
        Expr::Binary(op, _, left, right) => {
            let one = left.get();
            let other = right.get();
            match op {
                Op::Both if truth => leaves_out(one, truth, times)
                    || leaves_out(other, truth, times),
                Op::Both => leaves_out(one, truth, times) && leaves_out(other, truth, times),
                Op::Either if truth => {
                    leaves_out(one, truth, times) && leaves_out(other, truth, times)
                }
                Op::Either => leaves_out(one, truth, times) || leaves_out(other, truth, times),
                Op::Eq => {
                    !truth
                        && (is_time_and_infinity(one, other, times)
                            || is_time_and_infinity(other, one, times))
                }
                Op::Ne => {
                    truth
                        && (is_time_and_infinity(one, other, times)
                            || is_time_and_infinity(other, one, times))
                }
                Op::Lt => truth && is_time(one, times),
                Op::Ge => !truth && is_time(one, times),
                Op::Gt => truth && is_time(other, times),
                Op::Le => !truth && is_time(other, times),
                _ => false,
            }
        }
        _ => false,
    }
}
