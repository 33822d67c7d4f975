//! A check of a fold's assignments, and of the conditions around them.

ghost use Rattle.std.specs.Prelude.{◌≡◌, ℕ, Bool, true, ◌&&◌, ◌||◌};
ghost use Rattle.query_lang.specs.{Terms.{Term, term_of}, Blocks.{stmt_block, block_of}, Folds.{IsValidFold, fold_states, fold_block}};
ghost use Rattle.fold_code.specs.Checks.{is_in, names_known, all_pass};

use query_lang::{TypedExpr, TypedFold, TypedStmt};

/// A test of assignments, in a fold of some number of variables, where the values of some of them are known.
pub trait Checks {
    /// Whether the assignment of an expression to a variable passes.
    ghost passes: { Self → ℕ → (ℕ → Bool) → ℕ → Term → Bool };

    /// Whether the assignment of an expression to a variable passes.
    fn may_assign(&self, states: u16, known: &[u8], v: u16, e: &TypedExpr) -> bool
        ensures { result ≡ passes self.now states (is_in known.now) v (term_of e.now) };
}

/// Whether a variable is among these.
pub fn contains(places: &[u8], v: u16) -> bool
    ensures { result ≡ is_in places.now v }
{
    for place in places {
        if v == u16::from(*place) {
            return true;
        }
    }
    false
}

/// Whether an expression over this many state variables names known ones and arguments alone.
pub fn is_known(states: u16, known: &[u8], e: &TypedExpr) -> bool
    ensures { result ≡ names_known states (is_in known.now) (term_of e.now) }
{
    match e {
        TypedExpr::Number(_) => true,
        TypedExpr::Slot(s) => *s >= states || contains(known, *s),
        TypedExpr::Not(inner) => is_known(states, known, inner.get()),
        TypedExpr::Binary(_, left, right) => is_known(states, known, left.get())
            && is_known(states, known, right.get()),
    }
}

// Whether the conditions around a block are known, where `free` says so of those around this one.
fn stays_known(states: u16, known: &[u8], free: bool, condition: &TypedExpr) -> bool
    ensures { result ≡ (free && names_known states (is_in known.now) (term_of condition.now)) }
{
    free && is_known(states, known, condition)
}

// Whether each assignment of a statement passes; `free` says that the conditions around it are known.
fn stmt_passes<C: Checks>(checks: &C, states: u16, known: &[u8], free: bool, s: &TypedStmt) -> bool
    ensures { result ≡ all_pass states (is_in known.now) (C.passes checks.now states (is_in known.now)) free
        (stmt_block s.now) }
{
    match s {
        TypedStmt::Assign(v, e) => free && checks.may_assign(states, known, *v, e),
        TypedStmt::If(c, a, b) => {
            let inside = stays_known(states, known, free, c);
            'then_block: for inner in a.as_slice() {
                if !stmt_passes(checks, states, known, inside, inner) {
                    return false;
                }
            }
            'else_block: for inner in b.as_slice() {
                if !stmt_passes(checks, states, known, inside, inner) {
                    return false;
                }
            }
            true
        }
    }
}

/// Whether each assignment of a fold passes, under conditions that are known, where the values of these variables are.
pub fn body_passes<C: Checks>(checks: &C, known: &[u8], f: &TypedFold) -> bool
    requires { IsValidFold f.now }
    ensures { result ≡ all_pass (fold_states f.now) (is_in known.now)
        (C.passes checks.now (fold_states f.now) (is_in known.now)) true (fold_block f.now) }
{
    let states = f.state_names.len() as u16;
    for s in f.body.as_slice() {
        if !stmt_passes(checks, states, known, true, s) {
            return false;
        }
    }
    true
}
