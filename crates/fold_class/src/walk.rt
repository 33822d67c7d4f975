//! The walk over a fold's statements with the kinds of its variables.

ghost use Rattle.std.specs.Prelude.{◌≡◌, ℕ, ◌<◌, ◌≤◌, length};
ghost use Rattle.query_lang.specs.{Terms.term_of, Blocks.{stmt_block, block_of}};
ghost use Rattle.fold_class.specs.{Kinds.{greater, product_kind, outside_kind, role_kind, expr_kind, marked, kinds_after}, Tables.update};
ghost use Rattle.fold_class.specs.Walk.{kinds_in, AssignsBelow};

use crate::class::{Kind, Role};
use crate::operators::Operators;
use query_lang::{MAX_STATES, TypedExpr, TypedStmt};

// The greater kind.
fn greater_of(left: Kind, right: Kind) -> Kind
    ensures { result ≡ greater left right }
{
    match left {
        Kind::Pure => right,
        Kind::Affine => match right {
            Kind::Other => Kind::Other,
            _ => Kind::Affine,
        },
        Kind::Other => Kind::Other,
    }
}

// The kind of the result of an operator with this role, by the kinds of its operands.
fn combined(role: Role, left: Kind, right: Kind) -> Kind
    ensures { result ≡ role_kind role left right }
{
    match role {
        Role::Sum | Role::Difference => greater_of(left, right),
        Role::Product => match left {
            Kind::Pure => right,
            Kind::Affine => match right {
                Kind::Pure => Kind::Affine,
                _ => Kind::Other,
            },
            Kind::Other => Kind::Other,
        },
        Role::Outside => match left {
            Kind::Pure => match right {
                Kind::Pure => Kind::Pure,
                _ => Kind::Other,
            },
            _ => Kind::Other,
        },
    }
}

// The kind of an expression.
fn kind_of<O: Operators>(operators: &O, kinds: &[Kind], e: &TypedExpr) -> Kind
    ensures { result ≡ expr_kind (O.roles operators.now) (term_of e.now) (kinds_in kinds.now) }
{
    match e {
        TypedExpr::Number(_) => Kind::Pure,
        TypedExpr::Slot(s) => {
            if (*s as usize) < kinds.len() {
                kinds[*s as usize]
            } else {
                Kind::Pure
            }
        }
        TypedExpr::Not(inner) => combined(
            Role::Outside,
            Kind::Pure,
            kind_of(operators, kinds, inner.get()),
        ),
        TypedExpr::Binary(op, left, right) => {
            let first = kind_of(operators, kinds, left.get());
            let second = kind_of(operators, kinds, right.get());
            combined(operators.role_of(*op), first, second)
        }
    }
}

// Changes the kind of one variable.
#[tactic(auto, using(crate::proofs::WalkLemmas::set_kind))]
fn set_kind(kinds: &mut [Kind], v: u16, kind: Kind)
    requires { v < length kinds.old }
    ensures { kinds_in kinds.new ≡ update (kinds_in kinds.old) v kind }
{
    kinds[v as usize] = kind;
}

// For each variable the greater of its kinds in two tables.
fn join(kinds: &mut [Kind], others: &[Kind])
    requires { length kinds.old ≡ length others.now }
    ensures { kinds_in kinds.new ≡ (λ (v : ℕ). greater (kinds_in kinds.old v) (kinds_in others.now v)) }
{
    for (v, other) in others.iter().enumerate() {
        kinds[v] = greater_of(kinds[v], *other);
    }
}

// Each variable that a statement assigns becomes Other.
fn mark_stmt(kinds: &mut [Kind], s: &TypedStmt)
    requires { AssignsBelow (length kinds.old) (stmt_block s.now) }
    ensures { kinds_in kinds.new ≡ marked (stmt_block s.now) (kinds_in kinds.old) }
{
    match s {
        TypedStmt::Assign(v, _) => set_kind(kinds, *v, Kind::Other),
        TypedStmt::If(_, a, b) => {
            'then_block: for inner in a.as_slice() {
                mark_stmt(kinds, inner);
            }
            'else_block: for inner in b.as_slice() {
                mark_stmt(kinds, inner);
            }
        }
    }
}

// A copy of a table of kinds.
fn copied(kinds: &[Kind]) -> [Kind; MAX_STATES]
    requires { length kinds.now ≡ MAX_STATES }
    ensures { result ≡ kinds.now }
{
    let mut copy = [Kind::Pure; MAX_STATES];
    copy.copy_from_slice(kinds);
    copy
}

// The kinds after a statement.
fn walk_stmt<O: Operators>(operators: &O, kinds: &mut [Kind], s: &TypedStmt)
    requires size { length kinds.old ≡ MAX_STATES }
    requires below { AssignsBelow MAX_STATES (stmt_block s.now) }
    ensures { kinds_in kinds.new ≡ kinds_after (O.roles operators.now) (stmt_block s.now) (kinds_in kinds.old) }
{
    match s {
        TypedStmt::Assign(v, e) => {
            let kind = kind_of(operators, kinds, e);
            set_kind(kinds, *v, kind);
        }
        TypedStmt::If(c, a, b) => match kind_of(operators, kinds, c) {
            Kind::Pure => {
                let mut others = copied(kinds);
                'then_block: for inner in a.as_slice() {
                    walk_stmt(operators, kinds, inner);
                }
                'else_block: for inner in b.as_slice() {
                    walk_stmt(operators, &mut others, inner);
                }
                join(kinds, &others);
            }
            _ => mark_stmt(kinds, s),
        },
    }
}

/// The kinds after statements.
pub(crate) fn walk_block<O: Operators>(operators: &O, kinds: &mut [Kind], block: &[TypedStmt])
    requires size { length kinds.old ≡ MAX_STATES }
    requires below { AssignsBelow MAX_STATES (block_of block.now) }
    ensures { kinds_in kinds.new ≡ kinds_after (O.roles operators.now) (block_of block.now) (kinds_in kinds.old) }
{
    for s in block {
        walk_stmt(operators, kinds, s);
    }
}
