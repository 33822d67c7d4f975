//! Whether all groupbys of a query have bounds.

ghost use Rattle.std.specs.Prelude.{◌≡◌, ◌<◌, All, Some, option_map, slice_get};
ghost use Rattle.query_lang.specs.{declared.fold.TypedFold.{TypedFold as AnyFold}, Folds.IsValidFold, Streams.taking_of};
ghost use Rattle.query_lang.specs.TypedQueries.{IsValidQuery};
ghost use Rattle.fold_class.specs.Kinds.{class_of};
ghost use Rattle.stage_plan.specs.Planned.{IsPlanOf};
ghost use Rattle.enclosure_folds.specs.Check.{enclose_fault, fold_fault, is_bounded};

use crate::is_monotone;
use marple_base::Seq;
use query_lang::{Class, FaultKind, Name, QueryFault, TypedFold, TypedOp, TypedQuery};
use stage_plan::Plan;

// Whether a fold of this class has its value or bounds.
fn is_bounded(class: Class, f: &TypedFold) -> bool
    requires { IsValidFold f.now }
    ensures { result ≡ is_bounded class f.now }
{
    match class {
        Class::Linear => true,
        Class::Other => is_monotone(f),
    }
}

// The number of a groupby's fold.
fn fold_number(op: &TypedOp) -> Option<u16>
    ensures { result ≡ option_map (λ t. t.fold_number) (taking_of op.now) }
{
    match op {
        TypedOp::Group(_, _, number, _) => Some(*number),
        _ => None,
    }
}

// The fault of a groupby with this name, where the fold with this number has this class.
fn fold_fault(folds: &Seq<TypedFold>, name: Name, number: u16, class: Class) -> Option<QueryFault>
    requires valid { All IsValidFold folds.now }
    requires class { (f : AnyFold) → slice_get folds.now number ≡ Some f → class ≡ class_of f }
    ensures { result ≡ fold_fault name (slice_get folds.now number) }
{
    let number = usize::from(number);
    if number >= folds.len() {
        return None;
    }
    if is_bounded(class, folds.get(number)) {
        return None;
    }
    Some(QueryFault {
        kind: FaultKind::NotMonotone,
        span: name.span,
    })
}

/// The fault of a query that has no bounds, by its plan: it is at the name of the first groupby whose fold is neither
/// linear nor monotone. It takes no memory.
pub fn enclose_check(q: &TypedQuery, p: &Plan) -> Option<QueryFault>
    requires valid { IsValidQuery q.now }
    requires plan { IsPlanOf q.now p.now }
    ensures { result ≡ enclose_fault q.now }
{
    let mut group = 0;
    for one in q.streams.as_slice() {
        if let Some(number) = fold_number(&one.op) {
            let class = p.group(group).program.class;
            let fault = fold_fault(&q.folds, one.name, number, class);
            if fault.is_some() {
                return fault;
            }
            group += 1;
        }
    }
    None
}
