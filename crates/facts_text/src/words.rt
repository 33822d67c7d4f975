//! The words for what is one of a few.

use fold_class::Algebra;
use query_facts::Unsplit;
use query_lang::{
    Class, FaultKind, Limit, MAX_ARGS, MAX_BINDINGS, MAX_GROUPBYS, MAX_KEYS, MAX_NESTING,
    MAX_NODES, MAX_QUERY, MAX_STAGES, MAX_STATEMENTS, MAX_STATES, Op,
};
use query_places::{Form, Place};

pub(crate) fn fault_word(kind: FaultKind) -> &'static str {
    match kind {
        FaultKind::QueryTooLong => "QueryTooLong",
        FaultKind::BadByte => "BadByte",
        FaultKind::UnexpectedToken => "UnexpectedToken",
        FaultKind::NumberTooLarge => "NumberTooLarge",
        FaultKind::UnknownName => "UnknownName",
        FaultKind::NameTaken => "NameTaken",
        FaultKind::WrongKind => "WrongKind",
        FaultKind::WrongArity => "WrongArity",
        FaultKind::BadConstant => "BadConstant",
        FaultKind::StateOnLine => "StateOnLine",
        FaultKind::OverLimit(_) => "OverLimit",
        FaultKind::NothingPrinted => "NothingPrinted",
        FaultKind::NotAdditive => "NotAdditive",
        FaultKind::NotMonotone => "NotMonotone",
        FaultKind::FinalInPlan => "FinalInPlan",
        FaultKind::BadPlan => "BadPlan",
    }
}

fn limit_word(limit: Limit) -> &'static str {
    match limit {
        Limit::Groupbys => "groupbys",
        Limit::Keys => "keys",
        Limit::States => "states",
        Limit::Args => "args",
        Limit::Statements => "statements",
        Limit::Nodes => "nodes",
        Limit::Bindings => "bindings",
        Limit::Nesting => "nesting",
        Limit::Stages => "stages",
    }
}

/// The limit that a fault is of.
pub(crate) fn limit_of(kind: FaultKind) -> Option<&'static str> {
    match kind {
        FaultKind::OverLimit(limit) => Some(limit_word(limit)),
        _ => None,
    }
}

// How many there may be.
fn allowed(limit: Limit) -> u32 {
    match limit {
        Limit::Groupbys => MAX_GROUPBYS as u32,
        Limit::Keys => MAX_KEYS as u32,
        Limit::States => MAX_STATES as u32,
        Limit::Args => MAX_ARGS as u32,
        Limit::Statements => MAX_STATEMENTS,
        Limit::Nodes => MAX_NODES,
        Limit::Bindings => MAX_BINDINGS as u32,
        Limit::Nesting => MAX_NESTING,
        Limit::Stages => MAX_STAGES,
    }
}

/// The most that the limit of a fault allows.
pub(crate) fn most_of(kind: FaultKind) -> Option<u32> {
    match kind {
        FaultKind::QueryTooLong => Some(MAX_QUERY as u32),
        FaultKind::OverLimit(limit) => Some(allowed(limit)),
        _ => None,
    }
}

pub(crate) fn class_word(class: Class) -> &'static str {
    match class {
        Class::Linear => "linear",
        Class::Other => "other",
    }
}

pub(crate) fn algebra_word(algebra: Algebra) -> &'static str {
    match algebra {
        Algebra::Sums => "sums",
        Algebra::Maxima => "maxima",
    }
}

pub(crate) fn place_word(place: Place) -> &'static str {
    match place {
        Place::Name => "name",
        Place::Input => "input",
        Place::SecondInput => "second input",
        Place::Key => "key",
        Place::Fold => "fold",
        Place::Best => "best",
        Place::Column => "column",
        Place::Printed => "printed",
        Place::Variable => "variable",
        Place::Target => "target",
        Place::Emit => "emit",
        Place::Shift => "shift",
        Place::Expression => "expression",
        Place::Number => "number",
    }
}

/// What a condition keeps.
pub(crate) fn form_word(form: Form) -> Option<&'static str> {
    match form {
        Form::Plain => None,
        Form::Greatest => Some("greatest"),
        Form::Least => Some("least"),
    }
}

pub(crate) fn unsplit_word(why: Unsplit) -> &'static str {
    match why {
        Unsplit::FinalGroupby => "final groupby",
        Unsplit::FinalOfTop => "final of top",
        Unsplit::NotAdditive => "not additive",
        Unsplit::FinalOfSums => "final of sums",
    }
}

/// An operator or a function as a query writes it.
pub(crate) fn op_word(op: Op) -> &'static str {
    match op {
        Op::Mul => "*",
        Op::Div => "/",
        Op::Rem => "%",
        Op::Add => "+",
        Op::Sub => "-",
        Op::Shl => "<<",
        Op::Shr => ">>",
        Op::And => "&",
        Op::Xor => "^",
        Op::Or => "|",
        Op::Eq => "==",
        Op::Ne => "!=",
        Op::Lt => "<",
        Op::Le => "<=",
        Op::Gt => ">",
        Op::Ge => ">=",
        Op::Both => "&&",
        Op::Either => "||",
        Op::Max => "max",
        Op::Min => "min",
        Op::Sadd => "sadd",
        Op::Decay => "decay",
    }
}
