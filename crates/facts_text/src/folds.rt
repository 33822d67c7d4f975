//! Folds, with what spoils them.

use crate::read::{FoldCauses, ReadText};
use crate::values::{Members, name_list, name_value, push_made, put_span, word_value};
use crate::words::{algebra_word, class_word, form_word, op_word};
use fold_class::{Algebra, Operators, Role};
use marple_base::Seq;
use query_facts::{AcceptedFacts, FoldFacts};
use query_lang::{Class, Name, Names, Op, Token, TypedFold};
use query_places::{Cause, Rule, Spoilt, statement_at};
use serde_json::Value;
use std::alloc::{AllocError, Global};

// What the rule that fails is called, where products are those of an algebra.
fn rule_word(rule: Rule, algebra: Option<Algebra>) -> &'static str {
    match rule {
        Rule::Operator(op) if is_product(op, algebra) => "product",
        Rule::Operator(_) => "operator",
        Rule::Negation => "operator",
        Rule::Condition(_) => "condition",
        Rule::Assignment => "assignment",
    }
}

// Whether an operator is the algebra's product.
fn is_product(op: Op, algebra: Option<Algebra>) -> bool {
    match algebra {
        Some(algebra) => matches!(algebra.role_of(op), Role::Product),
        None => false,
    }
}

// The operator of a rule, as a query writes it.
fn operator_of(rule: Rule) -> Option<&'static str> {
    match rule {
        Rule::Operator(op) => Some(op_word(op)),
        Rule::Negation => Some("!"),
        Rule::Condition(_) => None,
        Rule::Assignment => None,
    }
}

// What the condition of a rule keeps.
fn kept_by(rule: Rule) -> Option<&'static str> {
    match rule {
        Rule::Condition(form) => form_word(form),
        _ => None,
    }
}

// Adds the rule that fails.
fn put_rule(
    alloc: Global,
    rule: Rule,
    algebra: Option<Algebra>,
    to: &mut Members,
) -> Result<(), AllocError> {
    to.put_text("rule", rule_word(rule, algebra))?;
    to.put_made("operator", word_value(alloc, operator_of(rule)))?;
    to.put_made("keeps", word_value(alloc, kept_by(rule)))
}

// The text of a name, or null.
fn maybe_name(alloc: Global, names: &Names, name: Option<Name>) -> Result<Value, AllocError> {
    match name {
        Some(name) => name_value(alloc, names, name.id),
        None => Ok(Value::Null),
    }
}

// The statement that a byte is in.
fn statement_value(alloc: Global, tokens: &[Token], at: u32) -> Result<Value, AllocError> {
    let mut members = Members::new(alloc);
    put_span(&mut members, statement_at(tokens, at))?;
    Ok(members.into_object())
}

// A cause, with the variable that it spoils, if it spoils one.
fn cause_value(
    alloc: Global,
    names: &Names,
    tokens: &[Token],
    variable: Option<Name>,
    cause: Cause,
    algebra: Option<Algebra>,
) -> Result<Value, AllocError> {
    let mut members = Members::new(alloc);
    members.put_made("variable", maybe_name(alloc, names, variable))?;
    members.put("start", Value::from(cause.start))?;
    members.put_made("statement", statement_value(alloc, tokens, cause.start))?;
    put_rule(alloc, cause.rule, algebra, &mut members)?;
    members.put_made("reads", maybe_name(alloc, names, cause.reads))?;
    Ok(members.into_object())
}

// The variables that are spoilt, each with its cause.
fn spoilt_value(
    alloc: Global,
    names: &Names,
    tokens: &[Token],
    all: &[Spoilt],
    algebra: Option<Algebra>,
) -> Result<Value, AllocError> {
    let mut list = Vec::new(alloc);
    for one in all {
        let variable = Some(one.variable);
        push_made(
            &mut list,
            cause_value(alloc, names, tokens, variable, one.cause, algebra),
        )?;
    }
    Ok(Value::Array(list))
}

// What keeps a fold from being additive.
fn adding_value(
    alloc: Global,
    names: &Names,
    tokens: &[Token],
    adding: Option<Cause>,
) -> Result<Value, AllocError> {
    match adding {
        Some(cause) => cause_value(alloc, names, tokens, None, cause, None),
        None => Ok(Value::Null),
    }
}

// Adds the causes of a fold.
fn put_causes(
    alloc: Global,
    names: &Names,
    tokens: &[Token],
    all: &FoldCauses,
    to: &mut Members,
) -> Result<(), AllocError> {
    let sums = all.sums.as_slice();
    to.put_made(
        "sums",
        spoilt_value(alloc, names, tokens, sums, Some(Algebra::Sums)),
    )?;
    let maxima = all.maxima.as_slice();
    to.put_made(
        "maxima",
        spoilt_value(alloc, names, tokens, maxima, Some(Algebra::Maxima)),
    )?;
    let order = all.order.as_slice();
    to.put_made("monotone", spoilt_value(alloc, names, tokens, order, None))?;
    to.put_made("additive", adding_value(alloc, names, tokens, all.adding))
}

// The causes of a fold, or null.
fn causes_value(
    alloc: Global,
    names: &Names,
    tokens: &[Token],
    causes: Option<&FoldCauses>,
) -> Result<Value, AllocError> {
    let Some(all) = causes else {
        return Ok(Value::Null);
    };
    let mut members = Members::new(alloc);
    put_causes(alloc, names, tokens, all, &mut members)?;
    Ok(members.into_object())
}

// The names of the variables with these numbers.
fn history_value(
    alloc: Global,
    names: &Names,
    f: &TypedFold,
    history: &[u8],
) -> Result<Value, AllocError> {
    let mut list = Vec::new(alloc);
    for v in history {
        if let Some(id) = f.state_names.as_slice().get(usize::from(*v)) {
            push_made(&mut list, name_value(alloc, names, *id))?;
        }
    }
    Ok(Value::Array(list))
}

// The algebra of a linear fold.
fn algebra_of(facts: &FoldFacts) -> Option<&'static str> {
    match facts.class {
        Class::Linear => Some(algebra_word(facts.algebra)),
        Class::Other => None,
    }
}

// The numbers that the state variables start with.
fn initial_value(alloc: Global, initial: &[u64]) -> Result<Value, AllocError> {
    let mut list = Vec::new(alloc);
    for n in initial {
        list.push(Value::from(*n))?;
    }
    Ok(Value::Array(list))
}

// Adds the names, states and arguments of a fold.
fn put_names(
    alloc: Global,
    names: &Names,
    f: &TypedFold,
    to: &mut Members,
) -> Result<(), AllocError> {
    to.put_made("name", name_value(alloc, names, f.name.id))?;
    to.put("start", Value::from(f.name.span.start))?;
    to.put_made("states", name_list(alloc, names, f.state_names.as_slice()))?;
    to.put_made("initial", initial_value(alloc, f.initial.as_slice()))?;
    to.put_made("arguments", name_list(alloc, names, f.arg_names.as_slice()))?;
    to.put("emits", Value::from(f.emit.is_some()))
}

// Adds the kinds that a fold is of.
fn put_kinds(alloc: Global, facts: &FoldFacts, to: &mut Members) -> Result<(), AllocError> {
    to.put_text("class", class_word(facts.class))?;
    to.put_made("algebra", word_value(alloc, algebra_of(facts)))?;
    to.put("depth", Value::from(facts.depth))?;
    to.put("additive", Value::from(facts.additive))?;
    to.put("monotone", Value::from(facts.monotone))
}

// A fold.
fn fold_value(
    alloc: Global,
    names: &Names,
    tokens: &[Token],
    f: &TypedFold,
    facts: &FoldFacts,
    causes: Option<&FoldCauses>,
) -> Result<Value, AllocError> {
    let mut members = Members::new(alloc);
    put_names(alloc, names, f, &mut members)?;
    put_kinds(alloc, facts, &mut members)?;
    let history = history_value(alloc, names, f, facts.history.as_slice());
    members.put_made("history", history)?;
    members.put_made("spoilt", causes_value(alloc, names, tokens, causes))?;
    Ok(members.into_object())
}

// The tokens of a text that is read; none of another.
fn tokens_of(text: &Option<ReadText>) -> &[Token] {
    match text {
        Some(read) => read.tokens.as_slice(),
        None => &[],
    }
}

/// The folds of an accepted query.
pub(crate) fn folds_value(
    alloc: Global,
    text: &Option<ReadText>,
    facts: &AcceptedFacts,
    causes: &[FoldCauses],
) -> Result<Value, AllocError> {
    let mut list = Vec::new(alloc);
    let typed = &facts.typed;
    let tokens = tokens_of(text);
    for (f, one) in typed
        .folds
        .as_slice()
        .iter()
        .zip(facts.folds.as_slice().iter())
    {
        let own = causes.get(list.len());
        push_made(
            &mut list,
            fold_value(alloc, &typed.names, tokens, f, one, own),
        )?;
    }
    Ok(Value::Array(list))
}
