//! What is asked of an argument beside its kinds.

ghost use Rattle.std.specs.Prelude.{◌≡◌, ◌-◌, ◌&&◌, IfOk, OnOk, length, take};
ghost use Rattle.cb_forms.specs.Kinds.{is_positive};
ghost use Rattle.cb_judge.specs.Judged.{literal_of};
ghost use Rattle.cb_lex.specs.RawTermTree as raw;
ghost use Rattle.cb_arguments.specs.Arguments as spec;

use crate::scope::{Symbols, copy_name, typing};
use cb_lex::Memory;
use cb_lex::raw::name::RawName;
use cb_lex::raw::sign::{RawAtom, RawOperator};
use cb_lex::raw::term::{RawFormula, RawFormulaNode, RawTerm, RawTermNode};
use cb_term::name::Names;
use std::alloc::Global;

// Whether the term is a positive literal.
fn is_positive_literal(term: &RawTerm) -> bool
    ensures { result ≡ is_positive (literal_of term.now) }
{
    match &term.node {
        RawTermNode::Number { value, .. } => *value > 0,
        RawTermNode::Atom {
            atom: RawAtom::MaxInt,
            ..
        } => true,
        _ => false,
    }
}

fn may_divide(operator: RawOperator, right: &RawTerm) -> bool
    ensures { result ≡ spec.may_divide operator (literal_of right.now) }
{
    match operator {
        RawOperator::Divide | RawOperator::Mod => is_positive_literal(right),
        _ => true,
    }
}

/// Adds the name of a quantifier.
pub fn enter(alloc: Global, bound: &mut Names, name: &RawName) -> Result<(), Memory>
    ensures { OnOk result (bound.new ≡ spec.under bound.old name.now) }
{
    bound.push(copy_name(alloc, name)?)?;
    Ok(())
}

/// Takes the name of the innermost quantifier away.
pub fn leave(bound: &mut Names)
    ensures { bound.new ≡ take (length bound.old - 1) bound.old }
{
    let _name = bound.pop();
}

/// Whether each quantifier in the term has a typing conjunct, and each divisor is a positive literal. The bound names end as they
/// began.
#[cycle(clear)]
pub fn term_is_clear(
    alloc: Global,
    symbols: &Symbols,
    bound: &mut Names,
    term: &RawTerm,
) -> Result<bool, Memory>
    ensures clear { IfOk result (λ b. b ≡ spec.term_is_clear symbols.now bound.old term.now) }
    ensures kept { OnOk result (bound.new ≡ bound.old) }
{
    match &term.node {
        RawTermNode::Number { .. } | RawTermNode::Name(_) | RawTermNode::Atom { .. } => Ok(true),
        RawTermNode::Binary {
            operator,
            left,
            right,
            ..
        } => binary_is_clear(alloc, symbols, bound, *operator, left, right),
        RawTermNode::Minus { term: operand, .. } => term_is_clear(alloc, symbols, bound, operand),
        RawTermNode::Card { term: operand, .. } => term_is_clear(alloc, symbols, bound, operand),
        RawTermNode::TruthOf { formula, .. } => is_clear(alloc, symbols, bound, formula),
        RawTermNode::Listed { terms, .. } => all_are_clear(alloc, symbols, bound, terms.as_slice()),
    }
}

#[cycle(clear)]
fn terms_are_clear(
    alloc: Global,
    symbols: &Symbols,
    bound: &mut Names,
    left: &RawTerm,
    right: &RawTerm,
) -> Result<bool, Memory>
    ensures clear { IfOk result (λ b. b ≡ (spec.term_is_clear symbols.now bound.old left.now && spec.term_is_clear symbols.now bound.old right.now)) }
    ensures kept { OnOk result (bound.new ≡ bound.old) }
{
    let a = term_is_clear(alloc, symbols, bound, left)?;
    let b = term_is_clear(alloc, symbols, bound, right)?;
    Ok(a && b)
}

#[cycle(clear)]
fn binary_is_clear(
    alloc: Global,
    symbols: &Symbols,
    bound: &mut Names,
    operator: RawOperator,
    left: &RawTerm,
    right: &RawTerm,
) -> Result<bool, Memory>
    ensures clear { IfOk result (λ b. b ≡ (spec.may_divide operator (literal_of right.now) && spec.term_is_clear symbols.now bound.old left.now && spec.term_is_clear symbols.now bound.old right.now)) }
    ensures kept { OnOk result (bound.new ≡ bound.old) }
{
    let own = may_divide(operator, right);
    let both = terms_are_clear(alloc, symbols, bound, left, right)?;
    Ok(own && both)
}

#[cycle(clear)]
fn all_are_clear(
    alloc: Global,
    symbols: &Symbols,
    bound: &mut Names,
    terms: &[RawTerm],
) -> Result<bool, Memory>
    ensures clear { IfOk result (λ b. b ≡ spec.all_are_clear symbols.now bound.old (raw.raw_terms terms.now)) }
    ensures kept { OnOk result (bound.new ≡ bound.old) }
{
    let mut all = true;
    for item in terms {
        let own = term_is_clear(alloc, symbols, bound, item)?;
        all = all && own;
    }
    Ok(all)
}

/// Whether each quantifier in the formula has a typing conjunct, and each divisor is a positive literal. The bound names end as
/// they began.
#[cycle(clear)]
pub fn is_clear(
    alloc: Global,
    symbols: &Symbols,
    bound: &mut Names,
    formula: &RawFormula,
) -> Result<bool, Memory>
    ensures clear { IfOk result (λ b. b ≡ spec.is_clear symbols.now bound.old formula.now) }
    ensures kept { OnOk result (bound.new ≡ bound.old) }
{
    match &formula.node {
        RawFormulaNode::True | RawFormulaNode::False => Ok(true),
        RawFormulaNode::Not(operand) => is_clear(alloc, symbols, bound, operand),
        RawFormulaNode::And(left, right)
        | RawFormulaNode::Or(left, right)
        | RawFormulaNode::Implies(left, right)
        | RawFormulaNode::Equivalent(left, right) => both_are_clear(
            alloc, symbols, bound, left, right,
        ),
        RawFormulaNode::Relation { left, right, .. } => terms_are_clear(
            alloc, symbols, bound, left, right,
        ),
        RawFormulaNode::Every { name, domain, body } => every_is_clear(
            alloc, symbols, bound, name, domain, body,
        ),
        RawFormulaNode::Exists { name, body } => exists_is_clear(alloc, symbols, bound, name, body),
    }
}

#[cycle(clear)]
fn both_are_clear(
    alloc: Global,
    symbols: &Symbols,
    bound: &mut Names,
    left: &RawFormula,
    right: &RawFormula,
) -> Result<bool, Memory>
    ensures clear { IfOk result (λ b. b ≡ (spec.is_clear symbols.now bound.old left.now && spec.is_clear symbols.now bound.old right.now)) }
    ensures kept { OnOk result (bound.new ≡ bound.old) }
{
    let f = is_clear(alloc, symbols, bound, left)?;
    let g = is_clear(alloc, symbols, bound, right)?;
    Ok(f && g)
}

// `!name.(domain => body)`
#[cycle(clear)]
fn every_is_clear(
    alloc: Global,
    symbols: &Symbols,
    bound: &mut Names,
    name: &RawName,
    domain: &RawFormula,
    body: &RawFormula,
) -> Result<bool, Memory>
    ensures clear { IfOk result (λ b. b ≡ spec.is_clear symbols.now bound.old (raw.Every name.now domain.now body.now)) }
    ensures kept { OnOk result (bound.new ≡ bound.old) }
{
    enter(alloc, bound, name)?;
    let has_kind = typing(symbols, bound.as_slice(), name, domain).is_some();
    let inside = both_are_clear(alloc, symbols, bound, domain, body)?;
    leave(bound);
    Ok(has_kind && inside)
}

// `#name.(body)`
#[cycle(clear)]
fn exists_is_clear(
    alloc: Global,
    symbols: &Symbols,
    bound: &mut Names,
    name: &RawName,
    body: &RawFormula,
) -> Result<bool, Memory>
    ensures clear { IfOk result (λ b. b ≡ spec.is_clear symbols.now bound.old (raw.Exists name.now body.now)) }
    ensures kept { OnOk result (bound.new ≡ bound.old) }
{
    enter(alloc, bound, name)?;
    let has_kind = typing(symbols, bound.as_slice(), name, body).is_some();
    let inside = is_clear(alloc, symbols, bound, body)?;
    leave(bound);
    Ok(has_kind && inside)
}
