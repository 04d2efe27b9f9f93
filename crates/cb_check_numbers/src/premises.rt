//! The premises of the rules on numbers and on evaluation. Of a sequent a rule copies only the formulas and terms that it names.

ghost use Rattle.std.specs.Prelude.{◌≡◌, IfOk, [], ◌∷◌};
ghost use Rattle.std.specs.Option.{option_copied};
ghost use Rattle.cb_term.specs.Table.{sizes_of};
ghost use Rattle.cb_term.specs.Tree as tree;
ghost use Rattle.cb_seq.specs.Premises.{claim_at, proving, adding};
ghost use Rattle.cb_eval.specs.ClosedTruth as eval;
ghost use Rattle.cb_check_numbers.specs.NumberRules as spec;

use crate::linear::{is_integer, linear_sum};
use cb_eval::closed::closed_truth;
use cb_seq::kinds::kind_of;
use cb_seq::premise::{Premise, Premises, SequentRef, hypothesis};
use cb_seq::rule::{Rule, TermArgument};
use cb_term::Memory;
use cb_term::kind::Kind;
use cb_term::sign::{RelSign, TermSign};
use cb_term::table::SetTable;
use cb_term::tree::{Formula, FormulaNode, Term, TermNode};
use sqlite_items::Items;
use std::alloc::Global;

// The relation between copies of the terms.
fn relation(alloc: Global, sign: RelSign, left: &Term, right: &Term) -> Result<Formula, Memory>
    ensures { IfOk result (λ f. f ≡ tree.Rel sign left.now right.now) }
{
    Ok(Formula::rel(sign, left.copy(alloc)?, right.copy(alloc)?))
}

// What the sign makes of copies of the terms.
fn compound(alloc: Global, sign: TermSign, left: &Term, right: &Term) -> Result<Term, Memory>
    ensures { IfOk result (λ t. t ≡ tree.Bin sign left.now right.now) }
{
    Term::bin(alloc, sign, left.copy(alloc)?, right.copy(alloc)?)
}

// The premise with another goal.
fn shows(alloc: Global, sign: RelSign, left: &Term, right: &Term) -> Result<Premise, Memory>
    ensures { IfOk result (λ p. p ≡ proving (tree.Rel sign left.now right.now)) }
{
    let goal = relation(alloc, sign, left, right)?;
    Ok(Premise::proving(alloc, goal))
}

// The premise with a further hypothesis.
fn adds(alloc: Global, sign: RelSign, left: &Term, right: &Term) -> Result<Premise, Memory>
    ensures { IfOk result (λ p. p ≡ adding (tree.Rel sign left.now right.now ∷ [])) }
{
    let mut facts = Items::new(alloc);
    facts.push(relation(alloc, sign, left, right)?)?;
    Ok(Premise::adding(facts))
}

// ---- evaluation

// EVAL
fn evaluated(alloc: Global, sets: &SetTable, goal: &Formula) -> Result<Option<Premises>, Memory>
    ensures { IfOk result (λ o. o ≡ spec.evaluated (eval.closed_truth (sizes_of sets.now) goal.now)) }
{
    match closed_truth(alloc, sets, goal)? {
        Some(true) => Ok(Some(Items::new(alloc))),
        _ => Ok(None),
    }
}

// EVALNOT
fn evaluated_not(
    alloc: Global,
    sets: &SetTable,
    fact: Option<&Formula>,
) -> Result<Option<Premises>, Memory>
    ensures { IfOk result (λ o. o ≡ spec.evaluated_not (sizes_of sets.now) (option_copied fact.entry)) }
{
    let Some(fact) = fact else {
        return Ok(None);
    };
    match closed_truth(alloc, sets, fact)? {
        Some(false) => Ok(Some(Items::new(alloc))),
        _ => Ok(None),
    }
}

// ---- order

// SPLIT
fn split(
    alloc: Global,
    left: &TermArgument,
    right: &TermArgument,
) -> Result<Option<Premises>, Memory>
    ensures { IfOk result (λ o. o ≡ spec.split left.now right.now) }
{
    match (left, right) {
        (
            TermArgument::Term {
                term: left,
                kind: Kind::Integer,
            },
            TermArgument::Term {
                term: right,
                kind: Kind::Integer,
            },
        ) => {
            let mut premises = Items::new(alloc);
            premises.push(adds(alloc, RelSign::Less, left, right)?)?;
            premises.push(adds(alloc, RelSign::Equal, left, right)?)?;
            premises.push(adds(alloc, RelSign::Less, right, left)?)?;
            Ok(Some(premises))
        }
        _ => Ok(None),
    }
}

// EQLE
fn equal_at_most(
    alloc: Global,
    sets: &SetTable,
    sequent: &SequentRef,
) -> Result<Option<Premises>, Memory>
    ensures { IfOk result (λ o. o ≡ spec.equal_at_most (sizes_of sets.now) sequent.now.names.now sequent.now.goal.now) }
{
    let goal = sequent.goal;
    match &goal.node {
        FormulaNode::Rel {
            sign: RelSign::Equal,
            left,
            right,
        } => {
            if is_integer(kind_of(alloc, sets, sequent.names, &[], left)?) {
                let mut premises = Items::new(alloc);
                premises.push(shows(alloc, RelSign::AtMost, left, right)?)?;
                premises.push(shows(alloc, RelSign::AtMost, right, left)?)?;
                Ok(Some(premises))
            } else {
                Ok(None)
            }
        }
        _ => Ok(None),
    }
}

// RNG
fn range_right(alloc: Global, goal: &Formula) -> Result<Option<Premises>, Memory>
    ensures { IfOk result (λ o. o ≡ spec.range_right goal.now) }
{
    let FormulaNode::Rel {
        sign: RelSign::Member,
        left: item,
        right: set,
    } = &goal.node
    else {
        return Ok(None);
    };
    match &set.node {
        TermNode::Bin {
            sign: TermSign::Range,
            left,
            right,
        } => {
            let mut premises = Items::new(alloc);
            premises.push(shows(alloc, RelSign::AtMost, left, item)?)?;
            premises.push(shows(alloc, RelSign::AtMost, item, right)?)?;
            Ok(Some(premises))
        }
        _ => Ok(None),
    }
}

// RNGL
fn range_left(alloc: Global, fact: Option<&Formula>) -> Result<Option<Premises>, Memory>
    ensures { IfOk result (λ o. o ≡ spec.range_left (option_copied fact.entry)) }
{
    let Some(fact) = fact else {
        return Ok(None);
    };
    let FormulaNode::Rel {
        sign: RelSign::Member,
        left: item,
        right: set,
    } = &fact.node
    else {
        return Ok(None);
    };
    match &set.node {
        TermNode::Bin {
            sign: TermSign::Range,
            left,
            right,
        } => {
            let mut facts = Items::new(alloc);
            facts.push(relation(alloc, RelSign::AtMost, left, item)?)?;
            facts.push(relation(alloc, RelSign::AtMost, item, right)?)?;
            let mut premises = Items::new(alloc);
            premises.push(Premise::adding(facts))?;
            Ok(Some(premises))
        }
        _ => Ok(None),
    }
}

// ---- products and quotients

// What is known of the quotient and the rest of the term by a positive divisor.
fn quotient_facts(alloc: Global, term: &Term, divisor: &Term) -> Result<Items<Formula>, Memory>
    ensures { IfOk result (λ fs. fs ≡ spec.quotient_facts term.now divisor.now) }
{
    let quotient = compound(alloc, TermSign::Div, term, divisor)?;
    let rest = compound(alloc, TermSign::Mod, term, divisor)?;
    let product = Term::bin(alloc, TermSign::Mul, divisor.copy(alloc)?, quotient)?;
    let sum = Term::bin(alloc, TermSign::Add, product, rest.copy(alloc)?)?;
    let mut facts = Items::new(alloc);
    facts.push(Formula::rel(RelSign::Equal, term.copy(alloc)?, sum))?;
    facts.push(relation(alloc, RelSign::AtMost, &Term::num(0), &rest)?)?;
    facts.push(relation(alloc, RelSign::Less, &rest, divisor)?)?;
    Ok(facts)
}

// DIVMOD
fn div_mod(alloc: Global, argument: &TermArgument, divisor: i64) -> Result<Option<Premises>, Memory>
    ensures { IfOk result (λ o. o ≡ spec.div_mod argument.now divisor) }
{
    match argument {
        TermArgument::Term {
            term,
            kind: Kind::Integer,
        } => {
            if 0 < divisor {
                let facts = quotient_facts(alloc, term, &Term::num(divisor))?;
                let mut premises = Items::new(alloc);
                premises.push(Premise::adding(facts))?;
                Ok(Some(premises))
            } else {
                Ok(None)
            }
        }
        _ => Ok(None),
    }
}

// MULSIGN
fn mul_sign(
    alloc: Global,
    left: &TermArgument,
    right: &TermArgument,
) -> Result<Option<Premises>, Memory>
    ensures { IfOk result (λ o. o ≡ spec.mul_sign left.now right.now) }
{
    match (left, right) {
        (
            TermArgument::Term {
                term: left,
                kind: Kind::Integer,
            },
            TermArgument::Term {
                term: right,
                kind: Kind::Integer,
            },
        ) => {
            let zero = Term::num(0);
            let product = compound(alloc, TermSign::Mul, left, right)?;
            let mut premises = Items::new(alloc);
            premises.push(shows(alloc, RelSign::AtMost, &zero, left)?)?;
            premises.push(shows(alloc, RelSign::AtMost, &zero, right)?)?;
            premises.push(adds(alloc, RelSign::AtMost, &zero, &product)?)?;
            Ok(Some(premises))
        }
        _ => Ok(None),
    }
}

/// The premises of a rule on numbers or on evaluation, where it applies and its arguments have the kinds that are written with
/// them. None for every other rule.
pub fn number_premises(
    alloc: Global,
    sets: &SetTable,
    sequent: &SequentRef,
    rule: &Rule,
) -> Result<Option<Premises>, Memory>
    ensures { IfOk result (λ o. o ≡ spec.number_premises (sizes_of sets.now) rule.now (claim_at sequent.now)) }
{
    match rule {
        Rule::Eval => evaluated(alloc, sets, sequent.goal),
        Rule::EvalNot { hypothesis: number } => {
            evaluated_not(alloc, sets, hypothesis(sequent.hypotheses, *number))
        }
        Rule::Lin { rows } => linear_sum(alloc, sets, sequent, rows.as_slice()),
        Rule::Split { left, right } => split(alloc, left, right),
        Rule::EqLe => equal_at_most(alloc, sets, sequent),
        Rule::Rng => range_right(alloc, sequent.goal),
        Rule::RngL { hypothesis: number } => {
            range_left(alloc, hypothesis(sequent.hypotheses, *number))
        }
        Rule::DivMod { term, divisor } => div_mod(alloc, term, *divisor),
        Rule::MulSign { left, right } => mul_sign(alloc, left, right),
        _ => Ok(None),
    }
}
