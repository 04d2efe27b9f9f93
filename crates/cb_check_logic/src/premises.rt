//! The premises of the rules on connectives and booleans. Of a sequent a rule copies only the formulas and terms that it names.

ghost use Rattle.std.specs.Prelude.{◌≡◌, IfOk, Some, [], ◌∷◌};
ghost use Rattle.std.specs.Option.{option_copied};
ghost use Rattle.cb_term.specs.Table.{sizes_of};
ghost use Rattle.cb_seq.specs.Premises as premises;
ghost use Rattle.cb_seq.specs.Premises.{claim_at};
ghost use Rattle.cb_check_logic.specs.LogicRules as spec;

use cb_seq::premise::{Premise, Premises, SequentRef, hypothesis};
use cb_seq::rule::{FormulaArgument, Rule, TermArgument};
use cb_term::Memory;
use cb_term::equal::{equal, equal_terms};
use cb_term::kind::Kind;
use cb_term::sign::RelSign;
use cb_term::table::SetTable;
use cb_term::tree::{Formula, FormulaNode, Term, TermNode};
use sqlite_items::Items;
use std::alloc::Global;

// One premise.
fn one(alloc: Global, premise: Premise) -> Result<Option<Premises>, Memory>
    ensures { IfOk result (λ o. o ≡ Some (premise ∷ [])) }
{
    let mut premises = Items::new(alloc);
    premises.push(premise)?;
    Ok(Some(premises))
}

// Two premises.
fn two(alloc: Global, first: Premise, second: Premise) -> Result<Option<Premises>, Memory>
    ensures { IfOk result (λ o. o ≡ Some (first ∷ second ∷ [])) }
{
    let mut premises = Items::new(alloc);
    premises.push(first)?;
    premises.push(second)?;
    Ok(Some(premises))
}

// No premise, where the rule applies.
fn none_where(alloc: Global, applies: bool) -> Option<Premises>
    ensures { result ≡ premises.only_where applies [] }
{
    if applies {
        Some(Items::new(alloc))
    } else {
        None
    }
}

// The premise with this goal.
fn proving(alloc: Global, goal: &Formula) -> Result<Premise, Memory>
    ensures { IfOk result (λ p. p ≡ premises.proving goal.now) }
{
    Ok(Premise::proving(alloc, goal.copy(alloc)?))
}

// The premise with this further hypothesis.
fn with(alloc: Global, fact: Formula) -> Result<Premise, Memory>
    ensures { IfOk result (λ p. p ≡ premises.adding (fact ∷ [])) }
{
    let mut facts = Items::new(alloc);
    facts.push(fact)?;
    Ok(Premise::adding(facts))
}

// The premise with a copy of this as a further hypothesis.
fn adding(alloc: Global, fact: &Formula) -> Result<Premise, Memory>
    ensures { IfOk result (λ p. p ≡ premises.adding (fact.now ∷ [])) }
{
    with(alloc, fact.copy(alloc)?)
}

// The premise with these two further hypotheses.
fn with_both(alloc: Global, first: Formula, second: Formula) -> Result<Premise, Memory>
    ensures { IfOk result (λ p. p ≡ premises.adding (first ∷ second ∷ [])) }
{
    let mut facts = Items::new(alloc);
    facts.push(first)?;
    facts.push(second)?;
    Ok(Premise::adding(facts))
}

// The premise with this further hypothesis and this goal.
fn assuming(alloc: Global, fact: &Formula, goal: Formula) -> Result<Premise, Memory>
    ensures { IfOk result (λ p. p ≡ spec.assuming fact.now goal) }
{
    let mut premise = adding(alloc, fact)?;
    premise.goal = Some(goal);
    Ok(premise)
}

// ---- rules without premises

// HYP
fn is_goal(goal: &Formula, fact: Option<&Formula>) -> bool
    ensures { result ≡ spec.is_goal goal.now (option_copied fact.entry) }
{
    match fact {
        Some(fact) => equal(fact, goal),
        None => false,
    }
}

// CONTRA
fn is_negation(fact: Option<&Formula>, negation: Option<&Formula>) -> bool
    ensures { result ≡ spec.is_negation (option_copied fact.entry) (option_copied negation.entry) }
{
    let (Some(fact), Some(negation)) = (fact, negation) else {
        return false;
    };
    match &negation.node {
        FormulaNode::Not(operand) => equal(fact, operand),
        _ => false,
    }
}

// REFL
fn is_reflexive(goal: &Formula) -> bool
    ensures { result ≡ spec.is_reflexive goal.now }
{
    match &goal.node {
        FormulaNode::Rel {
            sign: RelSign::Equal | RelSign::Subset,
            left,
            right,
        } => equal_terms(left, right),
        _ => false,
    }
}

// ---- a formula that is given

// CUT
fn cut(alloc: Global, argument: &FormulaArgument) -> Result<Option<Premises>, Memory>
    ensures { IfOk result (λ o. o ≡ spec.cut argument.now) }
{
    match argument {
        FormulaArgument::Formula(formula) => {
            let first = proving(alloc, formula)?;
            two(alloc, first, adding(alloc, formula)?)
        }
        FormulaArgument::Unclear => Ok(None),
    }
}

// CASES
fn cases(alloc: Global, argument: &FormulaArgument) -> Result<Option<Premises>, Memory>
    ensures { IfOk result (λ o. o ≡ spec.cases argument.now) }
{
    match argument {
        FormulaArgument::Formula(formula) => {
            let denied = Formula::not(alloc, formula.copy(alloc)?)?;
            two(alloc, adding(alloc, formula)?, with(alloc, denied)?)
        }
        FormulaArgument::Unclear => Ok(None),
    }
}

// ---- the goal

// ANDR
fn and_right(alloc: Global, goal: &Formula) -> Result<Option<Premises>, Memory>
    ensures { IfOk result (λ o. o ≡ spec.and_right goal.now) }
{
    match &goal.node {
        FormulaNode::And(left, right) => {
            two(alloc, proving(alloc, left)?, proving(alloc, right)?)
        }
        _ => Ok(None),
    }
}

// OR1
fn or_first(alloc: Global, goal: &Formula) -> Result<Option<Premises>, Memory>
    ensures { IfOk result (λ o. o ≡ spec.or_first goal.now) }
{
    match &goal.node {
        FormulaNode::Or(left, _) => one(alloc, proving(alloc, left)?),
        _ => Ok(None),
    }
}

// OR2
fn or_second(alloc: Global, goal: &Formula) -> Result<Option<Premises>, Memory>
    ensures { IfOk result (λ o. o ≡ spec.or_second goal.now) }
{
    match &goal.node {
        FormulaNode::Or(_, right) => one(alloc, proving(alloc, right)?),
        _ => Ok(None),
    }
}

// IMPR
fn implies_right(alloc: Global, goal: &Formula) -> Result<Option<Premises>, Memory>
    ensures { IfOk result (λ o. o ≡ spec.implies_right goal.now) }
{
    match &goal.node {
        FormulaNode::Implies(left, right) => {
            one(alloc, assuming(alloc, left, right.copy(alloc)?)?)
        }
        _ => Ok(None),
    }
}

// NOTR
fn not_right(alloc: Global, goal: &Formula) -> Result<Option<Premises>, Memory>
    ensures { IfOk result (λ o. o ≡ spec.not_right goal.now) }
{
    match &goal.node {
        FormulaNode::Not(operand) => one(alloc, assuming(alloc, operand, Formula::bfalse())?),
        _ => Ok(None),
    }
}

// IFFR
fn iff_right(alloc: Global, goal: &Formula) -> Result<Option<Premises>, Memory>
    ensures { IfOk result (λ o. o ≡ spec.iff_right goal.now) }
{
    match &goal.node {
        FormulaNode::Iff(left, right) => {
            let there = assuming(alloc, left, right.copy(alloc)?)?;
            let back = assuming(alloc, right, left.copy(alloc)?)?;
            two(alloc, there, back)
        }
        _ => Ok(None),
    }
}

// ---- a hypothesis

// ANDL
fn and_left(alloc: Global, fact: Option<&Formula>) -> Result<Option<Premises>, Memory>
    ensures { IfOk result (λ o. o ≡ spec.and_left (option_copied fact.entry)) }
{
    let Some(fact) = fact else {
        return Ok(None);
    };
    match &fact.node {
        FormulaNode::And(left, right) => {
            one(
                alloc,
                with_both(alloc, left.copy(alloc)?, right.copy(alloc)?)?,
            )
        }
        _ => Ok(None),
    }
}

// ORL
fn or_left(alloc: Global, fact: Option<&Formula>) -> Result<Option<Premises>, Memory>
    ensures { IfOk result (λ o. o ≡ spec.or_left (option_copied fact.entry)) }
{
    let Some(fact) = fact else {
        return Ok(None);
    };
    match &fact.node {
        FormulaNode::Or(left, right) => two(alloc, adding(alloc, left)?, adding(alloc, right)?),
        _ => Ok(None),
    }
}

// IMPL
fn implies_left(alloc: Global, fact: Option<&Formula>) -> Result<Option<Premises>, Memory>
    ensures { IfOk result (λ o. o ≡ spec.implies_left (option_copied fact.entry)) }
{
    let Some(fact) = fact else {
        return Ok(None);
    };
    match &fact.node {
        FormulaNode::Implies(left, right) => {
            two(alloc, proving(alloc, left)?, adding(alloc, right)?)
        }
        _ => Ok(None),
    }
}

// IFFL
fn iff_left(alloc: Global, fact: Option<&Formula>) -> Result<Option<Premises>, Memory>
    ensures { IfOk result (λ o. o ≡ spec.iff_left (option_copied fact.entry)) }
{
    let Some(fact) = fact else {
        return Ok(None);
    };
    match &fact.node {
        FormulaNode::Iff(left, right) => {
            let there = Formula::implies(alloc, left.copy(alloc)?, right.copy(alloc)?)?;
            let back = Formula::implies(alloc, right.copy(alloc)?, left.copy(alloc)?)?;
            one(alloc, with_both(alloc, there, back)?)
        }
        _ => Ok(None),
    }
}

// NOTL
fn not_left(alloc: Global, fact: Option<&Formula>) -> Result<Option<Premises>, Memory>
    ensures { IfOk result (λ o. o ≡ spec.not_left (option_copied fact.entry)) }
{
    let Some(fact) = fact else {
        return Ok(None);
    };
    match &fact.node {
        FormulaNode::Not(operand) => one(alloc, proving(alloc, operand)?),
        _ => Ok(None),
    }
}

// ---- booleans

// `t = TRUE` or `t = FALSE`.
fn is_truth(alloc: Global, term: &Term, truth: bool) -> Result<Formula, Memory>
    ensures { IfOk result (λ f. f ≡ spec.is_truth term.now truth) }
{
    Ok(Formula::rel(RelSign::Equal, term.copy(alloc)?, Term::truth(truth)))
}

// BOOLCASES
fn bool_cases(alloc: Global, argument: &TermArgument) -> Result<Option<Premises>, Memory>
    ensures { IfOk result (λ o. o ≡ spec.bool_cases argument.now) }
{
    match argument {
        TermArgument::Term {
            term,
            kind: Kind::Truth,
        } => {
            let first = with(alloc, is_truth(alloc, term, true)?)?;
            let second = with(alloc, is_truth(alloc, term, false)?)?;
            two(alloc, first, second)
        }
        _ => Ok(None),
    }
}

// What it says that the truth value of the formula is this.
fn test_says(alloc: Global, formula: &Formula, truth: bool) -> Result<Formula, Memory>
    ensures { IfOk result (λ f. f ≡ spec.test_says formula.now truth) }
{
    let copy = formula.copy(alloc)?;
    if truth {
        Ok(copy)
    } else {
        Formula::not(alloc, copy)
    }
}

// BOOLR
fn bool_right(alloc: Global, goal: &Formula) -> Result<Option<Premises>, Memory>
    ensures { IfOk result (λ o. o ≡ spec.bool_right goal.now) }
{
    match &goal.node {
        FormulaNode::Rel {
            sign: RelSign::Equal,
            left,
            right,
        } => match (&left.node, &right.node) {
            (TermNode::Bool(formula), TermNode::Truth(truth)) => {
                let says = test_says(alloc, formula, *truth)?;
                one(alloc, Premise::proving(alloc, says))
            }
            _ => Ok(None),
        },
        _ => Ok(None),
    }
}

// BOOLL
fn bool_left(alloc: Global, fact: Option<&Formula>) -> Result<Option<Premises>, Memory>
    ensures { IfOk result (λ o. o ≡ spec.bool_left (option_copied fact.entry)) }
{
    let Some(fact) = fact else {
        return Ok(None);
    };
    match &fact.node {
        FormulaNode::Rel {
            sign: RelSign::Equal,
            left,
            right,
        } => match (&left.node, &right.node) {
            (TermNode::Bool(formula), TermNode::Truth(truth)) => {
                let says = test_says(alloc, formula, *truth)?;
                one(alloc, with(alloc, says)?)
            }
            _ => Ok(None),
        },
        _ => Ok(None),
    }
}

/// The premises of a rule on connectives or booleans, where it applies and its arguments have the kinds that are written with
/// them. None for every other rule.
pub fn logic_premises(
    alloc: Global,
    sets: &SetTable,
    sequent: &SequentRef,
    rule: &Rule,
) -> Result<Option<Premises>, Memory>
    ensures { IfOk result (λ o. o ≡ spec.logic_premises (sizes_of sets.now) rule.now (claim_at sequent.now)) }
{
    let goal = sequent.goal;
    let known = sequent.hypotheses;
    match rule {
        Rule::Hyp { hypothesis: h } => Ok(none_where(alloc, is_goal(goal, hypothesis(known, *h)))),
        Rule::Contra {
            hypothesis: h,
            negation: j,
        } => {
            let contradict = is_negation(hypothesis(known, *h), hypothesis(known, *j));
            Ok(none_where(alloc, contradict))
        }
        Rule::Refl => Ok(none_where(alloc, is_reflexive(goal))),
        Rule::Cut { formula } => cut(alloc, formula),
        Rule::Cases { formula } => cases(alloc, formula),
        Rule::AndR => and_right(alloc, goal),
        Rule::Or1 => or_first(alloc, goal),
        Rule::Or2 => or_second(alloc, goal),
        Rule::ImpR => implies_right(alloc, goal),
        Rule::NotR => not_right(alloc, goal),
        Rule::IffR => iff_right(alloc, goal),
        Rule::AndL { hypothesis: h } => and_left(alloc, hypothesis(known, *h)),
        Rule::OrL { hypothesis: h } => or_left(alloc, hypothesis(known, *h)),
        Rule::ImpL { hypothesis: h } => implies_left(alloc, hypothesis(known, *h)),
        Rule::IffL { hypothesis: h } => iff_left(alloc, hypothesis(known, *h)),
        Rule::NotL { hypothesis: h } => not_left(alloc, hypothesis(known, *h)),
        Rule::BoolCases { term } => bool_cases(alloc, term),
        Rule::BoolR => bool_right(alloc, goal),
        Rule::BoolL { hypothesis: h } => bool_left(alloc, hypothesis(known, *h)),
        _ => Ok(None),
    }
}
