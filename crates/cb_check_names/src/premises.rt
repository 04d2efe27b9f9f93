//! The premises of the rules on quantifiers and equations. Of a sequent a rule copies only the formulas and terms that it names.

ghost use Rattle.std.specs.Prelude.{◌≡◌, IfOk, Some, [], ◌∷◌};
ghost use Rattle.std.specs.Option.{option_copied};
ghost use Rattle.cb_term.specs.Table.{sizes_of};
ghost use Rattle.cb_seq.specs.Arguments as arguments;
ghost use Rattle.cb_seq.specs.Premises.{claim_at, adding};
ghost use Rattle.cb_check_names.specs.NameRules as spec;

use crate::replace::replace_formula;
use cb_seq::kinds::fits;
use cb_seq::premise::{Premise, Premises, SequentRef, fresh, hypothesis};
use cb_seq::rule::{Rule, TermArgument};
use cb_term::Memory;
use cb_term::change::instantiate;
use cb_term::kind::Kind;
use cb_term::name::{Name, NameText};
use cb_term::sign::RelSign;
use cb_term::table::SetTable;
use cb_term::tree::{Formula, FormulaNode, Term};
use sqlite_items::Items;
use std::alloc::Global;

// One premise.
fn one(alloc: Global, premise: Premise) -> Result<Option<Premises>, Memory>
    ensures { IfOk result (λ o. o ≡ Some (premise ∷ [])) }
{
    let mut premises = Items::new(alloc);
    premises.push(premise)?;
    Ok(Some(premises))
}

// The premise with this further hypothesis.
fn with(alloc: Global, fact: Formula) -> Result<Premise, Memory>
    ensures { IfOk result (λ p. p ≡ adding (fact ∷ [])) }
{
    let mut facts = Items::new(alloc);
    facts.push(fact)?;
    Ok(Premise::adding(facts))
}

// ---- quantifiers

fn counts_as(kind: Kind, wanted: Kind) -> bool
    ensures { result ≡ arguments.counts_as kind wanted }
{
    match (kind, wanted) {
        (Kind::EmptySet, Kind::SetOf(_)) => true,
        _ => kind.is_same(wanted),
    }
}

// The premise of ALLR.
fn shown_at(
    alloc: Global,
    body: &Formula,
    kind: Kind,
    name: Option<Name>,
) -> Result<Option<Premises>, Memory>
    ensures { IfOk result (λ o. o ≡ spec.shown_at body.now kind name) }
{
    let Some(name) = name else {
        return Ok(None);
    };
    let variable = Term::var(name.copy(alloc)?);
    let mut premise = Premise::proving(alloc, instantiate(alloc, body, &variable)?);
    premise.opened = Some((name, kind));
    one(alloc, premise)
}

// ALLR
fn all_right(alloc: Global, sequent: &SequentRef) -> Result<Option<Premises>, Memory>
    ensures { IfOk result (λ o. o ≡ spec.all_right sequent.now.names.now sequent.now.goal.now) }
{
    let goal = sequent.goal;
    match &goal.node {
        FormulaNode::Every { name, kind, body } => {
            let name = fresh(alloc, sequent.names, &name.text)?;
            shown_at(alloc, body, *kind, name)
        }
        _ => Ok(None),
    }
}

// EXR
fn exist_right(
    alloc: Global,
    argument: &TermArgument,
    goal: &Formula,
) -> Result<Option<Premises>, Memory>
    ensures { IfOk result (λ o. o ≡ spec.exist_right argument.now goal.now) }
{
    let TermArgument::Term {
        term,
        kind: of_term,
    } = argument
    else {
        return Ok(None);
    };
    match &goal.node {
        FormulaNode::Exist { kind, body, .. } => {
            if counts_as(*of_term, *kind) {
                one(
                    alloc,
                    Premise::proving(alloc, instantiate(alloc, body, term)?),
                )
            } else {
                Ok(None)
            }
        }
        _ => Ok(None),
    }
}

// ALLL
fn all_left(
    alloc: Global,
    argument: &TermArgument,
    fact: Option<&Formula>,
) -> Result<Option<Premises>, Memory>
    ensures { IfOk result (λ o. o ≡ spec.all_left argument.now (option_copied fact.entry)) }
{
    let (
        TermArgument::Term {
            term,
            kind: of_term,
        },
        Some(fact),
    ) = (argument, fact)
    else {
        return Ok(None);
    };
    match &fact.node {
        FormulaNode::Every { kind, body, .. } => {
            if !counts_as(*of_term, *kind) {
                return Ok(None);
            }
            one(alloc, with(alloc, instantiate(alloc, body, term)?)?)
        }
        _ => Ok(None),
    }
}

// The premise of EXL.
fn known_at(
    alloc: Global,
    body: &Formula,
    kind: Kind,
    name: Option<Name>,
) -> Result<Option<Premises>, Memory>
    ensures { IfOk result (λ o. o ≡ spec.known_at body.now kind name) }
{
    let Some(name) = name else {
        return Ok(None);
    };
    let variable = Term::var(name.copy(alloc)?);
    let mut premise = with(alloc, instantiate(alloc, body, &variable)?)?;
    premise.opened = Some((name, kind));
    one(alloc, premise)
}

// EXL
fn exist_left(
    alloc: Global,
    names: &[(Name, Kind)],
    fact: Option<&Formula>,
) -> Result<Option<Premises>, Memory>
    ensures { IfOk result (λ o. o ≡ spec.exist_left names.now (option_copied fact.entry)) }
{
    let Some(fact) = fact else {
        return Ok(None);
    };
    match &fact.node {
        FormulaNode::Exist { name, kind, body } => {
            let name = fresh(alloc, names, &name.text)?;
            known_at(alloc, body, *kind, name)
        }
        _ => Ok(None),
    }
}

// ---- equations

// The premise of EQ, where the changed goal fits.
#[tactic(auto, unfolding(crate::specs::NameRules::shown_changed))]
fn changed_goal(
    alloc: Global,
    sets: &SetTable,
    sequent: &SequentRef,
    old: &Term,
    by: &Term,
) -> Result<Option<Premises>, Memory>
    ensures { IfOk result (λ o. o ≡ spec.shown_changed (sizes_of sets.now) sequent.now.names.now old.now by.now sequent.now.goal.now) }
{
    let goal = replace_formula(alloc, sequent.goal, old, by)?;
    if fits(alloc, sets, sequent.names, &[], &goal)? {
        one(alloc, Premise::proving(alloc, goal))
    } else {
        Ok(None)
    }
}

// EQ
fn equal_right(
    alloc: Global,
    sets: &SetTable,
    sequent: &SequentRef,
    equation: Option<&Formula>,
) -> Result<Option<Premises>, Memory>
    ensures { IfOk result (λ o. o ≡ spec.equal_right (sizes_of sets.now) sequent.now.names.now (option_copied equation.entry) sequent.now.goal.now) }
{
    let Some(equation) = equation else {
        return Ok(None);
    };
    match &equation.node {
        FormulaNode::Rel {
            sign: RelSign::Equal,
            left,
            right,
        } => changed_goal(alloc, sets, sequent, left, right),
        _ => Ok(None),
    }
}

// The premise of EQIN, where the changed hypothesis fits.
#[tactic(auto, unfolding(crate::specs::NameRules::known_changed))]
fn changed_fact(
    alloc: Global,
    sets: &SetTable,
    names: &[(Name, Kind)],
    old: &Term,
    by: &Term,
    fact: &Formula,
) -> Result<Option<Premises>, Memory>
    ensures { IfOk result (λ o. o ≡ spec.known_changed (sizes_of sets.now) names.now old.now by.now fact.now) }
{
    let changed = replace_formula(alloc, fact, old, by)?;
    if fits(alloc, sets, names, &[], &changed)? {
        one(alloc, with(alloc, changed)?)
    } else {
        Ok(None)
    }
}

// EQIN
fn equal_left(
    alloc: Global,
    sets: &SetTable,
    names: &[(Name, Kind)],
    equation: Option<&Formula>,
    fact: Option<&Formula>,
) -> Result<Option<Premises>, Memory>
    ensures { IfOk result (λ o. o ≡ spec.equal_left (sizes_of sets.now) names.now (option_copied equation.entry) (option_copied fact.entry)) }
{
    let (Some(equation), Some(fact)) = (equation, fact) else {
        return Ok(None);
    };
    match &equation.node {
        FormulaNode::Rel {
            sign: RelSign::Equal,
            left,
            right,
        } => changed_fact(alloc, sets, names, left, right, fact),
        _ => Ok(None),
    }
}

/// The premises of a rule on quantifiers or equations, where it applies and its argument has the kind that is written with it.
/// None for every other rule.
pub fn name_premises(
    alloc: Global,
    sets: &SetTable,
    sequent: &SequentRef,
    rule: &Rule,
) -> Result<Option<Premises>, Memory>
    ensures { IfOk result (λ o. o ≡ spec.name_premises (sizes_of sets.now) rule.now (claim_at sequent.now)) }
{
    match rule {
        Rule::AllR => all_right(alloc, sequent),
        Rule::ExR { term } => exist_right(alloc, term, sequent.goal),
        Rule::AllL {
            hypothesis: number,
            term,
        } => all_left(alloc, term, hypothesis(sequent.hypotheses, *number)),
        Rule::ExL { hypothesis: number } => {
            exist_left(
                alloc,
                sequent.names,
                hypothesis(sequent.hypotheses, *number),
            )
        }
        Rule::Eq { equation } => {
            let equation = hypothesis(sequent.hypotheses, *equation);
            equal_right(alloc, sets, sequent, equation)
        }
        Rule::EqIn {
            equation,
            hypothesis: number,
        } => {
            let equation = hypothesis(sequent.hypotheses, *equation);
            let fact = hypothesis(sequent.hypotheses, *number);
            equal_left(alloc, sets, sequent.names, equation, fact)
        }
        _ => Ok(None),
    }
}
