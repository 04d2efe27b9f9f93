//! The premises of a rule as sequents.

ghost use Rattle.std.specs.Prelude.{◌≡◌, ◌++◌, [], map, IfOk, OnOk};
ghost use Rattle.cb_term.specs.Table.{sizes_of};
ghost use Rattle.cb_seq.specs.Premises.{premise_of, with_opened, or_goal};
ghost use Rattle.cb_seq.specs.Validity.{claim_of};
ghost use Rattle.cb_check.specs.Derives as spec;
ghost use Rattle.cb_check.specs.Told.{claims_told, premises_told};

use crate::premises::{Counts, formulas_nodes, premises as premises_at};
use cb_seq::premise::Premise;
use cb_seq::rule::Rule;
use cb_seq::sequent::Sequent;
use cb_term::Memory;
use cb_term::count::nodes;
use cb_term::kind::Kind;
use cb_term::name::Name;
use cb_term::table::SetTable;
use cb_term::tree::Formula;
use std::alloc::Global;

fn with_names(
    alloc: Global,
    names: &[(Name, Kind)],
    opened: &Option<(Name, Kind)>,
) -> Result<Vec<(Name, Kind)>, Memory>
    ensures { IfOk result (λ v. v.items ≡ with_opened names.now opened.now) }
{
    let mut all = Vec::new(alloc);
    for named in names {
        all.push((named.0.copy(alloc)?, named.1))?;
    }
    if let Some(named) = opened {
        all.push((named.0.copy(alloc)?, named.1))?;
    }
    Ok(all)
}

fn add_copies(alloc: Global, formulas: &[Formula], all: &mut Vec<Formula>) -> Result<(), Memory>
    ensures { OnOk result (all.new.items ≡ all.old.items ++ formulas.now) }
{
    for formula in formulas {
        all.push(formula.copy(alloc)?)?;
    }
    Ok(())
}

fn with_hypotheses(
    alloc: Global,
    hypotheses: &[Formula],
    added: &[Formula],
) -> Result<Vec<Formula>, Memory>
    ensures { IfOk result (λ v. v.items ≡ hypotheses.now ++ added.now) }
{
    let mut all = Vec::new(alloc);
    add_copies(alloc, hypotheses, &mut all)?;
    add_copies(alloc, added, &mut all)?;
    Ok(all)
}

fn goal_of(alloc: Global, goal: &Formula, other: &Option<Formula>) -> Result<Formula, Memory>
    ensures { IfOk result (λ g. g ≡ or_goal goal.now other.now) }
{
    match other {
        Some(goal) => goal.copy(alloc),
        None => goal.copy(alloc),
    }
}

// The premise of the sequent, whole.
fn premise_sequent(alloc: Global, sequent: &Sequent, premise: &Premise) -> Result<Sequent, Memory>
    ensures { IfOk result (λ s. claim_of s ≡ premise_of (claim_of sequent.now) premise.now) }
{
    let hypotheses = with_hypotheses(alloc, &sequent.hypotheses, premise.added.as_slice())?;
    let names = with_names(alloc, &sequent.names, &premise.opened)?;
    let goal = goal_of(alloc, &sequent.goal, &premise.goal)?;
    Ok(Sequent {
        names,
        hypotheses,
        goal,
    })
}

fn premise_sequents(
    alloc: Global,
    sequent: &Sequent,
    premises: &[Premise],
) -> Result<Vec<Sequent>, Memory>
    ensures { IfOk result (λ v. map claim_of v.items ≡ map (premise_of (claim_of sequent.now)) premises.now) }
{
    let mut sequents = Vec::new(alloc);
    for premise in premises {
        sequents.push(premise_sequent(alloc, sequent, premise)?)?;
    }
    Ok(sequents)
}

/// The rule's premises at the sequent, in order, for any number of children. None exactly where the rule doesn't apply: where the
/// sequent hasn't the form that the rule asks for, an argument doesn't fit, or a premise has more than 40,000 nodes.
pub fn premises(
    alloc: Global,
    sets: &SetTable,
    sequent: &Sequent,
    rule: &Rule,
) -> Result<Option<Vec<Sequent>>, Memory>
    ensures { IfOk result (λ o. claims_told o ≡ premises_told (claim_of sequent.now) (spec.premises (sizes_of sets.now) rule.now (claim_of sequent.now))) }
{
    let counts = Counts {
        hypotheses: formulas_nodes(&sequent.hypotheses),
        goal: nodes(&sequent.goal),
    };
    match premises_at(alloc, sets, &sequent.as_ref(), counts, rule)? {
        Some(premises) => Ok(Some(premise_sequents(alloc, sequent, premises.as_slice())?)),
        None => Ok(None),
    }
}
