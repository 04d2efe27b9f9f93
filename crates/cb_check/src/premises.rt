//! The premises of a rule, with what is asked of every rule.

ghost use Rattle.std.specs.Prelude.{◌≡◌, nat_le, IfOk};
ghost use Rattle.cb_term.specs.Table.{sizes_of};
ghost use Rattle.cb_term.specs.Tree.{FormulaTree};
ghost use Rattle.cb_term.specs.Size.{formula_nodes};
ghost use Rattle.cb_seq.specs.Premises.{claim_at, premise_of, or_goal};
ghost use Rattle.cb_seq.specs.Validity.{Claim};
ghost use Rattle.cb_check.specs.Derives as spec;
ghost use Rattle.cb_seq.specs.Arguments.{rule_among};
ghost use Rattle.cb_check.specs.Ways.{capped, AreCounts, first_or};

use cb_check_logic::premises::logic_premises;
use cb_check_names::premises::name_premises;
use cb_check_numbers::premises::number_premises;
use cb_check_sets::premises::set_premises;
use cb_seq::among::rule_among as among;
use cb_seq::kinds::arguments_fit;
use cb_seq::premise::{Premise, Premises, SequentRef};
use cb_seq::rule::Rule;
use cb_term::Memory;
use cb_term::count::nodes;
use cb_term::kind::Kind;
use cb_term::name::Name;
use cb_term::table::SetTable;
use cb_term::tree::Formula;
use std::alloc::Global;

/// The most nodes of a premise.
const MOST_NODES: u64 = 40_000;

/// How many nodes the hypotheses and the goal of a sequent have, each 2^64 - 1 where there are more.
#[derive(Clone, Copy)]
pub(crate) struct Counts {
    pub(crate) hypotheses: u64,
    pub(crate) goal: u64,
}

impl Counts {
    /// Those of a premise of the sequent.
    pub(crate) fn of_premise(self, premise: &Premise) -> Counts
        ensures { (q : Claim) → AreCounts self q → AreCounts result (premise_of q premise.now) }
    {
        let added = formulas_nodes(premise.added.as_slice());
        Counts {
            hypotheses: self.hypotheses.saturating_add(added),
            goal: self.of_goal(&premise.goal),
        }
    }

    fn of_goal(self, other: &Option<Formula>) -> u64
        ensures { (g : FormulaTree) → self.goal ≡ capped (formula_nodes g) → result ≡ capped (formula_nodes (or_goal g other.now)) }
    {
        match other {
            Some(goal) => nodes(goal),
            None => self.goal,
        }
    }

    fn are_small(self) -> bool
        ensures { (q : Claim) → AreCounts self q → result ≡ nat_le (spec.claim_nodes q) 40000 }
    {
        self.hypotheses.saturating_add(self.goal) <= MOST_NODES
    }
}

/// How many nodes the formulas have, 2^64 - 1 where there are more.
pub(crate) fn formulas_nodes(formulas: &[Formula]) -> u64
    ensures { result ≡ capped (spec.formulas_nodes formulas.now) }
{
    let mut count = 0u64;
    for formula in formulas {
        count = count.saturating_add(nodes(formula));
    }
    count
}

fn are_small(counts: Counts, premises: &Premises) -> bool
    ensures { (q : Claim) → AreCounts counts q → result ≡ spec.are_small q premises.now }
{
    for premise in premises.as_slice() {
        if !counts.of_premise(premise).are_small() {
            return false;
        }
    }
    true
}

// Each rule is one of connectives, of names, of numbers or of sets.
fn rule_premises(
    alloc: Global,
    sets: &SetTable,
    sequent: &SequentRef,
    rule: &Rule,
) -> Result<Option<Premises>, Memory>
    ensures { IfOk result (λ o. o ≡ spec.rule_premises (sizes_of sets.now) rule.now (claim_at sequent.now)) }
{
    if let Some(premises) = logic_premises(alloc, sets, sequent, rule)? {
        return Ok(Some(premises));
    }
    if let Some(premises) = name_premises(alloc, sets, sequent, rule)? {
        return Ok(Some(premises));
    }
    if let Some(premises) = number_premises(alloc, sets, sequent, rule)? {
        return Ok(Some(premises));
    }
    set_premises(alloc, sets, sequent, rule)
}

// The premises of a rule whose terms are told their kinds.
fn told_premises(
    alloc: Global,
    sets: &SetTable,
    sequent: &SequentRef,
    counts: Counts,
    rule: &Rule,
) -> Result<Option<Premises>, Memory>
    requires { AreCounts counts (claim_at sequent.now) }
    ensures { IfOk result (λ o. o ≡ spec.told_premises (sizes_of sets.now) rule.now (claim_at sequent.now)) }
{
    if !arguments_fit(alloc, sets, sequent.names, rule)? {
        return Ok(None);
    }
    match rule_premises(alloc, sets, sequent, rule)? {
        Some(premises) if are_small(counts, &premises) => Ok(Some(premises)),
        _ => Ok(None),
    }
}

// The rule with the kinds of its terms, where it takes terms.
fn rules_among(
    alloc: Global,
    sets: &SetTable,
    names: &[(Name, Kind)],
    rule: &Rule,
) -> Result<Vec<Rule>, Memory>
    ensures { IfOk result (λ v. first_or rule.now v.items ≡ rule_among (sizes_of sets.now) names.now rule.now) }
{
    let mut rules = Vec::new(alloc);
    if let Some(told) = among(alloc, sets, names, rule)? {
        rules.push(told)?;
    }
    Ok(rules)
}

/// The premises of a rule that is applied to a sequent with these counts. None where it does not apply, where an argument does not
/// fit, and where a premise has more than 40,000 nodes.
pub(crate) fn premises(
    alloc: Global,
    sets: &SetTable,
    sequent: &SequentRef,
    counts: Counts,
    rule: &Rule,
) -> Result<Option<Premises>, Memory>
    requires { AreCounts counts (claim_at sequent.now) }
    ensures { IfOk result (λ o. o ≡ spec.premises (sizes_of sets.now) rule.now (claim_at sequent.now)) }
{
    let rules = rules_among(alloc, sets, sequent.names, rule)?;
    match rules.first() {
        Some(told) => told_premises(alloc, sets, sequent, counts, told),
        None => told_premises(alloc, sets, sequent, counts, rule),
    }
}
