//! Sequents made on the way through a formula, within the limits of a list.

ghost use Rattle.std.specs.Prelude.{◌≡◌, ◌+◌, ◌-◌, ◌^◌, ◌++◌, ◌∷◌, [], min, IfOk, OnOk, IfErr, map};
ghost use Rattle.cb_seq.specs.Validity.{claim_of};
ghost use Rattle.cb_obligations.specs.Pieces as pieces;
ghost use Rattle.cb_obligations.specs.Steps.{Make};
ghost use Rattle.cb_wp.specs.Limits.{claim, formulas_nodes, Counted, Faulted};

use crate::changes::{Freed, put};
use crate::limits::{MakeFault, Used, Which};
use cb_seq::sequent::Sequent;
use cb_term::Memory;
use cb_term::change::change_formula;
use cb_term::count::nodes;
use cb_term::kind::Kind;
use cb_term::name::Name;
use cb_term::tree::{Formula, FormulaNode};
use std::alloc::Global;

/// The formula with opened names in the places of the variables that are bound outside it, the innermost first.
pub fn with_opened(alloc: Global, opened: &[Name], formula: &Formula) -> Result<Formula, Memory>
    ensures { IfOk result (λ f. f ≡ pieces.with_opened opened.now formula.now) }
{
    change_formula(alloc, formula, &Freed { opened }, 0)
}

/// The same names again.
pub fn copy_names(alloc: Global, names: &[(Name, Kind)]) -> Result<Vec<(Name, Kind)>, Memory>
    ensures { IfOk result (λ v. v.items ≡ names.now) }
{
    let mut copies = Vec::new(alloc);
    for named in names {
        let name = named.0.copy(alloc)?;
        put(&mut copies, (name, named.1))?;
    }
    Ok(copies)
}

/// The same formulas again.
pub fn copy_formulas(alloc: Global, formulas: &[Formula]) -> Result<Vec<Formula>, Memory>
    ensures { IfOk result (λ v. v.items ≡ formulas.now) }
{
    let mut copies = Vec::new(alloc);
    for formula in formulas {
        put(&mut copies, formula.copy(alloc)?)?;
    }
    Ok(copies)
}

/// How many nodes the formulas have. 2^64 - 1 where there are more.
pub fn all_nodes(formulas: &[Formula]) -> u64
    ensures { result ≡ min (formulas_nodes formulas.now) (2 ^ 64 - 1) }
{
    let mut sum = 0u64;
    for formula in formulas {
        sum = sum.saturating_add(nodes(formula));
    }
    sum
}

#[tactic(auto, using(crate::proofs::CountLemmas::formulas_append))]
/// Appends the conjuncts of the formula, with the opened names in it. `carried` are the nodes of what stands there before; the
/// answer counts those of all.
pub fn add_conjuncts(
    alloc: Global,
    formula: &Formula,
    opened: &[Name],
    carried: u64,
    into: &mut Vec<Formula>,
) -> Result<u64, Memory>
    ensures list { OnOk result (into.new.items ≡ into.old.items ++ pieces.conjuncts (pieces.with_opened opened.now formula.now)) }
    ensures nodes { IfOk result (λ n. n ≡ min (carried + formulas_nodes (pieces.conjuncts (pieces.with_opened opened.now formula.now))) (2 ^ 64 - 1)) }
{
    match &formula.node {
        FormulaNode::And(left, right) => {
            let carried = add_conjuncts(alloc, left, opened, carried, into)?;
            add_conjuncts(alloc, right, opened, carried, into)
        }
        FormulaNode::True => Ok(carried),
        FormulaNode::False
        | FormulaNode::Rel { .. }
        | FormulaNode::Not(_)
        | FormulaNode::Or(_, _)
        | FormulaNode::Implies(_, _)
        | FormulaNode::Iff(_, _)
        | FormulaNode::Every { .. }
        | FormulaNode::Exist { .. } => {
            let conjunct = with_opened(alloc, opened, formula)?;
            let carried = carried.saturating_add(nodes(&conjunct));
            put(into, conjunct)?;
            Ok(carried)
        }
    }
}

/// The same names and formulas again.
pub fn copy_around(
    alloc: Global,
    names: &[(Name, Kind)],
    hypotheses: &[Formula],
) -> Result<(Vec<(Name, Kind)>, Vec<Formula>), Memory>
    ensures names { IfOk result (λ c. c.0.items ≡ names.now) }
    ensures hypotheses { IfOk result (λ c. c.1.items ≡ hypotheses.now) }
{
    let names = copy_names(alloc, names)?;
    let hypotheses = copy_formulas(alloc, hypotheses)?;
    Ok((names, hypotheses))
}

fn put_sequent(
    alloc: Global,
    names: &[(Name, Kind)],
    hypotheses: &[Formula],
    goal: Formula,
    into: &mut Vec<Sequent>,
) -> Result<(), Memory>
    ensures { OnOk result (map claim_of into.new.items ≡ map claim_of into.old.items ++ claim names.now hypotheses.now goal ∷ []) }
{
    let (names, hypotheses) = copy_around(alloc, names, hypotheses)?;
    put(
        into,
        Sequent {
            names,
            hypotheses,
            goal,
        },
    )
}

// Counts the sequent, whose names don't count, or says which limit is passed.
fn count_sequent(
    hypotheses: &[Formula],
    carried: u64,
    goal: &Formula,
    used: &mut Used,
) -> Result<(), MakeFault>
    requires { carried ≡ min (formulas_nodes hypotheses.now) (2 ^ 64 - 1) }
    ensures counted { OnOk result (Counted used.old used.new (Make (claim [] hypotheses.now goal.now) ∷ [])) }
    ensures fault { IfErr result (λ e. Faulted e used.old (Make (claim [] hypotheses.now goal.now) ∷ [])) }
{
    if used.obligations >= 4096 {
        return Err(MakeFault::Limit(Which::Obligations));
    }
    let size = carried.saturating_add(nodes(goal));
    if size > 20_000 {
        return Err(MakeFault::Limit(Which::Sequent));
    }
    let total = used.nodes.saturating_add(size);
    if total > 4_000_000 {
        return Err(MakeFault::Limit(Which::Nodes));
    }
    used.obligations += 1;
    used.nodes = total;
    Ok(())
}

/// Appends the sequent, or says which limit is passed. `carried` are the nodes of the hypotheses.
pub fn add_sequent(
    alloc: Global,
    names: &[(Name, Kind)],
    hypotheses: &[Formula],
    carried: u64,
    goal: Formula,
    used: &mut Used,
    into: &mut Vec<Sequent>,
) -> Result<(), MakeFault>
    requires { carried ≡ min (formulas_nodes hypotheses.now) (2 ^ 64 - 1) }
    ensures counted { OnOk result (Counted used.old used.new (Make (claim names.now hypotheses.now goal) ∷ [])) }
    ensures list { OnOk result (map claim_of into.new.items ≡ map claim_of into.old.items ++ claim names.now hypotheses.now goal ∷ []) }
    ensures fault { IfErr result (λ e. Faulted e used.old (Make (claim names.now hypotheses.now goal) ∷ [])) }
{
    count_sequent(hypotheses, carried, &goal, used)?;
    put_sequent(alloc, names, hypotheses, goal, into)?;
    Ok(())
}
