//! The conjuncts of a formula, each read by itself, within the limit of a sequent.

ghost use Rattle.std.specs.Prelude.{◌≡◌, ◌+◌, ◌-◌, ◌^◌, ◌++◌, ◌∷◌, [], min, IfOk, OnOk, IfErr};
ghost use Rattle.cb_term.specs.Size as size;
ghost use Rattle.cb_wp.specs.Limits.{formulas_nodes};
ghost use Rattle.cb_symbolic.specs.Cuts.{conjuncts_read, IsPast};
ghost use Rattle.cb_symbolic.specs.Stores.{meaning_of, read_opened};

use crate::store::SymStore;
use cb_term::name::Name;
use cb_term::tree::{Formula, FormulaNode};
use cb_wp::limits::{MakeFault, Which};
use sqlite_items::Items;
use std::alloc::Global;

/// Appends the conjuncts of the formula as it is read, with opened names in the places of the variables that are bound outside it.
/// `carried` are the nodes of what stands there before; the answer counts those of all. `Limit(Sequent)` only where they are more
/// than 20,000.
#[tactic(auto, using(cb_wp::proofs::CountLemmas::formulas_append, crate::proofs::LimitLemmas::past_more))]
pub fn add_conjuncts(
    alloc: Global,
    store: &SymStore,
    opened: &[Name],
    carried: u64,
    formula: &Formula,
    into: &mut Items<Formula>,
) -> Result<u64, MakeFault>
    ensures list { OnOk result (into.new ≡ into.old ++ conjuncts_read (meaning_of store.now) opened.now formula.now) }
    ensures nodes { IfOk result (λ n. n ≡ min (carried + formulas_nodes (conjuncts_read (meaning_of store.now) opened.now formula.now)) (2 ^ 64 - 1)) }
    ensures fault { IfErr result (λ e. IsPast e (carried + formulas_nodes (conjuncts_read (meaning_of store.now) opened.now formula.now))) }
{
    match &formula.node {
        FormulaNode::And(left, right) => {
            let carried = add_conjuncts(alloc, store, opened, carried, left, into)?;
            add_conjuncts(alloc, store, opened, carried, right, into)
        }
        FormulaNode::True => Ok(carried),
        FormulaNode::False
        | FormulaNode::Rel { .. }
        | FormulaNode::Not(_)
        | FormulaNode::Or(_, _)
        | FormulaNode::Implies(_, _)
        | FormulaNode::Iff(_, _)
        | FormulaNode::Every { .. }
        | FormulaNode::Exist { .. } => add_conjunct(alloc, store, opened, carried, formula, into),
    }
}

// Appends the formula as it is read.
#[tactic(auto, using(crate::proofs::ReadingLemmas::opened_size))]
fn add_conjunct(
    alloc: Global,
    store: &SymStore,
    opened: &[Name],
    carried: u64,
    formula: &Formula,
    into: &mut Items<Formula>,
) -> Result<u64, MakeFault>
    ensures list { OnOk result (into.new ≡ into.old ++ read_opened (meaning_of store.now) opened.now formula.now ∷ []) }
    ensures nodes { IfOk result (λ n. n ≡ min (carried + size.formula_nodes (read_opened (meaning_of store.now) opened.now formula.now)) (2 ^ 64 - 1)) }
    ensures fault { IfErr result (λ e. IsPast e (carried + size.formula_nodes (read_opened (meaning_of store.now) opened.now formula.now))) }
{
    let carried = carried.saturating_add(store.nodes(formula));
    if carried > 20_000 {
        return Err(MakeFault::Limit(Which::Sequent));
    }
    into.push(store.read_opened(alloc, opened, formula)?)?;
    Ok(carried)
}
