//! How many nodes a tree has as it is read, before it is read.

ghost use Rattle.std.specs.Prelude.{◌≡◌, ◌-◌, ◌^◌, min};
ghost use Rattle.cb_conditions.specs.Steps.{term_nodes_with, formula_nodes_with};
ghost use Rattle.cb_symbolic.specs.Stores.{nodes_of};

use crate::entries::{Entry, name_nodes};
use cb_term::tree::{Formula, FormulaNode, Term, TermNode};

/// How many nodes the term has as it is read. 2^64 - 1 where there are more.
#[cycle(weighing)]
pub fn term_nodes(entries: &[Entry], term: &Term) -> u64
    ensures { result ≡ min (term_nodes_with (nodes_of entries.now) term.now) (2 ^ 64 - 1) }
{
    match &term.node {
        TermNode::Var(name) => name_nodes(entries, name),
        TermNode::Bound(_)
        | TermNode::Num(_)
        | TermNode::Truth(_)
        | TermNode::Elem { .. }
        | TermNode::Elems(_)
        | TermNode::Truths => 1,
        TermNode::Bin { left, right, .. } => term_nodes(entries, left)
            .saturating_add(term_nodes(entries, right))
            .saturating_add(1),
        TermNode::Neg(operand) | TermNode::Card(operand) => {
            term_nodes(entries, operand).saturating_add(1)
        }
        TermNode::Listed(terms) => {
            let mut sum = 0u64;
            for term in terms.as_slice() {
                sum = sum.saturating_add(term_nodes(entries, term));
            }
            sum.saturating_add(1)
        }
        TermNode::Bool(formula) => nodes(entries, formula).saturating_add(1),
    }
}

/// How many nodes the formula has as it is read. 2^64 - 1 where there are more.
#[cycle(weighing)]
pub fn nodes(entries: &[Entry], formula: &Formula) -> u64
    ensures { result ≡ min (formula_nodes_with (nodes_of entries.now) formula.now) (2 ^ 64 - 1) }
{
    match &formula.node {
        FormulaNode::True | FormulaNode::False => 1,
        FormulaNode::Rel { left, right, .. } => term_nodes(entries, left)
            .saturating_add(term_nodes(entries, right))
            .saturating_add(1),
        FormulaNode::Not(operand) => nodes(entries, operand).saturating_add(1),
        FormulaNode::And(left, right)
        | FormulaNode::Or(left, right)
        | FormulaNode::Implies(left, right)
        | FormulaNode::Iff(left, right) => nodes(entries, left)
            .saturating_add(nodes(entries, right))
            .saturating_add(1),
        FormulaNode::Every { body, .. } | FormulaNode::Exist { body, .. } => {
            nodes(entries, body).saturating_add(1)
        }
    }
}
